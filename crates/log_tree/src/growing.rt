//! The rows of a log while it is read.

ghost use Rattle.std.specs.Prelude.{◌≡◌, ◌≤◌, ◌++◌, ◌∷◌, [], length, IfOk, IfErr, OnOk};
ghost use Rattle.log_rows.specs.Accepted.{greatest_depth};
ghost use Rattle.log_rows.specs.Rows.{Hangs, depth_at};
ghost use Rattle.log_tree.specs.Slots.{SlotsFit};
ghost use Rattle.log_tree.specs.Reads.{ended_row, row_with_steps};
ghost use Rattle.log_tree.specs.Progress.{RefusesNode, IsPlacedNode};

use crate::reading::Heading;
use crate::slots::{Slots, add_slots, depth_in, is_next};
use log_rows::{EndLine, Parent, Row};
use sopl_base::{Fault, Steps, codes, limits};
use std::alloc::{AllocError, Global};

/// The rows that were read, and what is kept of each.
#[derive(Drop)]
pub(crate) struct Growing {
    pub(crate) rows: Vec<Row>,
    pub(crate) slots: Vec<Slots>,
}

impl Growing {
    /// No rows.
    #[tactic(auto, using(crate::proofs::Keeping::keeps_none))]
    pub(crate) fn new(alloc: Global) -> Growing
        ensures none { result.rows.items ≡ [] }
        ensures keeps { SlotsFit result.rows.items result.slots.items }
    {
        Growing {
            rows: Vec::new(alloc),
            slots: Vec::new(alloc),
        }
    }

    /// The depth of a node, where it may be the next one.
    pub(crate) fn placed(&self, heading: &Heading, number: usize) -> Result<u32, Fault>
        requires keeps { SlotsFit self.now.rows.items self.now.slots.items }
        ensures ok { IfOk result (IsPlacedNode self.now.rows.items heading.now) }
        ensures err { IfErr result (RefusesNode self.now.rows.items number heading.now) }
    {
        let slots = self.slots.as_slice();
        if !is_next(slots, heading) {
            return Err(Fault::refused(codes::NODE_PLACE, number));
        }
        let depth = depth_in(slots, &heading.parent);
        if depth > limits::NODE_DEPTH {
            return Err(Fault::refused(codes::NODE_DEPTH, number));
        }
        Ok(depth)
    }

    /// Adds a row.
    pub(crate) fn add(
        &mut self,
        parent: Option<Parent>,
        steps: Steps,
        end: EndLine,
        depth: u32,
    ) -> Result<(), AllocError>
        requires keeps { SlotsFit self.old.rows.items self.old.slots.items }
        requires hangs { Hangs self.old.rows.items (length self.old.rows.items) parent }
        requires depth { depth ≡ depth_at self.old.rows.items parent }
        requires shallow { depth ≤ greatest_depth }
        ensures rows { OnOk result (self.new.rows.items ≡ self.old.rows.items ++ ended_row (row_with_steps parent steps) end ∷ []) }
        ensures keeps { OnOk result (SlotsFit self.new.rows.items self.new.slots.items) }
    {
        add_slots(&mut self.slots, &parent, &end, depth)?;
        self.rows.push(Row { parent, steps, end })?;
        Ok(())
    }
}
