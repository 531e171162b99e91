//! Where the next node of a log may hang.

ghost use Rattle.std.specs.Prelude.{◌≡◌, true, ℕ, ◌<◌, ◌≤◌, ◌++◌, ◌∷◌, [], length, IfOk, OnOk};
ghost use Rattle.log_rows.specs.Accepted.{greatest_depth};
ghost use Rattle.log_tree.specs.Slots as spec;
ghost use Rattle.log_tree.specs.Slots.{AllShallow, SlotsFit};

use crate::reading::Heading;
use log_rows::{EndLine, Parent};
use sopl_base::Side;
use std::alloc::AllocError;

/// Which sides of a row may still be taken, and its depth.
#[derive(Clone, Copy)]
pub(crate) struct Slots {
    pub(crate) low: bool,
    pub(crate) high: bool,
    pub(crate) depth: u32,
}

impl Slots {
    /// Whether a side may still be taken.
    fn is_free(&self, side: Side) -> bool
        ensures { result ≡ spec.is_free self.now side }
    {
        match side {
            Side::Le => self.low,
            Side::Ge => self.high,
        }
    }

    /// These slots with a side taken.
    fn taken(&self, side: Side) -> Slots
        ensures { result ≡ spec.taken self.now side }
    {
        match side {
            Side::Le => Slots {
                low: false,
                high: self.high,
                depth: self.depth,
            },
            Side::Ge => Slots {
                low: self.low,
                high: false,
                depth: self.depth,
            },
        }
    }

    /// Those of a row with this end.
    pub(crate) fn of(end: &EndLine, depth: u32) -> Slots
        ensures { result ≡ spec.new_slots end.now depth }
    {
        let split = is_split(end);
        Slots {
            low: split,
            high: split,
            depth,
        }
    }
}

/// Whether an end is a split.
fn is_split(end: &EndLine) -> bool
    ensures { result ≡ spec.is_split end.now }
{
    match end {
        EndLine::Refuted(_) => false,
        EndLine::Split(_) => true,
        EndLine::Point => false,
        EndLine::Unfinished => false,
    }
}

/// Whether a side of a row may be taken.
fn free_at(slots: &[Slots], parent: &Parent) -> bool
    ensures { result ≡ spec.free_at slots.now parent.now }
{
    if parent.node >= slots.len() as u64 {
        return false;
    }
    slots[parent.node as usize].is_free(parent.side)
}

/// Whether a node of this parent may be the next one.
fn may_hang(slots: &[Slots], parent: &Option<Parent>) -> bool
    ensures { result ≡ spec.may_hang slots.now parent.now }
{
    match parent {
        None => slots.is_empty(),
        Some(split) => free_at(slots, split),
    }
}

/// Whether this node may be the next one.
pub(crate) fn is_next(slots: &[Slots], heading: &Heading) -> bool
    ensures { result ≡ spec.is_next slots.now heading.now }
{
    if heading.number != slots.len() as u64 {
        return false;
    }
    may_hang(slots, &heading.parent)
}

/// The depth of a node of this parent.
pub(crate) fn depth_in(slots: &[Slots], parent: &Option<Parent>) -> u32
    requires hangs { spec.may_hang slots.now parent.now ≡ true }
    requires shallow { AllShallow slots.now }
    ensures { result ≡ spec.depth_in slots.now parent.now }
{
    match parent {
        None => 0,
        Some(split) => slots[split.node as usize].depth + 1,
    }
}

/// Takes a side.
pub(crate) fn take(slots: &mut Vec<Slots>, parent: &Option<Parent>)
    requires hangs { spec.may_hang slots.old.items parent.now ≡ true }
    ensures { slots.new.items ≡ spec.with_taken slots.old.items parent.now }
{
    match parent {
        None => (),
        Some(split) => {
            let at = split.node as usize;
            let free = slots[at];
            slots[at] = free.taken(split.side);
        }
    }
}

/// Takes a side and adds those of a new row.
pub(crate) fn add_slots(
    slots: &mut Vec<Slots>,
    parent: &Option<Parent>,
    end: &EndLine,
    depth: u32,
) -> Result<(), AllocError>
    requires hangs { spec.may_hang slots.old.items parent.now ≡ true }
    ensures { OnOk result (slots.new.items ≡ spec.with_taken slots.old.items parent.now ++ spec.new_slots end.now depth ∷ []) }
{
    take(slots, parent);
    slots.push(Slots::of(end, depth))?;
    Ok(())
}
