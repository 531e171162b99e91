//! What the declarations of a text state, one after the other.

ghost use Rattle.std.specs.Prelude.{◌≡◌, ◌++◌, IfOk, OnOk, OnErr, option_map};
ghost use Rattle.sopl_ast.specs.Arrays.{array_events};
ghost use Rattle.sopl_ast.specs.Declarations.{nothing_declared, behind, behind_all, declaration_events, declarations_events, domain_events, outcome_events};
ghost use Rattle.sopl_ast.specs.Declarations.{stage_events, decisions_of, stochastics_of};
ghost use Rattle.sopl_ast.specs.Decls.{declaration};
ghost use Rattle.unfold_tables.specs.Walks.{Walks};
ghost use Rattle.sopl_unfold.specs.Shown.{declared_in};

use sopl_ast::{Decl, Decls};
use sopl_base::Fault;
use std::alloc::{AllocError, Global};
use unfold_declarations::{declare_constant, declare_range, declare_set};
use unfold_tables::{Count, Table};
use unfold_variables::{DecisionItem, StochItem, decisions, stochastics};

/// The constants, ranges and sets of declarations, their decisions, and their stochastic variables, each in text order.
#[derive(Drop)]
pub(crate) struct Declared {
    pub(crate) table: Table,
    pub(crate) decisions: Vec<DecisionItem>,
    pub(crate) stochs: Vec<StochItem>,
}

impl Declared {
    /// Nothing was declared; it takes no memory.
    fn new(alloc: Global) -> Declared
        ensures { declared_in result ≡ nothing_declared }
    {
        Declared {
            table: Table::new(alloc),
            decisions: Vec::new(alloc),
            stochs: Vec::new(alloc),
        }
    }

    /// Adds what a declaration states.
    fn declare(&mut self, alloc: Global, count: &mut Count, decl: &Decl) -> Result<(), Fault>
        ensures met { Walks count.old.counted count.new.counted (declaration_events (declared_in self.old) (declaration decl.now)) result }
        ensures behind { OnOk result (declared_in self.new ≡ behind (declaration decl.now) (declared_in self.old)) }
    {
        match decl {
            Decl::Int {
                name,
                at: _,
                dims,
                init,
            } => declare_constant(alloc, &mut self.table, count, name, dims.as_slice(), init),
            Decl::Range {
                name,
                at: _,
                lo,
                hi,
            } => declare_range(alloc, &mut self.table, count, name, lo, hi),
            Decl::Set {
                name,
                at: _,
                elements,
            } => declare_set(alloc, &mut self.table, count, name, elements.as_slice()),
            Decl::Dvar {
                name,
                at: _,
                dims,
                range,
                stage,
            } => {
                let (table, dims, stage) = (&self.table, dims.as_slice(), stage.as_ref());
                let found = decisions(alloc, table, count, name, dims, range, stage)?;
                self.add_decisions(found)?;
                Ok(())
            }
            Decl::Stoch {
                name,
                at: _,
                dims,
                dist,
                stage,
            } => {
                let (table, dims, stage) = (&self.table, dims.as_slice(), stage.as_ref());
                let found = stochastics(alloc, table, count, name, dims, dist.as_slice(), stage)?;
                self.add_stochastics(found)?;
                Ok(())
            }
        }
    }

    /// Adds decisions at the end.
    fn add_decisions(&mut self, found: Vec<DecisionItem>) -> Result<(), AllocError>
        ensures { OnOk result (declared_in self.new ≡ record (declared_in self.old) { decisions = (declared_in self.old).decisions ++ found.items }) }
    {
        let mut found = found;
        self.decisions.append(&mut found)?;
        Ok(())
    }

    /// Adds stochastic variables at the end.
    fn add_stochastics(&mut self, found: Vec<StochItem>) -> Result<(), AllocError>
        ensures { OnOk result (declared_in self.new ≡ record (declared_in self.old) { stochastics = (declared_in self.old).stochastics ++ found.items }) }
    {
        let mut found = found;
        self.stochs.append(&mut found)?;
        Ok(())
    }
}

/// What declarations state.
pub(crate) fn declare_all(
    alloc: Global,
    count: &mut Count,
    decls: &Decls,
) -> Result<Declared, Fault>
    ensures met { Walks count.old.counted count.new.counted (declarations_events nothing_declared decls.now) result }
    ensures behind { IfOk result (λ found. declared_in found ≡ behind_all decls.now nothing_declared) }
{
    let mut found = Declared::new(alloc);
    'decls: for decl in decls.as_slice() {
        found.declare(alloc, count, decl)?;
    }
    Ok(found)
}
