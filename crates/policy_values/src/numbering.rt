//! Variables are entered in a table under their numbers.

ghost use Rattle.std.specs.Prelude.{◌≡◌, ◌∷◌, ◌++◌, [], pos, IfOk, OnOk};
ghost use Rattle.unfold_tables.specs.Tables.{table_known};
ghost use Rattle.policy_values.specs.Listing.{entered};

use sopl_ast::Name;
use std::alloc::{AllocError, Global};
use std::mem;
use unfold_tables::{Elements, Table};

/// A table whose constants are the numbers of variables, and the variables of one name that are not in it yet.
#[derive(Drop)]
pub(crate) struct Numbering<'a> {
    alloc: Global,
    table: Table,
    name: &'a Name,
    run: Elements,
}

impl<'a> Numbering<'a> {
    /// No variables, where the first one has this name; it takes no memory.
    pub(crate) fn new(alloc: Global, name: &'a Name) -> Numbering<'a>
        ensures none { entered result ≡ [] }
    {
        Numbering {
            alloc,
            table: Table::new(alloc),
            name,
            run: Elements::new(alloc),
        }
    }

    /// Enters the number of a variable behind the others.
    pub(crate) fn add(
        &mut self,
        name: &'a Name,
        index: &[i64],
        number: u32,
    ) -> Result<(), AllocError>
        ensures added { OnOk result (entered self.new ≡ entered self.old ++ (record { name = name.now; index = index.now; value = pos number }) ∷ []) }
    {
        if !self.name.is(name) {
            self.turn(name)?;
            return self.push(index, number);
        }
        self.push(index, number)
    }

    /// Enters the number of a variable of the name that is at work.
    #[tactic(auto, using(crate::proofs::Numbered::pushed))]
    fn push(&mut self, index: &[i64], number: u32) -> Result<(), AllocError>
        ensures added { OnOk result (entered self.new ≡ entered self.old ++ (record { name = self.old.name.now; index = index.now; value = pos number }) ∷ []) }
    {
        self.run.push(index, i64::from(number))?;
        Ok(())
    }

    /// Goes on to another name.
    fn turn(&mut self, name: &'a Name) -> Result<(), AllocError>
        ensures kept { OnOk result (entered self.new ≡ entered self.old) }
        ensures name { OnOk result (self.new.name.now ≡ name.now) }
    {
        let run = mem::replace(&mut self.run, Elements::new(self.alloc));
        self.table.add_constant(self.name, run)?;
        self.name = name;
        Ok(())
    }

    /// The table of all that were entered.
    pub(crate) fn finish(self) -> Result<Table, AllocError>
        ensures all { IfOk result (λ table. (table_known table).constants ≡ entered self.entry) }
    {
        let Numbering {
            alloc: _,
            mut table,
            name,
            run,
        } = self;
        table.add_constant(name, run)?;
        Ok(table)
    }
}
