//! Names of binders that take their values one after the other, the innermost fastest.

ghost use Rattle.std.specs.Prelude.{◌≡◌, [], ◌∷◌, length, IfOk, OnOk, if◌then◌else◌, Some, None};
ghost use Rattle.unfold_tables.specs.Tables.{shown};
ghost use Rattle.unfold_constants.specs.Choosing.{Among, advanced, give_name, leave_name, left, open_in};
ghost use Rattle.unfold_constants.specs.Here.{known_in};

use crate::constant_scope::ConstantScope;
use sopl_ast::Name;
use std::alloc::AllocError;
use unfold_tables::Numbers;

/// A name that is open, and the numbers that it has not had yet.
#[derive(Clone, Copy)]
pub struct OpenBinder<'a> {
    name: &'a Name,
    left: Numbers<'a>,
}

/// Names that are open, and what is known where all of them but perhaps the innermost have taken a number. However many there are, there is no recursion for them.
#[derive(Drop)]
pub struct BinderWalk<'a> {
    pub here: ConstantScope<'a>,
    open: Vec<OpenBinder<'a>>,
}

impl<'a> BinderWalk<'a> {
    /// Where no name is open, and so many are to be.
    pub fn new(known: &ConstantScope<'a>, names: usize) -> Result<BinderWalk<'a>, AllocError>
        ensures here { IfOk result (λ choices. known_in choices.here ≡ known_in known.now) }
        ensures opened { IfOk result (λ choices. open_in choices ≡ []) }
    {
        Ok(BinderWalk {
            here: known.copy_for(names)?,
            open: Vec::new(known.alloc),
        })
    }

    /// How many names are open.
    pub fn depth(&self) -> usize
        ensures { result ≡ length (open_in self.now) }
    {
        self.open.len()
    }

    /// Opens a name inside the others, which is to take these numbers in turn.
    pub fn open(&mut self, name: &'a Name, left: &Numbers<'a>) -> Result<(), AllocError>
        ensures here { OnOk result (known_in self.new.here ≡ known_in self.old.here) }
        ensures opened { OnOk result (open_in self.new ≡ Among name.now (shown left.now) ∷ open_in self.old) }
    {
        self.open.push(OpenBinder { name, left: *left })?;
        Ok(())
    }

    /// The innermost name, if one is open, gives its number up.
    pub fn leave(&mut self)
        ensures here { known_in self.new.here ≡ left leave_name (known_in self.old.here) (open_in self.old) }
        ensures opened { open_in self.new ≡ open_in self.old }
    {
        if !self.open.is_empty() {
            self.here.forget();
        }
    }

    /// Gives the innermost name that has a number left the next one, and closes those inside it, which have none; false where no name has one left.
    pub fn advance(&mut self) -> Result<bool, AllocError>
        ensures { IfOk result (λ more. (if more then Some (known_in self.new.here, open_in self.new) else None) ≡ advanced give_name leave_name (known_in self.old.here) (open_in self.old)) }
    {
        'open: while let Some(choice) = self.open.pop() {
            if let Some((number, later)) = choice.left.split_first() {
                self.open(choice.name, &later)?;
                self.here.bind(choice.name, number)?;
                return Ok(true);
            }
            self.leave();
        }
        Ok(false)
    }
}
