//! The tokens and the syntax tree of a model text, and what the language means: the definitions in
//! `specs/` that every contract above cites.
//! Its tests stand in `compile_tests`, and those of trees that are built call by call in `ground_tests`.
#![tactic(auto)]

mod binders;
mod build;
mod chains;
mod constraints;
mod decls;
mod expr;
mod exprs;
mod inits;
mod mentions;
mod name;
mod operators;
mod token;
mod whole;

pub use binders::{Binder, Binders, RangeText};
pub use build::Task;
pub use chains::{Factors, Terms};
pub use constraints::{Cons, ConsList};
pub use decls::{Decl, Decls, Dim, Dims, Dist};
pub use expr::{Expr, Kind};
pub use exprs::Exprs;
pub use inits::{Init, Inits};
pub use name::Name;
pub use operators::{Function, MulOp};
pub use token::{Token, TokenKind};
pub use whole::{Goal, Model};
