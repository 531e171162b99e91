//! Nodes: a term or a condition, whose operands are nodes before it.

ghost use Rattle.std.specs.Prelude.{◌≡◌};
ghost use Rattle.term_nodes.specs.Operands.{left_in};

use sopl_base::CmpOp;
use term_math::{Extreme, Form, Operation, Table};

/// A part of a sum, and whether it is subtracted.
#[derive(Clone, Copy, Debug, PartialEq, Eq)]
pub struct Signed {
    pub subtracted: bool,
    pub term: u32,
}

/// A task, by the numbers of its start, its length and its demand.
#[derive(Clone, Copy, Debug, PartialEq, Eq)]
pub struct Task {
    pub start: u32,
    pub duration: u32,
    pub demand: u32,
}

/// A comparison, and the linear form of the left operand minus the right one.
#[derive(Drop)]
pub struct Comparison {
    pub op: CmpOp,
    pub left: u32,
    pub right: u32,
    pub form: Form,
}

/// A term, a condition or an array, by the numbers of its operands.
#[derive(Drop)]
pub enum Node {
    Constant(i64),
    Cell(u32),
    Sum(Vec<Signed>),
    Product(u32, u32),
    Operation(Operation, u32),
    Extreme(Extreme, u32, Vec<u32>),
    Element(u32, Vec<u32>),
    Number(u32),
    Compare(Comparison),
    Not(u32),
    All(Vec<u32>),
    Any(Vec<u32>),
    Implies(u32, u32),
    AllDifferent(Vec<u32>),
    Cumulative(Vec<Task>, u32),
    Table(Table),
}

impl Node {
    /// The left operand of a product, and the operand of what is made of one number.
    pub fn left(&self) -> Option<u32>
        ensures { result ≡ left_in self.now }
    {
        match self {
            Node::Product(a, _) => Some(*a),
            Node::Operation(_, a) => Some(*a),
            Node::Constant(_) => None,
            Node::Cell(_) => None,
            Node::Sum(_) => None,
            Node::Extreme(_, _, _) => None,
            Node::Element(_, _) => None,
            Node::Number(_) => None,
            Node::Compare(_) => None,
            Node::Not(_) => None,
            Node::All(_) => None,
            Node::Any(_) => None,
            Node::Implies(_, _) => None,
            Node::AllDifferent(_) => None,
            Node::Cumulative(_, _) => None,
            Node::Table(_) => None,
        }
    }
}
