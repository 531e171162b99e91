//! What a text makes known at its constant places, as it is kept: elements of constants, ranges and sets; and numbers, lists of them and tasks.
//! Its tests stand in `compile_tests`.
#![tactic(auto)]

mod borrows;
mod changes;
mod counts;
mod elements;
mod entries;
mod levels;
mod listed;
mod lists;
mod numbers;
mod sets;
mod sizes;
mod table;
mod tasks;

pub use borrows::borrowed;
pub use counts::Count;
pub use elements::Elements;
pub use listed::ConstantElement;
pub use lists::{add, all_distinct, all_true, extreme, some_true, total};
pub use numbers::{applied, compares, is_true, one_or_zero, with_number, within};
pub use sets::{Ends, NumberSet, Numbers};
pub use sizes::{checked_between, checked_count};
pub use table::Table;
pub use tasks::{TaskNumbers, are_within};
