//! Tests of terms and of what is made of them: the store and the builder over a small root box, what is refused for its size, long chains
//! of operations, what closes boxes, and the ends of objectives.
#![tactic(auto)]

mod boxes;
#[cfg(test)]
mod chain_tests;
#[cfg(test)]
mod tests;

pub use boxes::add_root;
