//! The commands of the program.

/// How much is told of what a search found.
#[derive(Clone, Copy, Debug, PartialEq, Eq)]
pub enum Detail {
    /// The policy with its value, and the bound of a search that was cut short.
    Full,
    /// The numbers of cells and scenarios, what came of the search, and the value.
    Summary,
}

/// What is asked for of a model's text.
#[derive(Clone, Copy, Debug, PartialEq, Eq)]
pub enum Command {
    /// The best policy, and what is told of it.
    Solve(Detail),
    /// The scenarios, with their weights and the numbers of their histories.
    Tree,
}
