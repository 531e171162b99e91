//! What is told of a policy.

/// That a policy satisfies, with its value and the sums of all chance constraints; or what fails first.
#[derive(Debug, Drop)]
pub enum Report {
    /// The policy satisfies: the numerator of its value, and for each chance constraint the weight of the scenarios in which it is true.
    Satisfied { value: i128, chances: Vec<i128> },
    /// The first instance of a hard constraint that is false in some scenario, and the first such scenario.
    Hard { instance: u32, scenario: u32 },
    /// The first instance of a chance constraint that is not reached, and the weight of the scenarios in which it is true.
    Chance { instance: u32, sum: i128 },
    /// The first scenario in which the objective is undefined.
    Objective { scenario: u32 },
}
