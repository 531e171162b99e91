//! Tests of numbers, and of intervals over boxes: the elements of arrays, windows that intervals lie in, terms that differ, tasks that fit, and
//! the ends of objectives.
#![tactic(auto)]

#[cfg(test)]
mod sopl_base_numbers;
#[cfg(test)]
mod term_goals_objectives;
#[cfg(test)]
mod term_math_arrays;
#[cfg(test)]
mod term_windows_conditions;
