//! Tests of branch and bound over problems that are made by hand: the store of a box, propagators that come to rest, the nodes that seats take,
//! the ends that a walk makes again, branchers, and searches with their logs.
#![tactic(auto)]

#[cfg(test)]
mod box_store_marks;
#[cfg(test)]
mod brancher_choices;
#[cfg(test)]
mod open_nodes_seats;
#[cfg(test)]
mod open_nodes_ways;
#[cfg(test)]
mod prop_core_rest;
#[cfg(test)]
mod small_problem;
#[cfg(test)]
mod sopl_search_runs;
