//! Tests of the parts of a ground problem, call by call: tokens, trees that are built by hand, what declarations and constraints unfold to,
//! the tree of scenarios, the names and the plans of arrays, and the places of binders.
#![tactic(auto)]

#[cfg(test)]
mod compile_counts_places;
#[cfg(test)]
mod compile_names_numbers;
#[cfg(test)]
mod compile_names_plans;
#[cfg(test)]
mod sopl_ast_trees;
#[cfg(test)]
mod sopl_lex_tokens;
#[cfg(test)]
mod sopl_scen_trees;
#[cfg(test)]
mod unfold_constraints_instances;
#[cfg(test)]
mod unfold_variables_declared;
