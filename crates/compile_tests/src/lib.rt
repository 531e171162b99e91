//! Tests of what stands between a text and its problem in terms: the trees of texts and the places where none is spelled, how texts are
//! typed and what they unfold to, the places of binders, and counts of nodes.
#![tactic(auto)]

#[cfg(test)]
mod compile_counts_nodes;
#[cfg(test)]
mod compile_counts_places;
#[cfg(test)]
mod compile_names_arrays;
#[cfg(test)]
mod instances;
#[cfg(test)]
mod parse_exprs_texts;
#[cfg(test)]
mod printed;
#[cfg(test)]
mod rows;
#[cfg(test)]
mod sopl_ast_lists;
#[cfg(test)]
mod sopl_parse_models;
#[cfg(test)]
mod sopl_parse_nesting;
#[cfg(test)]
mod sopl_parse_texts;
#[cfg(test)]
mod sopl_types_mistakes;
#[cfg(test)]
mod sopl_unfold_texts;
#[cfg(test)]
mod unfold_constants_divisors;
#[cfg(test)]
mod unfold_tables_elements;
