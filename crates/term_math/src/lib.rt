//! Intervals, marks, truths and linear forms as they are computed, each as its definition says: of sums and products, of quotients,
//! remainders and sizes, of the least and the greatest of several, and of the elements of an array.
//! Its tests stand in `interval_tests` and in `term_tests`.
#![tactic(auto)]

mod absolute;
mod arrays;
mod ascending;
mod combinations;
mod divisions;
mod elements;
mod ends;
mod forms;
mod lookups;
mod marks;
mod measures;
mod operations;
mod ranges;
mod tables;
mod values;
mod views;

pub use absolute::sizes;
pub use combinations::{Combination, WideCoefficient, WideForm, scaled};
pub use divisions::{quotients, remainders};
pub use elements::Element;
pub use ends::{Ends, Factor};
pub use forms::{Coefficient, Form};
pub use marks::{
    all_compare, and_truth, both, compared, judged, none_compares, opposite, or_truth, truth_ends,
};
pub use measures::{times_weight, weight_of, weight_of_times};
pub use operations::{made, taken};
pub use ranges::{Indices, Ranges, covered};
pub use sopl_base::Extreme;
pub use tables::Table;
pub use term_language::{Divisor, Operation};
pub use values::{AbstractValue, factor};
pub use views::{BoxView, Part};
