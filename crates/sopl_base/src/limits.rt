//! The limits of a text, each the greatest number that is allowed.

/// The bytes of a text.
pub const TEXT_BYTES: usize = 1_048_576;

/// A literal.
pub const LITERAL: u64 = 1 << 40;

/// The brackets and prefixes that are open at once.
pub const OPENINGS: usize = 64;

/// The size of a constant.
pub const CONSTANT_SIZE: u128 = 1 << 40;

/// The numbers of a range, a set or a domain.
pub const NUMBERS: i128 = 65_536;

/// The things that are counted as a text is unfolded.
pub const UNFOLDED: u32 = 262_144;

/// The stage of a variable.
pub const STAGE: u32 = 24;

/// The denominator of a threshold.
pub const DENOMINATOR: i64 = 1_048_576;

/// The weight of all scenarios: two to the power of 100.
pub const WEIGHT: i128 = 1 << 100;

/// The scenarios of a text.
pub const SCENARIOS: i128 = 16_384;

/// The bits of the decisions of all histories.
pub const BITS: i128 = 1_024;

/// The instances of constraints times the scenarios.
pub const COPIES: i128 = 1_048_576;

/// The term nodes of a program.
pub const TERM_NODES: i128 = 4_194_304;

/// The size of a term.
pub const TERM_SIZE: u128 = 1 << 40;

/// The size of an expected objective.
pub const GOAL_SIZE: i128 = 1 << 126;

/// The depth of a node of a log.
pub const NODE_DEPTH: u32 = 2_048;
