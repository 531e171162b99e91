//! The codes of refusals (101 to 117), of limits (201 to 209), of bytes that are no log (301 to 303) and of bytes that are no policy (401 to 403). A refusal
//! tells the place of the first mistake, a limit what was counted.

/// The text is longer than a text may be.
pub const TEXT_LENGTH: u16 = 101;

/// No token, space or comment begins at the place.
pub const TOKEN: u16 = 102;

/// The token opens one bracket or prefix operator too many.
pub const DEPTH: u16 = 103;

/// The tokens spell no model.
pub const SYNTAX: u16 = 104;

/// The name is used and not known.
pub const UNKNOWN: u16 = 105;

/// The name is declared or bound, and known already.
pub const TWICE: u16 = 106;

/// The name or the expression is of the wrong kind.
pub const KIND: u16 = 107;

/// The number of indices or of brackets is wrong.
pub const DIMENSIONS: u16 = 108;

/// A variable stands where a constant is asked for.
pub const NOT_CONSTANT: u16 = 109;

/// The expression in a constant place has no value.
pub const UNDEFINED: u16 = 110;

/// The domain has no value.
pub const EMPTY_DOMAIN: u16 = 111;

/// The bracket has another number of parts than its index set has elements.
pub const BRACKET_LENGTH: u16 = 112;

/// The value stands earlier in its distribution, or the weight is below 1.
pub const OUTCOME: u16 = 113;

/// The stage is not 1 to 24.
pub const STAGE: u16 = 114;

/// The threshold is no fraction from 0 to 1, or has too great a denominator.
pub const THRESHOLD: u16 = 115;

/// The literal is too large.
pub const LITERAL: u16 = 116;

/// The form is of the language, and is not solved yet; no form of today's language is.
pub const NOT_YET: u16 = 117;

/// All scenarios weigh too much together.
pub const WEIGHT: u16 = 201;

/// There are too many scenarios.
pub const SCENARIOS: u16 = 202;

/// The domain has too many values.
pub const DOMAIN: u16 = 203;

/// The decisions of all histories have too many bits.
pub const BITS: u16 = 204;

/// The text unfolds to too much.
pub const UNFOLDING: u16 = 205;

/// The program has too many term nodes.
pub const TERM_NODES: u16 = 206;

/// A term or the expected objective may be too large.
pub const TERM_SIZE: u16 = 207;

/// The range or the set has too many numbers.
pub const NUMBERS: u16 = 208;

/// There are too many instances times scenarios.
pub const COPIES: u16 = 209;

/// The line is none that a log has in its place, or is missing.
pub const LOG_LINE: u16 = 301;

/// The node is not the next one, or hangs at no side that is free.
pub const NODE_PLACE: u16 = 302;

/// The node lies too deep.
pub const NODE_DEPTH: u16 = 303;

/// The bytes are no JSON.
pub const POLICY_JSON: u16 = 401;

/// A node has not the form that is printed.
pub const POLICY_SHAPE: u16 = 402;

/// A value lies outside its domain.
pub const POLICY_VALUE: u16 = 403;
