//! Numbers of term nodes.

ghost use Rattle.std.specs.Prelude.{◌≡◌, ◌+◌, ◌*◌, ℕ, pos, [], ◌∷◌};
ghost use Rattle.sopl_base.specs.declared.codes.TheConstants as codes;
ghost use Rattle.sopl_ast.specs.Limits.{first_above, usual_limits};
ghost use Rattle.compile_counts.specs.Counted.{capped};

use sopl_base::{Excess, codes, limits};

/// A number of term nodes; past 2^127 - 1 it is that.
#[derive(Clone, Copy)]
pub(crate) struct Nodes {
    count: i128,
}

impl Nodes {
    /// No node.
    pub(crate) fn none() -> Nodes
        ensures none { result.count ≡ capped 0 }
    {
        Nodes { count: 0 }
    }

    /// The node of a name, a literal or an operator.
    pub(crate) fn one() -> Nodes
        ensures one { result.count ≡ capped 1 }
    {
        Nodes { count: 1 }
    }

    /// The nodes of both.
    pub(crate) fn plus(self, other: Nodes) -> Nodes
        ensures both { (a b : ℕ) → self.count ≡ capped a → other.count ≡ capped b → result.count ≡ capped (a + b) }
    {
        Nodes {
            count: self.count.saturating_add(other.count),
        }
    }

    /// These nodes and that of the operator over them.
    pub(crate) fn with_operator(self) -> Nodes
        ensures both { (a : ℕ) → self.count ≡ capped a → result.count ≡ capped (1 + a) }
    {
        Nodes::one().plus(self)
    }

    /// These nodes in each of so many scenarios.
    pub(crate) fn times(self, scenarios: u32) -> Nodes
        ensures all { (a : ℕ) → self.count ≡ capped a → result.count ≡ capped (scenarios * a) }
    {
        Nodes {
            count: self.count.saturating_mul(i128::from(scenarios)),
        }
    }

    /// The limit that they pass, if there are too many.
    pub(crate) fn excess(self) -> Option<Excess>
        ensures excess { (a : ℕ) → self.count ≡ capped a → result ≡ first_above codes.TERM_NODES usual_limits.nodes (pos a ∷ []) }
    {
        if self.count <= limits::TERM_NODES {
            return None;
        }
        Some(Excess {
            code: codes::TERM_NODES,
            counted: self.count,
            limit: limits::TERM_NODES,
        })
    }
}
