//! What holds of pieces that are gathered one behind another.

ghost use Rattle.sopl_io.specs.GatherLaws.{FailsBehind, FlushesAll, GatheredFollow, GathersBoth};

/// What a sink took and what is kept are what they were, with the bytes behind them.
#[tactic(auto, using(crate::proofs::Gathering::gathered_follow))]
pub fn gathered_follow()
    ensures law { GatheredFollow }
{}

/// Two pieces are gathered as one.
#[tactic(auto, using(crate::proofs::Gathering::gathered_both))]
pub fn gathers_both()
    ensures law { GathersBoth }
{}

/// Where the second piece fails, the sink has a prefix of both.
pub fn fails_behind()
    ensures law { FailsBehind }
{}

/// A flush writes all that was gathered.
#[tactic(auto, using(crate::proofs::Gathering::flushed_all))]
pub fn flushes_all()
    ensures law { FlushesAll }
{}
