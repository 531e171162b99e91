ghost use Rattle.log_rows.specs.LogLaws.{AcceptedLogsAreRight, DepthsAfterEnd, DepthsAfterSplit, DepthsAtFirst, DepthsInAnyOrder, LeavesAreApart, LeavesAreFew, LeavesHavePoints};
ghost use Rattle.log_rows.specs.LogLaws.{LogsAfterEnd, LogsAfterSplit};
ghost use Rattle.log_rows.specs.LogLaws.{LogsAreAccepted, LogsAreSmall, LogsAreTrue, LogsAtFirst, LogsInAnyOrder, LogsWithOpen};

/// A search begins with no row, and the root open.
pub fn logs_at_first()
    ensures law { LogsAtFirst }
{}

/// An open node is finished and not split.
pub fn logs_after_end()
    ensures law { LogsAfterEnd }
{}

/// An open node is split.
pub fn logs_after_split()
    ensures law { LogsAfterSplit }
{}

/// The order of the open nodes is free.
pub fn logs_in_any_order()
    ensures law { LogsInAnyOrder }
{}

/// The open nodes may be written as rows.
pub fn logs_with_open()
    ensures law { LogsWithOpen }
{}

/// The root lies at depth 0.
pub fn depths_at_first()
    ensures law { DepthsAtFirst }
{}

/// A node that is finished lies as deep as when it was open.
pub fn depths_after_end()
    ensures law { DepthsAfterEnd }
{}

/// The sides of a split lie one deeper.
pub fn depths_after_split()
    ensures law { DepthsAfterSplit }
{}

/// The order of the open nodes is free for their depth, too.
pub fn depths_in_any_order()
    ensures law { DepthsInAnyOrder }
{}

/// The rows of a search are an accepted log, whatever it may claim.
pub fn logs_are_accepted()
    ensures law { LogsAreAccepted }
{}

/// What an accepted log claims is true of all points of the root.
pub fn logs_are_true()
    ensures law { LogsAreTrue }
{}

/// The lines of an accepted log are a tree of right lines.
pub fn accepted_logs_are_right()
    ensures law { AcceptedLogsAreRight }
{}

/// A tree of right lines has at most so many nodes as the points of the root allow.
pub fn logs_are_small()
    ensures law { LogsAreSmall }
{}

/// And no more leaves than the root has points.
pub fn leaves_are_few()
    ensures law { LeavesAreFew }
{}

/// The boxes of two nodes that are not split have no point in common.
pub fn leaves_are_apart()
    ensures law { LeavesAreApart }
{}

/// The box of no node is empty.
pub fn leaves_have_points()
    ensures law { LeavesHavePoints }
{}
