//! What is printed of a policy is read as that policy.

ghost use Rattle.policy_read.specs.Printed.{AcceptedAreRead, AcceptedAreReadable, PrintedIsRead, PrintsInForm, PolicyTextsAreRead, ReadIsThere};

/// The outermost node that is printed of a point's policy is read as that point, where the problem comes by stage, and its indices and
/// values are whole numbers of 64 signed bits; and so is each text whose JSON has this node as its member `policy`, whatever else it has.
/// No node of it differs from the form's, also where values lie outside their domains.
pub fn printed_is_read()
    ensures node { PrintedIsRead }
    ensures text { PolicyTextsAreRead }
    ensures form { PrintsInForm }
{}

/// The indices of an accepted text, the values of its stochastic variables and those of its points are whole numbers of 64 signed bits, and so what is printed
/// of a policy of it is read as that policy.
pub fn accepted_are_read()
    ensures readable { AcceptedAreReadable }
    ensures read { AcceptedAreRead }
{}

/// A text that is read as a point has, member by member, what is printed of the policy of this point: each node, what is decided at it, and each branch with what
/// it has seen. Members may stand in any order, and others may stand beside them.
pub fn read_is_there()
    ensures law { ReadIsThere }
{}
