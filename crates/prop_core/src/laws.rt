//! What follows for reasons that look at some cells alone.

ghost use Rattle.prop_core.specs.Watches.{RestsAlike};

/// On boxes that agree on these cells they rest alike. It does nothing when it runs.
pub fn rests_alike()
    ensures law { RestsAlike }
{}
