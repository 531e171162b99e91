//! The laws, as the contracts of empty functions.

ghost use Rattle.compile_laws.specs.Laws.{InstancesMean, PlacesAgree};
ghost use Rattle.compile_laws.specs.Repeating.{InstancesRepeat};
ghost use Rattle.compile_laws.specs.Root.{PointsOfBox, RootIsBox};
ghost use Rattle.compile_laws.specs.Stands.{ArraysStand, ScenariosAreWhole};
ghost use Rattle.compile_laws.specs.Tables.{InstancesAreProper, ProblemsAreProper, TablesAreSound, TablesHaveSets};
ghost use Rattle.compile_laws.specs.WellMade.{ProblemsAreWellMade, TextsAreLawful, UnbeatenIsOptimal, UnreachedIsInfeasible};
ghost use Rattle.compile_laws.specs.WholeLaws.{BestIsOptimal, CellsAreNumbered, NoneIsInfeasible, NumbersAreOne, ProblemsMean, SatisfyingHasValue, TextsAreArrays, ValuesAreSame};

/// What the term of an expression is worth at a point is what the policy of the point makes of the expression; and a condition's
/// truth likewise. It does nothing when it runs.
pub fn instances_mean()
    ensures law { InstancesMean }
{}

/// An expression is the same in two scenarios in which the first variables have the same values, where all that stands in it follows
/// from these. It does nothing when it runs.
pub fn instances_repeat()
    ensures law { InstancesRepeat }
{}

/// Where a problem's expressions are instantiated in a scenario, and where they are evaluated under the policy of a point, decisions
/// have the same values. It does nothing when it runs.
pub fn places_agree()
    ensures law { PlacesAgree }
{}

/// In a text that has no mistake and is unfolded whole, the elements of each name are those of an array; and each scenario gives each
/// stochastic variable a value. It does nothing when it runs.
pub fn arrays_stand()
    ensures law { ArraysStand }
    ensures whole { ScenariosAreWhole }
    ensures texts { TextsAreArrays }
{}

/// The array of elements has index sets that ascend, an item for each index, and no index twice; where the elements have all indices
/// of some sets, it has these sets. So all arrays in terms are as the rules on boxes ask for. It does nothing when it runs.
pub fn tables_are_sound()
    ensures law { TablesAreSound }
    ensures sets { TablesHaveSets }
    ensures instances { InstancesAreProper }
    ensures problems { ProblemsAreProper }
{}

/// The decisions of a problem have their cells in each scenario, at the numbers that earlier decisions and the scenario's history
/// give, and at no others. It does nothing when it runs.
pub fn cells_are_numbered()
    ensures law { CellsAreNumbered }
    ensures one { NumbersAreOne }
{}

/// The points of the box of all domains are those of the cells; in a text that is unfolded whole it is a box. It does nothing when it
/// runs.
pub fn points_of_box()
    ensures law { PointsOfBox }
    ensures root { RootIsBox }
{}

/// A point of a problem's cells satisfies the problem in terms exactly where the policy of the point satisfies the problem, and is
/// worth the same, over the same denominator. A point that satisfies is worth something. It does nothing when it runs.
pub fn problems_mean()
    ensures law { ProblemsMean }
    ensures values { ValuesAreSame }
    ensures worth { SatisfyingHasValue }
{}

/// The policy of a best point of a problem in terms is optimal, and where no point satisfies, the problem is infeasible. It does
/// nothing when it runs.
pub fn best_is_optimal()
    ensures optimal { BestIsOptimal }
    ensures infeasible { NoneIsInfeasible }
{}

/// The problem in terms of a text that was read and is unfolded whole is well made; so it is lawful over the box of all points, and a
/// search may go by what closes a box. It does nothing when it runs.
pub fn problems_are_well_made()
    ensures law { ProblemsAreWellMade }
    ensures lawful { TextsAreLawful }
{}

/// In a text that was read, has no mistake and is unfolded whole, the policy of a point that satisfies, and that no point of the box
/// beats, is optimal; and where no point satisfies, no policy does. It does nothing when it runs.
pub fn searches_find_policies()
    ensures optimal { UnbeatenIsOptimal }
    ensures infeasible { UnreachedIsInfeasible }
{}
