ghost use Rattle.std.specs.Prelude.{◌≡◌, ◌≢◌, ℕ, ℤ, List};
ghost use Rattle.sopl_base.specs.Better.{IsBetter};
ghost use Rattle.sopl_base.specs.declared.direction.Direction.TheVariants.{Nothing};
ghost use Rattle.sopl_ast.specs.Instances.{Binding, Problem};
ghost use Rattle.sopl_ast.specs.Scenarios.{Scenario};
ghost use Rattle.sopl_ast.specs.Policies.{Policy};
ghost use Rattle.sopl_ast.specs.Meanings.{decided_value};
ghost use Rattle.sopl_ast.specs.Optimal.{place_in, numerator, direction_of, IsOptimal};
ghost use Rattle.policy_tree.specs.Seen.{IsSeenAlike};

/// All optimal policies of a problem are worth the same.
pub fn value_is_one()
    ensures neither { (problem : Problem) (a b : Policy) (x y : ℤ)
        → IsOptimal problem a x → IsOptimal problem b y
        → ¬ IsBetter (direction_of problem) x y }
    ensures value { (problem : Problem) (a b : Policy) (x y : ℤ)
        → direction_of problem ≢ Nothing
        → IsOptimal problem a x → IsOptimal problem b y → x ≡ y }
    ensures numerator { (problem : Problem) (a b : Policy) (x y : ℤ)
        → direction_of problem ≢ Nothing
        → IsOptimal problem a x → IsOptimal problem b y
        → numerator problem a ≡ numerator problem b }
{}

/// A policy gives a decision the same value in scenarios that look the same when it is chosen.
pub fn history_shares()
    ensures shares { (problem : Problem) (policy : Policy) (bound : List Binding)
        (name : List ℕ) (index : List ℤ) (s t : Scenario)
        → IsSeenAlike problem name index s t
        → decided_value name index (place_in problem policy bound s)
        ≡ decided_value name index (place_in problem policy bound t) }
{}
