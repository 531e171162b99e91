//! What the reasons of a small problem mention.

ghost use Rattle.std.specs.Prelude.{◌≡◌, [], ◌∷◌, map, None};
ghost use Rattle.sopl_base.specs.declared.reason.Reason.TheVariants.{Hard, Chance, Undefined, Bound};
ghost use Rattle.term_problem.specs.WorkedProgram.{all_orders, ordering, with_goal};
ghost use Rattle.term_problem.specs.Reasons.{reason_mentions};

/// x, y and z are the cells 0, 1 and 2: y, and z, is sold in a scenario, and no more than x. What is not there mentions nothing, nor does
/// an objective that is not there.
pub fn worked_reason_mentions()
    ensures all { map (reason_mentions all_orders ordering) (Hard 0 0 ∷ Hard 0 1 ∷ Chance 0 ∷ Undefined 0 ∷ Undefined 1 ∷ Bound ∷ [])
        ≡ (1 ∷ 0 ∷ []) ∷ (2 ∷ 0 ∷ []) ∷ (1 ∷ 2 ∷ []) ∷ (1 ∷ 0 ∷ []) ∷ (2 ∷ 0 ∷ []) ∷ (1 ∷ 0 ∷ 2 ∷ 0 ∷ []) ∷ [] }
    ensures not_there { map (reason_mentions all_orders ordering) (Hard 1 0 ∷ Hard 0 2 ∷ Chance 1 ∷ Undefined 2 ∷ []) ≡ [] ∷ [] ∷ [] ∷ [] ∷ [] }
    ensures without { map (reason_mentions all_orders (with_goal None)) (Undefined 0 ∷ Bound ∷ []) ≡ [] ∷ [] ∷ [] }
{}
