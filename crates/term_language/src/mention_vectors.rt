//! What a few terms and conditions mention.

ghost use Rattle.std.specs.Prelude.{◌≡◌, pos, [], ◌∷◌, map};
ghost use Rattle.sopl_base.specs.declared.comparison.CmpOp.TheVariants.{Lt};
ghost use Rattle.term_language.specs.Terms.{AllDifferent, Any, Compare, Cumulative, Element, Implies, Not, Number, Product, condition, no_cond};
ghost use Rattle.term_language.specs.WorkedIntervals.{box, cells, least, difference, number, one, price_at, sum, three, two, two_tasks, x, y, z};
ghost use Rattle.term_language.specs.Mentions.{cond_mentions, mentions};

/// x, y and z are the cells 0, 1 and 2, each from 0 to 9. What cancels and what is multiplied by 0 is mentioned. Of an array of x and y at
/// 0 and 1 are mentioned: y at 1; both at 7, which is no index, and at z; and x at a sum that is 0.
pub fn worked_mentions()
    ensures operations { map (mentions (box (pos 0) (pos 9) (pos 0) (pos 9) (pos 0) (pos 9)))
        (number 3 ∷ x ∷ difference x x ∷ Product (number 0) (Product z y) ∷ least z (two x y) ∷ Number (Compare Lt y z) ∷ [])
        ≡ [] ∷ (0 ∷ []) ∷ (0 ∷ 0 ∷ []) ∷ (2 ∷ 1 ∷ []) ∷ (2 ∷ 0 ∷ 1 ∷ []) ∷ (1 ∷ 2 ∷ []) ∷ [] }
    ensures elements { map (mentions (box (pos 0) (pos 9) (pos 0) (pos 9) (pos 0) (pos 9)))
        (Element cells (one (number 1)) ∷ Element cells (one (number 7)) ∷ Element cells (one z) ∷ Element cells (one (sum (difference z z) (number 0))) ∷ price_at y ∷ [])
        ≡ (1 ∷ []) ∷ (0 ∷ 1 ∷ []) ∷ (0 ∷ 1 ∷ 2 ∷ []) ∷ (0 ∷ 2 ∷ 2 ∷ []) ∷ (1 ∷ []) ∷ [] }
    ensures conditions { map (cond_mentions (box (pos 0) (pos 9) (pos 0) (pos 9) (pos 0) (pos 9)))
        (Any no_cond ∷ Implies (Compare Lt z z) (Not (Compare Lt x (number 1))) ∷ Any (condition (Compare Lt y x) no_cond) ∷ AllDifferent (three z x y) ∷ Cumulative (two_tasks (pos 2) (pos 2)) z ∷ [])
        ≡ [] ∷ (2 ∷ 2 ∷ 0 ∷ []) ∷ (1 ∷ 0 ∷ []) ∷ (2 ∷ 0 ∷ 1 ∷ []) ∷ (0 ∷ 1 ∷ 2 ∷ []) ∷ [] }
{}
