ghost use Rattle.std.specs.Prelude.{◌≡◌, pos, negsuc, map, Some};
ghost use Rattle.sopl_ast.specs.Cells.{Cell, cells};
ghost use Rattle.sopl_ast.specs.Optimal.{IsInfeasible};
ghost use Rattle.policy_tree.specs.WorkedOptima.{ordering, ordering_keys, ordering_worth, guessing};

/// The cells and some values of `ordering`, and that `guessing` has no policy that satisfies.
/// `negsuc 1` is -2.
pub fn worked_values()
    ensures keys { map (λ (cell : Cell). cell.key) (cells ordering) ≡ ordering_keys }
    ensures mixed { ordering_worth (pos 3) (pos 1) (pos 3) ≡ Some (negsuc 1) }
    ensures zeros { ordering_worth (pos 0) (pos 0) (pos 0) ≡ Some (pos 0) }
    ensures ones { ordering_worth (pos 1) (pos 1) (pos 1) ≡ Some (pos 2) }
    ensures infeasible { IsInfeasible guessing }
{}
