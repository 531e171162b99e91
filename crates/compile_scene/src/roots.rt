//! The domains of cells, which are the roots of a program over them.

ghost use Rattle.std.specs.Prelude.{◌≡◌, IfOk};
ghost use Rattle.std.specs.List.{AllByRecursion};
ghost use Rattle.box_problem.specs.Box.{box_of};
ghost use Rattle.sopl_term.specs.Built.{IsNear};
ghost use Rattle.unfold_laws.specs.Bounds.{IsBoundedDecision};
ghost use Rattle.compile_scene.specs.Scenes.{IsLaid, root_in};

use compile_names::Scenarios;
use sopl_base::Interval;
use sopl_scen::domains;
use std::alloc::{AllocError, Global};

/// The domains of the cells of a setting, by decision and then by the number of the history: they make the box of all points.
pub fn cell_domains(alloc: Global, setting: &Scenarios<'_>) -> Result<Vec<Interval>, AllocError>
    requires laid_out { IsLaid setting.now }
    requires bounded { AllByRecursion IsBoundedDecision setting.now.decisions.now }
    ensures root { IfOk result (λ domains. box_of domains.items ≡ root_in setting.now) }
    ensures near { IfOk result (λ domains. AllByRecursion IsNear domains.items) }
{
    domains(alloc, setting.decisions, setting.tree)
}
