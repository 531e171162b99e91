//! The objective's term in each scenario.

ghost use Rattle.std.specs.Prelude.{◌≡◌, IfOk, OnOk, None};
ghost use Rattle.std.specs.List.{flat_map};
ghost use Rattle.compile_laws.specs.Measured.{Measures};
ghost use Rattle.compile_laws.specs.Subterms.{subterms};
ghost use Rattle.compile_scene.specs.Scenes.{root_in};
ghost use Rattle.compile_scene.specs.Works.{Extends, IsReady, things_of};
ghost use Rattle.sopl_ast.specs.UnfoldEvents.{expression_events};
ghost use Rattle.sopl_ast.specs.Unfolding.{problem_of, text_events};
ghost use Rattle.sopl_ast.specs.WholeModel.{whole};
ghost use Rattle.sopl_compile.specs.Listed.{AreListed, terms_in};
ghost use Rattle.sopl_compile.specs.Posed.{IsSettingOf, terms_asked};
ghost use Rattle.sopl_term.specs.Built.{term_ids};
ghost use Rattle.term_nodes.specs.Things.{term_in};
ghost use Rattle.unfold_laws.specs.Passing.{NothingFails};
ghost use Rattle.unfold_tables.specs.Tables.{table_known};

use crate::scenarios::terms_of;
use compile_names::Scenarios;
use compile_scene::Lowering;
use sopl_ast::{Goal, Model};
use sopl_base::Fault;
use sopl_term::TermId;
use std::alloc::Global;
use unfold_constants::ConstantScope;

/// The terms of an objective, one for each scenario.
fn goal_terms<'a>(
    alloc: Global,
    setting: &Scenarios<'a>,
    goal: &'a Goal,
    work: &mut Lowering,
) -> Result<Vec<TermId>, Fault>
    requires ready { IsReady setting.now work.old }
    requires passes { NothingFails (expression_events (table_known setting.now.table.now) goal.now.expr) }
    ensures extends { OnOk result (Extends setting.now work.old work.new) }
    ensures listed { IfOk result (λ ids. AreListed term_in (things_of work.new) (term_ids ids.items) (terms_in setting.now (table_known setting.now.table.now) goal.now.expr)) }
    ensures measured { Measures (root_in setting.now) (flat_map subterms (terms_in setting.now (table_known setting.now.table.now) goal.now.expr)) result }
{
    let known = ConstantScope::new(alloc, setting.table);
    terms_of(alloc, setting, &known, work, &goal.expr)
}

/// The terms of a model's objective, one for each scenario; none where it has no objective.
pub(crate) fn terms_of_model<'a>(
    alloc: Global,
    setting: &Scenarios<'a>,
    model: &'a Model,
    work: &mut Lowering,
) -> Result<Vec<TermId>, Fault>
    requires ready { IsReady setting.now work.old }
    requires setting { IsSettingOf (problem_of (whole model.now)) setting.now }
    requires passes { NothingFails (text_events (whole model.now)) }
    ensures extends { OnOk result (Extends setting.now work.old work.new) }
    ensures listed { IfOk result (λ ids. AreListed term_in (things_of work.new) (term_ids ids.items) (terms_asked (problem_of (whole model.now)))) }
    ensures measured { Measures (root_in setting.now) (flat_map subterms (terms_asked (problem_of (whole model.now)))) result }
{
    match &model.goal {
        None => Ok(Vec::new(alloc)),
        Some(goal) => goal_terms(alloc, setting, goal, work),
    }
}
