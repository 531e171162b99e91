//! From an unfolded text to its program.

ghost use Rattle.std.specs.Prelude.{◌≡◌, ◌⊎◌, Some, None, map, IfOk, IfErr, OnOk};
ghost use Rattle.compile_laws.specs.Root.{root_box};
ghost use Rattle.compile_laws.specs.Whole.{problem_terms};
ghost use Rattle.compile_laws.specs.Measured.{Measures, measured_excess, measured_terms};
ghost use Rattle.compile_laws.specs.Texts.{program_excess};
ghost use Rattle.sopl_scen.specs.Layout.{IsTreeOf};
ghost use Rattle.compile_scene.specs.Scenes.{root_in};
ghost use Rattle.compile_scene.specs.Works.{IsReady, things_of};
ghost use Rattle.sopl_ast.specs.Cells.{cells};
ghost use Rattle.sopl_ast.specs.Limits.{size_excess, usual_limits};
ghost use Rattle.sopl_ast.specs.References.{now_of};
ghost use Rattle.sopl_base.specs.declared.fault.Excess.{Excess};
ghost use Rattle.sopl_compile.specs.Adding.{Adds, HasWeights, with_chances, with_hards};
ghost use Rattle.sopl_compile.specs.Begun.{bare_terms, direction_of, worst_of};
ghost use Rattle.sopl_compile.specs.Listed.{AreListed};
ghost use Rattle.sopl_compile.specs.Posed.{IsSettingOf, terms_asked};
ghost use Rattle.sopl_term.specs.Built.{asked_direction, asked_worst, problem_built, term_ids};
ghost use Rattle.sopl_unfold.specs.GroundProblem.{ground_problem};
ghost use Rattle.term_nodes.specs.Things.{term_in};
ghost use Rattle.term_program.specs.Programs.{IsMade, problem_in};
ghost use Rattle.term_program.specs.Programs as programs;

use crate::constraints::{add_chances, add_hards};
use crate::objective::terms_of_model;
use crate::start::begun;
use compile_counts::node_excess;
use compile_names::Scenarios;
use compile_scene::Lowering;
use sopl_ast::Expr;
use sopl_base::Fault;
use sopl_scen::Tree;
use sopl_term::{Program, TermId};
use sopl_unfold::Ground;
use std::alloc::Global;

/// Adds the constraints of a problem, hard ones and then chance ones, and gives the terms of its objective.
fn add_all<'a>(
    alloc: Global,
    ground: &'a Ground,
    setting: &Scenarios<'a>,
    conditions: &[&'a Expr],
    work: &mut Lowering,
) -> Result<Vec<TermId>, Fault>
    requires ready { IsReady setting.now work.old }
    requires weights { HasWeights setting.now work.old }
    requires setting { IsSettingOf (ground_problem ground.now) setting.now }
    requires conditions { map now_of conditions.now ≡ (ground_problem ground.now).conditions }
    ensures adds { OnOk result (Adds setting.now work.old work.new
        (with_chances (with_hards (problem_built work.old.builder) (problem_terms (ground_problem ground.now)).hards)
        (problem_terms (ground_problem ground.now)).chances)) }
    ensures listed { IfOk result (λ ids. AreListed term_in (things_of work.new) (term_ids ids.items) (terms_asked (ground_problem ground.now))) }
    ensures measured { Measures (root_in setting.now) (measured_terms (problem_terms (ground_problem ground.now))) result }
{
    add_hards(alloc, setting, conditions, ground.hards(), work)?;
    add_chances(alloc, setting, conditions, ground.chances(), work)?;
    terms_of_model(alloc, setting, ground.typed().model(), work)
}

/// The program of what is begun, with the constraints and the objective of a problem.
fn completed<'a>(
    alloc: Global,
    ground: &'a Ground,
    setting: &Scenarios<'a>,
    conditions: &[&'a Expr],
    work: Lowering,
) -> Result<Program, Fault>
    requires ready { IsReady setting.now work }
    requires setting { IsSettingOf (ground_problem ground.now) setting.now }
    requires conditions { map now_of conditions.now ≡ (ground_problem ground.now).conditions }
    requires within { size_excess usual_limits (ground_problem ground.now) ≡ None }
    requires begun { problem_built work.builder ≡ bare_terms (ground_problem ground.now) }
    requires direction { asked_direction work.builder ≡ direction_of (ground_problem ground.now) }
    requires worst { asked_worst work.builder ≡ worst_of (ground_problem ground.now) }
    ensures made { IfOk result IsMade }
    ensures root { IfOk result (λ program. programs.root_in program ≡ root_in setting.now) }
    ensures problem { IfOk result (λ program. problem_in program ≡ problem_terms (ground_problem ground.now)) }
    ensures allowed { IfOk result (λ program. measured_excess (root_in setting.now) (problem_terms (ground_problem ground.now)) ≡ None) }
    ensures limit { IfErr result (λ fault. (fault ≡ Fault.NoMemory)
        ⊎ ((e : Excess) × (fault ≡ Fault.Limit e) × (measured_excess (root_in setting.now) (problem_terms (ground_problem ground.now)) ≡ Some e))) }
{
    let mut work = work;
    let terms = add_all(alloc, ground, setting, conditions, &mut work)?;
    work.builder.goal(terms.as_slice())
}

/// The program of an unfolded text whose term nodes are few.
fn program_of<'a>(
    alloc: Global,
    ground: &'a Ground,
    conditions: &[&'a Expr],
    tree: &'a Tree,
) -> Result<Program, Fault>
    requires laid_out { IsTreeOf (ground_problem ground.now).decisions (ground_problem ground.now).stochastics tree.now }
    requires conditions { map now_of conditions.now ≡ (ground_problem ground.now).conditions }
    requires within { size_excess usual_limits (ground_problem ground.now) ≡ None }
    ensures made { IfOk result IsMade }
    ensures root { IfOk result (λ program. programs.root_in program ≡ root_box (cells (ground_problem ground.now))) }
    ensures problem { IfOk result (λ program. problem_in program ≡ problem_terms (ground_problem ground.now)) }
    ensures allowed { IfOk result (λ program. measured_excess (root_box (cells (ground_problem ground.now))) (problem_terms (ground_problem ground.now)) ≡ None) }
    ensures limit { IfErr result (λ fault. (fault ≡ Fault.NoMemory)
        ⊎ ((e : Excess) × (fault ≡ Fault.Limit e) × (measured_excess (root_box (cells (ground_problem ground.now))) (problem_terms (ground_problem ground.now))
        ≡ Some e))) }
{
    let setting = Scenarios::of(
        alloc,
        ground.table(),
        ground.stochs(),
        ground.decisions(),
        tree,
    )?;
    let work = begun(alloc, ground, &setting)?;
    completed(alloc, ground, &setting, conditions, work)
}

/// The program of an unfolded text and the tree of its scenarios; or the first limit that its terms pass: their nodes (206), which are counted before anything
/// is made of them, then the first size of a
/// term that is too large (207), in hard constraints, in chance constraints and then in the objective, and at last the size of an expected objective (207).
pub fn compile(alloc: Global, ground: &Ground, tree: &Tree) -> Result<Program, Fault>
    requires laid_out { IsTreeOf (ground_problem ground.now).decisions (ground_problem ground.now).stochastics tree.now }
    requires within { size_excess usual_limits (ground_problem ground.now) ≡ None }
    ensures made { IfOk result IsMade }
    ensures root { IfOk result (λ program. programs.root_in program ≡ root_box (cells (ground_problem ground.now))) }
    ensures problem { IfOk result (λ program. problem_in program ≡ problem_terms (ground_problem ground.now)) }
    ensures allowed { IfOk result (λ program. program_excess (ground_problem ground.now) ≡ None) }
    ensures limit { IfErr result (λ fault. (fault ≡ Fault.NoMemory)
        ⊎ ((e : Excess) × (fault ≡ Fault.Limit e) × (program_excess (ground_problem ground.now) ≡ Some e))) }
{
    let conditions = ground.conditions(alloc)?;
    match node_excess(alloc, ground, conditions.as_slice(), tree)? {
        Some(excess) => Err(Fault::Limit(excess)),
        None => program_of(alloc, ground, conditions.as_slice(), tree),
    }
}
