//! Which scenarios have the term or the condition of an expression that the one before them has.

ghost use Rattle.std.specs.Prelude.{◌≡◌, ◌≤◌, ◌<◌, ◌^◌, false, true, drop, length, IfSome, Some};
ghost use Rattle.std.specs.List.{AllByRecursion};
ghost use Rattle.compile_laws.specs.Repeating.{IsBy, IsPast};
ghost use Rattle.compile_scene.specs.Scenes.{IsLaid};
ghost use Rattle.sopl_ast.specs.Mentions.{mentions};
ghost use Rattle.sopl_compile.specs.Repeats.{DoRepeat, FollowsFrom, Repeats};
ghost use Rattle.sopl_scen.specs.Layout.{count_in};

use compile_names::Scenarios;
use compile_scene::NumberedScenario;
use sopl_ast::Expr;
use sopl_scen::Tree;
use unfold_variables::{DecisionItem, StochItem};

/// Of more stochastic variables than this, most of which have one value alone, it is not asked which ones an expression needs.
const MOST_VARIABLES: usize = 64;

/// The greatest stage of a decision that stands in an expression; 0 where none does.
fn last_stage(decisions: &[DecisionItem], e: &Expr) -> u32
    ensures by { IsBy e.now result decisions.now }
{
    let mut stage = 0;
    'decisions: for j in (0..decisions.len()).rev() {
        stage = later_stage(&decisions[j], e, stage);
    }
    stage
}

/// The stage of a decision if it is later and the decision stands in an expression.
fn later_stage(decision: &DecisionItem, e: &Expr, stage: u32) -> u32
    ensures later { stage ≤ result }
    ensures by { mentions decision.now.name e.now ≡ true → decision.now.stage ≤ result }
{
    if decision.stage > stage && e.mentions(&decision.name) {
        decision.stage
    } else {
        stage
    }
}

/// Whether a variable stands in an expression or is seen before a stage.
fn is_needed(stoch: &StochItem, stage: u32, e: &Expr) -> bool
    ensures past { result ≡ false → IsPast e.now stage stoch.now }
{
    stoch.stage < stage || e.mentions(&stoch.name)
}

/// How many variables come first, up to the last one that stands in an expression or is seen before a stage.
fn needed(stochs: &[StochItem], stage: u32, e: &Expr) -> u32
    requires few { length stochs.now < 2 ^ 32 }
    ensures past { AllByRecursion (IsPast e.now stage) (drop result stochs.now) }
    ensures few { result ≤ length stochs.now }
{
    'variables: for j in (0..stochs.len()).rev() {
        if is_needed(&stochs[j], stage, e) {
            return j as u32 + 1;
        }
    }
    0
}

/// From how many first variables all follows that stands in an expression; none where more names would be sought than there are scenarios.
pub(crate) fn variables_in(setting: &Scenarios<'_>, e: &Expr) -> Option<u32>
    ensures follows { IfSome result (FollowsFrom setting.now e.now) }
{
    let (variables, decisions) = (setting.stochs.len(), setting.decisions.len());
    if variables > MOST_VARIABLES || variables + decisions > setting.tree.count() as usize {
        return None;
    }
    let stage = last_stage(setting.decisions, e);
    Some(needed(setting.stochs, stage, e))
}

/// Whether so many first variables have the values that they have in the scenario before this one.
fn has_same_values(tree: &Tree, variables: u32, scenario: u32) -> bool
    requires drawn { variables ≤ tree.now.variables }
    requires later { 1 ≤ scenario }
    requires exists { scenario < count_in tree.now }
    ensures repeats { result ≡ true → Repeats tree.now variables scenario }
{
    'variables: for j in (0..variables).rev() {
        if tree.value(j, scenario) != tree.value(j, scenario - 1) {
            return false;
        }
    }
    true
}

/// What the scenario before this one has, if the first variables, so many as an expression needs, have the same values in both.
pub(crate) fn repeated<T: Copy>(
    scene: &NumberedScenario<'_, '_>,
    variables: Option<u32>,
    before: Option<T>,
) -> Option<T>
    requires laid_out { IsLaid scene.now.setting.now }
    requires exists { scene.now.scenario < count_in scene.now.setting.now.tree.now }
    requires few { IfSome variables (λ count. count ≤ length scene.now.setting.now.stochs.now) }
    requires later { IfSome before (λ id. 1 ≤ scene.now.scenario) }
    ensures same { IfSome result (λ id. before ≡ Some id) }
    ensures repeats { IfSome result (λ id. DoRepeat scene.now.setting.now.tree.now variables scene.now.scenario) }
{
    let count = variables?;
    let id = before?;
    if !has_same_values(scene.setting.tree, count, scene.scenario) {
        return None;
    }
    Some(id)
}
