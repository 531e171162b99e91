//! The whole answer, scenario by scenario, so that no value for all of it is made.

ghost use Rattle.std.specs.Prelude.{◌≡◌, ◌<◌, ◌^◌, ◌++◌, length, map, nat_lt, IsTrue, IfOk, OnOk, string_bytes};
ghost use Rattle.std.specs.List.{list_all, AllByRecursion};
ghost use Rattle.serde_json.specs.Written.{comma_if, compact_text};
ghost use Rattle.sopl_ast.specs.Instances.{Stochastic};
ghost use Rattle.sopl_ast.specs.Pieces.{is_word};
ghost use Rattle.unfold_laws.specs.Bounds.{IsBoundedDecision};
ghost use Rattle.sopl_scen.specs.Layout.{IsTreeOf, count_in};
ghost use Rattle.answer_lines.specs.Answer.{tree_data};
ghost use Rattle.answer_lines.specs.Shown.{shown};

use crate::prefix::prefix;
use crate::scenes::scene_text;
use policy_json::greatest_stage;
use sopl_scen::Tree;
use std::alloc::{AllocError, Global};
use unfold_variables::{DecisionItem, StochItem};

/// Adds a scenario, behind a comma where it is not the first.
fn add_scene(
    alloc: Global,
    text: &mut String,
    stochs: &[StochItem],
    tree: &Tree,
    scenario: u32,
) -> Result<(), AllocError>
    requires names { IsTrue (list_all is_word (map (λ (s : Stochastic). s.name) stochs.now)) }
    requires few { length stochs.now < 2 ^ 32 }
    requires variables { tree.now.variables ≡ length stochs.now }
    requires exists { scenario < count_in tree.now }
    ensures { OnOk result (string_bytes text.new ≡ string_bytes text.old ++ (comma_if (nat_lt 0 scenario) ++ compact_text (shown stochs.now tree.now scenario))) }
{
    let scene = scene_text(alloc, stochs, tree, scenario)?;
    if scenario > 0 {
        text.push(',')?;
    }
    text.push_str(scene.as_str())
}

/// The text of the answer `tree` of decisions and stochastic variables, with their tree.
pub fn tree_text(
    alloc: Global,
    decisions: &[DecisionItem],
    stochs: &[StochItem],
    tree: &Tree,
) -> Result<String, AllocError>
    requires bounded { AllByRecursion IsBoundedDecision decisions.now }
    requires names { IsTrue (list_all is_word (map (λ (s : Stochastic). s.name) stochs.now)) }
    requires few { length stochs.now < 2 ^ 32 }
    requires tree { IsTreeOf decisions.now stochs.now tree.now }
    ensures text { IfOk result (λ text. string_bytes text ≡ compact_text (tree_data decisions.now stochs.now)) }
{
    let mut text = prefix(alloc, tree, greatest_stage(decisions))?;
    'scenarios: for scenario in 0..tree.count() {
        add_scene(alloc, &mut text, stochs, tree, scenario)?;
    }
    text.push_str("]}")?;
    Ok(text)
}
