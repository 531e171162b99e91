//! The domains of cells.

ghost use Rattle.std.specs.Prelude.{◌≡◌, ◌≤ℤ◌, ◌++◌, All, List, map, replicate, IfOk, OnOk};
ghost use Rattle.std.specs.List.{AllByRecursion};
ghost use Rattle.sopl_ast.specs.Instances.{Decision, Stochastic};
ghost use Rattle.unfold_laws.specs.Bounds.{IsBoundedDecision, IsStage};
ghost use Rattle.sopl_scen.specs.Domains.{cell_ends, decision_ends, domains_in, ends_of};
ghost use Rattle.sopl_scen.specs.Layout.{IsTreeOf, cells_for};

use crate::tree::Tree;
use sopl_base::Interval;
use std::alloc::{AllocError, Global};
use unfold_variables::DecisionItem;

/// The domains of the cells of a tree, by decision and then by the number of the history.
pub fn domains(
    alloc: Global,
    decisions: &[DecisionItem],
    tree: &Tree,
) -> Result<Vec<Interval>, AllocError>
    requires bounded { AllByRecursion IsBoundedDecision decisions.now }
    ensures cells { IfOk result (λ domains. (stochastics : List Stochastic) → IsTreeOf decisions.now stochastics tree.now
        → map ends_of domains.items ≡ map cell_ends (cells_for decisions.now stochastics)) }
{
    laid_domains(alloc, decisions, tree)
}

/// The domain of each decision, once for each history of its stage.
fn laid_domains(
    alloc: Global,
    decisions: &[DecisionItem],
    tree: &Tree,
) -> Result<Vec<Interval>, AllocError>
    requires ordered { All (λ (d : Decision). d.lo ≤ℤ d.hi) decisions.now }
    requires staged { All (λ (d : Decision). IsStage d.stage) decisions.now }
    ensures { IfOk result (λ domains. map ends_of domains.items ≡ domains_in tree.now decisions.now) }
{
    let mut domains = Vec::new(alloc);
    'decisions: for decision in decisions {
        let count = tree.histories(decision.stage);
        add_domains(&mut domains, domain_of(decision), count)?;
    }
    Ok(domains)
}

/// Adds a domain so many times.
#[tactic(auto, using(crate::proofs::DomainSteps::one_more, crate::proofs::DomainSteps::none_yet))]
fn add_domains(domains: &mut Vec<Interval>, domain: Interval, count: u32) -> Result<(), AllocError>
    ensures { OnOk result (map ends_of domains.new.items ≡ map ends_of domains.old.items ++ replicate count (ends_of domain)) }
{
    'histories: for made in 0..count {
        domains.push(domain)?;
    }
    Ok(())
}

/// The domain of a decision.
fn domain_of(decision: &DecisionItem) -> Interval
    requires { decision.now.lo ≤ℤ decision.now.hi }
    ensures { ends_of result ≡ decision_ends decision.now }
{
    Interval {
        lo: decision.lo,
        hi: decision.hi,
    }
}
