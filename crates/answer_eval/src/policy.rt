//! From the bytes of a policy to the reply.

ghost use Rattle.std.specs.Prelude.{◌≡◌, ℕ, List, pos, Some, IfOk, if◌then◌else◌, string_bytes};
ghost use Rattle.sopl_ast.specs.Instances.{Problem};
ghost use Rattle.sopl_ast.specs.Optimal.{denominator};
ghost use Rattle.sopl_ast.specs.Scenarios.{total_weight};
ghost use Rattle.sopl_ast.specs.Unfolding.{problem_of};
ghost use Rattle.sopl_ast.specs.WholeModel.{whole};
ghost use Rattle.sopl_policy.specs.Kept.{IsPolicyFor, policy_map};
ghost use Rattle.scen_accept.specs.Stated.{IsLaid, problem_in};
ghost use Rattle.policy_eval.specs.Reports.{IsReport};
ghost use Rattle.policy_eval.specs.Shown.{report_shown};
ghost use Rattle.policy_read.specs.Policies.{Point, PolicyReading, RefusesPolicy, policy_in, policy_refusal};
ghost use Rattle.answer_lines.specs.AnswerData.{line_of};
ghost use Rattle.answer_texts.specs.Away.{IsTurnedAway};
ghost use Rattle.answer_eval.specs.EvalData.{judgement_data, judgement_status};
ghost use Rattle.answer_eval.specs.EvalReplies.{IsEvalReply, IsPolicyReply, IsStatedFor};

use crate::lines::{chance_line, hard_line, objective_line, satisfied_line};
use answer_lines::unreadable_line;
use answer_texts::{Reply, Status};
use policy_eval::{Report, evaluate};
use policy_read::read;
use scen_accept::AcceptedProblem;
use sopl_ast::{Goal, Model};
use sopl_base::{Fault, Refusal};
use sopl_policy::Policy;
use std::alloc::{AllocError, Global};

/// The denominator of the values of policies, where this is the weight of all scenarios.
fn value_denominator(stated: &AcceptedProblem) -> i128
    requires laid_out { IsLaid stated.now }
    ensures { result ≡ denominator (problem_in stated.now) }
{
    denominator_of(stated.ground.typed().model(), stated.tree.total())
}

/// The denominator of the values of policies of a model whose scenarios weigh so much.
fn denominator_of(model: &Model, total: i128) -> i128
    ensures { total ≡ total_weight (problem_of (whole model.now)).stochastics → result ≡ denominator (problem_of (whole model.now)) }
{
    match &model.goal {
        None => 1,
        Some(goal) => goal_denominator(goal, total),
    }
}

/// The denominator of the values of an objective.
fn goal_denominator(goal: &Goal, total: i128) -> i128
    ensures { result ≡ (if goal.now.worst then pos 1 else total) }
{
    if goal.worst {
        return 1;
    }
    total
}

/// The line of a report.
fn report_line(
    alloc: Global,
    report: &Report,
    total: i128,
    denominator: i128,
) -> Result<String, AllocError>
    ensures text { IfOk result (λ text. string_bytes text ≡ line_of (judgement_data total denominator (report_shown report.now))) }
{
    match report {
        Report::Satisfied { value, chances } => {
            satisfied_line(alloc, chances.as_slice(), total, *value, denominator)
        }
        Report::Hard { instance, scenario } => hard_line(alloc, *instance, *scenario),
        Report::Chance { instance, sum } => chance_line(alloc, *instance, *sum, total),
        Report::Objective { scenario } => objective_line(alloc, *scenario),
    }
}

/// The status of a report.
fn report_status(report: &Report) -> Status
    ensures { result ≡ judgement_status (report_shown report.now) }
{
    match report {
        Report::Satisfied { .. } => Status::Done,
        _ => Status::Failing,
    }
}

/// The reply of a report.
fn report_reply(
    alloc: Global,
    stated: &AcceptedProblem,
    report: &Report,
) -> Result<Reply, AllocError>
    requires laid_out { IsLaid stated.now }
    ensures status { IfOk result (λ reply. reply.status ≡ judgement_status (report_shown report.now)) }
    ensures line { IfOk result (λ reply. string_bytes reply.line ≡ line_of (judgement_data (total_weight (problem_in stated.now).stochastics)
        (denominator (problem_in stated.now)) (report_shown report.now))) }
{
    let denominator = value_denominator(stated);
    let line = report_line(alloc, report, stated.tree.total(), denominator)?;
    Ok(Reply {
        status: report_status(report),
        line,
    })
}

/// What is told of a policy that was read.
fn report_of(alloc: Global, stated: &AcceptedProblem, policy: &Policy) -> Result<Report, AllocError>
    requires stated { (text : List ℕ) × IsStatedFor text stated.now }
    requires policy { IsPolicyFor (problem_in stated.now) policy.now }
    ensures { IfOk result (λ report. IsReport (problem_in stated.now) (policy_map (problem_in stated.now) policy.now) (report_shown report)) }
{
    evaluate(alloc, policy, &stated.ground, &stated.tree)
}

/// The reply to a policy that was read.
fn read_reply(alloc: Global, stated: &AcceptedProblem, policy: &Policy) -> Result<Reply, AllocError>
    requires stated { (text : List ℕ) × IsStatedFor text stated.now }
    requires policy { IsPolicyFor (problem_in stated.now) policy.now }
    ensures reply { (bytes : List ℕ) → policy_in (problem_in stated.now).decisions (problem_in stated.now).stochastics bytes ≡ Point policy.now.values
        → IfOk result (λ reply. IsPolicyReply (problem_in stated.now) bytes reply.status (string_bytes reply.line)) }
{
    let report = report_of(alloc, stated, policy)?;
    report_reply(alloc, stated, &report)
}

/// The reply to bytes that hold no policy, for this mistake.
fn unreadable_reply(alloc: Global, mistake: Refusal) -> Result<Reply, AllocError>
    ensures reply { (problem : Problem) (bytes : List ℕ) → policy_refusal (policy_in problem.decisions problem.stochastics bytes) ≡ Some mistake
        → IfOk result (λ reply. IsPolicyReply problem bytes reply.status (string_bytes reply.line)) }
{
    let line = unreadable_line(alloc, mistake)?;
    Ok(Reply {
        status: Status::Unreadable,
        line,
    })
}

/// The reply to bytes of which no policy was read, for this fault.
fn unread_reply(alloc: Global, fault: Fault) -> Result<Reply, AllocError>
    requires refused { (reading : PolicyReading) × RefusesPolicy reading fault }
    ensures reply { (problem : Problem) (bytes : List ℕ) → RefusesPolicy (policy_in problem.decisions problem.stochastics bytes) fault
        → IfOk result (λ reply. IsPolicyReply problem bytes reply.status (string_bytes reply.line)) }
{
    match fault {
        Fault::Text(mistake) => unreadable_reply(alloc, mistake),
        Fault::Limit(_) => unreachable!(),
        Fault::NoMemory => Err(AllocError),
    }
}

/// The reply to the bytes of a policy, by what its problem is.
fn bytes_reply(alloc: Global, stated: &AcceptedProblem, bytes: &[u8]) -> Result<Reply, AllocError>
    requires stated { (text : List ℕ) × IsStatedFor text stated.now }
    ensures reply { IfOk result (λ reply. IsPolicyReply (problem_in stated.now) bytes.now reply.status (string_bytes reply.line)) }
{
    match read(alloc, bytes, &stated.ground, &stated.tree) {
        Ok(policy) => read_reply(alloc, stated, &policy),
        Err(fault) => unread_reply(alloc, fault),
    }
}

/// The reply to the bytes of a policy of a text that states this: that the policy satisfies, with its value and the weight of the scenarios in which each chance
/// constraint is true; what fails first, hard constraints before chance constraints, and these before the objective; or the code and the place of the first mistake,
/// where the bytes hold no policy of the text. It is refused only where memory runs out.
pub fn policy_reply(
    alloc: Global,
    stated: &AcceptedProblem,
    policy: &[u8],
) -> Result<Reply, AllocError>
    requires stated { (text : List ℕ) × IsStatedFor text stated.now }
    ensures reply { (text : List ℕ) → IsStatedFor text stated.now
        → IfOk result (λ reply. IsEvalReply text policy.now reply.status (string_bytes reply.line)) }
    ensures of_policy { IfOk result (λ reply. ¬ IsTurnedAway reply.status) }
{
    bytes_reply(alloc, stated, policy)
}
