//! Programs of texts.
//!
//! The sizes and the programs were computed by hand.

ghost use Rattle.std.specs.Prelude.{◌≡◌, ◌<◌, ◌≤◌, false, length, IfOk};
ghost use Rattle.std.specs.Option.{option_map_or};
ghost use Rattle.box_problem.specs.Bits.{bits_in};
ghost use Rattle.term_program.specs.Programs.{IsMade, problem_in};
ghost use Rattle.term_program.specs.Stated.{box_problem_of};

use crate::compile_exprs_limits::LIMITS;
use crate::compile_scene_texts::{ORDER, STOCK};
use scen_accept::stated_in;
use sopl_base::{CmpOp, Fault};
use sopl_compile::compile;
use sopl_term::{CondId, Form, Program};
use std::alloc::{AllocError, Global};
use std::process::Abort;
use std::test::Fail;

/// The program of a text.
pub(crate) fn program_in(alloc: Global, text: &str) -> Result<Program, Fault>
    ensures made { IfOk result IsMade }
    ensures few_bits { IfOk result (λ program. bits_in (box_problem_of program).root ≤ 1024) }
{
    let stated = stated_in(alloc, text.as_bytes())?;
    compile(alloc, &stated.ground, &stated.tree)
}

/// The code and the number of the limit that a text's terms pass.
fn excess_in(alloc: Global, text: &str) -> Result<Option<(u16, i128)>, Fault> {
    match program_in(alloc, text) {
        Ok(_) => Ok(None),
        Err(Fault::Limit(excess)) => Ok(Some((excess.code, excess.counted))),
        Err(fault) => Err(fault),
    }
}

/// Two numbers that are written behind one another.
fn pair_in(text: &str) -> Option<(u16, i128)> {
    let (code, counted) = text.split_once(" ")?;
    match (code.parse::<u16>(), counted.parse::<i128>()) {
        (Ok(code), Ok(counted)) => Some((code, counted)),
        _ => None,
    }
}

/// A text passes this limit.
fn passes(alloc: Global, rt: &impl Abort, word: &str, text: &str, want: &str) -> Result<(), Fail> {
    let found = excess_in(alloc, text)?;
    assert_eq!(rt; found, pair_in(want), "{word}");
    Ok(())
}

#[test]
fn limits_of_programs(rt: HostRuntime) -> Result<(), Fail> {
    for row in LIMITS.lines() {
        let (word, told) = row.split_once(": ").unwrap_or((row, ""));
        let (text, want) = told.split_once(" -> ").unwrap_or((told, ""));
        passes(rt.alloc(), &rt, word, text, want)?;
    }
    Ok(())
}

/// A number for each operator.
fn number_of(op: CmpOp) -> i128 {
    match op {
        CmpOp::Lt => -2,
        CmpOp::Le => -1,
        CmpOp::Eq => 0,
        CmpOp::Ge => 1,
        CmpOp::Gt => 2,
        CmpOp::Ne => 3,
    }
}

/// Adds what a condition is: of a linear comparison the operator, the constant, and each cell with how many times it stands there; nothing of another one.
fn add_condition(found: &mut Vec<i128>, program: &Program, cond: CondId) -> Result<(), AllocError>
    requires made { IsMade program.now }
{
    match program.form(cond) {
        Form::Linear => {
            found.push(number_of(program.compared(cond)))?;
            found.push(i128::from(program.constant(cond)))?;
            for part in program.parts(cond) {
                found.push(i128::from(part.cell))?;
                found.push(i128::from(part.k))?;
            }
            Ok(())
        }
        _ => Ok(()),
    }
}

/// Adds the condition of a hard constraint in each scenario.
fn add_hard(found: &mut Vec<i128>, program: &Program, instance: u32) -> Result<(), AllocError>
    requires made { IsMade program.now }
    requires exists { instance < length (problem_in program.now).hards }
{
    for scenario in 0..program.scenarios() {
        add_condition(found, program, program.hard(instance, scenario))?;
    }
    Ok(())
}

/// Adds the threshold of a chance constraint and its condition in each scenario.
fn add_chance(found: &mut Vec<i128>, program: &Program, instance: u32) -> Result<(), AllocError>
    requires made { IsMade program.now }
    requires exists { instance < length (problem_in program.now).chances }
{
    let (p, q) = program.threshold(instance);
    found.push(i128::from(p))?;
    found.push(i128::from(q))?;
    for scenario in 0..program.scenarios() {
        add_condition(found, program, program.chance(instance, scenario))?;
    }
    Ok(())
}

/// Adds the constraints of a program.
fn add_constraints(found: &mut Vec<i128>, program: &Program) -> Result<(), AllocError>
    requires made { IsMade program.now }
{
    for instance in 0..program.hards() {
        add_hard(found, program, instance)?;
    }
    Ok(())
}

/// Adds the chance constraints of a program.
fn add_chances(found: &mut Vec<i128>, program: &Program) -> Result<(), AllocError>
    requires made { IsMade program.now }
{
    for instance in 0..program.chances() {
        add_chance(found, program, instance)?;
    }
    Ok(())
}

/// Adds the constant and the parts of the sum of an expected objective.
fn add_sum(found: &mut Vec<i128>, program: &Program) -> Result<(), AllocError>
    requires made { IsMade program.now }
    requires expected { option_map_or (λ goal. goal.worst) (problem_in program.now).goal false ≡ false }
{
    found.push(program.goal_constant())?;
    for atom in program.goal_atoms() {
        found.push(i128::from(atom.term))?;
        found.push(atom.k)?;
    }
    Ok(())
}

/// Adds the denominator, and of an expected objective its sum.
fn add_goal(found: &mut Vec<i128>, program: &Program) -> Result<(), AllocError>
    requires made { IsMade program.now }
{
    found.push(program.denominator())?;
    if program.worst() {
        return Ok(());
    }
    add_sum(found, program)
}

/// What a program tells of itself: how many cells and scenarios it has, its constraints and its objective.
fn shown(alloc: Global, program: &Program) -> Result<Vec<i128>, AllocError>
    requires made { IsMade program.now }
{
    let mut found = Vec::new(alloc);
    found.push(i128::from(program.cells()))?;
    found.push(i128::from(program.scenarios()))?;
    add_constraints(&mut found, program)?;
    add_chances(&mut found, program)?;
    add_goal(&mut found, program)?;
    Ok(found)
}

/// What the program of a text tells.
fn shown_in(alloc: Global, text: &str) -> Result<Vec<i128>, Fault> {
    let program = program_in(alloc, text)?;
    Ok(shown(alloc, &program)?)
}

#[test]
fn programs_by_hand(rt: HostRuntime) -> Result<(), Fail> {
    let alloc = rt.alloc();
    let order = shown_in(alloc, ORDER)?;
    assert_eq!(rt;
        order.as_slice(),
        [
            3, 2, -1, -1, 1, 1, -1, -3, 2, 1, -1, 0, 0, -1, 1, 1, -1, 0, 0, -1, 2, 1, 2, 0, 0, -6,
            1, 4, 2, 4
        ]
        .as_slice(),
        "an order"
    );
    let stock = shown_in(alloc, STOCK)?;
    assert_eq!(rt;
        stock.as_slice(),
        [
            1, 2, -1, -2, 0, 1, -1, -5, 0, 1, -1, -3, 0, 1, -1, -6, 0, 1, 2, 3, 1, -1, 0, 1, 1, -4,
            0, 1, 5, 35, 0, 14
        ]
        .as_slice(),
        "a stock"
    );
    Ok(())
}
