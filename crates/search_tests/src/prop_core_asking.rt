//! How often the propagators of a program are asked.

ghost use Rattle.std.specs.Prelude.{◌≡◌, ◌≤◌, IfOk, map, reverse};
ghost use Rattle.box_problem.specs.Bits.{bits_in};
ghost use Rattle.box_problem.specs.Box.{Box};
ghost use Rattle.prop_core.specs.Members.{AllFit, together};
ghost use Rattle.prop_core.specs.Watches.{AllInStep};
ghost use Rattle.prop_set.specs.Kinds.{Fits, IsInStep, reasons_of, watches_of};
ghost use Rattle.term_program.specs.Programs.{IsMade};
ghost use Rattle.term_program.specs.Stated.{box_problem_of};

use crate::sopl_compile_programs::program_in;
use box_store::BoxStore;
use prop_core::{Finding, Propagator, Watch, Watching, fixpoint_kept};
use prop_set::{AnyProp, props_of};
use sopl_base::{Direction, Fault, Interval, SearchStop, Steps};
use sopl_io::MemSink;
use sopl_search::{Crew, SearchProblem};
use sopl_term::Program;
use std::alloc::{AllocError, Global};

/// A propagator that counts how often it is asked.
#[derive(Drop)]
struct CountingProp {
    prop: AnyProp,
    calls: u32,
}

impl Propagator for CountingProp {
    type Program = Program;

    ghost problem = { box_problem_of };

    ghost reasons = { λ counting. reasons_of counting.prop };

    ghost fits = { λ counting program. Fits counting.prop program };

    ghost in_step = { λ counting program b. IsInStep counting.prop program b };

    ghost watches = { λ counting. watches_of counting.prop };

    fn revise(&mut self, program: &Program, store: &BoxStore, best: Option<i128>) -> Finding {
        self.calls = self.calls.wrapping_add(1);
        self.prop.revise(program, store, best)
    }
}

impl Watching for CountingProp {
    ghost use Rattle.prop_set.specs.Agreeing.{looks_alike, steps_alike, watches_ascend};

    fn watched_cells(&self) -> &[u32] {
        self.prop.watched_cells()
    }

    fn touched(&mut self, cell: u32) {
        self.prop.touched(cell);
    }

    fn revise_kept(&mut self, program: &Program, store: &BoxStore, best: Option<i128>) -> Finding {
        self.calls = self.calls.wrapping_add(1);
        self.prop.revise_kept(program, store, best)
    }

    ghost cells_ascend = { λ m p fits. watches_ascend m.prop p fits };

    ghost steps_agree = { λ m p b c fits b_in c_in agree step. steps_alike m.prop p b c fits b_in c_in agree step };

    ghost reasons_agree = { λ m p fits. looks_alike m.prop p fits };
}

impl SearchProblem for CountingProp {
    ghost valid = { IsMade };

    fn roots(alloc: Global, program: &Program) -> Result<Vec<Interval>, AllocError> {
        AnyProp::roots(alloc, program)
    }

    fn direction(program: &Program) -> Direction {
        AnyProp::direction(program)
    }

    fn end(program: &Program, store: &BoxStore) -> i128 {
        AnyProp::end(program, store)
    }
}

/// Propagators that count, none of which was asked; the last one comes first.
#[tactic(auto, using(crate::proofs::Counting::none_wrapped, crate::proofs::Counting::one_wrapped, crate::proofs::Counting::all_wrapped))]
fn wrapped(alloc: Global, props: Vec<AnyProp>) -> Result<Vec<CountingProp>, AllocError>
    ensures { IfOk result (λ list. map (λ counting. counting.prop) (reverse list.items) ≡ props.items) }
{
    let mut left = props;
    let mut list = Vec::new(alloc);
    'props: while let Some(prop) = left.pop() {
        list.push(CountingProp { prop, calls: 0 })?;
    }
    Ok(list)
}

/// The propagators of a program, the last one first.
fn backward(alloc: Global, program: &Program) -> Result<Vec<CountingProp>, AllocError>
    requires made { IsMade program.now }
    ensures fit { IfOk result (λ list. AllFit (λ counting. Fits counting.prop) program.now list.items) }
    ensures in_step { IfOk result (λ list. (b : Box) → AllInStep (λ counting. IsInStep counting.prop) program.now b list.items) }
    ensures reasons { IfOk result (λ list. together (map (λ counting. reasons_of counting.prop) (reverse list.items)) ≡ (box_problem_of program.now).reasons) }
{
    let props = props_of(alloc, program)?;
    let list = wrapped(alloc, props)?;
    Ok(list)
}

/// The propagators of a program, in the order in which they are made.
fn forward(alloc: Global, program: &Program) -> Result<Vec<CountingProp>, AllocError>
    requires made { IsMade program.now }
    ensures fit { IfOk result (λ list. AllFit (λ counting. Fits counting.prop) program.now list.items) }
    ensures in_step { IfOk result (λ list. (b : Box) → AllInStep (λ counting. IsInStep counting.prop) program.now b list.items) }
    ensures reasons { IfOk result (λ list. together (map (λ counting. reasons_of counting.prop) list.items) ≡ (box_problem_of program.now).reasons) }
{
    let mut list = backward(alloc, program)?;
    list.as_mut_slice().reverse();
    Ok(list)
}

/// How often each of several propagators was asked.
fn calls_of(alloc: Global, list: &[CountingProp]) -> Result<Vec<u32>, AllocError> {
    let mut calls = Vec::new(alloc);
    for counting in list {
        calls.push(counting.calls)?;
    }
    Ok(calls)
}

/// How often each of the propagators of a program was asked when all of them have come to rest.
fn calls_at_rest(
    alloc: Global,
    program: &Program,
    list: Vec<CountingProp>,
) -> Result<Vec<u32>, AllocError>
    requires made { IsMade program.now }
    requires fit { AllFit (λ counting. Fits counting.prop) program.now list.items }
    requires in_step { (b : Box) → AllInStep (λ counting. IsInStep counting.prop) program.now b list.items }
{
    let mut list = list;
    let roots = AnyProp::roots(alloc, program)?;
    let mut store = BoxStore::new(alloc, roots.as_slice())?;
    let watch = Watch::new(alloc, list.as_slice(), program.cells())?;
    let mut steps = Steps::new(alloc);
    fixpoint_kept(
        alloc,
        list.as_mut_slice(),
        &watch,
        program,
        &mut store,
        None,
        &mut steps,
    )?;
    calls_of(alloc, list.as_slice())
}

/// How often each of the propagators of a program was asked after the first step of a crew.
fn calls_after_step(
    alloc: Global,
    program: &Program,
    sink: &mut MemSink,
) -> Result<Vec<u32>, SearchStop>
    requires made { IsMade program.now }
    requires few_bits { bits_in (box_problem_of program.now).root ≤ 1024 }
{
    let list = forward(alloc, program)?;
    let mut crew = Crew::new(alloc, program, list, 1, None)?;
    crew.step(program, 0, sink)?;
    let calls = calls_of(alloc, crew.members())?;
    Ok(calls)
}

/// Two hard constraints: the first one holds everywhere, and the second one cuts x once.
const TEXT: &str = "dvar int x in 0..9; dvar int y in 0..9; subject to { y <= 9; 3*x <= 20; }";

/// How often the propagators of that text were asked, in their order, when they have come to rest.
fn forward_calls(alloc: Global) -> Result<Vec<u32>, Fault> {
    let program = program_in(alloc, TEXT)?;
    let list = forward(alloc, &program)?;
    Ok(calls_at_rest(alloc, &program, list)?)
}

/// How often each one was asked until all rest, where the last one stands first.
fn backward_calls(alloc: Global) -> Result<Vec<u32>, Fault> {
    let program = program_in(alloc, TEXT)?;
    let list = backward(alloc, &program)?;
    Ok(calls_at_rest(alloc, &program, list)?)
}

/// How often each one was asked by the first step of a crew.
fn stepped_calls(alloc: Global) -> Result<Vec<u32>, SearchStop> {
    let Ok(program) = program_in(alloc, TEXT) else {
        return Err(SearchStop::NoMemory);
    };
    let mut sink = MemSink::new(alloc, 1000, Vec::new(alloc))?;
    let calls = calls_after_step(alloc, &program, &mut sink)?;
    Ok(calls)
}

#[test]
fn who_rests_is_not_asked(rt: HostRuntime) {
    let calls = forward_calls(rt.alloc()).expect(&rt, "calls");
    assert!(rt; calls.len() == 3, "another number of propagators");
    assert!(rt;
        calls.get(0) == Some(&1),
        "asked though no cell of it changed"
    );
    assert!(rt;
        calls.get(1).is_some_and(|calls| *calls >= 2),
        "not asked though its cell changed"
    );
}

#[test]
fn who_rests_is_not_asked_backward(rt: HostRuntime) {
    let calls = backward_calls(rt.alloc()).expect(&rt, "calls");
    assert!(rt; calls.len() == 3, "another number of propagators");
    assert!(rt;
        calls.get(2) == Some(&1),
        "asked though no cell of it changed"
    );
    assert!(rt;
        calls.get(1).is_some_and(|calls| *calls >= 2),
        "not asked though its cell changed"
    );
}

#[test]
fn each_is_asked_by_a_crew(rt: HostRuntime) {
    let calls = stepped_calls(rt.alloc()).expect(&rt, "calls");
    assert!(rt; calls.len() == 3, "another number of propagators");
    assert!(rt;
        !calls.as_slice().contains(&0),
        "a propagator was not asked"
    );
}
