//! The checker of logs.

ghost use Rattle.std.specs.Prelude.{◌≡◌, ◌+◌, ◌<◌, ◌^◌, [], length, IfOk, IfSome};
ghost use Rattle.log_tree.specs.ReadingLaws.{NoneTooDeep};
ghost use Rattle.log_rows.specs.Rows.{AreOrdered};
ghost use Rattle.term_program.specs.Programs.{IsMade, root_in};
ghost use Rattle.term_program.specs.Stated.{box_problem_of};
ghost use Rattle.log_check.specs.Checkers.{HasRoomFor, KeepsRoom};
ghost use Rattle.log_check.specs.Verdicts.{IsVerdict};
ghost use Rattle.log_check.specs.Walks.{lines_of};

use crate::footer::verdict_of;
use crate::sides::{Sides, fill_sides};
use crate::sums::Sums;
use crate::tally::Tally;
use crate::verdict::Verdict;
use crate::view::LogView;
use crate::walk::Walk;
use box_store::BoxStore;
use log_rows::Row;
use log_tree::Log;
use std::alloc::{AllocError, Global};
use term_program::Program;

/// What a check of a log needs: the box of a program's root, room for logs of so many lines and so many nodes, and room for the sums by
/// which chance constraints and the objective close a box. It is made once, and checks any number of logs without taking memory, also
/// against other programs with the same root box.
#[derive(Drop)]
pub struct Checker {
    pub(crate) walk: Walk,
    pub(crate) sides: Vec<Sides>,
    pub(crate) lines: usize,
    pub(crate) nodes: usize,
}

/// How many lines a log has, where a number of the machine can tell.
#[tactic(auto, using(crate::proofs::Checking::lines_more, crate::proofs::Checking::lines_all))]
fn count_lines(rows: &[Row]) -> Option<usize>
    ensures count { IfSome result (λ count. count ≡ 2 + lines_of rows.now) }
{
    let mut count = 2_usize;
    'rows: for at in 0..rows.len() {
        let steps = rows[at].steps.as_slice();
        count = count.checked_add(steps.len())?.checked_add(2)?;
    }
    Some(count)
}

/// A number of the machine has 64 bits.
fn count_fits(_count: usize)
    ensures fits { _count < 2 ^ 64 }
{}

/// The box of all points of a program.
fn root_store(alloc: Global, program: &Program) -> Result<BoxStore, AllocError>
    requires made { IsMade program.now }
    ensures root { IfOk result (λ store. store.box ≡ root_in program.now) }
    ensures marks { IfOk result (λ store. store.marks ≡ []) }
{
    let roots = program.roots(alloc)?;
    BoxStore::new(alloc, roots.as_slice())
}

impl Checker {
    /// A checker for logs that have no more lines and no more nodes than this one, of a program and of others with the same root box.
    pub fn new(alloc: Global, program: &Program, log: &Log) -> Result<Checker, AllocError>
        requires made { IsMade program.now }
        ensures root { IfOk result (λ checker. checker.walk.store.box ≡ (box_problem_of program.now).root) }
        ensures room { IfOk result (λ checker. HasRoomFor checker log.now.rows.items) }
    {
        let rows = log.rows.as_slice();
        let Some(lines) = count_lines(rows) else {
            return Err(AllocError);
        };
        let nodes = rows.len();
        let mut store = root_store(alloc, program)?;
        store.reserve(lines)?;
        let sums = Sums::new(alloc, program)?;
        let mut later = Vec::new(alloc);
        later.reserve(nodes)?;
        let mut sides = Vec::new(alloc);
        sides.reserve(nodes)?;
        let walk = Walk {
            store,
            sums,
            at: 0,
            later,
            least: None,
            tally: Tally::none(),
        };
        Ok(Checker {
            walk,
            sides,
            lines,
            nodes,
        })
    }

    /// The verdict on a log of a program with the root box that the checker has.
    pub fn check(&mut self, program: &Program, log: &Log) -> Verdict
        requires made { IsMade program.now }
        requires ordered { AreOrdered log.now.rows.items }
        requires at_least_one { 0 < length log.now.rows.items }
        requires shallow { NoneTooDeep log.now.rows.items }
        requires root { self.old.walk.store.box ≡ (box_problem_of program.now).root }
        requires room { HasRoomFor self.old log.now.rows.items }
        ensures verdict { IsVerdict (box_problem_of program.now) log.now.rows.items log.now.footer result }
        ensures same_root { self.new.walk.store.box ≡ self.old.walk.store.box }
        ensures same_room { KeepsRoom self.old self.new }
    {
        count_fits(self.lines);
        let rows = log.rows.as_slice();
        fill_sides(&mut self.sides, rows);
        self.walk.begin();
        let view = LogView {
            program,
            rows,
            footer: &log.footer,
            sides: self.sides.as_slice(),
        };
        self.walk.walk_along(&view);
        let verdict = verdict_of(&view, self.walk.least, &self.walk.tally);
        self.walk.end();
        verdict
    }
}
