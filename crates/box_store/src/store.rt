//! The store of a box.

ghost use Rattle.std.specs.Prelude.{◌≡◌, [], ◌∷◌, ◌++◌, ◌+◌, ◌<◌, ◌≤◌, ◌^◌, length, IfOk, OnOk, OnErr};
ghost use Rattle.box_problem.specs.Box.{IsBox, box_of, low, high};
ghost use Rattle.box_problem.specs.Steps.{IsCut, narrowed};
ghost use Rattle.box_store.specs.Store.{IsUndone, HoldsChanges};

use crate::trail::{Before, End, Entry, back_to_mark};
use sopl_base::{Interval, Side};
use std::alloc::{AllocError, Global};
use std::marker::Model;

/// An interval for each cell. It is narrowed one end at a time and can be set back to where it was marked; each change and
/// each mark takes room that was made before.
#[derive(Drop)]
pub struct BoxStore {
    lows: Vec<i64>,
    highs: Vec<i64>,
    trail: Vec<Entry>,
    /// The cell of each change of the trail.
    changes: Vec<u32>,
    /// How many changes there were at the newest mark.
    start: usize,
    /// How long the trail can grow without memory.
    room: usize,
}

impl Model for BoxStore {
    ghost use Rattle.box_store.specs.Store.{Store};

    ghost Value = { Store };

    ghost use Rattle.box_store.specs.Shown.{shown, IsSound};

    ghost view = { shown };

    ghost invariant = { IsSound };
}

impl BoxStore {
    /// The box of these intervals, with no mark.
    pub fn new(alloc: Global, roots: &[Interval]) -> Result<BoxStore, AllocError>
        requires few { length roots.now < 2 ^ 32 }
        ensures root { IfOk result (λ store. store.box ≡ box_of roots.now) }
        ensures marks { IfOk result (λ store. store.marks ≡ []) }
        ensures changed { IfOk result (λ store. store.changed ≡ []) }
    {
        let trail = Vec::new(alloc);
        let changes = Vec::new(alloc);
        Ok(BoxStore {
            lows: lows_of(alloc, roots)?,
            highs: highs_of(alloc, roots)?,
            trail,
            changes,
            start: 0,
            room: 0,
        })
    }

    /// How many cells the box has.
    pub fn cells(&self) -> u32
        ensures count { result ≡ length self.now.box.lows }
        ensures is_box { IsBox self.now.box }
    {
        self.lows.len() as u32
    }

    /// The lower ends of all cells.
    pub fn lows(&self) -> &[i64]
        ensures { result.now ≡ self.now.box.lows }
    {
        self.lows.as_slice()
    }

    /// The upper ends of all cells.
    pub fn highs(&self) -> &[i64]
        ensures { result.now ≡ self.now.box.highs }
    {
        self.highs.as_slice()
    }

    /// The lower end of a cell.
    pub fn lo(&self, cell: u32) -> i64
        requires { cell < length self.now.box.lows }
        ensures { result ≡ low self.now.box cell }
    {
        self.lows[cell as usize]
    }

    /// The upper end of a cell.
    pub fn hi(&self, cell: u32) -> i64
        requires { cell < length self.now.box.lows }
        ensures { result ≡ high self.now.box cell }
    {
        self.highs[cell as usize]
    }

    /// Makes room for `n` changes or marks.
    pub fn reserve(&mut self, n: usize) -> Result<(), AllocError>
        ensures room { OnOk result (n ≤ self.new.spare) }
        ensures kept { self.old.spare ≤ self.new.spare }
        ensures same_box { self.new.box ≡ self.old.box }
        ensures same_marks { self.new.marks ≡ self.old.marks }
        ensures same_changed { self.new.changed ≡ self.old.changed }
        ensures err { OnErr result (self.new ≡ self.old) }
    {
        if n <= self.room.saturating_sub(self.trail.len()) {
            return Ok(());
        }
        self.trail.reserve(n)?;
        let room = self.trail.len() + n;
        self.changes.reserve(room - self.changes.len())?;
        self.room = room;
        Ok(())
    }

    /// Moves one end of a cell to `k`: `Le` the upper one, `Ge` the lower one.
    pub fn tighten(&mut self, cell: u32, side: Side, k: i64)
        requires room { 1 ≤ self.old.spare }
        requires cut { IsCut self.old.box cell side k }
        ensures narrowed { self.new.box ≡ narrowed self.old.box cell side k }
        ensures same_marks { self.new.marks ≡ self.old.marks }
        ensures spare { self.new.spare + 1 ≡ self.old.spare }
        ensures changed { self.new.changed ≡ self.old.changed ++ cell ∷ [] }
    {
        self.changes.push_reserved(cell);
        let at = cell as usize;
        match side {
            Side::Le => {
                let end = End {
                    cell,
                    k: self.highs[at],
                };
                self.trail.push_reserved(Entry::High(end));
                self.highs[at] = k;
            }
            Side::Ge => {
                let end = End {
                    cell,
                    k: self.lows[at],
                };
                self.trail.push_reserved(Entry::Low(end));
                self.lows[at] = k;
            }
        }
    }

    /// Remembers the present box as the newest mark.
    pub fn mark(&mut self)
        requires room { 1 ≤ self.old.spare }
        ensures same_box { self.new.box ≡ self.old.box }
        ensures marks { self.new.marks ≡ (record { box = self.old.box; spare = self.old.spare }) ∷ self.old.marks }
        ensures spare { self.new.spare + 1 ≡ self.old.spare }
        ensures changed { self.new.changed ≡ [] }
    {
        let before = Before {
            spare: self.room - self.trail.len(),
            start: self.start,
        };
        self.trail.push_reserved(Entry::Marked(before));
        self.start = self.changes.len();
    }

    /// The cells that were tightened since the newest mark, in that order, each as often as it was tightened.
    pub fn changed(&self) -> &[u32]
        requires marked { 0 < length self.now.marks }
        ensures listed { result.now ≡ self.now.changed }
        ensures held { HoldsChanges self.now.marks self.now.box result.now }
    {
        &self.changes.as_slice()[self.start..]
    }

    /// Goes back to the box at the newest mark, and takes that mark away.
    pub fn undo(&mut self)
        requires marked { 0 < length self.old.marks }
        ensures { IsUndone self.old.marks self.new }
    {
        self.changes.truncate(self.start);
        self.start = back_to_mark(
            &mut self.trail,
            self.lows.as_mut_slice(),
            self.highs.as_mut_slice(),
        );
    }
}

/// The lower ends of intervals.
fn lows_of(alloc: Global, roots: &[Interval]) -> Result<Vec<i64>, AllocError>
    ensures { IfOk result (λ lows. lows.items ≡ (box_of roots.now).lows) }
{
    roots.iter().map(|root| root.lo).collect(alloc)
}

/// The upper ends of intervals.
fn highs_of(alloc: Global, roots: &[Interval]) -> Result<Vec<i64>, AllocError>
    ensures { IfOk result (λ highs. highs.items ≡ (box_of roots.now).highs) }
{
    roots.iter().map(|root| root.hi).collect(alloc)
}
