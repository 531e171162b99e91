//! The trail of changes: what each of them takes to undo.

ghost use Rattle.std.specs.Prelude.{◌≡◌, ℕ, ◌<◌, ◌-◌, length, reverse, vec_len, vec_capacity};
ghost use Rattle.box_problem.specs.Box.{IsBox};
ghost use Rattle.box_store.specs.Store.{IsUndone};
ghost use Rattle.box_store.specs.Trail.{marks_of, changed_of, changed_before, all_changed, AreSound, HadRoom};

/// A cell, and one end of its interval as it was.
#[derive(Clone, Copy)]
pub(crate) struct End {
    pub(crate) cell: u32,
    pub(crate) k: i64,
}

/// What a mark keeps: the room that there was before it, and how many changes there were at the mark before it.
#[derive(Clone, Copy)]
pub(crate) struct Before {
    pub(crate) spare: usize,
    pub(crate) start: usize,
}

/// An end that was moved, as it was before, or a mark.
#[derive(Clone, Copy)]
pub(crate) enum Entry {
    Low(End),
    High(End),
    Marked(Before),
}

/// Undoes the changes behind the newest mark, and takes that mark away; how many changes there were at the mark before it.
pub(crate) fn back_to_mark(trail: &mut Vec<Entry>, lows: &mut [i64], highs: &mut [i64]) -> usize
    requires sound { AreSound (record { lows = lows.old; highs = highs.old }) (reverse trail.old.items) }
    requires is_box { IsBox (record { lows = lows.old; highs = highs.old }) }
    requires marked { 0 < length (marks_of (record { lows = lows.old; highs = highs.old }) (reverse trail.old.items)) }
    ensures sound { AreSound (record { lows = lows.new; highs = highs.new }) (reverse trail.new.items) }
    ensures is_box { IsBox (record { lows = lows.new; highs = highs.new }) }
    ensures undone { (room : ℕ) → HadRoom room (reverse trail.old.items)
        → IsUndone (marks_of (record { lows = lows.old; highs = highs.old }) (reverse trail.old.items))
        (record {
          box = record { lows = lows.new; highs = highs.new };
          marks = marks_of (record { lows = lows.new; highs = highs.new }) (reverse trail.new.items);
          spare = room - vec_len trail.new;
          changed = changed_of (reverse trail.new.items);
        }) }
    ensures room { (room : ℕ) → HadRoom room (reverse trail.old.items) → HadRoom room (reverse trail.new.items) }
    ensures start { result ≡ length (changed_before (reverse trail.new.items)) }
    ensures left { changed_before (reverse trail.old.items) ≡ all_changed (reverse trail.new.items) }
    ensures capacity { vec_capacity trail.new ≡ vec_capacity trail.old }
{
    'changes: while let Some(entry) = trail.pop() {
        match entry {
            Entry::Low(end) => lows[end.cell as usize] = end.k,
            Entry::High(end) => highs[end.cell as usize] = end.k,
            Entry::Marked(before) => return before.start,
        }
    }
    unreachable!()
}
