//! Whether terms differ over a box, evaluated anew wherever they are looked at, so that it takes no memory.

ghost use Rattle.std.specs.Prelude.{◌≡◌, ◌≤◌, length};
ghost use Rattle.std.specs.List.{list_all, list_any};
ghost use Rattle.term_language.specs.Globals as globals;
ghost use Rattle.term_language.specs.Marks as marks;
ghost use Rattle.term_language.specs.Rules as rule;
ghost use Rattle.term_language.specs.Terms as term;
ghost use Rattle.term_language.specs.declared.answers.Defined.TheVariants.{Always, Maybe};
ghost use Rattle.term_math.specs.Shown.{box_in, ends_of};
ghost use Rattle.term_windows.specs.Windows.{inside_in};
ghost use Rattle.term_nodes.specs.Built.{AllBelow};
ghost use Rattle.term_nodes.specs.Seen.{CanRead, intervals_seen, reading_of};
ghost use Rattle.term_nodes.specs.Things.{terms_at, things};

use crate::evaluation::Evaluator;
use term_language::{Defined, Truth};
use term_math::{Ends, both};
use term_windows::{Window, are_apart};

impl<'a> Evaluator<'a> {
    /// The mark of several terms over the box, all together.
    #[cycle(seen)]
    #[tactic(auto, using(crate::proofs::Steps::next_seen_marks, crate::proofs::Steps::no_seen_marks, crate::proofs::Steps::cond_below))]
    pub fn marks(&self, limit: u32, terms: &[u32]) -> Defined
        requires ready { CanRead self.now }
        requires exists { limit ≤ length self.now.items.now }
        requires below { AllBelow limit terms.now }
        ensures { result ≡ marks.all_marks (rule.marks (reading_of self.now) (box_in self.now.root) (box_in self.now.view) (terms_at (things self.now.items.now) terms.now)) }
    {
        let mut mark = Defined::Always;
        for i in (0..terms.len()).rev() {
            let here = self.range(terms[i]).mark;
            mark = both(here, mark);
        }
        mark
    }

    /// How many of several terms lie in a window over the box.
    #[cycle(seen)]
    #[tactic(auto, using(crate::proofs::Crowding::next_inside, crate::proofs::Crowding::next_outside, crate::proofs::Crowding::none_inside, crate::proofs::Steps::cond_below))]
    fn inside(&self, limit: u32, terms: &[u32], window: &Window) -> usize
        requires ready { CanRead self.now }
        requires exists { limit ≤ length self.now.items.now }
        requires below { AllBelow limit terms.now }
        ensures { result ≡ inside_in window.now (intervals_seen self.now terms.now) }
    {
        let mut count = 0;
        'terms: for id in terms {
            let range = self.range(*id);
            if window.has(&range.ends) {
                count += 1;
            }
        }
        count
    }

    /// Whether more of several terms lie between a lower end and the upper end of some of them than there are numbers: in windows that get
    /// narrower, since one that has few terms tells it of all that are not too narrow for these.
    #[cycle(seen)]
    #[tactic(auto, using(crate::proofs::Crowding::first_window, term_windows::proofs::Crowding::next_window, term_windows::proofs::Crowding::last_window, crate::proofs::Crowding::full_window))]
    fn crowded_from(&self, limit: u32, terms: &[u32], from: &Ends) -> bool
        requires ready { CanRead self.now }
        requires exists { limit ≤ length self.now.items.now }
        requires below { AllBelow limit terms.now }
        ensures { result ≡ list_any (λ y. globals.are_crowded (intervals_seen self.now terms.now) from.now.low y.high) (intervals_seen self.now terms.now) }
    {
        let mut window = Window::from(from, terms.len());
        'windows: while window.width > 0 {
            let count = self.inside(limit, terms, &window);
            if count > window.width {
                return true;
            }
            window = window.fewer_than(count);
        }
        false
    }

    /// Whether some two numbers are too near for the terms between them.
    #[cycle(seen)]
    #[tactic(auto, using(crate::proofs::Crowding::next_uncrowded, crate::proofs::Crowding::next_crowded, crate::proofs::Crowding::none_crowded_left, crate::proofs::Steps::cond_below))]
    fn never_differ(&self, limit: u32, terms: &[u32]) -> bool
        requires ready { CanRead self.now }
        requires exists { limit ≤ length self.now.items.now }
        requires below { AllBelow limit terms.now }
        ensures { result ≡ globals.never_differ (intervals_seen self.now terms.now) }
    {
        'terms: for id in terms {
            let range = self.range(*id);
            if self.crowded_from(limit, terms, &range.ends) {
                return true;
            }
        }
        false
    }

    /// Whether several terms have no number in common with an interval.
    #[cycle(seen)]
    #[tactic(auto, using(crate::proofs::Crowding::next_apart, crate::proofs::Crowding::not_apart, crate::proofs::Crowding::all_apart, crate::proofs::Steps::cond_below))]
    fn apart_from(&self, limit: u32, terms: &[u32], from: &Ends) -> bool
        requires ready { CanRead self.now }
        requires exists { limit ≤ length self.now.items.now }
        requires below { AllBelow limit terms.now }
        ensures { result ≡ list_all (globals.are_apart (ends_of from.now)) (intervals_seen self.now terms.now) }
    {
        'terms: for id in terms {
            let range = self.range(*id);
            if !are_apart(from, &range.ends) {
                return false;
            }
        }
        true
    }

    /// Whether no two of several terms have a number in common.
    #[cycle(seen)]
    #[tactic(auto, using(crate::proofs::Crowding::first_apart, crate::proofs::Crowding::first_touches, crate::proofs::Crowding::none_touches, crate::proofs::Crowding::first_below, crate::proofs::Crowding::later_below))]
    fn always_differ(&self, limit: u32, terms: &[u32]) -> bool
        requires ready { CanRead self.now }
        requires exists { limit ≤ length self.now.items.now }
        requires below { AllBelow limit terms.now }
        ensures { result ≡ globals.always_differ (intervals_seen self.now terms.now) }
    {
        let mut left = terms;
        'terms: while let Some((first, later)) = left.split_first() {
            let range = self.range(*first);
            if !self.apart_from(limit, later, &range.ends) {
                return false;
            }
            left = later;
        }
        true
    }

    /// Whether several terms that may be undefined differ.
    #[cycle(seen)]
    #[tactic(auto, using(crate::proofs::Crowding::maybe_never, crate::proofs::Crowding::maybe_open))]
    fn may_differ(&self, limit: u32, terms: &[u32]) -> Truth
        requires ready { CanRead self.now }
        requires exists { limit ≤ length self.now.items.now }
        requires below { AllBelow limit terms.now }
        ensures { result ≡ marks.judged Maybe (globals.never_differ (intervals_seen self.now terms.now)) (globals.always_differ (intervals_seen self.now terms.now)) }
    {
        if self.never_differ(limit, terms) {
            return Truth::False;
        }
        Truth::Unknown
    }

    /// Whether several terms differ that are Always defined.
    #[cycle(seen)]
    #[tactic(auto, using(crate::proofs::Crowding::surely_apart, crate::proofs::Crowding::not_surely))]
    fn do_differ(&self, limit: u32, terms: &[u32]) -> Truth
        requires ready { CanRead self.now }
        requires exists { limit ≤ length self.now.items.now }
        requires below { AllBelow limit terms.now }
        ensures { result ≡ marks.judged Always (globals.never_differ (intervals_seen self.now terms.now)) (globals.always_differ (intervals_seen self.now terms.now)) }
    {
        if self.always_differ(limit, terms) {
            return Truth::True;
        }
        self.may_differ(limit, terms)
    }

    /// The truth of `allDifferent` over the box.
    #[cycle(seen)]
    #[tactic(auto, using(crate::proofs::Crowding::judged_by))]
    pub(crate) fn all_different(&self, limit: u32, terms: &[u32]) -> Truth
        requires ready { CanRead self.now }
        requires exists { limit ≤ length self.now.items.now }
        requires below { AllBelow limit terms.now }
        ensures { result ≡ rule.truth (reading_of self.now) (box_in self.now.root) (box_in self.now.view) (term.AllDifferent (terms_at (things self.now.items.now) terms.now)) }
    {
        match self.marks(limit, terms) {
            Defined::Never => Truth::False,
            Defined::Maybe => self.may_differ(limit, terms),
            Defined::Always => self.do_differ(limit, terms),
        }
    }
}
