//! A book: the waves of a node with their states.

ghost use Rattle.std.specs.Prelude.{◌≡◌, ◌<◌, ◌≤◌, ℕ, false, true, IfNone, IfOk, IfSome, OnErr, OnOk};
ghost use Rattle.std.specs.List.{list_any};
ghost use Rattle.stat_plan.specs.Machine.Waves.{Book, Closed, growing, is_open, is_running, ticked, unsent};
ghost use Rattle.stat_plan.specs.Plans.{nodes, waves_at};
ghost use Rattle.wave_resend.specs.Books.{AllChange, AreAscending, HasOpen, HasSet, IsIn, all_sent, armed, book_of, is_after, keys_of, next_empty, next_open, untouched};
ghost use Rattle.wave_resend.specs.States.{wave_state};

use crate::changes::{reset_all, tick_all};
use crate::entry::Entry;
use crate::find::{count_to, index_of};
use crate::queries::{any_running, first_empty, first_open};
use crate::start::entries_of;
use crate::state::WaveState;
use rank_set::RankSet;
use stat_plan::Plan;
use std::alloc::{AllocError, Global};
use std::marker::Model;

/// What a node knows of each of its waves.
///
/// A wave is named by its stream's number and its number in the stream. To find one takes as many steps as the number
/// of waves has binary digits.
#[derive(Drop)]
pub struct WaveBook {
    // Ascending by stream and wave.
    entries: Vec<Entry>,
}

impl Model for WaveBook {
    ghost use Rattle.std.specs.Prelude.{List};
    ghost use Rattle.wave_resend.specs.Books.{AreAscending, WaveAt, keys_of};
    ghost use Rattle.wave_resend.specs.Codes.{coded_waves};

    ghost Value = { List WaveAt };

    ghost coded = { coded_waves };

    ghost view = { λ a. a.entries.items };

    ghost invariant = { λ a. AreAscending (keys_of a.entries.items) };
}

impl WaveBook {
    /// The waves of the streams that node `n` serves. Of none has anything come in.
    pub fn new(alloc: Global, plan: &Plan, n: u32) -> Result<WaveBook, AllocError>
        requires { n < nodes plan.now }
        ensures keys { IfOk result (λ book. keys_of book ≡ waves_at plan.now n) }
        ensures untouched { IfOk result (λ book. ◌≡◌ {A = Book} (book_of book) (λ s w. untouched)) }
    {
        plan.invariant();
        Ok(WaveBook::of_entries(entries_of(alloc, plan, n)?))
    }

    /// The book of ascending waves.
    pub(crate) fn of_entries(entries: Vec<Entry>) -> WaveBook
        requires { AreAscending (keys_of entries.items) }
        ensures { result ≡ entries.items }
    {
        WaveBook { entries }
    }

    /// The invariant of a book, for the prover. It does nothing.
    pub fn invariant(&self)
        ensures { AreAscending (keys_of self.now) }
    {
        // for the proof: the invariant of the value
        let _ = &self.entries;
    }

    /// The state of a wave.
    pub fn state(&self, s: u8, w: u8) -> WaveState<'_>
        requires { IsIn s w self.now }
        ensures { wave_state result ≡ book_of self.now s w }
    {
        let i = index_of(&self.entries, s, w);
        self.entries[i].state()
    }

    /// These ranks of an open wave have come in, besides those that had. On failure the book is unchanged.
    pub fn grew(&mut self, s: u8, w: u8, ranks: &RankSet) -> Result<(), AllocError>
        requires known { IsIn s w self.old }
        requires open { is_open (book_of self.old s w) ≡ true }
        ensures ok { OnOk result (HasSet s w (growing ranks.now (book_of self.old s w)) self.old self.new) }
        ensures err { OnErr result (self.new ≡ self.old) }
    {
        let i = index_of(&self.entries, s, w);
        let entry = &mut self.entries[i];
        entry.grow(ranks)
    }

    /// All that has come in of an open wave was passed on, and its timer is off. On failure the book is unchanged.
    pub fn mark_sent(&mut self, s: u8, w: u8) -> Result<(), AllocError>
        requires known { IsIn s w self.old }
        requires open { is_open (book_of self.old s w) ≡ true }
        ensures ok { OnOk result (HasSet s w (all_sent (book_of self.old s w)) self.old self.new) }
        ensures err { OnErr result (self.new ≡ self.old) }
    {
        let i = index_of(&self.entries, s, w);
        let entry = &mut self.entries[i];
        entry.mark_sent()
    }

    /// The timer of an open wave runs for `t` ticks, at least one.
    pub fn arm(&mut self, s: u8, w: u8, t: u16)
        requires known { IsIn s w self.old }
        requires open { is_open (book_of self.old s w) ≡ true }
        requires ticks { 1 ≤ t }
        ensures { HasSet s w (armed t (book_of self.old s w)) self.old self.new }
    {
        let i = index_of(&self.entries, s, w);
        let entry = &mut self.entries[i];
        entry.arm(t);
    }

    /// Each timer that runs goes on by one tick; one that had no more than a tick left has run out.
    pub fn tick(&mut self)
        ensures { AllChange ticked self.old self.new }
    {
        tick_all(self.entries.as_mut_slice());
    }

    /// The node has a new parent: nothing of any wave was passed on to it yet, and no timer runs. It allocates nothing.
    pub fn reset_for_parent(&mut self)
        ensures { AllChange unsent self.old self.new }
    {
        let alloc = *self.entries.allocator();
        reset_all(alloc, self.entries.as_mut_slice());
    }

    /// An open wave has ended.
    pub fn close(&mut self, s: u8, w: u8)
        requires known { IsIn s w self.old }
        requires open { is_open (book_of self.old s w) ≡ true }
        ensures { HasSet s w Closed self.old self.new }
    {
        let i = index_of(&self.entries, s, w);
        let entry = &mut self.entries[i];
        entry.close();
    }

    /// The first open wave behind wave `after`, by stream and then by number; the first of all where `after` is none.
    /// Wave `after` itself need not be in the book.
    pub fn next_open(&self, after: Option<(u8, u8)>) -> Option<(u8, u8)>
        ensures next { result ≡ next_open after (keys_of self.now) (book_of self.now) }
        ensures open { IfSome result (λ key. HasOpen key.0 key.1 self.now) }
        ensures behind { IfSome result (λ key. is_after after key ≡ true) }
        ensures none { IfNone result ((s w : ℕ) → IsIn s w self.now → is_after after (s, w) ≡ true
            → is_open (book_of self.now s w) ≡ false) }
    {
        let start = match after {
            Some((s, w)) => count_to(&self.entries, s, w),
            None => 0,
        };
        first_open(&self.entries[start..])
    }

    /// Whether a timer runs.
    pub fn has_running(&self) -> bool
        ensures { result ≡ list_any (λ (k : ℕ × ℕ). is_running (book_of self.now k.0 k.1)) (keys_of self.now) }
    {
        any_running(&self.entries)
    }

    /// The first wave of a stream that is open and of which nothing has come in.
    pub fn next_empty(&self, s: u8) -> Option<u8>
        ensures { result ≡ next_empty s (keys_of self.now) (book_of self.now) }
    {
        first_empty(&self.entries, s)
    }
}
