//! The machine of the overlay: nodes that stand in a tree, pass the ranks of each wave up to the front end, and may be
//! lost on the way.
//!
//! What the machine is stands in `specs/`: a state, the events that are enabled, and the state after each. The
//! functions here are laws of it. Their bodies are empty: what a law says is its contract. A crate above calls its
//! function, or imports the lemma that is its answer.
#![tactic(auto)]

ghost use Rattle.overlay_core.specs.Independent.{outcome, AreIndependent};
ghost use Rattle.overlay_core.specs.Bound.{bound};
ghost use Rattle.overlay_core.specs.Counts.{OnlyGrows, one_if, is_unsent, sends, growths, moves};
ghost use Rattle.overlay_core.specs.History.{of_wave};
ghost use Rattle.overlay_core.specs.Laws.{BooksGrow, EachLegal, EachWhole, KeepsOutcome, PicksNext, ReleasesOnce, SendsAreBounded};
ghost use Rattle.overlay_core.specs.Losses.{IsLost};
ghost use Rattle.overlay_core.specs.Machine.{State, start, step, is_enabled, enabled_events};
ghost use Rattle.overlay_core.specs.Nodes.{Release as MachineRelease};
ghost use Rattle.overlay_core.specs.Pick.{picked_event, picked, Picks, IsPickedFrom};
ghost use Rattle.stat_plan.specs.Machine.Journals.{next_number};
ghost use Rattle.overlay_core.specs.Releases.{ReleasesAreSound};
ghost use Rattle.overlay_core.specs.Runs.{run, after, IsLegal, IsQuiet, IsWhole};
ghost use Rattle.overlay_core.specs.Whole.{HasEnded, HasOneRelease, IsSound, LosesNoDaemon};
ghost use Rattle.overlay_event.specs.declared.event.Event.{Event};
ghost use Rattle.stat_plan.specs.Invariants.{IsPlan};
ghost use Rattle.overlay_setup.specs.NodeSets.{In};
ghost use Rattle.stat_plan.specs.Plans.{Plan, nodes, mode, waves_of, with_lines};
ghost use Rattle.stat_plan.specs.Samples.{SampleLine};
ghost use Rattle.overlay_setup.specs.declared.script.Mode.TheVariants.{WaitForAll};
ghost use Rattle.std.specs.List.{AllByRecursion};
ghost use Rattle.std.specs.Prelude.{◌≡◌, ◌≤◌, ◌<◌, ◌+◌, ◌↔◌, true, false, length, List, [], ◌∷◌, ◌++◌, Some, ℕ};

mod release;

pub use release::{Kind, Release};

/// A law: every legal journal leaves a sound state.
pub fn legal_journals_are_sound()
    ensures sound { EachLegal (λ p journal. IsSound p (after p journal)) }
{}

/// A law: no legal journal is longer than the bound, so after one where an event may still come there is room for it.
pub fn legal_journals_are_short()
    ensures within_bound { EachLegal (λ p journal. length journal ≤ bound p) }
    ensures below_bound { EachLegal (λ p journal. (e : Event)
        → is_enabled p (after p journal) e ≡ true → length journal < bound p) }
{}

/// A law: a whole journal has ended each wave. The wave has one final release, its last, which covers each daemon of
/// the stream that the journal doesn't lose; the daemon of a missing rank is lost, and the release says so. And each
/// living node that serves the wave has closed it.
pub fn whole_journals_have_ended()
    ensures ended { EachWhole HasEnded }
{}

/// A law: a stream that waits for all, and none of whose daemons is lost, has one release of each wave, of all its
/// ranks.
pub fn waiting_streams_release_once()
    ensures once { EachWhole ReleasesOnce }
{}

/// A law: the journal that a seed picks is whole.
pub fn picked_journals_are_whole()
    ensures whole { (p : Plan) (seed : ℕ) → IsPlan p → IsWhole p (picked p seed) }
{}

/// A law: a seed picks a journal, and no other.
pub fn seeds_pick_one_journal()
    ensures exists { (p : Plan) (seed : ℕ) → IsPlan p → IsPickedFrom p seed (picked p seed) }
    ensures unique { (p : Plan) (seed : ℕ) (journal : List Event) → IsPlan p → IsPickedFrom p seed journal
        → journal ≡ picked p seed }
{}

/// A law: the events that were picked so far and the one that is picked next are picked, and what is picked is legal.
pub fn picks_go_on()
    ensures extended { (p : Plan) (seed : ℕ) (journal : List Event) (y : ℕ) → Picks p seed journal y
        → PicksNext p seed journal y }
    ensures legal { (p : Plan) (seed : ℕ) (journal : List Event) (y : ℕ) → Picks p seed journal y → IsLegal p journal }
{}

/// A law: each release is of a wave of the plan, covers all ranks of some daemons of its stream, and is final where the
/// stream waits for all.
pub fn releases_are_sound()
    ensures sound { EachLegal (λ p journal. ReleasesAreSound p (after p journal)) }
{}

/// A law: the list of enabled events has exactly the events that are enabled, and is empty exactly if the state is
/// quiet.
pub fn enabled_events_are_listed()
    ensures listed { EachLegal (λ p journal. (e : Event)
        → (is_enabled p (after p journal) e ≡ true) ↔ In e (enabled_events p (after p journal))) }
    ensures quiet { EachLegal (λ p journal. IsQuiet p (after p journal)
        ↔ (enabled_events p (after p journal) ≡ [])) }
{}

/// A law: a journal with an event more leaves the state one step on, and is legal just where the journal is and the
/// event may come after it.
pub fn journals_go_on()
    ensures state { (p : Plan) (journal : List Event) (e : Event)
        → after p (journal ++ e ∷ []) ≡ step p (after p journal) e }
    ensures legal { (p : Plan) (journal : List Event) (e : Event) → IsLegal p journal
        → is_enabled p (after p journal) e ≡ true → IsLegal p (journal ++ e ∷ []) }
    ensures parts { (p : Plan) (journal : List Event) (e : Event) → IsLegal p (journal ++ e ∷ [])
        → IsLegal p journal × (is_enabled p (after p journal) e ≡ true) }
{}

/// A law: the nodes that a journal loses are those that are dead after it.
pub fn lost_nodes_are_dead()
    ensures lost { (p : Plan) (journal : List Event) (n : ℕ) → n < nodes p → IsLost journal n
        ↔ ((after p journal).alive n ≡ false) }
{}

/// A law: a release names only nodes that the journal loses.
pub fn releases_name_lost_nodes()
    ensures named { EachLegal (λ p journal. (r : MachineRelease) (n : ℕ)
        → In r (after p journal).releases → In n r.lost → IsLost journal n) }
{}

/// A law: a node sends a wave at most as often as what it covers of the wave grew or its parent changed, and once less
/// where something isn't sent yet.
pub fn sends_are_bounded()
    ensures bounded { (p : Plan) (journal : List Event) → SendsAreBounded p journal }
{}

/// A law: what a node covers of a wave only grows, and a wave that has ended doesn't begin again.
pub fn coverages_only_grow()
    ensures grows { (p : Plan) (journal : List Event) (e : Event) → IsPlan p → IsLegal p (journal ++ e ∷ [])
        → BooksGrow (after p journal) (after p (journal ++ e ∷ [])) }
{}

/// A law: an event that may come may still come after events of other nodes, where none of them is the loss of the
/// sender of its packet, and leaves of its node what it would have left before.
pub fn independent_events_commute()
    ensures single { (p : Plan) (st : State) (e f : Event) → AreIndependent e f → is_enabled p st e ≡ true
        → KeepsOutcome p e st (step p st f) }
    ensures several { (p : Plan) (st : State) (e : Event) (fs : List Event) → AllByRecursion (AreIndependent e) fs
        → is_enabled p st e ≡ true → KeepsOutcome p e st (run p st fs) }
{}

/// A law: what was sampled changes no run. Two plans that differ in their lines of samples alone have the same states,
/// the same enabled events and the same legal and picked journals.
pub fn samples_change_no_run()
    ensures state { (p : Plan) (lines : List SampleLine) (journal : List Event)
        → after (with_lines p lines) journal ≡ after p journal }
    ensures enabled { (p : Plan) (lines : List SampleLine) (st : State) (e : Event)
        → is_enabled (with_lines p lines) st e ≡ is_enabled p st e }
    ensures listed { (p : Plan) (lines : List SampleLine) (st : State)
        → enabled_events (with_lines p lines) st ≡ enabled_events p st }
    ensures legal { (p : Plan) (lines : List SampleLine) (journal : List Event)
        → IsLegal (with_lines p lines) journal ↔ IsLegal p journal }
    ensures picked { (p : Plan) (lines : List SampleLine) (seed : ℕ)
        → picked (with_lines p lines) seed ≡ picked p seed }
{}
