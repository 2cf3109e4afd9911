//! Claims: which events several workers may work on at the same time, and what stays as it was for one event while
//! others are done.
//!
//! A worker claims an event, and the event's node is then out with it. Until it comes home, nobody claims another event
//! of that node, or an event that conflicts with this one. When it comes home, the machine takes its step.
//!
//! The definitions stand in `specs/`. The functions here are laws: their bodies are empty, and what a law says is its
//! contract. A crate above calls its function, or imports the lemma that is its answer.
#![tactic(auto)]

ghost use Rattle.event_claims.specs.Claims.{ClaimsAreListed, Outs, MayBeOut, MayBeClaimed, FindsTheSame};
ghost use Rattle.event_claims.specs.Claims.{all_home, claimed, come_home, claimable_events};
ghost use Rattle.overlay_core.specs.Independent.{AreIndependent};
ghost use Rattle.overlay_core.specs.Laws.{EachLegal};
ghost use Rattle.overlay_core.specs.Machine.{State, step, is_enabled, enabled_events};
ghost use Rattle.overlay_core.specs.Runs.{run, after, IsLegal, IsQuiet};
ghost use Rattle.overlay_setup.specs.NodeSets.{In};
ghost use Rattle.overlay_event.specs.Events.{event_node};
ghost use Rattle.overlay_event.specs.declared.event.Event.{Event};
ghost use Rattle.stat_plan.specs.Invariants.{IsPlan};
ghost use Rattle.stat_plan.specs.Plans.{Plan, front};
ghost use Rattle.std.specs.List.{AllByRecursion};
ghost use Rattle.std.specs.Prelude.{◌≡◌, ◌≢◌, ◌↔◌, true, List, [], None, Some, ℕ};

/// A law: an enabled event finds the same after one independent event, and after several: its node and the packet that
/// it takes are what they were, and it is still enabled. Only events of the front end release anything.
pub fn independent_events_find_the_same()
    ensures single { (p : Plan) (st : State) (e f : Event) → AreIndependent e f → is_enabled p st e ≡ true
        → FindsTheSame p e st (step p st f) }
    ensures several { (p : Plan) (st : State) (e : Event) (fs : List Event) → AllByRecursion (AreIndependent e) fs
        → is_enabled p st e ≡ true → FindsTheSame p e st (run p st fs) }
    ensures releases { (p : Plan) (st : State) (fs : List Event) → AllByRecursion (λ f. event_node f ≢ front p) fs
        → (run p st fs).releases ≡ st.releases }
{}

/// A law: at first no node is out. An event that may be claimed may then be out with those that are. Any two events
/// that are out are independent. And each that is out may come home as the next step of the machine: the others may
/// still be out together in the state after it.
pub fn claims_may_be_out()
    ensures none { (p : Plan) (st : State) → MayBeOut p st all_home }
    ensures claim { (p : Plan) (st : State) (out : Outs) (e : Event) → MayBeOut p st out → MayBeClaimed p st out e
        → MayBeOut p st (claimed out e) }
    ensures apart { (p : Plan) (st : State) (out : Outs) (e f : Event) → MayBeOut p st out
        → out (event_node e) ≡ Some e → out (event_node f) ≡ Some f → event_node f ≢ event_node e
        → AreIndependent f e }
    ensures home { (p : Plan) (st : State) (out : Outs) (e : Event) → MayBeOut p st out
        → out (event_node e) ≡ Some e → MayBeOut p (step p st e) (come_home out e) }
{}

/// A law: the list of claimable events has exactly the events that may be claimed. While no node is out, it is the list
/// of enabled events, and if it is empty, the state is quiet.
pub fn claimable_events_are_listed()
    ensures listed { EachLegal (λ p journal. ClaimsAreListed p (after p journal)) }
    ensures home { (p : Plan) (st : State) (out : Outs) → ((n : ℕ) → out n ≡ None)
        → claimable_events p st out ≡ enabled_events p st }
    ensures quiet { EachLegal (λ p journal. (out : Outs) → ((n : ℕ) → out n ≡ None)
        → claimable_events p (after p journal) out ≡ [] → IsQuiet p (after p journal)) }
{}
