//! Laws of the text: facts for the prover, which do nothing.

ghost use Rattle.std.specs.Prelude.{◌≡◌, ◌↔◌, ℕ, List, None, Some};
ghost use Rattle.overlay_event.specs.declared.event.Event.{Event};
ghost use Rattle.stat_plan.specs.Invariants.{IsPlan};
ghost use Rattle.stat_plan.specs.Plans.{Plan};
ghost use Rattle.journal_text.specs.Events.{IsEventOf, AreEventsOf};
ghost use Rattle.journal_text.specs.Reading.{event_of_line, journal_of};
ghost use Rattle.journal_text.specs.Text.{journal_text, line_of};

/// A line says an event exactly where it is the line of this event, and the event is one of the plan.
pub fn a_line_says_one_event()
    ensures { (p : Plan) (line : List ℕ) (e : Event) → IsPlan p →
        (event_of_line p line ≡ Some e) ↔ (IsEventOf p e × (line ≡ line_of p e)) }
{}

/// What was written of events of the plan is read back.
pub fn journals_are_read_back()
    ensures { (p : Plan) (journal : List Event) → IsPlan p → AreEventsOf p journal →
        journal_of p (journal_text p journal) ≡ record { events = journal; bad = None } }
{}

/// What was read is of the plan, so that it can be written.
pub fn what_is_read_is_of_the_plan()
    ensures { (p : Plan) (text : List ℕ) → IsPlan p → AreEventsOf p (journal_of p text).events }
{}
