//! The event that a line says.

ghost use Rattle.std.specs.Prelude.{◌≡◌, ◌++◌, codes};
ghost use Rattle.journal_text.specs.Reading.{event_of_line, IsEventRead, IsWaveRead};

use crate::numbers::number_of_word;
use crate::words::cut_at_space;
use overlay_event::Event;
use stat_plan::Plan;

// The wave that a text says, as `STREAM WAVE`: the numbers of the stream and of the wave.
fn wave_of(plan: &Plan, text: &[u8]) -> Option<(u8, u8)>
    ensures { IsWaveRead plan.now text.now result }
{
    plan.invariant();
    let (stream, wave) = cut_at_space(text)?;
    let stream = number_of_word(stream)?;
    let wave = number_of_word(wave)?;
    let known = plan.stream(stream)?;
    if wave < known.waves() {
        Some((stream, wave))
    } else {
        None
    }
}

// The event that is said by this text behind `sample `, as `NODE STREAM WAVE`.
fn sample_of(plan: &Plan, text: &[u8]) -> Option<Event>
    ensures { IsEventRead plan.now (codes "sample " ++ text.now) result }
{
    plan.invariant();
    let (name, wave) = cut_at_space(text)?;
    let node = plan.number_of(name)?;
    let (stream, wave) = wave_of(plan, wave)?;
    Some(Event::Sample { node, stream, wave })
}

// The event that is said by this text behind `recv `, as `NODE FROM`.
fn recv_of(plan: &Plan, text: &[u8]) -> Option<Event>
    ensures { IsEventRead plan.now (codes "recv " ++ text.now) result }
{
    plan.invariant();
    let (name, from) = cut_at_space(text)?;
    let node = plan.number_of(name)?;
    let from = plan.number_of(from)?;
    Some(Event::Recv { node, from })
}

// The event that is said by this name behind `tick `.
fn tick_of(plan: &Plan, name: &[u8]) -> Option<Event>
    ensures { IsEventRead plan.now (codes "tick " ++ name.now) result }
{
    plan.invariant();
    let node = plan.number_of(name)?;
    Some(Event::Tick { node })
}

// The event that is said by this name behind `lose `.
fn lose_of(plan: &Plan, name: &[u8]) -> Option<Event>
    ensures { IsEventRead plan.now (codes "lose " ++ name.now) result }
{
    plan.invariant();
    let node = plan.number_of(name)?;
    Some(Event::Lose { node })
}

/// The event that a line says; none where the line is bad.
pub fn event_of_line(plan: &Plan, line: &[u8]) -> Option<Event>
    ensures { result ≡ event_of_line plan.now line.now }
{
    plan.invariant();
    if let Some(text) = line.strip_prefix(b"sample ") {
        return sample_of(plan, text);
    }
    if let Some(text) = line.strip_prefix(b"recv ") {
        return recv_of(plan, text);
    }
    if let Some(name) = line.strip_prefix(b"tick ") {
        return tick_of(plan, name);
    }
    if let Some(name) = line.strip_prefix(b"lose ") {
        return lose_of(plan, name);
    }
    None
}
