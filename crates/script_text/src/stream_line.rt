//! What a stream line says.

ghost use Rattle.text_lines.specs.Parsing.{IsValueOf, IsErrorOf};
ghost use Rattle.std.specs.Prelude.{◌≡◌, ◌≢◌, ◌<◌, ◌++◌, [], ◌∷◌, IfErr, OnOk, IfOk, Ok, Err, length, ℕ, nat_eq, ◌^◌};
ghost use Rattle.std.specs.List.{list_any};
ghost use Rattle.overlay_setup.specs.Scripts.{IsMode, IsStream};
ghost use Rattle.text_lines.specs.Lines.{words};
ghost use Rattle.overlay_setup.specs.Topologies.{IsTopology};
ghost use Rattle.text_lines.specs.declared.text_error.TextError.TheVariants.{OutOfMemory};
ghost use Rattle.script_text.specs.ParserViews.{mode_view, stream_view};
ghost use Rattle.script_text.specs.Marks.{marked_from};
ghost use Rattle.script_text.specs.Streams.{new_number, stream_number, mode_of, daemon_of, with_named, all_daemons, daemons_of, stream_of};

use crate::numbers::number_from;
use crate::words::{ModeText, StreamLine};
use overlay_setup::{
    Mode, SAMPLE_LIMIT, STREAM_LIMIT, StreamDef, TICK_LIMIT, Topology, WAVE_LIMIT,
};
use std::alloc::{AllocError, Global};
use text_lines::{Quantity, Reason, TextError, is_word, next_word};

// Whether a stream of this number is among these.
fn is_defined(streams: &[StreamDef], number: u32) -> bool
    ensures { result ≡ list_any (λ x. nat_eq x.number number) streams.now }
{
    streams
        .iter()
        .any(|stream| u32::from(stream.number()) == number)
}

// The number of a new stream, where earlier lines have defined these.
fn stream_number(streams: &[StreamDef], line_number: u64, word: &[u8]) -> Result<u32, TextError>
    ensures ok { IsValueOf result (stream_number streams.now line_number word.now) }
    ensures below_limit { IfOk result (λ n. n < STREAM_LIMIT) }
    ensures err { IfErr result (λ e. stream_number streams.now line_number word.now ≡ Err e) }
{
    let more = TextError::over(line_number, Quantity::Streams, STREAM_LIMIT);
    let number = number_from(line_number, 0, STREAM_LIMIT - 1, more, word)?;
    if is_defined(streams, number) {
        return Err(TextError::bad(line_number, Reason::SecondStream));
    }
    Ok(number)
}

// A mode as it is written.
fn mode_of(line_number: u64, mode: ModeText<'_>) -> Result<Mode, TextError>
    ensures ok { IsValueOf result (mode_of line_number (mode_view mode.entry)) }
    ensures err { IfErr result (λ e. mode_of line_number (mode_view mode.entry) ≡ Err e) }
{
    match mode {
        ModeText::WaitForAll => Ok(Mode::WaitForAll),
        ModeText::TimeOut(ticks) => {
            let bad_number = TextError::bad(line_number, Reason::BadNumber);
            let ticks = number_from(line_number, 1, TICK_LIMIT, bad_number, ticks)?;
            Ok(Mode::TimeOut(ticks as u16))
        }
        ModeText::DontWait => Ok(Mode::DontWait),
    }
}

// The daemon with a name.
#[tactic(auto, unfolding(crate::specs::Streams::daemon_of))]
fn daemon_of(topology: &Topology, line_number: u64, name: &[u8]) -> Result<u32, TextError>
    ensures ok { IsValueOf result (daemon_of topology.now line_number name.now) }
    ensures node { IfOk result (λ n. n < length topology.now.parents) }
    ensures err { IfErr result (λ e. daemon_of topology.now line_number name.now ≡ Err e) }
{
    match topology.daemon_named(name) {
        Some(n) => Ok(n),
        None => Err(TextError::bad(line_number, Reason::NotADaemon)),
    }
}

// All daemons of a job.
fn all_daemons(alloc: Global, topology: &Topology) -> Result<Vec<u32>, AllocError>
    ensures { IfOk result (λ daemons. daemons.items ≡ all_daemons topology.now) }
{
    let mut daemons = Vec::new(alloc);
    for n in 0..topology.nodes() {
        if topology.is_daemon(n) {
            daemons.push(n)?;
        }
    }
    Ok(daemons)
}

// The numbers of the nodes that are marked.
fn marked(alloc: Global, marks: &[bool]) -> Result<Vec<u32>, AllocError>
    requires { length marks.now < 2 ^ 31 }
    ensures { IfOk result (λ nodes. nodes.items ≡ marked_from 0 marks.now) }
{
    let mut nodes = Vec::new(alloc);
    for (n, is_marked) in marks.iter().enumerate() {
        if *is_marked {
            nodes.push(n as u32)?;
        }
    }
    Ok(nodes)
}

// The daemons with these names. Each name is looked up once, and marks its node.
fn named(
    alloc: Global,
    topology: &Topology,
    line_number: u64,
    names: &[u8],
) -> Result<Vec<u32>, TextError>
    requires { IsTopology topology.now }
    ensures ok { IfOk result (λ daemons. with_named topology.now line_number [] (words names.now) ≡ Ok daemons.items) }
    ensures err { IsErrorOf result (with_named topology.now line_number [] (words names.now)) }
{
    let mut marks = vec![in alloc; false; topology.nodes() as usize]?;
    let mut rest = names;
    while let Some((name, after)) = next_word(rest) {
        let daemon = daemon_of(topology, line_number, name)?;
        marks[daemon as usize] = true;
        rest = after;
    }
    Ok(marked(alloc, &marks)?)
}

// The daemons that stand after `on`.
fn daemons_of(
    alloc: Global,
    topology: &Topology,
    line_number: u64,
    names: &[u8],
) -> Result<Vec<u32>, TextError>
    requires { IsTopology topology.now }
    ensures ok { IfOk result (λ daemons. daemons_of topology.now line_number (words names.now) ≡ Ok daemons.items) }
    ensures err { IsErrorOf result (daemons_of topology.now line_number (words names.now)) }
{
    match next_word(names) {
        Some((name, _)) => {
            if is_word(name, b"all") {
                return Ok(all_daemons(alloc, topology)?);
            }
            named(alloc, topology, line_number, names)
        }
        None => Err(TextError::bad(line_number, Reason::BadDirective)),
    }
}

/// The stream that a line defines, where earlier lines have defined these.
pub fn stream_of(
    alloc: Global,
    topology: &Topology,
    streams: &[StreamDef],
    line_number: u64,
    words: &StreamLine<'_>,
) -> Result<StreamDef, TextError>
    requires { IsTopology topology.now }
    ensures ok { IsValueOf result (stream_of topology.now streams.now line_number (stream_view words.now)) }
    ensures err { IsErrorOf result (stream_of topology.now streams.now line_number (stream_view words.now)) }
{
    let number = stream_number(streams, line_number, words.number)?;
    let mode = mode_of(line_number, words.mode)?;
    let more = TextError::over(line_number, Quantity::Waves, WAVE_LIMIT);
    let waves = number_from(line_number, 1, WAVE_LIMIT, more, words.waves)?;
    let bad_number = TextError::bad(line_number, Reason::BadNumber);
    let samples = number_from(line_number, 1, SAMPLE_LIMIT, bad_number, words.samples)?;
    let daemons = daemons_of(alloc, topology, line_number, words.names)?;
    Ok(StreamDef::new(
        number as u8,
        mode,
        waves as u8,
        samples as u8,
        words.grain,
        daemons,
    ))
}
