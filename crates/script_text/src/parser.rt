//! What is parsed of a script so far.

ghost use Rattle.std.specs.Prelude.{◌≡◌, ◌≤◌, OnOk, IfOk, Ok, [], length, not, nat_lt};
ghost use Rattle.std.specs.List.{prefix_len};
ghost use Rattle.text_lines.specs.Lines.{words};
ghost use Rattle.text_lines.specs.Parsing.{IsValueOf, IsErrorOf};
ghost use Rattle.overlay_setup.specs.Scripts.{ScriptFits, scripted};
ghost use Rattle.overlay_setup.specs.Topologies.{IsTopology};

use crate::lose_line::fault_of;
use crate::stream_line::stream_of;
use crate::words::{lose_words, stream_words};
use overlay_setup::{Fault, Script, StreamDef, Topology};
use std::alloc::Global;
use text_lines::{LineParser, Reason, TextError, is_word, next_word, says_nothing};

/// The streams so far, ascending by number, and the losses, ascending by node.
#[derive(Drop)]
pub struct Parser<'t> {
    topology: &'t Topology,
    streams: Vec<StreamDef>,
    faults: Vec<Fault>,
}

// How many of these streams have a number of at most this.
fn streams_to(streams: &[StreamDef], number: u8) -> usize
    ensures value { result ≡ prefix_len (λ x. not (nat_lt number x.number)) streams.now }
    ensures within { result ≤ length streams.now }
{
    streams
        .iter()
        .take_while(|stream| stream.number() <= number)
        .count()
}

// How many of these losses are of a node of at most this number.
fn faults_to(faults: &[Fault], node: u32) -> usize
    ensures value { result ≡ prefix_len (λ f. not (nat_lt node f.node)) faults.now }
    ensures within { result ≤ length faults.now }
{
    faults.iter().take_while(|fault| fault.node <= node).count()
}

impl<'t> Parser<'t> {
    ghost use Rattle.script_text.specs.ParserViews.{parser_view, parser_nodes};
    ghost use Rattle.script_text.specs.Invariants.{ParserInvariant};
    ghost use Rattle.script_text.specs.Words.{stream_words, lose_words};
    ghost use Rattle.script_text.specs.Whole.{with_stream_line, with_lose_line, with_words, whole};

    /// A parser before the first line.
    pub fn new(alloc: Global, topology: &'t Topology) -> Parser<'t>
        ensures view { parser_view result ≡ scripted [] [] }
        ensures nodes { parser_nodes result ≡ topology.now }
    {
        Parser {
            topology,
            streams: Vec::new(alloc),
            faults: Vec::new(alloc),
        }
    }

    // A stream line more, from its number on.
    fn stream(&mut self, line_number: u64, line: &[u8]) -> Result<(), TextError>
        requires { IsTopology (parser_nodes self.old) }
        ensures ok { OnOk result (
            with_stream_line (parser_nodes self.old) (parser_view self.old) line_number (stream_words (words line.now))
            ≡ Ok (parser_view self.new)
            ) }
        ensures nodes { parser_nodes self.new ≡ parser_nodes self.old }
        ensures err { IsErrorOf result (
            with_stream_line (parser_nodes self.old) (parser_view self.old) line_number (stream_words (words line.now))
            ) }
    {
        let Some(words) = stream_words(line) else {
            return Err(TextError::bad(line_number, Reason::BadDirective));
        };
        let alloc = *self.streams.allocator();
        let stream = stream_of(alloc, self.topology, &self.streams, line_number, &words)?;
        let index = streams_to(&self.streams, stream.number());
        self.streams.insert(index, stream)?;
        Ok(())
    }

    // A lose line more, from its name on.
    fn lose(&mut self, line_number: u64, line: &[u8]) -> Result<(), TextError>
        ensures ok { OnOk result (
            with_lose_line (parser_nodes self.old) (parser_view self.old) line_number (lose_words (words line.now))
            ≡ Ok (parser_view self.new)
            ) }
        ensures nodes { parser_nodes self.new ≡ parser_nodes self.old }
        ensures err { IsErrorOf result (
            with_lose_line (parser_nodes self.old) (parser_view self.old) line_number (lose_words (words line.now))
            ) }
    {
        let Some(words) = lose_words(line) else {
            return Err(TextError::bad(line_number, Reason::BadDirective));
        };
        let fault = fault_of(self.topology, &self.faults, line_number, &words)?;
        let index = faults_to(&self.faults, fault.node);
        self.faults.insert(index, fault)?;
        Ok(())
    }

    // A line more that says something.
    fn directive(&mut self, line_number: u64, line: &[u8]) -> Result<(), TextError>
        requires { IsTopology (parser_nodes self.old) }
        ensures ok { OnOk result (
            with_words (parser_nodes self.old) (parser_view self.old) line_number (words line.now)
            ≡ Ok (parser_view self.new)
            ) }
        ensures nodes { parser_nodes self.new ≡ parser_nodes self.old }
        ensures err { IsErrorOf result (
            with_words (parser_nodes self.old) (parser_view self.old) line_number (words line.now)
            ) }
    {
        match next_word(line) {
            Some((word, rest)) => {
                if is_word(word, b"stream") {
                    return self.stream(line_number, rest);
                }
                if is_word(word, b"lose") {
                    return self.lose(line_number, rest);
                }
                Err(TextError::bad(line_number, Reason::BadDirective))
            }
            None => Err(TextError::bad(line_number, Reason::BadDirective)),
        }
    }

    /// The script, after the check of the whole text.
    pub fn finish(self) -> Result<Script, TextError>
        requires { ParserInvariant (parser_nodes self) (parser_view self) }
        ensures ok { IsValueOf result (whole (parser_view self.entry)) }
        ensures fits { IfOk result (λ script. ScriptFits (parser_nodes self.entry) script) }
        ensures err { IsErrorOf result (whole (parser_view self.entry)) }
    {
        if self.streams.is_empty() {
            return Err(TextError::bad(0, Reason::NoStream));
        }
        Ok(Script::new(self.streams, self.faults))
    }
}

impl LineParser for Parser<'_> {
    ghost use Rattle.std.specs.Prelude.{⊤};
    ghost use Rattle.text_lines.specs.Parsing.{TakesBy, RefusesBy};
    ghost use Rattle.script_text.specs.ParserViews.{parser_view, parser_nodes};
    ghost use Rattle.script_text.specs.Whole.{with_line};

    ghost is_ready = { λ parser. ⊤ };

    ghost takes = { TakesBy parser_nodes parser_view with_line };

    ghost refuses = { RefusesBy parser_nodes parser_view with_line };

    fn take(self, line_number: u64, line: &[u8]) -> Result<Self, TextError> {
        if says_nothing(line) {
            return Ok(self);
        }
        self.topology.invariant();
        let mut parser = self;
        parser.directive(line_number, line)?;
        Ok(parser)
    }
}
