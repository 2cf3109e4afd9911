//! Reads scripts: lines that define the streams of a job, as `stream 0 wait-for-all waves 1 samples 4 on all`, and
//! lines that lose its nodes, as `lose a:0 after 3 keep 1`.
//!
//! `script_of` says what a text means: its streams, ascending by number, and its losses, ascending by node, or its
//! first error. [`read`] gives exactly that.
#![tactic(auto)]

ghost use Rattle.std.specs.Prelude.{◌≡◌, IfOk, Ok};
ghost use Rattle.overlay_setup.specs.Scripts.{ScriptFits, Scripted};
ghost use Rattle.text_lines.specs.Parsing.{IsValueOf, IsErrorOf};
ghost use Rattle.script_text.specs.Grammar.{IsAcceptable};
ghost use Rattle.script_text.specs.Whole.{script_of};

mod lose_line;
mod numbers;
mod parser;
mod stream_line;
mod words;

use overlay_setup::{Script, Topology};
use parser::Parser;
use std::alloc::Global;
use text_lines::{TextError, read_lines};

/// Reads a script for a job with these nodes. The bytes of comments may be any; elsewhere the text is refused by its
/// first error, line by line and in a line from the front, and after the last line because it has no stream. While
/// memory lasts, exactly those texts are accepted of which each line says nothing, defines a stream of a new number, or
/// loses a node other than the front end for the first time, with at most 256 `lose` lines and a stream:
/// `IsAcceptable`. The streams are those of the `stream` lines and the losses those of the `lose` lines: `IsWritten`.
///
/// # Errors
///
/// The first error with its line, or [`TextError::OutOfMemory`].
pub fn read(alloc: Global, text: &[u8], topology: &Topology) -> Result<Script, TextError>
    ensures ok { IsValueOf result (script_of topology.now text.now) }
    ensures written { IfOk result (λ script. IsAcceptable topology.now text.now script) }
    ensures fits { IfOk result (λ script. ScriptFits topology.now script) }
    ensures err { IsErrorOf result (script_of topology.now text.now) }
    ensures accepted { (script : Scripted) → IsAcceptable topology.now text.now script →
        script_of topology.now text.now ≡ Ok script }
{
    topology.invariant();
    let empty = Parser::new(alloc, topology);
    let parser = read_lines(text, empty)?;
    parser.finish()
}
