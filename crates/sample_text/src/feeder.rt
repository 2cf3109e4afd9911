//! Samples that are read in pieces.

ghost use Rattle.std.specs.Prelude.{◌≡◌, ◌<◌, ◌+◌, ◌^◌, [], ℕ, List, length, IfOk, IfErr, OnOk};
ghost use Rattle.overlay_setup.specs.Topologies.{Nodes};
ghost use Rattle.text_lines.specs.Lines.{lines};
ghost use Rattle.text_lines.specs.Parsing.{TakesLines, RefusesLines};
ghost use Rattle.sample_text.specs.ParserViews.{IsConsistent};
ghost use Rattle.sample_text.specs.Taking.{takes_line, refuses_line};

use crate::parser::Parser;
use overlay_setup::Topology;
use stat_desk::Feed;
use stat_plan::Samples;
use std::alloc::{AllocError, Global};
use text_lines::{TextError, next_line};

// Takes the lines of a text in UTF-8, where so many lines came before them, up to the first that is refused. Returns
// how many lines there are then.
fn take_text_lines(parser: &mut Parser<'_>, before: u64, text: &str) -> Result<u64, TextError>
    requires consistent { IsConsistent parser.old }
    requires room { before + length text.now < 2 ^ 64 }
    ensures taken { OnOk result (TakesLines takes_line parser.old (before + 1) (lines text.now) parser.new) }
    ensures count { IfOk result (λ count. count ≡ before + length (lines text.now)) }
    ensures ready { OnOk result (IsConsistent parser.new) }
    ensures refused { IfErr result
        (λ e. RefusesLines takes_line refuses_line parser.old (before + 1) (lines text.now) e) }
{
    let mut count = before;
    let mut rest = text;
    while !rest.is_empty() {
        rest = parser.take_first_line(count + 1, rest)?;
        count += 1;
    }
    Ok(count)
}

// The same of a text of any bytes.
fn take_other_lines(parser: &mut Parser<'_>, before: u64, text: &[u8]) -> Result<u64, TextError>
    requires consistent { IsConsistent parser.old }
    requires room { before + length text.now < 2 ^ 64 }
    ensures taken { OnOk result (TakesLines takes_line parser.old (before + 1) (lines text.now) parser.new) }
    ensures count { IfOk result (λ count. count ≡ before + length (lines text.now)) }
    ensures ready { OnOk result (IsConsistent parser.new) }
    ensures refused { IfErr result
        (λ e. RefusesLines takes_line refuses_line parser.old (before + 1) (lines text.now) e) }
{
    let mut count = before;
    let mut rest = text;
    while let Some((line, after)) = next_line(rest) {
        parser.take_line(count + 1, line)?;
        count += 1;
        rest = after;
    }
    Ok(count)
}

// The same: a text in UTF-8 is tested once, and of another text each line.
fn take_lines(parser: &mut Parser<'_>, before: u64, text: &[u8]) -> Result<u64, TextError>
    requires consistent { IsConsistent parser.old }
    requires room { before + length text.now < 2 ^ 64 }
    ensures taken { OnOk result (TakesLines takes_line parser.old (before + 1) (lines text.now) parser.new) }
    ensures count { IfOk result (λ count. count ≡ before + length (lines text.now)) }
    ensures ready { OnOk result (IsConsistent parser.new) }
    ensures refused { IfErr result
        (λ e. RefusesLines takes_line refuses_line parser.old (before + 1) (lines text.now) e) }
{
    match str::from_utf8(text) {
        Ok(text) => take_text_lines(parser, before, text),
        Err(_) => take_other_lines(parser, before, text),
    }
}

/// Samples that are read in pieces, wherever these are cut. Each line is parsed as soon as its line feed is fed.
#[derive(Drop)]
pub struct Feeder<'t> {
    // What was parsed of the lines that are whole.
    parser: Parser<'t>,
    // How many these are.
    count: u64,
    // The bytes after them.
    cut_line: Vec<u8>,
    // The first error.
    error: Option<TextError>,
}

impl<'t> Feeder<'t> {
    ghost use Rattle.stat_plan.specs.Invariants.{SamplesFit};
    ghost use Rattle.text_lines.specs.Parsing.{IsValueOf, IsErrorOf};
    ghost use Rattle.sample_text.specs.Whole.{samples_of_text};
    ghost use Rattle.sample_text.specs.Feeding.{HasRead, RefusesPiece, TakesPiece, MayTake, nodes_of};

    /// Samples of a topology's nodes, of which nothing was fed yet.
    pub fn new(alloc: Global, topology: &'t Topology) -> Result<Feeder<'t>, AllocError>
        ensures nodes { IfOk result (λ feeder. nodes_of feeder ≡ topology.now) }
        ensures read { IfOk result (λ feeder. HasRead (nodes_of feeder) feeder []) }
    {
        Ok(Feeder {
            parser: Parser::new(alloc, topology)?,
            count: 0,
            cut_line: Vec::new(alloc),
            error: None,
        })
    }

    // Takes a piece that begins with a line.
    fn take_uncut(&mut self, piece: &[u8]) -> Result<(), TextError>
        requires room { MayTake self.old piece.now }
        requires uncut { self.old.cut_line.items ≡ [] }
        ensures ok { OnOk result (TakesPiece self.old piece.now self.new) }
        ensures err { IfErr result (RefusesPiece self.old piece.now) }
    {
        let Some(last) = memchr::memrchr(b'\n', piece) else {
            self.cut_line.extend_from_slice(piece)?;
            return Ok(());
        };
        let (whole, rest) = piece.split_at(last + 1);
        self.count = take_lines(&mut self.parser, self.count, whole)?;
        self.cut_line.extend_from_slice(rest)?;
        Ok(())
    }

    // Takes a piece, where no line was refused before.
    fn take(&mut self, piece: &[u8]) -> Result<(), TextError>
        requires room { MayTake self.old piece.now }
        ensures ok { OnOk result (TakesPiece self.old piece.now self.new) }
        ensures err { IfErr result (RefusesPiece self.old piece.now) }
    {
        if self.cut_line.is_empty() {
            return self.take_uncut(piece);
        }
        let Some(first) = memchr::memchr(b'\n', piece) else {
            self.cut_line.extend_from_slice(piece)?;
            return Ok(());
        };
        let (end, rest) = piece.split_at(first + 1);
        self.cut_line.extend_from_slice(end)?;
        self.count = take_lines(&mut self.parser, self.count, self.cut_line.as_slice())?;
        self.cut_line.clear();
        self.take_uncut(rest)
    }

    /// The samples of all that was fed, after the check of the whole text, or the first error.
    pub fn finish(self) -> Result<Samples, TextError>
        requires { (t : Nodes) × ((text : List ℕ) × (HasRead t self text × (length text < 2 ^ 64))) }
        ensures ok { (t : Nodes) (text : List ℕ) → HasRead t self.entry text
            → IsValueOf result (samples_of_text t text) }
        ensures fits { (t : Nodes) (text : List ℕ) → HasRead t self.entry text
            → IfOk result (λ samples. SamplesFit t samples) }
        ensures err { (t : Nodes) (text : List ℕ) → HasRead t self.entry text
            → IsErrorOf result (samples_of_text t text) }
    {
        if let Some(error) = self.error {
            return Err(error);
        }
        let mut parser = self.parser;
        take_lines(&mut parser, self.count, self.cut_line.as_slice())?;
        parser.finish()
    }
}

impl Feed for Feeder<'_> {
    ghost use Rattle.sample_text.specs.Feeding.{HasRead, nodes_of};

    ghost feeds = { λ start text feeder. HasRead (nodes_of start) feeder text };

    fn feed(&mut self, piece: &[u8]) {
        if self.error.is_none() {
            self.error = self.take(piece).err();
        }
    }
}
