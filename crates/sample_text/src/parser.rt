//! What is parsed of a samples text so far.

ghost use Rattle.std.specs.Prelude.{◌≡◌, ◌<◌, not, nat_lt, length, IfOk, IfErr, IfSome, OnOk, true, Ok, Err};
ghost use Rattle.rank_set.specs.Ranks.{none, union, has};
ghost use Rattle.rank_set.specs.Runs.{ranks_between};
ghost use Rattle.text_lines.specs.Parsing.{IsValueOf, IsErrorOf};
ghost use Rattle.sample_text.specs.Steps.{daemon_on, time_on, are_disjoint, add_at};
ghost use Rattle.sample_text.specs.Whole.{empty_sets, lacks_rank};

use crate::paths::Paths;
use crate::words::{
    Line, OneRank, OneRankStart, one_rank_line, one_rank_start, read_line, read_other_line,
};
use overlay_setup::Topology;
use rank_set::{RANK_LIMIT, RankSet};
use stat_plan::{LINE_LIMIT, LineList, Samples, TIME_LIMIT};
use std::alloc::{AllocError, Global};
use text_lines::{Quantity, Reason, TextError, next_text_line, number_in, ranks_on};

/// The ranks by node number, and the samples.
#[derive(Drop)]
pub struct Parser<'t> {
    topology: &'t Topology,
    placed: Vec<RankSet>,
    // All ranks that are placed.
    all: RankSet,
    paths: Paths,
    lines: LineList,
}

// `count` empty sets.
fn empty_sets(alloc: Global, count: u32) -> Result<Vec<RankSet>, AllocError>
    ensures { IfOk result (λ sets. sets.items ≡ empty_sets count) }
{
    let mut sets = Vec::new(alloc);
    for _ in 0..count {
        sets.push(RankSet::new(alloc))?;
    }
    Ok(sets)
}

// The number of the daemon with this name.
#[tactic(auto, unfolding(crate::specs::Steps::daemon_on))]
fn daemon_on(topology: &Topology, line_number: u64, name: &[u8]) -> Result<u32, TextError>
    ensures ok { IsValueOf result (daemon_on topology.now line_number name.now) }
    ensures node { IfOk result (λ n. n < length topology.now.parents) }
    ensures err { IfErr result (λ e. daemon_on topology.now line_number name.now ≡ Err e) }
{
    match topology.daemon_named(name) {
        Some(n) => Ok(n),
        None => Err(TextError::bad(line_number, Reason::NotADaemon)),
    }
}

// The time that a word writes.
#[tactic(auto, unfolding(crate::specs::Steps::time_on))]
fn time_on(line_number: u64, word: &[u8]) -> Result<u32, TextError>
    ensures ok { IsValueOf result (time_on line_number word.now) }
    ensures err { IfErr result (λ e. time_on line_number word.now ≡ Err e) }
{
    match number_in(word, TIME_LIMIT + 1) {
        Some(time) if time <= TIME_LIMIT => Ok(time),
        _ => Err(TextError::bad(line_number, Reason::BadTime)),
    }
}

// Whether none of some ranks is one of others.
#[tactic(auto, unfolding(crate::specs::Steps::are_disjoint))]
fn are_disjoint(ranks: &RankSet, others: &RankSet) -> bool
    ensures { result ≡ are_disjoint ranks.now others.now }
{
    ranks.is_disjoint(others)
}

// Gives more ranks to one of the sets.
fn add_at(sets: &mut Vec<RankSet>, n: u32, ranks: &RankSet) -> Result<(), AllocError>
    requires { n < length sets.old.items }
    ensures { OnOk result (sets.new.items ≡ add_at sets.old.items n ranks.now) }
{
    sets[n as usize].union_into(ranks)?;
    Ok(())
}

// Whether a daemon has no rank.
fn lacks_rank(topology: &Topology, placed: &[RankSet]) -> bool
    requires { length placed.now ≡ length topology.now.parents }
    ensures { result ≡ lacks_rank topology.now.parents 0 placed.now }
{
    for n in 0..topology.nodes() {
        if topology.is_daemon(n) && placed[n as usize].is_empty() {
            return true;
        }
    }
    false
}

impl<'t> Parser<'t> {
    ghost use Rattle.sample_text.specs.Steps.{sample, with_sample_line, with_daemon, with_stack, with_sample, with_one_rank};
    ghost use Rattle.sample_text.specs.Taking.{takes_line, refuses_line, TakesFirstLine, RefusesFirstLine};
    ghost use Rattle.sample_text.specs.Whole.{nothing_parsed, whole};
    ghost use Rattle.sample_text.specs.Invariants.{ParserInvariant};
    ghost use Rattle.sample_text.specs.ParserViews.{path_at, parser_view, parser_nodes, BeginsWithPath, IsConsistent};
    ghost use Rattle.stat_plan.specs.Invariants.{SamplesFit};

    /// A parser before the first line.
    pub fn new(alloc: Global, topology: &'t Topology) -> Result<Parser<'t>, AllocError>
        ensures view { IfOk result (λ parser. parser_view parser ≡ nothing_parsed topology.now) }
        ensures nodes { IfOk result (λ parser. parser_nodes parser ≡ topology.now) }
        ensures consistent { IfOk result (λ parser. IsConsistent parser) }
    {
        Ok(Parser {
            topology,
            placed: empty_sets(alloc, topology.nodes())?,
            all: RankSet::new(alloc),
            paths: Paths::new(alloc),
            lines: LineList::new(alloc),
        })
    }

    // A line `daemon NAME RANKS`.
    fn daemon(&mut self, line_number: u64, name: &[u8], word: &[u8]) -> Result<(), TextError>
        requires { IsConsistent self.old }
        ensures ok { OnOk result (
            with_daemon (parser_nodes self.old) (parser_view self.old) line_number name.now word.now
            ≡ Ok (parser_view self.new)
            ) }
        ensures nodes { parser_nodes self.new ≡ parser_nodes self.old }
        ensures consistent { OnOk result (IsConsistent self.new) }
        ensures err { IsErrorOf result (
            with_daemon (parser_nodes self.old) (parser_view self.old) line_number name.now word.now
            ) }
    {
        let n = daemon_on(self.topology, line_number, name)?;
        let ranks = ranks_on(*self.placed.allocator(), line_number, word)?;
        if !are_disjoint(&ranks, &self.all) {
            return Err(TextError::bad(line_number, Reason::PlacedTwice));
        }
        self.all.union_into(&ranks)?;
        add_at(&mut self.placed, n, &ranks)?;
        Ok(())
    }

    // Whether there may be no line more.
    fn is_full(&self) -> bool
        ensures { result ≡ not (nat_lt (length self.now.lines) LINE_LIMIT) }
    {
        self.lines.len() >= LINE_LIMIT as usize
    }

    // A sample of ranks at a time, in the path that a text writes.
    #[inline(always)]
    fn sample(
        &mut self,
        line_number: u64,
        time: u32,
        ranks: RankSet,
        text: &str,
    ) -> Result<(), TextError>
        requires ready { IsConsistent self.old }
        requires room { length self.old.lines < LINE_LIMIT }
        ensures ok { OnOk result (
            with_sample (parser_view self.old) line_number time ranks text.now ≡ Ok (parser_view self.new)
            ) }
        ensures nodes { parser_nodes self.new ≡ parser_nodes self.old }
        ensures consistent { OnOk result (IsConsistent self.new) }
        ensures err { IsErrorOf result (with_sample (parser_view self.old) line_number time ranks text.now) }
    {
        if !ranks.is_subset(&self.all) {
            return Err(TextError::bad(line_number, Reason::Unplaced));
        }
        let path = self.paths.number(line_number, text)?;
        self.lines.push(time, path, ranks)?;
        Ok(())
    }

    // A sample of one rank at a time, in the path that a text writes.
    #[inline(always)]
    fn sample_of_one(
        &mut self,
        line_number: u64,
        time: u32,
        rank: u32,
        text: &str,
    ) -> Result<(), TextError>
        requires ready { IsConsistent self.old }
        requires room { length self.old.lines < LINE_LIMIT }
        requires below_limit { rank < RANK_LIMIT }
        ensures ok { OnOk result (
            with_sample (parser_view self.old) line_number time (union none (ranks_between rank rank)) text.now
            ≡ Ok (parser_view self.new)
            ) }
        ensures nodes { parser_nodes self.new ≡ parser_nodes self.old }
        ensures consistent { OnOk result (IsConsistent self.new) }
        ensures err { IsErrorOf result (
            with_sample (parser_view self.old) line_number time (union none (ranks_between rank rank)) text.now
            ) }
    {
        if !self.all.contains(rank) {
            return Err(TextError::bad(line_number, Reason::Unplaced));
        }
        let path = self.paths.number(line_number, text)?;
        self.lines.push_one(time, path, rank)?;
        Ok(())
    }

    // A line `stack TIME RANKS PATH`.
    fn stack(
        &mut self,
        line_number: u64,
        time: &[u8],
        word: &[u8],
        text: &str,
    ) -> Result<(), TextError>
        requires { IsConsistent self.old }
        ensures ok { OnOk result (
            with_stack (parser_view self.old) line_number time.now word.now text.now ≡ Ok (parser_view self.new)
            ) }
        ensures nodes { parser_nodes self.new ≡ parser_nodes self.old }
        ensures consistent { OnOk result (IsConsistent self.new) }
        ensures err { IsErrorOf result (with_stack (parser_view self.old) line_number time.now word.now text.now) }
    {
        if self.is_full() {
            return Err(TextError::over(line_number, Quantity::Lines, LINE_LIMIT));
        }
        let time = time_on(line_number, time)?;
        let ranks = ranks_on(*self.placed.allocator(), line_number, word)?;
        self.sample(line_number, time, ranks, text)
    }

    // A line `stack TIME RANKS PATH` that lists one rank.
    #[inline(always)]
    fn one_rank(&mut self, line_number: u64, one: OneRank<'_>) -> Result<(), TextError>
        requires ready { IsConsistent self.old }
        requires below_limit { one.rank < RANK_LIMIT }
        ensures ok { OnOk result (with_one_rank (parser_view self.old) line_number one.entry.time one.entry.rank
            one.entry.path.now ≡ Ok (parser_view self.new)) }
        ensures nodes { parser_nodes self.new ≡ parser_nodes self.old }
        ensures consistent { OnOk result (IsConsistent self.new) }
        ensures err { IsErrorOf result (with_one_rank (parser_view self.old) line_number one.entry.time
            one.entry.rank one.entry.path.now) }
    {
        if self.is_full() {
            return Err(TextError::over(line_number, Quantity::Lines, LINE_LIMIT));
        }
        self.sample_of_one(line_number, one.time, one.rank, one.path)
    }

    // Takes the next line, which is UTF-8 and of any kind.
    #[inline(never)]
    fn take_any_text(&mut self, line_number: u64, line: &str) -> Result<(), TextError>
        requires { IsConsistent self.old }
        ensures taken { OnOk result (takes_line self.old line_number line.now self.new) }
        ensures ready { OnOk result (IsConsistent self.new) }
        ensures refused { IfErr result (λ e. refuses_line self.old line_number line.now e) }
    {
        match read_line(line_number, line)? {
            Line::Nothing => Ok(()),
            Line::Daemon { name, ranks } => self.daemon(line_number, name, ranks),
            Line::Stack { time, ranks, path } => self.stack(line_number, time, ranks, path),
        }
    }

    // The number of the path that was given last, and what is left of a text, where the text goes on with that path and
    // the line may be taken: there is room, and its rank is placed.
    #[inline(always)]
    fn cut_same_path<'s>(&self, start: &OneRankStart<'s>) -> Option<(u32, &'s str)>
        requires { IsConsistent self.now }
        ensures path { IfSome result (λ cut. BeginsWithPath self.now.paths start.now.rest.now cut.0 cut.1.now) }
        ensures shorter { IfSome result (λ cut. length cut.1.now < length start.now.rest.now) }
        ensures room { IfSome result (λ _. length self.now.lines < LINE_LIMIT) }
        ensures placed { IfSome result (λ _. has self.now.all start.now.rank ≡ true) }
    {
        if self.is_full() || !self.all.contains(start.rank) {
            return None;
        }
        self.paths.cut_last(start.rest)
    }

    // A sample of a placed rank at a time, in the path with a number.
    #[inline(always)]
    fn push_one_rank(&mut self, time: u32, rank: u32, path: u32) -> Result<(), AllocError>
        requires ready { IsConsistent self.old }
        requires below_limit { rank < RANK_LIMIT }
        requires within { path < length self.old.paths.paths.items }
        ensures ok { OnOk result (
            parser_view self.new ≡ with_sample_line (parser_view self.old) (
            sample time (union none (ranks_between rank rank)) (path_at self.old.paths path)
            )
            ) }
        ensures nodes { parser_nodes self.new ≡ parser_nodes self.old }
        ensures consistent { OnOk result (IsConsistent self.new) }
    {
        self.lines.push_one(time, path, rank)?;
        Ok(())
    }

    /// Takes the first line of a text, and returns what is left of the text. The usual line, of one rank in the path of
    /// the line before it, is taken without a search for its end.
    #[inline(always)]
    pub fn take_first_line<'s>(
        &mut self,
        line_number: u64,
        text: &'s str,
    ) -> Result<&'s str, TextError>
        requires ready { IsConsistent self.old }
        requires not_empty { 0 < length text.now }
        ensures taken { IfOk result (λ after. TakesFirstLine self.old line_number text.now self.new after.now) }
        ensures shorter { IfOk result (λ after. length after.now < length text.now) }
        ensures ready { OnOk result (IsConsistent self.new) }
        ensures refused { IfErr result (λ e. RefusesFirstLine self.old line_number text.now e) }
    {
        if let Some(start) = one_rank_start(text) {
            if let Some((path, after)) = self.cut_same_path(&start) {
                self.push_one_rank(start.time, start.rank, path)?;
                return Ok(after);
            }
            if let Some((path, after)) = next_text_line(start.rest) {
                if !path.is_empty() {
                    let (time, rank) = (start.time, start.rank);
                    self.one_rank(line_number, OneRank { time, rank, path })?;
                    return Ok(after);
                }
            }
        }
        let Some((line, after)) = next_text_line(text) else {
            unreachable!()
        };
        self.take_any_text(line_number, line)?;
        Ok(after)
    }

    /// Takes the next line, which is UTF-8.
    #[inline(always)]
    pub fn take_text(&mut self, line_number: u64, line: &str) -> Result<(), TextError>
        requires { IsConsistent self.old }
        ensures taken { OnOk result (takes_line self.old line_number line.now self.new) }
        ensures ready { OnOk result (IsConsistent self.new) }
        ensures refused { IfErr result (λ e. refuses_line self.old line_number line.now e) }
    {
        if let Some(one) = one_rank_line(line) {
            return self.one_rank(line_number, one);
        }
        self.take_any_text(line_number, line)
    }

    /// Takes the next line, whose bytes may be any.
    pub fn take_line(&mut self, line_number: u64, line: &[u8]) -> Result<(), TextError>
        requires { IsConsistent self.old }
        ensures taken { OnOk result (takes_line self.old line_number line.now self.new) }
        ensures ready { OnOk result (IsConsistent self.new) }
        ensures refused { IfErr result (λ e. refuses_line self.old line_number line.now e) }
    {
        match str::from_utf8(line) {
            Ok(line) => self.take_text(line_number, line),
            Err(_) => read_other_line(line_number, line),
        }
    }

    /// The samples, after the check of the whole text.
    pub fn finish(self) -> Result<Samples, TextError>
        requires consistent { IsConsistent self }
        requires invariant { ParserInvariant (parser_nodes self) (parser_view self) }
        ensures ok { IsValueOf result (whole (parser_nodes self.entry) (parser_view self.entry)) }
        ensures fits { IfOk result (λ samples. SamplesFit (parser_nodes self.entry) samples) }
        ensures err { IsErrorOf result (whole (parser_nodes self.entry) (parser_view self.entry)) }
    {
        if lacks_rank(self.topology, &self.placed) {
            return Err(TextError::bad(0, Reason::DaemonWithoutRank));
        }
        let alloc = *self.placed.allocator();
        let paths = self.paths.into_paths();
        Ok(Samples::new(alloc, self.placed, paths, self.lines)?)
    }
}
