//! What a samples text says: where the ranks are, and the paths that they were seen in.

ghost use Rattle.std.specs.Prelude.{◌≡◌, ◌<◌, ℕ, IfOk, length, map, slice_index_or};
ghost use Rattle.rank_set.specs.Ranks.{Has, none};
ghost use Rattle.overlay_setup.specs.NodeSets.{In};
ghost use Rattle.call_path.specs.Functions.{func};
ghost use Rattle.stat_plan.specs.Samples.{path_by};
ghost use Rattle.stat_plan.specs.Shown.{AreLinesParted, AreNumbered, held_lines, lines_view, wave_lines_view};
ghost use Rattle.stat_plan.specs.Invariants.{AreSamples};
ghost use Rattle.stat_plan.specs.OwnLines.{AreWaveLines, HasRankOn};
ghost use Rattle.stat_plan.specs.PathOrder.{IsOrderOf};
ghost use Rattle.stat_plan.specs.Plans.{sampled};

use crate::line_list::LineList;
use crate::parted_lines::{PartedLines, parted_lines};
use crate::path_order::{in_order, path_places};
use crate::wave_lines::{HeldLines, Wanted, node_lines, united_lines};
use call_path::{CallPath, functions_of};
use overlay_setup::{Grain, WaveTimes};
use rank_set::RankSet;
use std::alloc::{AllocError, Global};
use std::marker::Model;
use std::snapshot::Snapshot;

/// The last time that a sample may have.
pub const TIME_LIMIT: u32 = 65_535;

/// The most lines that give a sample.
pub const LINE_LIMIT: u32 = 262_144;

/// One line of samples: at a time, each of some ranks was seen in a path.
#[derive(Drop)]
pub struct StackLine {
    // The two numbers stand together, since each between other fields would take up eight bytes.
    /// The number of the sample time: 0 to `TIME_LIMIT`.
    pub time: u32,
    /// The number of the path among the paths of the samples.
    pub path: u32,
    /// The ranks, at least one.
    pub ranks: RankSet,
}

/// Lines of samples as they are kept, with the numbers of their paths.
#[derive(Clone, Copy)]
pub(crate) struct Lines<'a> {
    /// The lines in the order of the text, for contracts alone.
    pub lines: &'a Snapshot<LineList>,
    /// The ranks of each node.
    pub placed: &'a [RankSet],
    /// The lines, parted by nodes.
    pub parted: &'a PartedLines,
    /// The paths by number.
    pub paths: &'a [CallPath],
    /// The functions of each path, by its number.
    pub functions: &'a [CallPath],
    /// The numbers of the paths in the order of the paths.
    pub order: &'a [usize],
}

impl<'a> Lines<'a> {
    /// The paths as a stream of some grain sees them, by number.
    pub fn paths_by(&self, grain: Grain) -> &'a [CallPath]
        requires { self.now.functions.now ≡ map (map func) self.now.paths.now }
        ensures { result.now ≡ map (path_by grain) self.now.paths.now }
    {
        match grain {
            Grain::Line => self.paths,
            Grain::Function => self.functions,
        }
    }
}

/// Samples of a wave, of some ranks.
#[derive(Drop)]
pub struct WaveLines<'a> {
    lines: HeldLines<'a>,
    // The paths by number.
    paths: &'a [CallPath],
    // The functions of each path, by its number.
    functions: &'a [CallPath],
}

impl<'a> WaveLines<'a> {
    /// The lines, in the order of their paths.
    pub fn lines(&self) -> &[StackLine]
        ensures { result.now ≡ held_lines self.now.lines }
    {
        match &self.lines {
            HeldLines::Kept(lines) => lines,
            HeldLines::Made(lines) => lines.as_slice(),
        }
    }

    /// The paths as a stream of some grain sees them, by number.
    pub fn paths_by(&self, grain: Grain) -> &'a [CallPath]
        requires { AreNumbered self.now }
        ensures { result.now ≡ map (path_by grain) self.now.paths.now }
    {
        match grain {
            Grain::Line => self.paths,
            Grain::Function => self.functions,
        }
    }
}

/// Where the ranks of a job are, and the samples in the order of their text. Each path is kept once, and has a number.
#[derive(Drop)]
pub struct Samples {
    placed: Vec<RankSet>,
    paths: Vec<CallPath>,
    // The functions of each path, by its number.
    functions: Vec<CallPath>,
    // The numbers of the paths in the order of the paths.
    order: Vec<usize>,
    // The lines in the order of the text, for contracts alone.
    lines: Snapshot<LineList>,
    // By path number, the place of the path in the order of the paths.
    places: Vec<usize>,
    // The lines, by the nodes whose ranks they list.
    parted: PartedLines,
}

impl Model for Samples {
    ghost use Rattle.stat_plan.specs.Plans.{Sampled, sampled};
    ghost use Rattle.stat_plan.specs.Codes.{coded_sampled};

    ghost Value = { Sampled };

    ghost coded = { coded_sampled };

    ghost use Rattle.std.specs.Prelude.{◌≡◌, map};
    ghost use Rattle.call_path.specs.Functions.{func};
    ghost use Rattle.stat_plan.specs.StackLines.{lines_of, PathIndicesInRange};
    ghost use Rattle.stat_plan.specs.Invariants.{AreSamples};
    ghost use Rattle.stat_plan.specs.OwnLines.{AreIndexed, AreParted, ranks_of_lines};
    ghost use Rattle.stat_plan.specs.PathOrder.{IsOrderOf};
    ghost use Rattle.overlay_setup.specs.Tables.{rows_view};

    ghost view = { λ a. sampled a.placed.items (lines_of a.paths.items a.lines.value) };

    ghost invariant = { λ a.
        PathIndicesInRange a.paths.items a.lines.value
        × AreSamples (sampled a.placed.items (lines_of a.paths.items a.lines.value))
        × (a.functions.items ≡ map (map func) a.paths.items)
        × IsOrderOf a.paths.items a.order.items
        × AreParted a.placed.items a.lines.value a.parted.spread.items (rows_view a.parted.rows.items)
        × AreIndexed a.placed.items (ranks_of_lines a.parted.spread.items) a.parted.numbers.items };
}

impl Samples {
    ghost use Rattle.stat_plan.specs.StackLines.{lines_of, PathIndicesInRange};

    /// The samples of these ranks by node number, and these lines, whose paths stand by their numbers. The lines are
    /// kept parted alone: their list is let go.
    pub fn new(
        alloc: Global,
        placed: Vec<RankSet>,
        paths: Vec<CallPath>,
        lines: LineList,
    ) -> Result<Samples, AllocError>
        requires numbered { PathIndicesInRange paths.items lines }
        requires samples { AreSamples (sampled placed.items (lines_of paths.items lines)) }
        ensures { IfOk result (λ samples. samples ≡ sampled placed.items (lines_of paths.items lines)) }
    {
        let functions = functions_of(alloc, &paths)?;
        let order = in_order(alloc, &paths)?;
        let places = path_places(alloc, &paths, &order)?;
        let parted = parted_lines(alloc, &placed, &lines, &places)?;
        Ok(Samples {
            placed,
            paths,
            functions,
            order,
            lines: Snapshot::of(&lines),
            places,
            parted,
        })
    }

    /// The same ranks, with these lines in place of the samples. Their paths stand by their numbers.
    pub fn with_lines(
        self,
        alloc: Global,
        paths: Vec<CallPath>,
        lines: LineList,
    ) -> Result<Samples, AllocError>
        requires numbered { PathIndicesInRange paths.items lines }
        requires samples { AreSamples (sampled self.placed (lines_of paths.items lines)) }
        ensures { IfOk result (λ samples. samples ≡ sampled self.placed (lines_of paths.items lines)) }
    {
        let Samples { placed, .. } = self;
        Samples::new(alloc, placed, paths, lines)
    }

    /// The invariant of samples, for the prover. It does nothing.
    pub fn invariant(&self)
        ensures { AreSamples self.now }
    {
        // for the proof: the invariant of the value
        let _ = &self.placed;
    }

    /// The ranks of each node, by node number; empty if it is not a daemon.
    pub fn placed(&self) -> &[RankSet]
        ensures { result.now ≡ self.now.placed }
    {
        self.placed.as_slice()
    }

    /// The lines as they are kept.
    pub(crate) fn lines(&self) -> Lines<'_>
        ensures lines { lines_view result ≡ self.now.lines }
        ensures numbered { PathIndicesInRange result.paths.now result.lines.now.value }
        ensures placed { result.placed.now ≡ self.now.placed }
        ensures parted { AreLinesParted result }
        ensures functions { result.functions.now ≡ map (map func) result.paths.now }
        ensures order { IsOrderOf result.paths.now result.order.now }
    {
        Lines {
            lines: &self.lines,
            placed: self.placed.as_slice(),
            parted: &self.parted,
            paths: self.paths.as_slice(),
            functions: self.functions.as_slice(),
            order: self.order.as_slice(),
        }
    }

    /// A node's samples of a wave, in the order of their paths.
    pub fn own_lines(&self, n: u32, times: WaveTimes) -> Result<WaveLines<'_>, AllocError>
        requires { n < length self.now.placed }
        ensures samples { IfOk result (λ own. AreWaveLines times.samples times.wave
            (slice_index_or self.now.placed n none) self.now.lines (wave_lines_view own)) }
        ensures numbered { IfOk result AreNumbered }
    {
        let own = &self.placed[n as usize];
        let lines = node_lines(&self.parted, &self.places, n, own, times)?;
        Ok(WaveLines {
            lines,
            paths: self.paths.as_slice(),
            functions: self.functions.as_slice(),
        })
    }

    /// The wanted samples, one line for each path in which ranks were seen, in the order of the paths.
    pub fn wave_lines(&self, alloc: Global, wanted: Wanted<'_>) -> Result<WaveLines<'_>, AllocError>
        requires times { 0 < wanted.times.samples }
        requires daemons { (d : ℕ) → In d wanted.daemons.now → d < length self.now.placed }
        requires ranks { (r : ℕ) → Has r wanted.ranks.now → HasRankOn self.now.placed wanted.daemons.now r }
        ensures samples { IfOk result (λ all. AreWaveLines wanted.entry.times.samples wanted.entry.times.wave
            wanted.entry.ranks.now self.now.lines (wave_lines_view all)) }
        ensures numbered { IfOk result AreNumbered }
    {
        let count = self.paths.len();
        let lines = united_lines(alloc, &self.parted, &self.places, count, wanted)?;
        Ok(WaveLines {
            lines: HeldLines::Made(lines),
            paths: self.paths.as_slice(),
            functions: self.functions.as_slice(),
        })
    }
}
