//! A plan: what the three files of a job say together, with tables for its look-ups.

ghost use Rattle.std.specs.Prelude.{◌≡◌, ◌<◌, ℕ, IfErr, IfOk, IsSome, None, Some, []};
ghost use Rattle.stat_plan.specs.Files.{DoFit, plan_in};
ghost use Rattle.stat_plan.specs.Invariants.{IsPlan, SamplesFit};
ghost use Rattle.overlay_setup.specs.Scripts.{ScriptFits};
ghost use Rattle.stat_plan.specs.Limits.{RefusesAt, first_over};
ghost use Rattle.overlay_setup.specs.Names.{name_of, number_of};
ghost use Rattle.overlay_setup.specs.NodeSets.{In};
ghost use Rattle.stat_plan.specs.OwnLines.{AreWaveLines};
ghost use Rattle.stat_plan.specs.Plans.{ancestors, expected, fault, front, is_under, nodes, plan_of, ranks, ranks_on, serves, stream_of, with_lines};
ghost use Rattle.stat_plan.specs.StackLines.{PathIndicesInRange, lines_of};
ghost use Rattle.stat_plan.specs.Shown.{AreNumbered, IsStreamOf, wave_lines_view};
ghost use Rattle.stat_plan.specs.Tables.{AreAllExpected, AreFaults};
ghost use Rattle.overlay_setup.specs.Tables.{rows_view, ancestors_table};
ghost use Rattle.overlay_setup.specs.Trees.{is_daemon};

use crate::expected::expected_sets;
use crate::files::Files;
use crate::limit::check_limit;
use crate::line_list::LineList;
use crate::plan_error::PlanError;
use crate::samples::{Samples, WaveLines};
use crate::wave_lines::Wanted;
use call_path::CallPath;
use overlay_setup::{Fault, Script, StreamDef, Topology, WaveTimes, ancestors_table, stream_index};
use rank_set::RankSet;
use std::alloc::{AllocError, Global};
use std::marker::Model;

/// What the three files of a job say together.
#[derive(Drop)]
pub struct Plan {
    topology: Topology,
    samples: Samples,
    script: Script,
    // By node number, nearest first.
    ancestors: Vec<Vec<u32>>,
    // By index of the stream, then by node number.
    expected: Vec<Vec<RankSet>>,
    // By node number.
    faults: Vec<Option<Fault>>,
}

impl Model for Plan {
    ghost use Rattle.stat_plan.specs.Plans.{Plan, plan_of};
    ghost use Rattle.stat_plan.specs.Codes.{coded_plan};

    ghost Value = { Plan };

    ghost coded = { coded_plan };

    ghost use Rattle.stat_plan.specs.Invariants.{IsPlan};
    ghost use Rattle.stat_plan.specs.Tables.{AreTables};
    ghost use Rattle.overlay_setup.specs.Tables.{rows_view};

    ghost view = { λ a. plan_of a.topology a.samples a.script };

    ghost invariant = { λ a.
        IsPlan (plan_of a.topology a.samples a.script)
        × AreTables (plan_of a.topology a.samples a.script)
        (rows_view a.ancestors.items) (rows_view a.expected.items) a.faults.items };
}

// By index of the stream, the ranks that each node expects of it.
fn expected_tables(
    alloc: Global,
    files: Files<'_>,
    above: &[Vec<u32>],
) -> Result<Vec<Vec<RankSet>>, AllocError>
    requires files { DoFit files }
    requires above { rows_view above.now ≡ ancestors_table files.topology.now.parents }
    ensures { IfOk result (λ tables.
        AreAllExpected (plan_in files.entry) files.entry.script.now.streams (rows_view tables.items)) }
{
    files.invariant();
    let mut tables = Vec::new(alloc);
    for stream in files.script.streams() {
        tables.push(expected_sets(alloc, files, above, stream.daemons())?)?;
    }
    Ok(tables)
}

// By node number, the fault of each node that is to be lost.
fn fault_table(alloc: Global, files: Files<'_>) -> Result<Vec<Option<Fault>>, AllocError>
    requires { DoFit files }
    ensures { IfOk result (λ table. AreFaults (plan_in files.entry) table.items) }
{
    files.invariant();
    let mut table = vec![in alloc; None; files.topology.nodes() as usize]?;
    for f in files.script.faults() {
        table[f.node as usize] = Some(*f);
    }
    Ok(table)
}

impl Plan {
    /// The plan of three files that fit together.
    ///
    /// # Errors
    ///
    /// `TooManyPrefixes` names the first wave, by stream and wave, whose samples have more than 2,048 distinct
    /// prefixes.
    pub fn build(
        alloc: Global,
        topology: Topology,
        samples: Samples,
        script: Script,
    ) -> Result<Plan, PlanError>
        requires samples { SamplesFit topology samples }
        requires script { ScriptFits topology script }
        ensures ok { IfOk result (λ p. p ≡ plan_of topology samples script) }
        ensures within { IfOk result (λ p. first_over p ≡ None) }
        ensures err { IfErr result (RefusesAt (first_over (plan_of topology samples script))) }
    {
        let files = Files {
            topology: &topology,
            samples: &samples,
            script: &script,
        };
        files.invariant();
        match check_limit(alloc, files) {
            Ok(()) => {}
            Err(e) => return Err(e),
        }
        let ancestors = ancestors_table(alloc, &topology)?;
        let expected = expected_tables(alloc, files, &ancestors)?;
        let faults = fault_table(alloc, files)?;
        Ok(Plan {
            topology,
            samples,
            script,
            ancestors,
            expected,
            faults,
        })
    }

    /// The plan with these lines in place of its samples.
    pub fn with_lines(
        self,
        alloc: Global,
        paths: Vec<CallPath>,
        lines: LineList,
    ) -> Result<Plan, AllocError>
        requires numbered { PathIndicesInRange paths.items lines }
        requires plan { IsPlan (with_lines self (lines_of paths.items lines)) }
        ensures { IfOk result (λ plan. plan ≡ with_lines self (lines_of paths.items lines)) }
    {
        let Plan {
            topology,
            samples,
            script,
            ancestors,
            expected,
            faults,
        } = self;
        let samples = samples.with_lines(alloc, paths, lines)?;
        Ok(Plan {
            topology,
            samples,
            script,
            ancestors,
            expected,
            faults,
        })
    }

    /// The invariant of a plan, for the prover. It does nothing.
    pub fn invariant(&self)
        ensures { IsPlan self.now }
    {
        // for the proof: the invariant of the value
        let _ = &self.topology;
    }

    /// How many nodes there are: 2 to `NODE_LIMIT`.
    pub fn nodes(&self) -> u32
        ensures { result ≡ nodes self.now }
    {
        self.topology.nodes()
    }

    /// The front end: the one node without a parent.
    pub fn front(&self) -> u32
        ensures value { result ≡ front self.now }
        ensures node { result < nodes self.now }
    {
        self.topology.front()
    }

    /// The name of a node.
    pub fn name(&self, n: u32) -> &str
        requires { n < nodes self.now }
        ensures { result.now ≡ name_of self.now.names n }
    {
        self.topology.name(n)
    }

    /// The number of the node with this name.
    pub fn number_of(&self, name: &[u8]) -> Option<u32>
        ensures { result ≡ number_of name.now self.now.names }
    {
        self.topology.number_of(name)
    }

    /// Whether a node is a daemon: it has no children.
    pub fn is_daemon(&self, n: u32) -> bool
        requires { n < nodes self.now }
        ensures { result ≡ is_daemon self.now.parents n }
    {
        self.topology.is_daemon(n)
    }

    /// A node's ancestors, nearest first: at most `DEPTH_LIMIT`, the last of them the front end.
    pub fn ancestors(&self, n: u32) -> &[u32]
        requires { n < nodes self.now }
        ensures { result.now ≡ ancestors self.now n }
    {
        self.ancestors[n as usize].as_slice()
    }

    /// Whether node `m` is an ancestor of node `n`.
    pub fn is_under(&self, n: u32, m: u32) -> bool
        requires { n < nodes self.now }
        ensures { result ≡ is_under self.now n m }
    {
        self.ancestors(n).contains(&m)
    }

    /// The ranks that are placed on a node; empty if it is not a daemon.
    pub fn ranks(&self, n: u32) -> &RankSet
        requires { n < nodes self.now }
        ensures { result.now ≡ ranks self.now n }
    {
        self.invariant();
        &self.samples.placed()[n as usize]
    }

    /// The streams, ascending by number.
    pub fn streams(&self) -> &[StreamDef]
        ensures { result.now ≡ self.now.streams }
    {
        self.script.streams()
    }

    /// The stream of this number, where the plan has one.
    pub fn stream(&self, s: u8) -> Option<&StreamDef>
        ensures { IsStreamOf self.now s result }
    {
        match stream_index(self.streams(), s) {
            Some(i) => Some(&self.streams()[i]),
            None => None,
        }
    }

    /// The stream of a number that the plan has.
    pub fn known_stream(&self, s: u8) -> &StreamDef
        requires { IsSome (stream_of self.now s) }
        ensures { stream_of self.now s ≡ Some result.now }
    {
        match self.stream(s) {
            Some(stream) => stream,
            None => unreachable!(),
        }
    }

    /// The ranks of those daemons of a stream that are the node or its descendants.
    pub fn expected(&self, n: u32, s: u8) -> &RankSet
        requires node { n < nodes self.now }
        requires stream { IsSome (stream_of self.now s) }
        ensures { result.now ≡ expected self.now n s }
    {
        match stream_index(self.script.streams(), s) {
            Some(i) => &self.expected[i][n as usize],
            None => unreachable!(),
        }
    }

    /// Whether a node serves a stream: one of the stream's daemons is the node or a descendant.
    pub fn serves(&self, n: u32, s: u8) -> bool
        requires { n < nodes self.now }
        ensures { result ≡ serves self.now n s }
    {
        self.invariant();
        match self.stream(s) {
            Some(_) => self.expected(n, s).first().is_some(),
            None => false,
        }
    }

    /// The nodes that are to be lost, ascending.
    pub fn faults(&self) -> &[Fault]
        ensures { result.now ≡ self.now.faults }
    {
        self.script.faults()
    }

    /// When a node is to be lost, if it is.
    pub fn fault(&self, n: u32) -> Option<Fault>
        ensures { result ≡ fault self.now n }
    {
        match self.faults.get(n as usize) {
            Some(fault) => *fault,
            None => None,
        }
    }

    /// A node's samples of a wave, in the order of their paths: its ranks alone, in the paths in which the lines of the
    /// samples list them at the times of the wave.
    pub fn own_lines(&self, n: u32, times: WaveTimes) -> Result<WaveLines<'_>, AllocError>
        requires { n < nodes self.now }
        ensures samples { IfOk result (λ own. AreWaveLines times.samples times.wave (ranks self.now n) self.now.lines
            (wave_lines_view own)) }
        ensures numbered { IfOk result AreNumbered }
    {
        self.invariant();
        self.samples.own_lines(n, times)
    }

    /// The wanted samples, one line for each path in which ranks were seen, in the order of the paths.
    pub fn wave_lines(&self, alloc: Global, wanted: Wanted<'_>) -> Result<WaveLines<'_>, AllocError>
        requires times { 0 < wanted.times.samples }
        requires daemons { (d : ℕ) → In d wanted.daemons.now → d < nodes self.now }
        requires ranks { wanted.ranks.now ≡ ranks_on self.now wanted.daemons.now }
        ensures samples { IfOk result (λ all. AreWaveLines wanted.entry.times.samples wanted.entry.times.wave
            wanted.entry.ranks.now self.now.lines (wave_lines_view all)) }
        ensures numbered { IfOk result AreNumbered }
    {
        self.invariant();
        self.samples.wave_lines(alloc, wanted)
    }
}
