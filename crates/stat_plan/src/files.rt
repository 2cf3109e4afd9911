//! The three files of a job.

ghost use Rattle.stat_plan.specs.Files.{DoFit, plan_in};
ghost use Rattle.stat_plan.specs.Invariants.{IsJob};

use crate::samples::Samples;
use overlay_setup::{Script, Topology};

/// What the three files of a job say.
#[derive(Clone, Copy)]
pub struct Files<'a> {
    /// The nodes.
    pub topology: &'a Topology,
    /// Where the ranks are, and the paths that they were seen in.
    pub samples: &'a Samples,
    /// The streams, and the nodes that are to be lost.
    pub script: &'a Script,
}

impl Files<'_> {
    /// The invariant of files that fit each other, for the prover. It does nothing.
    pub fn invariant(&self)
        requires { DoFit self.now }
        ensures { IsJob (plan_in self.now) }
    {
        self.topology.invariant();
        self.samples.invariant();
        self.script.invariant();
    }
}
