//! Shows where a hung parallel job stands: reads its topology, samples and script, and prints the merged tree of call
//! stacks with the ranks that pass each part, and the groups of ranks of like behaviour.
#![tactic(auto)]

use arena_tree::ArenaTree;
use stat_tool::{RefusalLine, run_program};
use std::process::ExitCode;

/// Runs the call, tells a refusal on standard error, and ends with the number of its status.
fn main(rt: HostRuntime) -> ExitCode {
    run_program::<ArenaTree, _>(&rt, RefusalLine::Error)
}
