//! The program `stat`, with the line of a refusal on standard output, so that a stored run shows it: a refused job's
//! line and exit status.
#![tactic(auto)]

use arena_tree::ArenaTree;
use stat_tool::{RefusalLine, run_program};
use std::process::ExitCode;

fn main(rt: HostRuntime) -> ExitCode {
    run_program::<ArenaTree, _>(&rt, RefusalLine::Output)
}
