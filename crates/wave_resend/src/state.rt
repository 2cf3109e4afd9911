//! The state of a wave, as it is read.

use rank_set::RankSet;
use stat_plan::Timer;

/// The state of a wave at a node.
#[derive(Clone, Copy)]
pub enum WaveState<'a> {
    /// The node works on it.
    Open {
        /// The ranks that have come in.
        covered: &'a RankSet,
        /// Those of them that were passed on.
        sent: &'a RankSet,
        /// The wave's timer.
        timer: Timer,
    },
    /// It has ended.
    Closed,
}
