//! What an overlay is set up with: its nodes, and what is asked of them.
//!
//! A [`Topology`] is a tree of named nodes. A [`Script`] is the streams of a job and the nodes that are to be lost. The
//! sample times of a stream's wave are [`WaveTimes`].
//! Each type has an invariant (`specs/Topologies.antt`, `specs/Scripts.antt`). Ranks and samples are not known here.
#![tactic(auto)]

mod ancestors;
mod script;
mod topology;

pub use ancestors::ancestors_table;
pub use script::{
    FAULT_LIMIT, Fault, Grain, Mode, SAMPLE_LIMIT, STREAM_LIMIT, Script, StreamDef, TICK_LIMIT,
    WAVE_LIMIT, WaveTimes, stream_index,
};
pub use topology::{DEPTH_LIMIT, NODE_LIMIT, Topology};
