//! What an event changes at a node.

use crate::held::HeldWave;
use crate::output::Outgoing;
use prefix_tree::PrefixTree;
use wave_resend::WaveBook;

/// What a step on one wave changes besides what is held of that wave.
#[derive(Drop)]
pub struct WaveWork<T: PrefixTree> {
    /// The book of the node's waves.
    pub book: WaveBook,
    /// What the event has sent and released so far.
    pub effects: Outgoing<T>,
}

/// What an event changes besides the node's kin.
#[derive(Drop)]
pub struct NodeWork<T: PrefixTree> {
    /// What is held of each wave, by stream and wave as in the book.
    pub held: Vec<HeldWave<T>>,
    /// The book and the effects, which each step on a wave changes.
    pub work: WaveWork<T>,
}
