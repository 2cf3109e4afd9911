//! What a node holds of a wave.

use merge_filter::Contribution;
use prefix_tree::PrefixTree;
use std::marker::Model;

/// What a node holds of a wave besides its book.
#[derive(Drop)]
pub struct HeldWave<T: PrefixTree> {
    /// The stream's number.
    pub stream: u8,
    /// The wave's number in its stream.
    pub wave: u8,
    /// What has come in; none if the wave is closed.
    pub part: Option<Contribution<T>>,
    /// How many releases of the wave there were at this node.
    pub release_count: u32,
}

impl<T: PrefixTree> Model for HeldWave<T> {
    ghost use Rattle.overlay_node.specs.NodeViews.{HeldView, coded_held};

    ghost Value = { HeldView };

    ghost coded = { coded_held };

    ghost view = { λ h. record { stream = h.stream; wave = h.wave; part = h.part; release_count = h.release_count } };
}
