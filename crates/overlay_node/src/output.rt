//! What an event of a node produces.

use overlay_core::Release;
use packet_frame::Frame;
use prefix_tree::PrefixTree;
use std::marker::Model;

/// What an event of a node sends and releases.
#[derive(Drop)]
pub struct Outgoing<T: PrefixTree> {
    /// The frames that the node sends, in order, each with its receiver.
    pub sends: Vec<(u32, Frame)>,
    /// What the node releases, in order. Only the front end releases anything.
    pub releases: Vec<Release<T>>,
}

impl<T: PrefixTree> Model for Outgoing<T> {
    ghost use Rattle.overlay_core.specs.TreeReleases.{releases_view};
    ghost use Rattle.overlay_node.specs.Outputs.{Output, coded_output};

    ghost Value = { Output };

    ghost coded = { coded_output };

    ghost view = { λ out. record { sends = out.sends.items; releases = releases_view T.tree out.releases.items } };
}
