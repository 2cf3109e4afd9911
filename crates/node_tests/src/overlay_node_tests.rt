//! Nodes and what they send may be handed to another thread.
use overlay_node::{Node, Outgoing};
use prefix_tree::OwnedTree;
use std::test::*;

fn is_sent<T: Send>() -> bool {
    true
}

#[test]
fn nodes_and_what_they_send_may_change_threads(rt: HostRuntime) {
    assert!(rt; is_sent::<Node<OwnedTree>>());
    assert!(rt; is_sent::<Outgoing<OwnedTree>>());
}
