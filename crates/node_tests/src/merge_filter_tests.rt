//! What no clause says: that a contribution may be handed to another thread.

use merge_filter::Contribution;
use prefix_tree::OwnedTree;

fn is_sent<T: Send>() -> bool {
    true
}

#[test]
fn contributions_may_be_handed_over(rt: HostRuntime) {
    assert!(rt; is_sent::<Contribution<OwnedTree>>());
}
