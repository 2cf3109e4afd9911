//! What the loss of a node does to what waits.

ghost use Rattle.std.specs.Prelude.{◌≡◌, length};
ghost use Rattle.node_inbox.specs.Cuts.{AreCut, IsCut};

use crate::inbox::Inbox;

/// What the loss of the node `n` does to the inbox of the node `b`: of what waits from the lost node the first `keep`
/// items stay, and of its own inbox nothing.
fn cut_inbox<T: Drop>(n: u32, b: usize, keep: u32, inbox: &mut Inbox<T>)
    ensures { IsCut n keep b inbox.old inbox.new }
{
    if b == n as usize {
        inbox.clear();
    } else {
        inbox.cut(n, keep as usize);
    }
}

/// What the loss of the node `n` does to the inboxes of all nodes: of what waits from it the first `keep` items stay,
/// and for it nothing waits. The places of all that is dropped are then room. It takes no memory.
pub fn cut_all<T: Drop>(n: u32, keep: u32, inboxes: &mut [Inbox<T>])
    ensures { AreCut n keep (length inboxes.old) inboxes.old inboxes.new }
{
    for b in 0..inboxes.len() {
        cut_inbox(n, b, keep, &mut inboxes[b]);
    }
}
