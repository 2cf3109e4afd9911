//! Delivery: what a node sends goes to the inboxes of its receivers, in room that is made before.

ghost use Rattle.std.specs.Prelude.{◌≡◌, ◌<◌, ◌≤◌, ◌∷◌, [], ℕ, OnOk, length};
ghost use Rattle.node_inbox.specs.Sends.{AreSent, GoBelow, HaveRoom, UseRoom, inbox_at, is_alive, packets_to, room_at};

use crate::inbox::Inbox;
use std::alloc::{AllocError, Global};

/// Whether a node lives.
fn is_up(alive: &[bool], n: u32) -> bool
    ensures { result ≡ is_alive alive.now n }
{
    let i = n as usize;
    i < alive.len() && alive[i]
}

/// A number that is at least as high as the number of items for any one receiver: in how many runs the receivers
/// increase, since no receiver comes twice in such a run.
fn most_to_one<T>(sends: &[(u32, T)]) -> usize
    ensures enough { (b : ℕ) → length (packets_to b sends.now) ≤ result }
    ensures at_most { 0 < length sends.now → result ≤ length sends.now }
{
    let mut runs = 1;
    // The least receiver that continues the run.
    let mut next = 0;
    for (to, _) in sends {
        let to = u64::from(*to);
        if to < next {
            runs += 1;
        }
        next = to + 1;
    }
    runs
}

/// Makes room in the inboxes of all receivers for what is sent to each. What waits stays, and no room becomes smaller,
/// also on failure.
///
/// Fails only if memory runs out.
pub fn make_rooms<T: Drop>(
    alloc: Global,
    from: u32,
    sends: &[(u32, T)],
    inboxes: &mut [Inbox<T>],
) -> Result<(), AllocError>
    requires { GoBelow (length inboxes.old) sends.now }
    ensures count { length inboxes.new ≡ length inboxes.old }
    ensures same { (b : ℕ) → inbox_at inboxes.new b ≡ inbox_at inboxes.old b }
    ensures grows { (b m : ℕ) → room_at inboxes.old b m ≤ room_at inboxes.new b m }
    ensures room { OnOk result (HaveRoom from sends.now inboxes.new) }
{
    let count = most_to_one(sends);
    for (to, _) in sends {
        inboxes[*to as usize].make_room(alloc, from, count)?;
    }
    Ok(())
}

/// Puts an item into the inbox of its receiver, which has room for it. An item to a node that doesn't live is dropped.
fn send<T: Drop>(from: u32, to: u32, item: T, alive: &[bool], inboxes: &mut [Inbox<T>])
    requires below { to < length inboxes.old }
    requires room { 1 ≤ room_at inboxes.old to from }
    ensures sent { AreSent alive.now from ((to, item) ∷ []) inboxes.old inboxes.new }
    ensures rooms { UseRoom alive.now from ((to, item) ∷ []) inboxes.old inboxes.new }
{
    if is_up(alive, to) {
        inboxes[to as usize].put(from, item);
    }
}

/// Puts all that a node sends into the inboxes of its receivers, in order, in the room that they have for it. Items to
/// nodes that don't live are dropped. It takes no memory.
pub fn deliver<T: Drop>(from: u32, sends: Vec<(u32, T)>, alive: &[bool], inboxes: &mut [Inbox<T>])
    requires below { GoBelow (length inboxes.old) sends.items }
    requires room { HaveRoom from sends.items inboxes.old }
    ensures sent { AreSent alive.now from sends.items inboxes.old inboxes.new }
    ensures rooms { UseRoom alive.now from sends.items inboxes.old inboxes.new }
{
    for (to, item) in sends {
        send(from, to, item, alive, inboxes);
    }
}
