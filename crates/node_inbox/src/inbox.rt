//! The items that wait for a node.

ghost use Rattle.std.specs.Prelude.{◌≡◌, ◌≢◌, ◌≤◌, ◌+◌, ◌-◌, ◌==◌, ◌∷◌, ℕ, [], OnOk, cond, length, option_copied, slice_get, take};
ghost use Rattle.std.specs.Vec.{vec_capacity};
ghost use Rattle.node_inbox.specs.Inboxes.{Dequeues, Enqueues, IsInbox, KeepsOthers, is_waiting, queue_of, room_for, senders_of};
ghost use Rattle.node_inbox.specs.Queues.{AreEmptied};

use crate::senders::{add_sender, remove_sender};
use std::alloc::{AllocError, Global};
use std::collections::{BTreeMap, VecDeque};
use std::marker::Model;

/// What waits for a node: for each sender the items that were not taken yet, in order, and for how many more there is
/// room.
///
/// It is seen as `waiting`, the senders with items waiting in ascending order, each with its items, and as `rooms`,
/// from which `room_for` reads how many more items of a sender can be put without memory.
#[derive(Drop)]
pub struct Inbox<T> {
    // The queue of each sender for which room was made. It stays when it is emptied.
    queues: BTreeMap<u32, VecDeque<T>>,
    // The senders with items waiting, ascending, with capacity for each sender that has a queue.
    senders: Vec<u32>,
}

impl<T> Model for Inbox<T> {
    ghost use Rattle.node_inbox.specs.Inboxes.{InboxView, inbox_code};

    ghost Value = { InboxView T };

    ghost coded = { inbox_code T.code };

    ghost use Rattle.std.specs.Vec.{vec_capacity};
    ghost use Rattle.node_inbox.specs.Queues.{AreListed, rooms_view, waiting_view};

    ghost view = { λ b. record { waiting = waiting_view b.queues.entries; rooms = rooms_view b.queues.entries } };

    ghost invariant = { λ b. AreListed b.queues.entries b.senders.items (vec_capacity b.senders) };
}

impl<T> Inbox<T> {
    /// An inbox with nothing waiting and no room. It takes no memory.
    pub fn new(alloc: Global) -> Inbox<T>
        ensures waiting { result.waiting ≡ [] }
        ensures rooms { result.rooms ≡ [] }
    {
        Inbox {
            queues: BTreeMap::new(alloc),
            senders: Vec::new(alloc),
        }
    }

    /// The invariant of an inbox, for the prover: the senders are strictly increasing, and each has items waiting. It
    /// does nothing.
    pub fn invariant(&self)
        ensures { IsInbox self.now.waiting }
    {
        // for the proof: the invariant of the value
        let _ = &self.senders;
    }

    /// Whether items wait from a sender.
    pub fn is_waiting(&self, sender: u32) -> bool
        ensures { result ≡ is_waiting self.now.waiting sender }
    {
        self.senders.as_slice().binary_search(&sender).is_ok()
    }

    /// The first of the items that wait from a sender, if any wait.
    pub fn first(&self, sender: u32) -> Option<&T>
        ensures { option_copied result ≡ slice_get (queue_of self.now.waiting sender) 0 }
    {
        match self.queues.get(&sender) {
            Some(queue) => queue.front(),
            None => None,
        }
    }

    /// The number of senders with items waiting.
    pub fn sender_count(&self) -> usize
        ensures { result ≡ length self.now.waiting }
    {
        self.senders.len()
    }

    /// The `i`-th sender with items waiting, in order of node number, with `i` from 0.
    pub fn sender(&self, i: usize) -> Option<u32>
        ensures { result ≡ slice_get (senders_of self.now.waiting) i }
    {
        self.senders.get(i).copied()
    }

    /// Makes room for `count` more items of a sender. What waits stays, and no room becomes smaller, also on failure.
    ///
    /// Fails only if memory runs out.
    pub fn make_room(&mut self, alloc: Global, sender: u32, count: usize) -> Result<(), AllocError>
    where
        T: Drop,
        ensures same { self.new.waiting ≡ self.old.waiting }
        ensures room { OnOk result (count ≤ room_for self.new sender) }
        ensures grows { (m : ℕ) → room_for self.old m ≤ room_for self.new m }
    {
        if let Some(queue) = self.queues.get_mut(&sender) {
            return queue.reserve(count);
        }
        self.senders
            .reserve(self.queues.len() - self.senders.len() + 1)?;
        let queue = VecDeque::with_capacity(alloc, count)?;
        self.queues.insert(sender, queue)?;
        Ok(())
    }

    /// Adds an item at the end of a sender's queue, for which there must be room. It takes no memory.
    pub fn put(&mut self, sender: u32, item: T)
        requires { 1 ≤ room_for self.old sender }
        ensures queued { Enqueues self.old.waiting self.new.waiting sender item }
        ensures room { (m : ℕ) → room_for self.new m
            ≡ cond (m == sender) (room_for self.old m - 1) (room_for self.old m) }
        ensures inbox { IsInbox self.new.waiting }
    {
        let Some(queue) = self.queues.get_mut(&sender) else {
            unreachable!()
        };
        let was_empty = queue.is_empty();
        queue.push_back_reserved(item);
        if was_empty {
            add_sender(&mut self.senders, sender);
        }
    }

    /// Takes the first item of a sender with items waiting. Its place is then room.
    pub fn take(&mut self, sender: u32) -> T
        requires { queue_of self.old.waiting sender ≢ [] }
        ensures first { Dequeues self.old.waiting self.new.waiting sender result }
        ensures others { KeepsOthers self.old.waiting self.new.waiting sender }
        ensures room { (m : ℕ) → room_for self.new m
            ≡ cond (m == sender) (room_for self.old m + 1) (room_for self.old m) }
        ensures inbox { IsInbox self.new.waiting }
    {
        let Some(queue) = self.queues.get_mut(&sender) else {
            unreachable!()
        };
        let Some(item) = queue.pop_front() else {
            unreachable!()
        };
        if queue.is_empty() {
            remove_sender(&mut self.senders, sender);
        }
        item
    }

    /// Drops the items of a sender, except for the first `keep`. Their places are then room.
    pub fn cut(&mut self, sender: u32, keep: usize)
    where
        T: Drop,
        ensures first { queue_of self.new.waiting sender ≡ take keep (queue_of self.old.waiting sender) }
        ensures others { KeepsOthers self.old.waiting self.new.waiting sender }
        ensures room { (m : ℕ) → room_for self.new m ≡ cond (m == sender)
            (room_for self.old m + (length (queue_of self.old.waiting m) - keep)) (room_for self.old m) }
        ensures inbox { IsInbox self.new.waiting }
    {
        let Some(queue) = self.queues.get_mut(&sender) else {
            return;
        };
        queue.truncate(keep);
        if queue.is_empty() {
            remove_sender(&mut self.senders, sender);
        }
    }

    /// Drops all items. Their places are then room.
    pub fn clear(&mut self)
    where
        T: Drop,
        ensures waiting { self.new.waiting ≡ [] }
        ensures room { (m : ℕ) → room_for self.new m
            ≡ room_for self.old m + length (queue_of self.old.waiting m) }
    {
        empty_queues(&mut self.queues, self.senders.as_slice());
        self.senders.clear();
    }
}

/// Drops the items of these senders.
fn empty_queues<T: Drop>(queues: &mut BTreeMap<u32, VecDeque<T>>, senders: &[u32])
    ensures { AreEmptied senders.now queues.old.entries queues.new.entries }
{
    for sender in senders {
        empty_queue(queues, *sender);
    }
}

/// Drops the items of a sender.
fn empty_queue<T: Drop>(queues: &mut BTreeMap<u32, VecDeque<T>>, sender: u32)
    ensures { AreEmptied (sender ∷ []) queues.old.entries queues.new.entries }
{
    if let Some(queue) = queues.get_mut(&sender) {
        queue.clear();
    }
}
