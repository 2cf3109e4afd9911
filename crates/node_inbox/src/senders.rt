//! The senders with something waiting, in ascending order.

ghost use Rattle.std.specs.Prelude.{◌≡◌, ◌≤◌, ◌<◌};
ghost use Rattle.std.specs.Vec.{vec_len, vec_capacity};
ghost use Rattle.std.specs.List.Sorted.{IsStrictlySortedBy};
ghost use Rattle.std.specs.Ordering.{nat_cmp};
ghost use Rattle.std.specs.BTreeSet.{insert_key};
ghost use Rattle.node_inbox.specs.Queues.{without_sender};

/// Adds a sender in order, unless it is there. There must be capacity for one more.
pub(crate) fn add_sender(senders: &mut Vec<u32>, sender: u32)
    requires increasing { IsStrictlySortedBy nat_cmp senders.old.items }
    requires room { vec_len senders.old < vec_capacity senders.old }
    ensures items { senders.new.items ≡ insert_key nat_cmp senders.old.items sender }
    ensures capacity { vec_capacity senders.old ≤ vec_capacity senders.new }
{
    let Err(i) = senders.as_slice().binary_search(&sender) else {
        return;
    };
    let Ok(()) = senders.insert(i, sender) else {
        unreachable!()
    };
}

/// Removes a sender, if it is there.
pub(crate) fn remove_sender(senders: &mut Vec<u32>, sender: u32)
    requires { IsStrictlySortedBy nat_cmp senders.old.items }
    ensures items { senders.new.items ≡ without_sender sender senders.old.items }
    ensures capacity { vec_capacity senders.new ≡ vec_capacity senders.old }
{
    if let Ok(i) = senders.as_slice().binary_search(&sender) {
        senders.remove(i);
    }
}
