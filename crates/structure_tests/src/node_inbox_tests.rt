//! What no clause says: that each call succeeds with ample memory, and that each item is dropped once.
use node_inbox::{Inbox, deliver, make_rooms};
use std::cell::Cell;
use std::marker::Send;
use std::process::Abort;

fn sent<T: Send>(value: T) -> T {
    value
}

fn sent_inbox<T: Send + Drop>(inbox: Inbox<T>) -> Inbox<T> {
    sent(inbox)
}

#[test]
fn takes_in_order(rt: HostRuntime) {
    let mut inbox: Inbox<u64> = Inbox::new(rt.alloc());
    inbox.make_room(rt.alloc(), 7, 2).expect(&rt, "memory");
    inbox.make_room(rt.alloc(), 3, 1).expect(&rt, "memory");
    assert!(rt; inbox.sender_count() == 0 && !inbox.is_waiting(7));
    inbox.put(7, 70);
    inbox.put(3, 30);
    inbox.put(7, 71);
    assert!(rt; inbox.sender(0) == Some(3) && inbox.sender(1) == Some(7));
    assert!(rt; inbox.take(7) == 70 && inbox.take(3) == 30);
    assert!(rt; inbox.sender(0) == Some(7) && inbox.sender_count() == 1);
    assert!(rt; inbox.take(7) == 71 && inbox.sender(0).is_none());
    drop(sent_inbox(inbox));
}

// An emptied queue has room for as many items as were taken or dropped.
#[test]
fn keeps_the_room_of_emptied_queues(rt: HostRuntime) {
    let mut inbox: Inbox<u64> = Inbox::new(rt.alloc());
    inbox.make_room(rt.alloc(), 5, 2).expect(&rt, "memory");
    inbox.put(5, 1);
    inbox.put(5, 2);
    inbox.cut(5, 1);
    inbox.put(5, 3);
    assert!(rt; inbox.take(5) == 1 && inbox.take(5) == 3);
    assert!(rt; !inbox.is_waiting(5));
    inbox.put(5, 4);
    inbox.clear();
    assert!(rt; inbox.sender_count() == 0);
    inbox.put(5, 6);
    assert!(rt; inbox.sender_count() == 1 && inbox.take(5) == 6);
}

// A value that counts how often it is dropped.
struct Counted<'a> {
    drops: &'a Cell<u32>,
}

impl Drop for Counted<'_> {
    fn drop(self) {
        let Counted { drops } = self;
        drops.set(drops.get().wrapping_add(1));
    }
}

#[test]
fn drops_each_item_once(rt: HostRuntime) {
    let drops = Cell::new(0);
    let mut inbox = Inbox::new(rt.alloc());
    inbox.make_room(rt.alloc(), 2, 3).expect(&rt, "memory");
    inbox.put(2, Counted { drops: &drops });
    inbox.put(2, Counted { drops: &drops });
    inbox.cut(2, 1);
    assert!(rt; drops.get() == 1);
    inbox.clear();
    assert!(rt; drops.get() == 2);
    inbox.put(2, Counted { drops: &drops });
    drop(inbox);
    assert!(rt; drops.get() == 3);
}

// Node 1 doesn't live.
const ALIVE: [bool; 3] = [true, false, true];

#[test]
fn delivers_to_the_living(rt: HostRuntime) {
    let alloc = rt.alloc();
    let mut inboxes: [Inbox<u64>; 3] = [Inbox::new(alloc), Inbox::new(alloc), Inbox::new(alloc)];
    let sends = vec![in alloc; (2, 20), (1, 10), (2, 21)].expect(&rt, "memory");
    make_rooms(alloc, 0, sends.as_slice(), &mut inboxes).expect(&rt, "memory");
    deliver(0, sends, &ALIVE, &mut inboxes);
    assert!(rt; inboxes[0].sender_count() == 0 && inboxes[1].sender_count() == 0);
    assert!(rt; inboxes[2].sender(0) == Some(0) && inboxes[2].sender_count() == 1);
    assert!(rt; inboxes[2].take(0) == 20 && inboxes[2].is_waiting(0));
}
