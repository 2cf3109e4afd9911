// Values over several chunks, the drops of each value, and an arena that goes to another thread.
use node_arena::{Arena, Place};
use std::cell::Cell;
use std::marker::Send;
use std::process::Abort;

// More than three chunks of values.
const MANY: u32 = 200;

fn sent<T: Send>(value: T) -> T {
    value
}

fn sent_arena<T: Send + Drop>(arena: Arena<T>) -> Arena<T> {
    sent(arena)
}

// A value that counts how often it is dropped.
struct Counted<'a> {
    drops: &'a Cell<u32>,
}

impl Drop for Counted<'_> {
    fn drop(self) {
        let Counted { drops } = self;
        drops.set(drops.get().wrapping_add(1));
    }
}

#[test]
fn puts_give_places(rt: HostRuntime) {
    let mut arena = Arena::new(rt.alloc());
    arena.reserve(2).expect(&rt, "memory");
    assert!(rt; arena.put(5u64) == 0 && arena.put(6) == 1);
    assert!(rt; *arena.get(0) == 5 && *arena.get(1) == 6);
    assert!(rt; arena.len() == 2 && arena.spare() == 0);
    *arena.get_mut(0) = 7;
    assert!(rt; *arena.get(0) == 7 && *arena.get(1) == 6);
    arena.clear();
    assert!(rt; arena.len() == 0 && arena.spare() == 2);
    drop(sent_arena(arena));
}

fn triple(place: Place) -> u64 {
    u64::from(place) * 3
}

// Where memory runs out, the arena has the values that it had, and no spare.
#[test]
fn keeps_values_over_chunks(rt: HostRuntime) {
    let mut arena: Arena<u64> = Arena::new(rt.alloc());
    for i in 0..MANY {
        assert!(rt; arena.len() == i);
        let made = arena.reserve(1).is_ok();
        assert!(rt; arena.spare() == u32::from(made));
        if arena.spare() == 0 {
            break;
        }
        assert!(rt; arena.put(triple(i)) == i);
    }
    for i in 0..arena.len() {
        assert!(rt; *arena.get(i) == triple(i));
    }
}

fn put_all<'a>(rt: &impl Abort, arena: &mut Arena<Counted<'a>>, counts: &'a [Cell<u32>]) {
    for drops in counts {
        assert!(rt; arena.spare() > 0);
        arena.put(Counted { drops });
    }
}

fn assert_counts(rt: &impl Abort, counts: &[Cell<u32>], want: u32) {
    for drops in counts {
        assert!(rt; drops.get() == want);
    }
}

#[test]
fn drops_each_value_once(rt: HostRuntime) {
    let mut counts = Vec::new(rt.alloc());
    for _ in 0..MANY {
        counts.push(Cell::new(0)).expect(&rt, "memory");
    }
    let mut arena = Arena::new(rt.alloc());
    arena.reserve(MANY).expect(&rt, "memory");
    put_all(&rt, &mut arena, &counts);
    assert_counts(&rt, &counts, 0);
    arena.clear();
    assert_counts(&rt, &counts, 1);
    put_all(&rt, &mut arena, &counts);
    assert_counts(&rt, &counts, 1);
    drop(arena);
    assert_counts(&rt, &counts, 2);
}
