//! Sets of ranks for the tests of this crate.

use rank_set::{RankSet, read_ranks};
use std::alloc::Global;
use std::process::Abort;

pub fn set_of(rt: &impl Abort, alloc: Global, members: &[u32]) -> RankSet {
    let mut set = RankSet::new(alloc);
    for rank in members {
        set.insert(*rank).expect(rt, "below the limit");
    }
    set
}

pub fn ranks_of(rt: &impl Abort, alloc: Global, text: &str) -> RankSet {
    read_ranks(alloc, text.as_bytes()).expect(rt, "ranks")
}

pub fn assert_ranks(rt: &impl Abort, alloc: Global, set: &RankSet, want: &str) {
    let mut text = Vec::new(alloc);
    set.write_text(&mut text).expect(rt, "memory");
    assert!(rt; text.as_slice() == want.as_bytes());
}
