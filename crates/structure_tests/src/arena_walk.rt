//! The walk over the rows of a tree by a cursor, row by row and chain by chain.

use crate::trees::{add, assert_walk, cover};
use arena_tree::ArenaTree;
use prefix_tree::PrefixTree;
use std::alloc::Global;
use std::process::Abort;

fn of_ranks<T: PrefixTree>(rt: &impl Abort, alloc: Global, paths: &[(u32, &str)]) -> T {
    let mut tree = T::empty(alloc);
    for (rank, text) in paths {
        cover(alloc, &mut tree, &[*rank]).expect(rt, "memory");
        add(rt, alloc, &mut tree, &[*rank], text).expect(rt, "a path");
    }
    tree
}

// Ranks and the paths that they were seen in, and the rows of the tree: of none, and of a run of three rows that is cut
// behind its first, and has a sibling before and one behind.
const WALKED: [(&[(u32, &str)], &[u8]); 2] = [
    (&[], b"0 / 0:[] 0:[]\n"),
    (
        &[(0, "b;c;d"), (1, "b;a;x"), (0, "a"), (1, "e;f")],
        b"0 / 2:[0-1] 0:[]\n1 a 1:[0] 1:[0]\n1 b 2:[0-1] 0:[]\n2 a 1:[1] 0:[]\n3 x 1:[1] 1:[1]\n\
        2 c 1:[0] 0:[]\n3 d 1:[0] 1:[0]\n1 e 1:[1] 0:[]\n2 f 1:[1] 1:[1]\n",
    ),
];

fn assert_walked<T: PrefixTree>(rt: &impl Abort, alloc: Global) {
    for (paths, want) in &WALKED {
        let tree = of_ranks::<T>(rt, alloc, paths);
        assert_walk(rt, alloc, &tree, want);
    }
}

#[test]
fn walks_from_node_to_node(rt: HostRuntime) {
    assert_walked::<ArenaTree>(&rt, rt.alloc());
}
