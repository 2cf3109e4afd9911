//! What no clause says: the forms of text, and that each call succeeds with ample memory.

use crate::sets::{assert_ranks, ranks_of, set_of};
use rank_set::{RANK_LIMIT, RankError, RankSet, RanksError, Run, read_ranks, word_is_below};
use std::alloc::Global;
use std::process::Abort;

// Two sets by their texts, and the texts of what is made of them.
struct Pair {
    left: &'static str,
    right: &'static str,
    union: &'static str,
    difference: &'static str,
    common: &'static str,
}

const PAIRS: [Pair; 13] = [
    Pair {
        left: "0-1",
        right: "1-2",
        union: "3:[0-2]",
        difference: "1:[0]",
        common: "1:[1]",
    },
    Pair {
        left: "0-2",
        right: "1",
        union: "3:[0-2]",
        difference: "2:[0,2]",
        common: "1:[1]",
    },
    Pair {
        left: "63",
        right: "64",
        union: "2:[63-64]",
        difference: "1:[63]",
        common: "0:[]",
    },
    Pair {
        left: "64",
        right: "63-64",
        union: "2:[63-64]",
        difference: "0:[]",
        common: "1:[64]",
    },
    Pair {
        left: "127-128",
        right: "128",
        union: "2:[127-128]",
        difference: "1:[127]",
        common: "1:[128]",
    },
    Pair {
        left: "64-127",
        right: "0-63",
        union: "128:[0-127]",
        difference: "64:[64-127]",
        common: "0:[]",
    },
    Pair {
        left: "0,1048575",
        right: "1048575",
        union: "2:[0,1048575]",
        difference: "1:[0]",
        common: "1:[1048575]",
    },
    Pair {
        left: "1048575",
        right: "1048575",
        union: "1:[1048575]",
        difference: "0:[]",
        common: "1:[1048575]",
    },
    Pair {
        left: "0-1048575",
        right: "64-1048511",
        union: "1048576:[0-1048575]",
        difference: "128:[0-63,1048512-1048575]",
        common: "1048448:[64-1048511]",
    },
    Pair {
        left: "0,2,4,70",
        right: "1-1048575",
        union: "1048576:[0-1048575]",
        difference: "1:[0]",
        common: "3:[2,4,70]",
    },
    Pair {
        left: "5-1048570",
        right: "0,7,64,9000",
        union: "1048567:[0,5-1048570]",
        difference: "1048563:[5-6,8-63,65-8999,9001-1048570]",
        common: "3:[7,64,9000]",
    },
    Pair {
        left: "3-2000,70000-80000",
        right: "100,75000,900000",
        union: "12000:[3-2000,70000-80000,900000]",
        difference: "11997:[3-99,101-2000,70000-74999,75001-80000]",
        common: "2:[100,75000]",
    },
    Pair {
        left: "0-99999",
        right: "100000-199999",
        union: "200000:[0-199999]",
        difference: "100000:[0-99999]",
        common: "0:[]",
    },
];

fn assert_union(rt: &impl Abort, alloc: Global, left: &RankSet, right: &RankSet, text: &str) {
    let mut set = left.copy().expect(rt, "memory");
    assert!(rt; set.equals(left));
    set.union_into(right).expect(rt, "memory");
    let united = left.united(right).expect(rt, "memory");
    assert!(rt; united.equals(&set) && set.equals(&united));
    assert!(rt; left.is_subset(&set) && right.is_subset(&set));
    assert_ranks(rt, alloc, &set, text);
}

fn assert_difference(rt: &impl Abort, alloc: Global, left: &RankSet, right: &RankSet, text: &str) {
    let rest = left.difference(right).expect(rt, "memory");
    assert!(rt; rest.is_disjoint(right));
    assert_ranks(rt, alloc, &rest, text);
}

fn assert_common(rt: &impl Abort, alloc: Global, left: &RankSet, right: &RankSet, text: &str) {
    let common = left.intersection(right).expect(rt, "memory");
    let rest = left.difference(right).expect(rt, "memory");
    assert!(rt; left.difference(&rest).expect(rt, "memory").equals(&common));
    assert!(rt; left.is_subset(right) == (common.count() == left.count()));
    assert!(rt; left.is_disjoint(right) == common.is_empty());
    assert!(rt; right.is_disjoint(left) == common.is_empty());
    assert_ranks(rt, alloc, &common, text);
}

#[test]
fn combines_sets_at_the_borders_of_words(rt: HostRuntime) {
    let alloc = rt.alloc();
    for pair in &PAIRS {
        let left = ranks_of(&rt, alloc, pair.left);
        let right = ranks_of(&rt, alloc, pair.right);
        assert_union(&rt, alloc, &left, &right, pair.union);
        assert_difference(&rt, alloc, &left, &right, pair.difference);
        assert_common(&rt, alloc, &left, &right, pair.common);
    }
}

#[test]
fn writes_a_few_ranks(rt: HostRuntime) {
    let none = set_of(&rt, rt.alloc(), &[]);
    assert!(rt; none.first().is_none());
    assert_ranks(&rt, rt.alloc(), &none, "0:[]");
    let set = set_of(&rt, rt.alloc(), &[7, 0, 64]);
    assert!(rt; set.first() == Some(0));
    assert_ranks(&rt, rt.alloc(), &set, "3:[0,7,64]");
}

#[test]
fn has_the_ranks_that_were_inserted(rt: HostRuntime) {
    let mut set = set_of(&rt, rt.alloc(), &[1_048_575, 128, 63, 64, 127]);
    assert!(rt; set.insert(RANK_LIMIT) == Err(RankError::OverLimit));
    for r in &[63, 64, 127, 128, 1_048_575] {
        assert!(rt; set.contains(*r));
    }
    for r in &[0, 62, 65, 126, 129, 1_048_574, RANK_LIMIT, u32::MAX] {
        assert!(rt; !set.contains(*r));
    }
    assert_ranks(&rt, rt.alloc(), &set, "5:[63-64,127-128,1048575]");
}

#[test]
fn inserts_runs(rt: HostRuntime) {
    let mut set = RankSet::new(rt.alloc());
    for (first, last) in &[(130, 300), (60, 130), (9, 8)] {
        set.insert_run(*first, *last).expect(&rt, "below the limit");
    }
    assert!(rt; set.insert_run(16_000, u32::MAX) == Err(RankError::OverLimit));
    assert_ranks(&rt, rt.alloc(), &set, "241:[60-300]");
}

// Where to look from, and the run that is found.
const NEXT_RUNS: [(u32, Option<Run>); 6] = [
    (0, Some(Run { first: 3, last: 5 })),
    (4, Some(Run { first: 4, last: 5 })),
    (
        6,
        Some(Run {
            first: 63,
            last: 64,
        }),
    ),
    (
        64,
        Some(Run {
            first: 64,
            last: 64,
        }),
    ),
    (
        65,
        Some(Run {
            first: 1_048_575,
            last: 1_048_575,
        }),
    ),
    (RANK_LIMIT, None),
];

#[test]
fn gives_the_next_run(rt: HostRuntime) {
    let set = ranks_of(&rt, rt.alloc(), "3-5,63-64,1048575");
    for (from, run) in &NEXT_RUNS {
        assert!(rt; set.next_run(*from) == *run);
    }
}

fn assert_words(rt: &impl Abort, alloc: Global, set: &RankSet, want: &[u64]) {
    let words = set.words(alloc).expect(rt, "memory");
    assert!(rt; words.as_slice() == want);
    let same = RankSet::from_words(alloc, set.word_offset(), words).expect(rt, "memory");
    assert!(rt; same.equals(set));
}

#[test]
fn keeps_its_words(rt: HostRuntime) {
    let set = ranks_of(&rt, rt.alloc(), "130,200");
    assert!(rt; set.word_offset() == 2);
    assert_words(&rt, rt.alloc(), &set, &[4, 256]);
    if let Some(held) = set.held_words() {
        assert!(rt; held == [4, 256].as_slice());
    }
}

// Ranks, and the least number above all of them.
const ENDS: [(&str, u32); 3] = [("0", 1), ("63-64", 65), ("5,1048575", RANK_LIMIT)];

#[test]
fn gives_a_number_above_all(rt: HostRuntime) {
    for (text, least) in &ENDS {
        let end = ranks_of(&rt, rt.alloc(), text).end();
        assert!(rt; end >= *least && end <= RANK_LIMIT);
    }
}

#[test]
fn gives_zero_above_no_ranks(rt: HostRuntime) {
    assert!(rt; RankSet::new(rt.alloc()).end() == 0);
}

#[test]
fn tests_single_words(rt: HostRuntime) {
    let set = ranks_of(&rt, rt.alloc(), "63-64,130,1048575");
    for (index, word) in &[(0, 1 << 63), (1, 1), (2, 4), (16_383, 1 << 63), (9, 0)] {
        assert!(rt; set.covers_word(*index, *word));
    }
    for (index, word) in &[(0, 1), (1, 3), (3, 4), (16_384, 1), (u32::MAX, 1)] {
        assert!(rt; !set.covers_word(*index, *word));
    }
}

#[test]
fn compares_single_words_with_an_end(rt: HostRuntime) {
    assert!(rt; word_is_below(2, 4, 131) && word_is_below(u32::MAX, 0, 0));
    assert!(rt; !word_is_below(2, 4, 130) && !word_is_below(u32::MAX, 1, u32::MAX));
}

// Ranks, and their runs.
const RUNS: [(&str, &[Run]); 2] = [
    (
        "1048575",
        &[Run {
            first: 1_048_575,
            last: 1_048_575,
        }],
    ),
    (
        "0,2-3,63-64,127-300",
        &[
            Run { first: 0, last: 0 },
            Run { first: 2, last: 3 },
            Run {
                first: 63,
                last: 64,
            },
            Run {
                first: 127,
                last: 300,
            },
        ],
    ),
];

#[test]
fn gives_all_runs(rt: HostRuntime) {
    let alloc = rt.alloc();
    for (text, want) in &RUNS {
        let runs = ranks_of(&rt, alloc, text).runs(alloc).expect(&rt, "memory");
        assert!(rt; runs.as_slice() == *want);
    }
}

#[test]
fn gives_no_runs_of_no_ranks(rt: HostRuntime) {
    let runs = RankSet::new(rt.alloc())
        .runs(rt.alloc())
        .expect(&rt, "memory");
    assert!(rt; runs.is_empty());
}

// Ranks so far apart that each is a run of its own, put in from the least on or from the greatest.
fn far_apart(rt: &impl Abort, alloc: Global, rising: bool) -> RankSet {
    let mut set = RankSet::new(alloc);
    for i in 0..1_000 {
        let place = if rising { i } else { 999 - i };
        set.insert(1_000 * place).expect(rt, "below the limit");
    }
    set
}

#[test]
fn is_the_same_set_in_whatever_order_ranks_come(rt: HostRuntime) {
    let set = far_apart(&rt, rt.alloc(), true);
    let other = far_apart(&rt, rt.alloc(), false);
    assert!(rt; set.equals(&other) && other.equals(&set));
}

#[test]
fn has_ranks_that_are_far_apart(rt: HostRuntime) {
    let set = far_apart(&rt, rt.alloc(), true);
    assert!(rt; set.count() == 1_000);
    assert!(rt; set.end() == 999_001);
    assert!(rt; set.contains(500_000) && !set.contains(500_001));
}

#[test]
fn is_the_same_set_after_its_gaps_are_filled(rt: HostRuntime) {
    let mut set = far_apart(&rt, rt.alloc(), true);
    for i in 0..999 {
        let first = 1_000 * i + 1;
        set.insert_run(first, first + 998)
            .expect(&rt, "below the limit");
    }
    assert_ranks(&rt, rt.alloc(), &set, "999001:[0-999000]");
}

const TEXTS: [(&str, &str); 7] = [
    ("7,0-2,1", "4:[0-2,7]"),
    ("0", "1:[0]"),
    ("16384", "1:[16384]"),
    ("1048575", "1:[1048575]"),
    ("000000000000000000000000000005-0000000006", "2:[5-6]"),
    ("9-9,8-9", "2:[8-9]"),
    (
        "10-20,40,30-39,21,0-5,1048575",
        "30:[0-5,10-21,30-40,1048575]",
    ),
];

#[test]
fn reads_ranks(rt: HostRuntime) {
    let alloc = rt.alloc();
    for (text, ranks) in &TEXTS {
        assert_ranks(&rt, alloc, &ranks_of(&rt, alloc, text), ranks);
    }
}

const REFUSALS: [(&str, RanksError); 15] = [
    ("", RanksError::Empty),
    ("1,,2", RanksError::BadNumber(2)),
    ("1,", RanksError::BadNumber(2)),
    (",1", RanksError::BadNumber(0)),
    ("5-", RanksError::BadNumber(2)),
    ("-5", RanksError::BadNumber(0)),
    ("1-2-3", RanksError::BadNumber(3)),
    ("1 ,2", RanksError::BadNumber(1)),
    ("3-1", RanksError::Backward(2)),
    ("5-3x", RanksError::Backward(2)),
    ("10,8,20-18", RanksError::Backward(8)),
    ("1048576", RanksError::OverLimit(0)),
    ("1048576x", RanksError::OverLimit(0)),
    ("1048576-", RanksError::OverLimit(0)),
    ("0-99999999999999999999999999", RanksError::OverLimit(2)),
];

#[test]
fn refuses_texts_at_the_first_fault(rt: HostRuntime) {
    for (text, error) in &REFUSALS {
        let found = read_ranks(rt.alloc(), text.as_bytes()).err();
        assert!(rt; found == Some(*error));
    }
}

#[test]
fn reads_many_runs_that_overlap(rt: HostRuntime) {
    let mut text = String::new(rt.alloc());
    for _ in 0..100_000 {
        text.push_str("0-1048575,").expect(&rt, "memory");
    }
    text.push_str("1").expect(&rt, "memory");
    let ranks = ranks_of(&rt, rt.alloc(), text.as_str());
    assert_ranks(&rt, rt.alloc(), &ranks, "1048576:[0-1048575]");
}
