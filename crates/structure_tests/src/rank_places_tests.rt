//! What no clause says: that each call succeeds with ample memory.

use crate::sets::{assert_ranks, ranks_of};
use rank_places::CoverPlaces;
use rank_set::RankSet;
use std::alloc::Global;
use std::process::Abort;

// A cover, some of its ranks, and the text of their places.
const PLACES: [(&str, &str, &str); 9] = [
    ("3,5-6,9", "5,9", "2:[1,3]"),
    ("0-1048575", "0,64,1048575", "3:[0,64,1048575]"),
    (
        "64-191,1048512-1048575",
        "64,127-128,1048512,1048575",
        "5:[0,63-64,128,191]",
    ),
    ("7,1048575", "1048575", "1:[1]"),
    ("100-300", "101-299", "199:[1-199]"),
    ("1-64,66-129", "1-64,66-129", "128:[0-127]"),
    ("0,2,4,6,8,10,12,14,16", "4,12-12,16", "3:[2,6,8]"),
    ("63-64,127-128,191-192", "64,127,192", "3:[1-2,5]"),
    ("5", "5", "1:[0]"),
];

fn assert_places(rt: &impl Abort, alloc: Global, cover: &RankSet, ranks: &RankSet, text: &str) {
    assert!(rt; ranks.is_subset(cover));
    let table = CoverPlaces::of(alloc, cover).expect(rt, "memory");
    let places = table.to_places(ranks).expect(rt, "memory");
    assert_ranks(rt, alloc, &places, text);
    let taken_back = table.from_places(&places).expect(rt, "memory");
    assert!(rt; taken_back.equals(ranks));
}

#[test]
fn gives_places_and_takes_them_back(rt: HostRuntime) {
    let alloc = rt.alloc();
    for (cover, ranks, text) in &PLACES {
        let cover = ranks_of(&rt, alloc, cover);
        let ranks = ranks_of(&rt, alloc, ranks);
        assert_places(&rt, alloc, &cover, &ranks, text);
    }
}

#[test]
fn has_no_places_of_no_ranks(rt: HostRuntime) {
    let none = RankSet::new(rt.alloc());
    assert_places(&rt, rt.alloc(), &none, &none, "0:[]");
    let table = CoverPlaces::new(rt.alloc());
    let places = table.to_places(&none).expect(&rt, "memory");
    assert!(rt; places.is_empty());
}
