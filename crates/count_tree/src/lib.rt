//! Counts by place, and the place of the `i`-th of all that is counted.
//!
//! A [`CountTree`] has a number of places, which is fixed when it is made, and a count for each of them. It tells the
//! sum of all counts, and where the `i`-th of all counted things is when they are ordered by place. With `n` places,
//! changing a count and finding a thing each take at most `log2(n) + 1` steps. Neither takes memory, so neither can
//! fail.
//!
//! ```text
//! let mut tree = CountTree::new(alloc, 3)?;
//! tree.set(0, 2);
//! tree.set(2, 4);
//! tree.total()      // 6
//! tree.find(1)      // Some((0, 1))
//! tree.find(3)      // Some((2, 1))
//! tree.find(6)      // None
//! ```
//!
//! The counts are the leaves of a binary tree in which each inner node has the sum of its two children. The root is at
//! index 1 of one array, the children of node `k` are at `2 * k` and `2 * k + 1`, and the leaves are the second half.
#![tactic(auto)]

ghost use Rattle.std.specs.Prelude.{◌≡◌, ◌<◌, ℕ, ◌↔◌, List, Some, None, IfOk, EachIndex, length, replicate, slice_get, slice_index, slice_set};
ghost use Rattle.std.specs.List.{flat_map, sum};
ghost use Rattle.count_tree.specs.Places.{lengths, place_of};

use std::alloc::{AllocError, Global};
use std::marker::Model;

/// A count for each place, and the sums that find a thing by its number. A contract sees it as the list of its counts,
/// by place.
#[derive(Drop)]
pub struct CountTree {
    // The nodes of the tree, twice as many as leaves. Index 0 is unused and zero.
    sums: Vec<u64>,
    // How many leaves there are: a power of two, at least the number of places. Those past the last place are zero.
    leaves: usize,
    places: u32,
}

impl Model for CountTree {
    ghost use Rattle.std.specs.Prelude.{ℕ, List, take, drop};
    ghost use Rattle.count_tree.specs.Sums.{IsTree};

    ghost Value = { List ℕ };

    ghost view = { λ t. take t.places (drop t.leaves t.sums.items) };

    ghost invariant = { λ t. IsTree t.sums.items t.leaves t.places };
}

impl CountTree {
    /// A tree with the given number of places, each with count 0. Fails only if memory runs out.
    pub fn new(alloc: Global, places: u32) -> Result<CountTree, AllocError>
        ensures { IfOk result (λ tree. tree ≡ replicate places 0) }
    {
        let leaves = (places as usize).next_power_of_two();
        Ok(CountTree {
            sums: vec![in alloc; 0; 2 * leaves]?,
            leaves,
            places,
        })
    }

    /// The number of places.
    pub fn len(&self) -> u32
        ensures { result ≡ length self.now }
    {
        self.places
    }

    /// The sum of all counts.
    pub fn total(&self) -> u64
        ensures { result ≡ sum self.now }
    {
        self.sums[1]
    }

    /// The count of a place, which must be below the number of places.
    pub fn count(&self, place: u32) -> u32
        requires { place < length self.now }
        ensures { result ≡ slice_index self.now place }
    {
        self.sums[self.leaves + place as usize] as u32
    }

    /// Sets the count of a place, which must be below the number of places. All other counts stay as they are. A count
    /// that is the same as before takes one step.
    pub fn set(&mut self, place: u32, count: u32)
        requires { place < length self.old }
        ensures { self.new ≡ slice_set self.old place count }
    {
        let mut node = self.leaves + place as usize;
        if self.sums[node] == count as u64 {
            return;
        }
        self.sums[node] = count as u64;
        while node > 1 {
            node /= 2;
            self.sums[node] = self.sums[2 * node] + self.sums[2 * node + 1];
        }
    }

    /// Where the `i`-th of all counted things is, from 0, when they are ordered by place: its place, and its number
    /// among the things of that place, from 0. None if there are at most `i` things.
    pub fn find(&self, i: u64) -> Option<(u32, u64)>
        ensures { result ≡ place_of self.now i }
    {
        if i >= self.sums[1] {
            return None;
        }
        let mut left = i;
        let mut node = 1;
        while node < self.leaves {
            node *= 2;
            let first = self.sums[node];
            if left >= first {
                left -= first;
                node += 1;
            }
        }
        Some(((node - self.leaves) as u32, left))
    }
}

/// A law: where the counts are the lengths of lists, `f x` for each `x` of `xs`, a thing is an item of the lists joined
/// in order. If its place is `n` and its number there is `j`, it is item `j` of the list at `n`. If it has no place,
/// the joined lists have no such item. The sum of the counts is the length of the joined lists.
pub fn finds_in_lists<T, U>()
    ensures place { (f : T → List U) (xs : List T) (i n j : ℕ) → place_of (lengths f xs) i ≡ Some (n, j)
        → n < length xs }
    ensures item { (f : T → List U) (xs : List T) (i n j : ℕ) (x : T)
        → place_of (lengths f xs) i ≡ Some (n, j) → slice_get xs n ≡ Some x
        → slice_get (flat_map f xs) i ≡ slice_get (f x) j }
    ensures within { (f : T → List U) (xs : List T) (i n j : ℕ) (x : T)
        → place_of (lengths f xs) i ≡ Some (n, j) → slice_get xs n ≡ Some x → j < length (f x) }
    ensures none { (f : T → List U) (xs : List T) (i : ℕ) → place_of (lengths f xs) i ≡ None
        → slice_get (flat_map f xs) i ≡ None }
    ensures total { (f : T → List U) (xs : List T) → sum (lengths f xs) ≡ length (flat_map f xs) }
{}

/// A law: the sum of counts is 0 exactly if the count of each place is 0.
pub fn zero_total()
    ensures { (counts : List ℕ) → (sum counts ≡ 0) ↔ EachIndex counts (λ n. slice_index counts n ≡ 0) }
{}
