//! The places of ranks in a set that covers them.
//!
//! The place of a rank is the number of lesser ranks of the cover, so that the places of a cover's ranks are 0, 1, 2
//! and so on, whatever the ranks are. A [`CoverPlaces`] is made once of a cover, and then finds the places of any of
//! its ranks, and the ranks at any places, in a few steps for each word or run of a set and each run of the cover that
//! it touches.
#![tactic(auto)]

ghost use Rattle.std.specs.Prelude.{◌≡◌, ℕ, ◌<◌, true, IfOk};
ghost use Rattle.rank_set.specs.Ranks.{none, is_subset, size, Has};
ghost use Rattle.rank_places.specs.Places.{to_places, from_places};

mod collected;
mod moving;
mod table;

use moving::{Way, moved};
use rank_set::RankSet;
use std::alloc::{AllocError, Global};
use std::marker::Model;
use table::{PlacedRun, placed_runs};

/// A cover, as its runs with the places of their ranks. A contract sees the cover's ranks.
#[derive(Drop)]
pub struct CoverPlaces {
    runs: Vec<PlacedRun>,
    // Whether the cover is held as runs: so are its parts, most often.
    scattered: bool,
}

impl Model for CoverPlaces {
    ghost use Rattle.rank_set.specs.Ranks.{Ranks, coded_ranks};
    ghost use Rattle.rank_places.specs.Table.{cover_of, ArePlaced};

    ghost Value = { Ranks };

    ghost coded = { coded_ranks };

    ghost view = { λ a. cover_of a.runs.items };

    ghost invariant = { λ a. ArePlaced 0 0 a.runs.items };
}

impl CoverPlaces {
    /// The places of no ranks. It allocates nothing.
    pub fn new(alloc: Global) -> CoverPlaces
        ensures { result ≡ none }
    {
        CoverPlaces {
            runs: Vec::new(alloc),
            scattered: false,
        }
    }

    /// The places of the ranks of a cover.
    pub fn of(alloc: Global, cover: &RankSet) -> Result<CoverPlaces, AllocError>
        ensures { IfOk result (λ places. places ≡ cover.now) }
    {
        // for the proof: its ranks are below the limit
        cover.invariant();
        let runs = cover.runs(alloc)?;
        Ok(CoverPlaces {
            runs: placed_runs(alloc, &runs)?,
            scattered: cover.held_words().is_none(),
        })
    }

    /// The places of ranks that the cover has.
    pub fn to_places(&self, ranks: &RankSet) -> Result<RankSet, AllocError>
        requires { is_subset ranks.now self.now ≡ true }
        ensures places { IfOk result (λ places. places ≡ to_places self.now ranks.now) }
        ensures in_cover { IfOk result (λ places. (p : ℕ) → Has p places → p < size self.now) }
        ensures inverse { IfOk result (λ places. from_places self.now places ≡ ranks.now) }
    {
        let way = Way {
            runs: &self.runs,
            back: false,
        };
        moved(*self.runs.allocator(), way, ranks, false)
    }

    /// The ranks of the cover whose places are in the set, each place below the cover's count: the way back from
    /// `to_places`.
    pub fn from_places(&self, places: &RankSet) -> Result<RankSet, AllocError>
        requires { (p : ℕ) → Has p places.now → p < size self.now }
        ensures ranks { IfOk result (λ ranks. ranks ≡ from_places self.now places.now) }
        ensures subset { IfOk result (λ ranks. is_subset ranks self.now ≡ true) }
        ensures inverse { IfOk result (λ ranks. to_places self.now ranks ≡ places.now) }
    {
        let way = Way {
            runs: &self.runs,
            back: true,
        };
        moved(*self.runs.allocator(), way, places, self.scattered)
    }
}
