//! The runs of a coverage.

ghost use Rattle.std.specs.Prelude.{◌≡◌, length, OnOk, IfErr};
ghost use Rattle.packet_frame.specs.declared.scan.Field.TheVariants as fields;
ghost use Rattle.packet_frame.specs.Scanning.{left, left_at, Takes, IsReady, after_cover};

use crate::error::{FieldError, FrameReason};
use crate::number::u32_of;
use crate::scan::{Field, Scan};
use prefix_tree::PrefixTree;
use rank_places::CoverPlaces;
use rank_set::{RANK_LIMIT, RankError, RankSet};
use std::alloc::Global;

/// The most runs of a coverage.
const RUN_LIMIT: u32 = RANK_LIMIT / 2;

impl<T: PrefixTree> Scan<T> {
    #[tactic(auto, unfolding(crate::specs::Frame::run_count_form))]
    pub fn take_run_count(&mut self, alloc: Global, field: &[u8]) -> Result<(), FieldError>
        requires ready { IsReady fields.RunCount self.old }
        requires width { length field.now ≡ 4 }
        ensures takes { Takes (left_at fields.RunCount self.old) field.now result (left self.new) }
        ensures ready { OnOk result (IsReady self.new.field self.new) }
    {
        let count = u32_of(field);
        if count == 0 {
            return Err(FieldError::Broken(FrameReason::BadLength));
        }
        if count > RUN_LIMIT {
            return Err(FieldError::Broken(FrameReason::OverLimit));
        }
        self.cover.ranks = RankSet::new(alloc);
        self.least = 0;
        self.left = count;
        self.field = Field::FirstRank;
        Ok(())
    }

    #[tactic(auto, unfolding(crate::specs::Frame::run_form, crate::specs::Frame::first_rank_form))]
    pub fn take_first_rank(&mut self, field: &[u8]) -> Result<(), FieldError>
        requires ready { IsReady fields.FirstRank self.old }
        requires width { length field.now ≡ 4 }
        ensures takes { Takes (left_at fields.FirstRank self.old) field.now result (left self.new) }
        ensures ready { OnOk result (IsReady self.new.field self.new) }
    {
        let first = u32_of(field);
        if first >= RANK_LIMIT {
            return Err(FieldError::Broken(FrameReason::OverLimit));
        }
        if first < self.least {
            return Err(FieldError::Broken(FrameReason::NotCanonical));
        }
        self.least = first;
        self.field = Field::LastRank;
        Ok(())
    }

    #[tactic(auto, unfolding(crate::specs::Frame::last_rank_form))]
    pub fn take_last_rank(&mut self, alloc: Global, field: &[u8]) -> Result<(), FieldError>
        requires ready { IsReady fields.LastRank self.old }
        requires width { length field.now ≡ 4 }
        ensures takes { Takes (left_at fields.LastRank self.old) field.now result (left self.new) }
        ensures ready { OnOk result (IsReady self.new.field self.new) }
    {
        let last = u32_of(field);
        if last >= RANK_LIMIT {
            return Err(FieldError::Broken(FrameReason::OverLimit));
        }
        if last < self.least {
            return Err(FieldError::Broken(FrameReason::NotCanonical));
        }
        match self.cover.ranks.insert_run(self.least, last) {
            Ok(()) => {}
            Err(RankError::OutOfMemory) => return Err(FieldError::OutOfMemory),
            Err(RankError::OverLimit) => unreachable!(),
        }
        self.least = last + 2;
        self.left -= 1;
        if self.left == 0 {
            return self.end_cover(alloc);
        }
        self.field = Field::FirstRank;
        Ok(())
    }

    // Ends the coverage, whose ranks were read.
    pub fn end_cover(&mut self, alloc: Global) -> Result<(), FieldError>
        requires { self.old.kind ≡ 1 }
        ensures left { OnOk result
            (after_cover self.old.version self.old.stream self.old.wave self.old.cover.ranks ≡ left self.new) }
        ensures err { IfErr result (λ e. e ≡ FieldError.OutOfMemory) }
        ensures ready { OnOk result (IsReady self.new.field self.new) }
    {
        self.cover.places = CoverPlaces::of(alloc, &self.cover.ranks)?;
        self.cover.count = self.cover.ranks.count();
        self.field = Field::RowCount;
        Ok(())
    }
}
