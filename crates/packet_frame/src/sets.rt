//! Sets of numbers as words.

ghost use Rattle.std.specs.Prelude.{◌≡◌, ◌<◌, ◌+◌, ◌-◌, ◌||◌, nat_eq, cond, length, false, None, Some, OnOk, IfErr, IfSome};
ghost use Rattle.rank_set.specs.Words.{AreWords, ranks_in};
ghost use Rattle.packet_frame.specs.declared.error.FrameReason.TheVariants.{NotCanonical};
ghost use Rattle.packet_frame.specs.Fields.{broken, is_short};
ghost use Rattle.packet_frame.specs.Frame.{word_limit};
ghost use Rattle.packet_frame.specs.declared.scan.Part.TheVariants as parts;
ghost use Rattle.packet_frame.specs.declared.scan.Field.TheVariants as fields;
ghost use Rattle.packet_frame.specs.Scanning.{left, left_at, Takes, IsReady, IsInPart, IsInSet, MayEnd, needed, word_rule, set_then, set_left};

use crate::error::{FieldError, FrameReason};
use crate::number::{u16_of, u64_of};
use crate::scan::{Field, Part, Scan};
use call_path::FRAME_LIMIT;
use prefix_tree::PrefixTree;
use rank_set::{RankSet, WORD_LIMIT, word_is_below};
use std::alloc::Global;
use std::mem;

/// The greatest number of words that a set of version 1 may reach over.
const FIRST_WORD_LIMIT: u32 = 256;

impl<T: PrefixTree> Scan<T> {
    // The greatest number of words that a set may reach over.
    fn word_limit(&self) -> u32
        ensures { result ≡ word_limit self.now.version }
    {
        if self.version == 1 {
            FIRST_WORD_LIMIT
        } else {
            WORD_LIMIT
        }
    }

    #[tactic(auto, unfolding(crate::specs::Frame::set_form, crate::specs::Frame::offset_form))]
    pub fn take_offset(&mut self, field: &[u8]) -> Result<(), FieldError>
        requires ready { IsReady fields.Offset self.old }
        requires width { length field.now ≡ 2 }
        ensures takes { Takes (left_at fields.Offset self.old) field.now result (left self.new) }
        ensures ready { OnOk result (IsReady self.new.field self.new) }
    {
        let offset = u16_of(field);
        if u32::from(offset) >= self.word_limit() {
            return Err(FieldError::Broken(FrameReason::OverLimit));
        }
        self.set.offset = offset;
        self.field = Field::WordCount;
        Ok(())
    }

    // Why the set may not be empty, if it may not.
    fn needed(&self) -> Option<FrameReason>
        ensures reason { result ≡ needed self.now.set.part self.now.row.depth self.now.row.left }
        ensures lasting { IfSome result (λ reason. is_short reason ≡ false) }
    {
        match self.set.part {
            Part::Coverage => Some(FrameReason::BadLength),
            Part::Ends if self.row.left <= 1 || usize::from(self.row.depth) == FRAME_LIMIT => {
                Some(FrameReason::NotCanonical)
            }
            Part::Ends => None,
        }
    }

    #[inline(always)]
    #[tactic(auto, unfolding(crate::specs::Frame::word_count_form))]
    pub fn take_word_count(&mut self, alloc: Global, field: &[u8]) -> Result<(), FieldError>
        requires ready { IsReady fields.WordCount self.old }
        requires width { length field.now ≡ 2 }
        ensures takes { Takes (left_at fields.WordCount self.old) field.now result (left self.new) }
        ensures ready { OnOk result (IsReady self.new.field self.new) }
    {
        let count = u16_of(field);
        if u32::from(self.set.offset) + u32::from(count) > self.word_limit() {
            return Err(FieldError::Broken(FrameReason::OverLimit));
        }
        if self.set.offset != 0 && count == 0 {
            return Err(FieldError::Broken(FrameReason::NotCanonical));
        }
        if let Some(reason) = self.needed()
            && count == 0
        {
            return Err(FieldError::Broken(reason));
        }
        self.set.words.clear();
        self.left = u32::from(count);
        self.next_word(alloc)
    }

    // Whether a word of a row's ends obeys their rule.
    #[tactic(auto, unfolding(crate::specs::Frame::ends_rule))]
    fn obeys(&self, word: u64) -> bool
        requires { IsInSet self.now }
        ensures { broken (word_rule self.now.set.part self.now.version self.now.cover.ranks
            (self.now.set.offset + length self.now.set.words.items) word) ≡ cond result None (Some NotCanonical) }
    {
        let index = u32::from(self.set.offset) + self.set.words.len() as u32;
        match self.set.part {
            Part::Coverage => true,
            Part::Ends if self.version == 1 => self.cover.ranks.covers_word(index, word),
            Part::Ends => word_is_below(index, word, self.cover.count),
        }
    }

    #[tactic(auto, unfolding(crate::specs::Frame::word_form))]
    pub fn take_word(&mut self, alloc: Global, field: &[u8]) -> Result<(), FieldError>
        requires ready { IsReady fields.Word self.old }
        requires width { length field.now ≡ 8 }
        ensures takes { Takes (left_at fields.Word self.old) field.now result (left self.new) }
        ensures ready { OnOk result (IsReady self.new.field self.new) }
    {
        let word = u64_of(field);
        let is_edge = self.set.words.is_empty() || self.left == 1;
        if is_edge && word == 0 {
            return Err(FieldError::Broken(FrameReason::NotCanonical));
        }
        if !self.obeys(word) {
            return Err(FieldError::Broken(FrameReason::NotCanonical));
        }
        self.set.words.push(word)?;
        self.left -= 1;
        self.next_word(alloc)
    }

    // Goes on to the next word, or to the end of the set.
    #[inline(always)]
    fn next_word(&mut self, alloc: Global) -> Result<(), FieldError>
        requires { IsInSet self.old }
        ensures left { OnOk result (set_left self.old ≡ left self.new) }
        ensures err { IfErr result (λ e. e ≡ FieldError.OutOfMemory) }
        ensures ready { OnOk result (IsReady self.new.field self.new) }
    {
        if self.left == 0 {
            return self.end_set(alloc);
        }
        self.field = Field::Word;
        Ok(())
    }

    // Ends a set, whose words were read.
    fn end_set(&mut self, alloc: Global) -> Result<(), FieldError>
        requires part { IsInPart self.old.set.part self.old }
        requires words { AreWords self.old.set.offset self.old.set.words.items }
        requires may_end { self.old.set.part ≡ parts.Ends
            → MayEnd self.old.version self.old.cover.ranks (ranks_in self.old.set.offset self.old.set.words.items) }
        ensures ends { OnOk result
            (set_then self.old (ranks_in self.old.set.offset self.old.set.words.items) ≡ left self.new) }
        ensures err { IfErr result (λ e. e ≡ FieldError.OutOfMemory) }
        ensures ready { OnOk result (IsReady self.new.field self.new) }
    {
        let words = mem::replace(&mut self.set.words, Vec::new(alloc));
        let numbers = RankSet::from_words(alloc, u32::from(self.set.offset), words)?;
        match self.set.part {
            Part::Coverage => {
                self.cover.ranks = numbers;
                self.end_cover(alloc)
            }
            Part::Ends if self.version == 1 => self.end_row(alloc, numbers),
            Part::Ends => {
                let ends = self.cover.places.from_places(&numbers)?;
                self.end_row(alloc, ends)
            }
        }
    }
}
