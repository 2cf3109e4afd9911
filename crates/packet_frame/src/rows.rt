//! Rows of a tree.

ghost use Rattle.std.specs.Prelude.{◌≡◌, ◌≤◌, ◌<◌, ◌+◌, ◌-◌, ◌&&◌, nat_lt, length, true, false, slice_get, OnOk, IfErr, IfSome, IfNone, IsTrue};
ghost use Rattle.std.specs.List.{list_all};
ghost use Rattle.rank_set.specs.Ranks.{is_subset};
ghost use Rattle.call_path.specs.Good.{is_plain};
ghost use Rattle.packet_frame.specs.Frame.{is_after, is_name};
ghost use Rattle.packet_frame.specs.declared.scan.Field.TheVariants as fields;
ghost use Rattle.packet_frame.specs.Scanning.{left, left_at, Takes, IsReady, IsBeforeRow, IsNamed, after_ends, is_plain_ascii};

use crate::error::{FieldError, FrameReason};
use crate::number::{u8_of, u16_of};
use crate::scan::{Field, Part, Scan};
use call_path::{FRAME_BYTES, FRAME_LIMIT, PREFIX_LIMIT};
use prefix_tree::PrefixTree;
use rank_set::RankSet;
use std::alloc::Global;
use std::cmp::Ordering;

// For how many frames of a path, and for how many bytes of them, room is made before the first row.
const FRAMES_AT_ONCE: usize = 32;

const BYTES_AT_ONCE: usize = 1_024;

impl<T: PrefixTree> Scan<T> {
    #[tactic(auto, unfolding(crate::specs::Frame::row_count_form))]
    pub fn take_row_count(&mut self, alloc: Global, field: &[u8]) -> Result<(), FieldError>
        requires ready { IsReady fields.RowCount self.old }
        requires width { length field.now ≡ 2 }
        ensures takes { Takes (left_at fields.RowCount self.old) field.now result (left self.new) }
        ensures ready { OnOk result (IsReady self.new.field self.new) }
    {
        let count = u16_of(field);
        if usize::from(count) > PREFIX_LIMIT {
            return Err(FieldError::Broken(FrameReason::OverLimit));
        }
        self.tree.restart(alloc, &self.cover.ranks)?;
        self.row.path.cut(0);
        self.row.path.reserve(FRAMES_AT_ONCE, BYTES_AT_ONCE)?;
        self.row.ended = true;
        self.row.left = count;
        self.next_row();
        Ok(())
    }

    #[tactic(auto, unfolding(crate::specs::Frame::depth_form, crate::specs::Frame::row_form))]
    pub fn take_depth(&mut self, field: &[u8]) -> Result<(), FieldError>
        requires ready { IsReady fields.Depth self.old }
        requires width { length field.now ≡ 1 }
        ensures takes { Takes (left_at fields.Depth self.old) field.now result (left self.new) }
        ensures ready { OnOk result (IsReady self.new.field self.new) }
    {
        let depth = u8_of(field);
        if usize::from(depth) > FRAME_LIMIT {
            return Err(FieldError::Broken(FrameReason::OverLimit));
        }
        let next = self.row.path.len() + 1;
        if depth < 1 || depth as usize > next {
            return Err(FieldError::Broken(FrameReason::NotCanonical));
        }
        if !self.row.ended && depth as usize != next {
            return Err(FieldError::Broken(FrameReason::NotCanonical));
        }
        self.row.depth = depth;
        self.field = Field::NameLength;
        Ok(())
    }

    #[tactic(auto, unfolding(crate::specs::Frame::name_length_form))]
    pub fn take_name_length(&mut self, field: &[u8]) -> Result<(), FieldError>
        requires ready { IsReady fields.NameLength self.old }
        requires width { length field.now ≡ 2 }
        ensures takes { Takes (left_at fields.NameLength self.old) field.now result (left self.new) }
        ensures ready { OnOk result (IsReady self.new.field self.new) }
    {
        let length = u16_of(field);
        if length == 0 {
            return Err(FieldError::Broken(FrameReason::BadLength));
        }
        if usize::from(length) > FRAME_BYTES {
            return Err(FieldError::Broken(FrameReason::OverLimit));
        }
        self.row.name_length = length;
        self.field = Field::Name;
        Ok(())
    }

    // Whether the name of a row of this depth comes after the sibling before it.
    #[inline(always)]
    pub fn is_in_order(&self, depth: u8, name: &[u8]) -> bool
        requires { 1 ≤ depth }
        ensures { result ≡ is_after (slice_get self.now.row.path (depth - 1)) name.now }
    {
        let above = depth as usize - 1;
        if above >= self.row.path.len() {
            return true;
        }
        self.row.path.frame(above).as_bytes().cmp(name) == Ordering::Less
    }

    #[tactic(auto, unfolding(crate::specs::Frame::name_form, crate::specs::Frame::ends_form))]
    pub fn take_name(&mut self, field: &[u8]) -> Result<(), FieldError>
        requires ready { IsReady fields.Name self.old }
        requires width { length field.now ≡ self.old.row.name_length }
        ensures takes { Takes (left_at fields.Name self.old) field.now result (left self.new) }
        ensures ready { OnOk result (IsReady self.new.field self.new) }
    {
        let Some(name) = name_of(field) else {
            return Err(FieldError::Broken(FrameReason::NotCanonical));
        };
        if !self.is_in_order(self.row.depth, field) {
            return Err(FieldError::Broken(FrameReason::NotCanonical));
        }
        self.row.path.cut(self.row.depth as usize - 1);
        self.row.path.push(name)?;
        self.set.part = Part::Ends;
        self.field = Field::Offset;
        Ok(())
    }

    // Goes on to the next row, or to the end of the frame.
    #[inline(always)]
    fn next_row(&mut self)
        requires { IsBeforeRow self.old }
        ensures left { left self.new ≡ left_at fields.Depth self.old }
        ensures ready { IsReady self.new.field self.new }
    {
        if self.row.left == 0 {
            self.field = Field::End;
        } else {
            self.field = Field::Depth;
        }
    }

    // Ends a row, whose ends were read.
    #[inline(always)]
    pub fn end_row(&mut self, alloc: Global, ends: RankSet) -> Result<(), FieldError>
        requires named { IsNamed self.old }
        requires covered { IsTrue (is_subset ends self.old.cover.ranks) }
        ensures ends { OnOk result
            (after_ends self.old.version self.old.stream self.old.wave self.old.cover.ranks self.old.tree
            self.old.row.path self.old.row.left ends ≡ left self.new) }
        ensures err { IfErr result (λ e. e ≡ FieldError.OutOfMemory) }
        ensures ready { OnOk result (IsReady self.new.field self.new) }
    {
        self.row.ended = !ends.is_empty();
        self.tree.grow(alloc, &ends, &mut self.row.path)?;
        self.row.left -= 1;
        self.next_row();
        Ok(())
    }
}

fn are_plain(field: &[u8]) -> bool
    ensures { result ≡ list_all is_plain field.now }
{
    field
        .iter()
        .all(|b| (0x20 <= *b) & (*b != 0x7F) & (*b != b';'))
}

// Whether all bytes are plain ASCII. It tests each of them, since a loop that goes to its end tests 16 bytes at once.
#[inline(always)]
fn all_plain_ascii(bytes: &[u8]) -> bool
    ensures { result ≡ list_all is_plain_ascii bytes.now }
{
    let mut all = true;
    for b in bytes {
        all &= (0x20 <= *b) & (*b < 0x7F) & (*b != b';');
    }
    all
}

// The same for WIDTH to 2 * WIDTH bytes: it tests the first and the last WIDTH, since single bytes take longer.
#[inline(always)]
fn two_plain_blocks<const WIDTH: usize>(field: &[u8]) -> bool
    requires at_least { WIDTH ≤ length field.now }
    requires at_most { length field.now ≤ WIDTH + WIDTH }
    ensures { result ≡ list_all is_plain_ascii field.now }
{
    let (first, _) = field.split_at(WIDTH);
    let (_, last) = field.split_at(field.len() - WIDTH);
    all_plain_ascii(first) & all_plain_ascii(last)
}

// The same for 32 to 63 bytes.
#[inline(always)]
fn four_plain_blocks(field: &[u8]) -> bool
    requires at_least { 32 ≤ length field.now }
    requires at_most { length field.now < 64 }
    ensures { result ≡ list_all is_plain_ascii field.now }
{
    let (first, _) = field.split_at(32);
    let (_, last) = field.split_at(field.len() - 32);
    two_plain_blocks::<16>(last) && two_plain_blocks::<16>(first)
}

// The same for 16 bytes or more: it tests blocks of 16, and the last 16 in place of a shorter block at the end.
#[inline(never)]
fn many_plain_blocks(field: &[u8]) -> bool
    requires { 16 ≤ length field.now }
    ensures { result ≡ list_all is_plain_ascii field.now }
{
    let (_, last) = field.split_at(field.len() - 16);
    let mut all = all_plain_ascii(last);
    let mut rest = field;
    while all && rest.len() >= 16 {
        let (block, behind) = rest.split_at(16);
        all = all_plain_ascii(block);
        rest = behind;
    }
    all
}

/// Whether a name has bytes, all of them plain ASCII. They are tested in blocks as long as the name allows.
#[inline(always)]
pub fn is_plain_name(field: &[u8]) -> bool
    ensures { result ≡ (nat_lt 0 (length field.now) && list_all is_plain_ascii field.now) }
{
    if field.len() < 8 {
        return !field.is_empty() && all_plain_ascii(field);
    }
    if field.len() < 16 {
        return two_plain_blocks::<8>(field);
    }
    if field.len() < 32 {
        return two_plain_blocks::<16>(field);
    }
    if field.len() < 64 {
        return four_plain_blocks(field);
    }
    many_plain_blocks(field)
}

// A field as text, if it is a name.
fn name_of(field: &[u8]) -> Option<&str>
    ensures some { IfSome result (λ name. name.now ≡ field.now) }
    ensures good { IfSome result (λ name. is_name field.now ≡ true) }
    ensures none { IfNone result (is_name field.now ≡ false) }
{
    if !are_plain(field) {
        return None;
    }
    match str::from_utf8(field) {
        Ok(name) => Some(name),
        Err(_) => None,
    }
}
