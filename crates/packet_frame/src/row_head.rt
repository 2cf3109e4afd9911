//! Rows of the common form, read in one go: they are whole and have an ASCII name, and all but the last have no ends.

ghost use Rattle.std.specs.Prelude.{◌≡◌, ◌≤◌, true, false, take, [], ◌∷◌, length, IfOk, OnOk, IfSome, Ok};
ghost use Rattle.call_path.specs.Good.{is_good_frame};
ghost use Rattle.packet_frame.specs.declared.scan.Field.TheVariants as fields;
ghost use Rattle.packet_frame.specs.Scanning.{left, IsReady, ReadsOn, BeginsWithHead, FollowsRow};

use crate::number::{u8_of, u16_of};
use crate::rows::is_plain_name;
use crate::scan::{Field, Part, Scan};
use call_path::{FRAME_BYTES, FRAME_LIMIT, PathBuilder};
use prefix_tree::PrefixTree;
use std::alloc::AllocError;
use std::cmp::Ordering;

impl<T: PrefixTree> Scan<T> {
    /// Reads rows in one go, as long as they are whole up to their ends, obey their rules and have an ASCII name: up to
    /// the ends of the first that has some or may need some. Returns the offset of what comes next.
    #[inline(never)]
    pub fn take_rows(&mut self, bytes: &[u8], at: usize) -> Result<usize, AllocError>
        requires next { self.old.field ≡ fields.Depth }
        requires ready { IsReady fields.Depth self.old }
        requires within { at ≤ length bytes.now }
        ensures reads { IfOk result (λ next. ReadsOn bytes.now (left self.old) at (left self.new) next) }
        ensures within { IfOk result (λ next. (at ≤ next) × (next ≤ length bytes.now)) }
        ensures ready { OnOk result (IsReady self.new.field self.new) }
        ensures some { OnOk result (self.new.field ≡ fields.End → ⊥) }
    {
        let (_, mut rest) = bytes.split_at(at);
        loop {
            let Some((depth, name)) = row_head(rest) else {
                return Ok(bytes.len() - rest.len());
            };
            if !push_row(&mut self.row.path, self.row.ended, depth, name)? {
                return Ok(bytes.len() - rest.len());
            }
            let (_, ends) = rest.split_at(3 + name.len());
            if self.row.left <= 1 || !has_no_ends(ends) {
                self.row.depth = depth;
                self.set.part = Part::Ends;
                self.field = Field::Offset;
                return Ok(bytes.len() - ends.len());
            }
            let (_, behind) = ends.split_at(4);
            rest = behind;
            self.row.ended = false;
            self.row.left -= 1;
        }
    }
}

// The depth and the name of the row that comes next, where both are whole, and the name is ASCII. A row at the greatest
// depth needs ends, and is left to the fields.
#[inline(always)]
fn row_head(rest: &[u8]) -> Option<(u8, &str)>
    ensures { IfSome result (λ head. BeginsWithHead rest.now head.0 head.1.now) }
{
    if rest.len() < 3 {
        return None;
    }
    let (depth, rest) = rest.split_at(1);
    let (length, rest) = rest.split_at(2);
    let depth = u8_of(depth);
    let length = u16_of(length) as usize;
    if usize::from(depth) >= FRAME_LIMIT || length > FRAME_BYTES || rest.len() < length {
        return None;
    }
    let (name, _) = rest.split_at(length);
    if !is_plain_name(name) {
        return None;
    }
    Some((depth, unsafe { str::from_utf8_unchecked(name) }))
}

// Whether no ends come next.
#[inline(always)]
fn has_no_ends(rest: &[u8]) -> bool
    ensures within { result ≡ true → 4 ≤ length rest.now }
    ensures nothing { result ≡ true → take 4 rest.now ≡ 0 ∷ 0 ∷ 0 ∷ 0 ∷ [] }
{
    match rest.first_chunk::<4>() {
        Some(ends) => *ends == [0; 4],
        None => false,
    }
}

// Makes the path that of the next row, if a row may have this depth and name. Returns whether it may.
#[inline(always)]
fn push_row(path: &mut PathBuilder, ended: bool, depth: u8, name: &str) -> Result<bool, AllocError>
    requires depth { depth ≤ FRAME_LIMIT }
    requires good { is_good_frame name.now ≡ true }
    ensures read { result ≡ Ok true → FollowsRow path.old ended depth name.now path.new }
    ensures unread { result ≡ Ok false → path.new ≡ path.old }
{
    if depth as usize == path.len() + 1 {
        path.push(name)?;
        return Ok(true);
    }
    push_sibling(path, ended, depth, name)
}

// The same of a row that is not below the one before. Few rows are, so it stands apart.
#[inline(never)]
fn push_sibling(
    path: &mut PathBuilder,
    ended: bool,
    depth: u8,
    name: &str,
) -> Result<bool, AllocError>
    requires depth { depth ≤ FRAME_LIMIT }
    requires good { is_good_frame name.now ≡ true }
    ensures read { result ≡ Ok true → FollowsRow path.old ended depth name.now path.new }
    ensures unread { result ≡ Ok false → path.new ≡ path.old }
{
    if !ended || depth < 1 || depth as usize > path.len() {
        return Ok(false);
    }
    let above = depth as usize - 1;
    if path.frame(above).as_bytes().cmp(name.as_bytes()) != Ordering::Less {
        return Ok(false);
    }
    path.cut(above);
    path.push(name)?;
    Ok(true)
}
