//! Frames as one text, with the offset where each ends.

ghost use Rattle.std.specs.Prelude.{◌≡◌, ◌<◌, ◌≤◌, ◌+◌, ◌-◌, ◌^◌, ◌++◌, [], ◌∷◌, length, IfOk, OnOk, OnErr, IsTrue, map, take, drop, slice_get, Some, string_bytes, string_len, string_capacity};
ghost use Rattle.smallvec.specs.SmallVec.{HasRoomFor};
ghost use Rattle.call_path.specs.Path.{path_cmp, is_prefix, shared_len, path_text};
ghost use Rattle.call_path.specs.Good.{is_good_frame, AreGoodFrames};
ghost use Rattle.call_path.specs.Reading.{frames};
ghost use Rattle.call_path.specs.Cuts.{ends_from, start_in, end_in};
ghost use Rattle.call_path.specs.Functions.{func};

use crate::FRAME_LIMIT;
use crate::function_name::function_of;
use crate::text_order::{first_difference, rank_at};
use smallvec::SmallVec;
use std::alloc::{AllocError, Global};
use std::cmp::Ordering;
use std::marker::Model;

// Where each frame ends in a text: those of few frames are stored in place, without an allocation.
type Ends = SmallVec<u32, 8>;

/// 0 to 128 good frames, joined by `;`.
#[derive(Drop)]
pub struct FrameText {
    text: String,
    // Where each frame ends in the text.
    ends: Ends,
}

impl Model for FrameText {
    ghost use Rattle.std.specs.Prelude.{string_bytes};
    ghost use Rattle.call_path.specs.Path.{Path};
    ghost use Rattle.call_path.specs.Cuts.{cut_from, AreCuts};

    ghost Value = { Path };

    ghost view = { λ a. cut_from 0 a.ends.items (string_bytes a.text) };

    ghost invariant = { λ a.
        AreCuts (cut_from 0 a.ends.items (string_bytes a.text)) (string_bytes a.text) a.ends.items };
}

impl FrameText {
    /// No frames.
    pub fn new(alloc: Global) -> FrameText
        ensures { result ≡ [] }
    {
        FrameText {
            text: String::new(alloc),
            ends: Ends::new(alloc),
        }
    }

    /// The frames of a text, with room for so many.
    pub fn of(alloc: Global, text: &str, count: usize) -> Result<FrameText, AllocError>
        requires { AreGoodFrames (frames text.now) }
        ensures { IfOk result (λ all. all ≡ frames text.now) }
    {
        let ends = frame_ends(alloc, text.as_bytes(), count)?;
        let text = String::from_str(alloc, text)?;
        Ok(FrameText { text, ends })
    }

    /// The number of frames.
    pub fn len(&self) -> usize
        ensures len { result ≡ length self.now }
        ensures within_limit { length self.now ≤ FRAME_LIMIT }
        ensures good { AreGoodFrames self.now }
    {
        self.ends.as_slice().len()
    }

    /// Frame `i`.
    pub fn frame(&self, i: usize) -> &str
        requires { i < length self.now }
        ensures frame { slice_get self.now i ≡ Some result.now }
        ensures good { IsTrue (is_good_frame result.now) }
    {
        let ends = self.ends.as_slice();
        let start = start_in(ends, i);
        let end = ends[i] as usize;
        &self.text.as_str()[start..end]
    }

    /// The frames joined by `;`.
    pub fn text(&self) -> &str
        ensures text { result.now ≡ path_text self.now }
        ensures good { AreGoodFrames self.now }
    {
        self.text.as_str()
    }

    /// Frame by frame in byte order, a prefix first.
    pub fn cmp(&self, other: &FrameText) -> Ordering
        ensures { result ≡ path_cmp self.now other.now }
    {
        let text = self.text().as_bytes();
        let other_text = other.text().as_bytes();
        let offset = first_difference(text, other_text);
        rank_at(text, offset).cmp(&rank_at(other_text, offset))
    }

    /// Whether the other frames begin with these.
    pub fn is_prefix_of(&self, other: &FrameText) -> bool
        ensures { result ≡ is_prefix self.now other.now }
    {
        if self.len() > other.len() {
            return false;
        }
        for i in 0..self.len() {
            if self.frame(i) != other.frame(i) {
                return false;
            }
        }
        true
    }

    // The text of the first `depth` frames.
    fn prefix_text(&self, depth: usize) -> &str
        requires { depth ≤ length self.now }
        ensures text { result.now ≡ path_text (take depth self.now) }
        ensures good { AreGoodFrames (take depth self.now) }
    {
        &self.text.as_str()[..end_in(self.ends.as_slice(), depth)]
    }

    // The text of the frames from `from` on, among the first `depth`.
    fn part_text(&self, from: usize, depth: usize) -> &str
        requires not_empty { from < depth }
        requires within { depth ≤ length self.now }
        ensures text { result.now ≡ path_text (drop from (take depth self.now)) }
        ensures good { AreGoodFrames (drop from (take depth self.now)) }
    {
        &self.prefix_text(depth)[start_in(self.ends.as_slice(), from)..]
    }

    /// How many of the first frames are the frames of `other` from `from` on.
    pub fn common(&self, other: &FrameText, from: usize) -> usize
        requires { from ≤ length other.now }
        ensures { result ≡ shared_len self.now (drop from other.now) }
    {
        let most = self.len().min(other.len() - from);
        if most == 0 {
            return 0;
        }
        // Most often all frames are shared, and one test of texts is cheap.
        if self.prefix_text(most) == other.part_text(from, from + most) {
            return most;
        }
        for i in 0..most {
            if self.frame(i) != other.frame(from + i) {
                return i;
            }
        }
        most
    }

    /// The first `depth` frames.
    pub fn first(&self, depth: usize) -> Result<FrameText, AllocError>
        requires { depth ≤ length self.now }
        ensures { IfOk result (λ first. first ≡ take depth self.now) }
    {
        let text = String::from_str(*self.ends.allocator(), self.prefix_text(depth))?;
        let ends = Ends::from_slice(*self.ends.allocator(), &self.ends.as_slice()[..depth])?;
        Ok(FrameText { text, ends })
    }

    /// The frames behind the first `depth`.
    pub fn behind(&self, depth: usize) -> Result<FrameText, AllocError>
        requires { depth < length self.now }
        ensures { IfOk result (λ rest. rest ≡ drop depth self.now) }
    {
        let alloc = *self.ends.allocator();
        let text = String::from_str(alloc, self.part_text(depth, self.len()))?;
        let ends = ends_behind(alloc, self.ends.as_slice(), depth)?;
        Ok(FrameText { text, ends })
    }

    /// The functions of the frames: each without its line.
    pub fn functions(&self) -> Result<FrameText, AllocError>
        ensures { IfOk result (λ all. all ≡ map func self.now) }
    {
        // Most often no frame has a line, and the functions are the frames.
        if memchr::memchr(b'@', self.text().as_bytes()).is_none() {
            return self.first(self.len());
        }
        let mut all = FrameText::new(*self.ends.allocator());
        all.reserve(self.len(), self.text().len() + 1)?;
        for i in 0..self.len() {
            all.push(function_of(self.frame(i)))?;
        }
        Ok(all)
    }

    /// Makes room for so many frames more, which have so many bytes in all with a `;` before each.
    pub fn reserve(&mut self, frames: usize, bytes: usize) -> Result<(), AllocError>
        ensures { self.new ≡ self.old }
    {
        self.ends.reserve(frames)?;
        self.text.reserve(bytes)?;
        Ok(())
    }

    /// Keeps the first `depth` frames.
    pub fn cut(&mut self, depth: usize)
        ensures { self.new ≡ take depth self.old }
    {
        if depth < self.ends.as_slice().len() {
            self.text.truncate(end_in(self.ends.as_slice(), depth));
            self.ends.truncate(depth);
        }
    }

    /// Appends a frame.
    #[inline(always)]
    pub fn push(&mut self, frame: &str) -> Result<(), AllocError>
        requires below_limit { length self.old < FRAME_LIMIT }
        requires good { IsTrue (is_good_frame frame.now) }
        ensures ok { OnOk result (self.new ≡ self.old ++ frame.now ∷ []) }
        ensures err { OnErr result (self.new ≡ self.old) }
    {
        let first = self.ends.as_slice().is_empty();
        ensure_room(&mut self.text, &mut self.ends, frame.len())?;
        if !first {
            self.text.push(';')?;
        }
        self.text.push_str(frame)?;
        self.ends.push_reserved(self.text.as_str().len() as u32);
        Ok(())
    }
}

// Makes room for one more frame of so many bytes, and the `;` before it.
#[inline(always)]
fn ensure_room(text: &mut String, ends: &mut Ends, len: usize) -> Result<(), AllocError>
    requires { len < 2 ^ 63 }
    ensures text { string_bytes text.new ≡ string_bytes text.old }
    ensures ends { ends.new.items ≡ ends.old.items }
    ensures text_room { OnOk result (string_len text.new + (len + 1) ≤ string_capacity text.new) }
    ensures ends_room { OnOk result (HasRoomFor ends.new 1) }
{
    if ends.as_slice().len() >= ends.capacity() || text.capacity() - text.len() <= len {
        return make_room(text, ends, len);
    }
    Ok(())
}

// The same where one of the two is full. It stands apart, so that a push with room stays short.
#[cold]
#[inline(never)]
fn make_room(text: &mut String, ends: &mut Ends, len: usize) -> Result<(), AllocError>
    requires { len < 2 ^ 63 }
    ensures text { string_bytes text.new ≡ string_bytes text.old }
    ensures ends { ends.new.items ≡ ends.old.items }
    ensures text_room { OnOk result (string_len text.new + (len + 1) ≤ string_capacity text.new) }
    ensures ends_room { OnOk result (HasRoomFor ends.new 1) }
{
    ends.reserve(1)?;
    text.reserve(len + 1)?;
    Ok(())
}

// Where frame `i` begins.
fn start_in(ends: &[u32], i: usize) -> usize
    requires { i ≤ length ends.now }
    ensures { result ≡ start_in ends.now i }
{
    if i == 0 {
        return 0;
    }
    ends[i - 1] as usize + 1
}

// Where the first `depth` frames end.
fn end_in(ends: &[u32], depth: usize) -> usize
    requires { depth ≤ length ends.now }
    ensures { result ≡ end_in ends.now depth }
{
    if depth == 0 {
        return 0;
    }
    ends[depth - 1] as usize
}

// Where the frames behind the first `depth` end, counted from where the first of them begins.
fn ends_behind(alloc: Global, ends: &[u32], depth: usize) -> Result<Ends, AllocError>
    requires { depth ≤ length ends.now }
    ensures { IfOk result (λ rest. rest.items ≡ map (λ end. end - start_in ends.now depth) (drop depth ends.now)) }
{
    let start = start_in(ends, depth);
    let mut rest = Ends::with_capacity(alloc, ends.len() - depth)?;
    for end in &ends[depth..] {
        rest.push_reserved((*end as usize).saturating_sub(start) as u32);
    }
    Ok(rest)
}

// Where each frame of a text ends, with room for so many frames.
fn frame_ends(alloc: Global, text: &[u8], count: usize) -> Result<Ends, AllocError>
    requires { length text.now < 2 ^ 32 }
    ensures { IfOk result (λ ends. ends.items ≡ ends_from 0 (frames text.now)) }
{
    let mut ends = Ends::with_capacity(alloc, count)?;
    for end in memchr::memchr_iter(b';', text) {
        ends.push(end as u32)?;
    }
    ends.push(text.len() as u32)?;
    Ok(ends)
}
