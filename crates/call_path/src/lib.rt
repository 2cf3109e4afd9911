//! Call paths: the frames of a call stack, root first.
//!
//! A path has 1 to 128 frames. A frame is a text of 1 to 1,023 bytes without control bytes and
//! without `;`, so the frames joined by `;` are a text from which the path can be read back.
#![tactic(auto)]

ghost use Rattle.std.specs.Prelude.{List, ℕ, ◌≡◌, ◌≢◌, ◌<◌, ◌≤◌, ◌++◌, [], ◌∷◌, length, IfOk, IfErr, OnOk, OnErr, Ok, Err, IsTrue, true, map, take, drop, slice_get, Some};
ghost use Rattle.call_path.specs.Path.{Path, path_cmp, is_prefix, shared_len, path_text};
ghost use Rattle.call_path.specs.Functions.{HasLine, func};
ghost use Rattle.call_path.specs.Good.{is_good_frame, AreGoodFrames, IsGoodPath};
ghost use Rattle.call_path.specs.Reading.{path_of};
ghost use Rattle.call_path.specs.TextOrder.{text_cmp};
ghost use Rattle.call_path.specs.declared.read.PathError.TheVariants.{OutOfMemory};

use frame_text::FrameText;
pub use read::PathError;
use std::alloc::{AllocError, Global};
use std::cmp::Ordering;
use std::marker::Model;

mod frame_text;
mod function_name;
mod read;
mod text_order;

/// The most frames of a path.
pub const FRAME_LIMIT: usize = 128;

/// The most bytes of a frame.
pub const FRAME_BYTES: usize = 1_023;

/// The most distinct prefixes that the samples of a wave may have, and so the most rows of a tree besides the root.
pub const PREFIX_LIMIT: usize = 2_048;

/// A call stack: 1 to 128 frames, root first.
#[derive(Drop)]
pub struct CallPath {
    frames: FrameText,
}

impl Model for CallPath {
    ghost use Rattle.std.specs.Prelude.{length, ◌<◌};
    ghost use Rattle.call_path.specs.Path.{Path};

    ghost Value = { Path };

    ghost view = { λ a. a.frames };

    ghost invariant = { λ a. 0 < length a.frames };
}

impl CallPath {
    /// Reads frames that are parted by `;`, from the left.
    pub fn read(alloc: Global, text: &str) -> Result<CallPath, PathError>
        ensures ok { IfOk result (λ path. path_of text.now ≡ Ok path) }
        ensures err { IfErr result (λ e. e ≢ OutOfMemory → path_of text.now ≡ Err e) }
    {
        let count = match read::frame_count(text.as_bytes()) {
            Ok(count) => count,
            Err(error) => return Err(error),
        };
        let frames = FrameText::of(alloc, text, count)?;
        Ok(CallPath { frames })
    }

    /// The number of frames.
    pub fn len(&self) -> usize
        ensures len { result ≡ length self.now }
        ensures not_empty { 0 < length self.now }
        ensures within_limit { length self.now ≤ FRAME_LIMIT }
        ensures good { IsGoodPath self.now }
    {
        self.frames.len()
    }

    /// Frame `i`, counted from the root.
    pub fn frame(&self, i: usize) -> &str
        requires { i < length self.now }
        ensures frame { slice_get self.now i ≡ Some result.now }
        ensures good { IsTrue (is_good_frame result.now) }
    {
        self.frames.frame(i)
    }

    /// Whether the other path begins with this one.
    pub fn is_prefix_of(&self, other: &CallPath) -> bool
        ensures { result ≡ is_prefix self.now other.now }
    {
        self.frames.is_prefix_of(&other.frames)
    }

    /// How many of the first frames are the frames of `other` from frame `from` on.
    pub fn common(&self, other: &CallPath, from: usize) -> usize
        requires { from ≤ length other.now }
        ensures { result ≡ shared_len self.now (drop from other.now) }
    {
        self.frames.common(&other.frames, from)
    }

    /// Frame by frame in byte order, a prefix first. The joined texts are in this order if `;` comes
    /// before all other bytes.
    pub fn cmp(&self, other: &CallPath) -> Ordering
        ensures { result ≡ path_cmp self.now other.now }
    {
        self.frames.cmp(&other.frames)
    }

    /// The path of the first `depth` frames.
    pub fn prefix(&self, depth: usize) -> Result<CallPath, AllocError>
        requires not_empty { 0 < depth }
        requires within { depth ≤ length self.now }
        ensures { IfOk result (λ prefix. prefix ≡ take depth self.now) }
    {
        let frames = self.frames.first(depth)?;
        Ok(CallPath { frames })
    }

    /// The path of the frames behind the first `depth`.
    pub fn behind(&self, depth: usize) -> Result<CallPath, AllocError>
        requires { depth < length self.now }
        ensures { IfOk result (λ rest. rest ≡ drop depth self.now) }
    {
        let frames = self.frames.behind(depth)?;
        Ok(CallPath { frames })
    }

    /// Makes room for so many frames more, which have so many bytes in all with a `;` before each.
    pub fn reserve(&mut self, frames: usize, bytes: usize) -> Result<(), AllocError>
        ensures { self.new ≡ self.old }
    {
        self.frames.reserve(frames, bytes)
    }

    /// Keeps the first `depth` frames.
    pub fn cut(&mut self, depth: usize)
        requires { 0 < depth }
        ensures { self.new ≡ take depth self.old }
    {
        self.frames.cut(depth);
    }

    /// Appends a frame.
    pub fn push(&mut self, frame: &str) -> Result<(), AllocError>
        requires below_limit { length self.old < FRAME_LIMIT }
        requires good { IsTrue (is_good_frame frame.now) }
        ensures ok { OnOk result (self.new ≡ self.old ++ frame.now ∷ []) }
        ensures err { OnErr result (self.new ≡ self.old) }
    {
        self.frames.push(frame)
    }

    /// A copy of the path.
    pub fn copy(&self) -> Result<CallPath, AllocError>
        ensures { IfOk result (λ copy. copy ≡ self.now) }
    {
        self.prefix(self.len())
    }

    /// The path of the functions: each frame without its line.
    ///
    /// A frame has a line where it ends with `@` and 1 to 9 decimal digits behind at least one
    /// other byte.
    pub fn functions(&self) -> Result<CallPath, AllocError>
        ensures { IfOk result (λ all. all ≡ map func self.now) }
    {
        let frames = self.frames.functions()?;
        Ok(CallPath { frames })
    }

    /// The frames as a list that is built on. Nothing is copied.
    pub fn into_builder(self) -> PathBuilder
        ensures { result ≡ self }
    {
        PathBuilder {
            frames: self.frames,
        }
    }

    /// Appends the frames, joined by `;`.
    pub fn write_text(&self, out: &mut Vec<u8>) -> Result<(), AllocError>
        ensures ok { OnOk result (out.new.items ≡ out.old.items ++ path_text self.now) }
        ensures err { OnErr result (out.new.items ≡ out.old.items) }
    {
        out.extend_from_slice(self.frames.text().as_bytes())?;
        Ok(())
    }
}

/// The paths of the functions of some paths, in the order of these.
pub fn functions_of(alloc: Global, paths: &[CallPath]) -> Result<Vec<CallPath>, AllocError>
    ensures { IfOk result (λ all. all.items ≡ map (map func) paths.now) }
{
    let mut all = Vec::with_capacity(alloc, paths.len())?;
    for path in paths {
        all.push(path.functions()?)?;
    }
    Ok(all)
}

/// The frames of a path that is being built, root first: 0 to 128.
#[derive(Drop)]
pub struct PathBuilder {
    frames: FrameText,
}

impl Model for PathBuilder {
    ghost use Rattle.call_path.specs.Path.{Path};

    ghost Value = { Path };

    ghost view = { λ a. a.frames };
}

impl PathBuilder {
    /// The empty list of frames.
    pub fn new(alloc: Global) -> PathBuilder
        ensures { result ≡ [] }
    {
        PathBuilder {
            frames: FrameText::new(alloc),
        }
    }

    /// The number of frames.
    pub fn len(&self) -> usize
        ensures len { result ≡ length self.now }
        ensures within_limit { length self.now ≤ FRAME_LIMIT }
        ensures good { AreGoodFrames self.now }
    {
        self.frames.len()
    }

    /// Frame `i`, counted from the root.
    pub fn frame(&self, i: usize) -> &str
        requires { i < length self.now }
        ensures frame { slice_get self.now i ≡ Some result.now }
        ensures good { IsTrue (is_good_frame result.now) }
    {
        self.frames.frame(i)
    }

    /// Appends a frame.
    #[inline(always)]
    pub fn push(&mut self, frame: &str) -> Result<(), AllocError>
        requires below_limit { length self.old < FRAME_LIMIT }
        requires good { IsTrue (is_good_frame frame.now) }
        ensures ok { OnOk result (self.new ≡ self.old ++ frame.now ∷ []) }
        ensures err { OnErr result (self.new ≡ self.old) }
    {
        self.frames.push(frame)
    }

    /// Makes room for so many frames more, which have so many bytes in all with a `;` before each.
    pub fn reserve(&mut self, frames: usize, bytes: usize) -> Result<(), AllocError>
        ensures { self.new ≡ self.old }
    {
        self.frames.reserve(frames, bytes)
    }

    /// Keeps the first `depth` frames.
    pub fn cut(&mut self, depth: usize)
        ensures { self.new ≡ take depth self.old }
    {
        self.frames.cut(depth);
    }

    /// The path of the frames. Nothing is copied.
    pub fn into_path(self) -> CallPath
        requires { 0 < length self }
        ensures { result ≡ self }
    {
        CallPath {
            frames: self.frames,
        }
    }

    /// A path of the frames, as they are now.
    pub fn path(&self) -> Result<CallPath, AllocError>
        requires { 0 < length self.now }
        ensures { IfOk result (λ path. path ≡ self.now) }
    {
        let frames = self.frames.first(self.frames.len())?;
        Ok(CallPath { frames })
    }
}

/// A law of texts: a good path is read from its text, and what is read from a text is a good path
/// with that text.
pub fn texts_are_read_back()
    ensures read { (p : Path) → IsGoodPath p → path_of (path_text p) ≡ Ok p }
    ensures good { (text : List ℕ) (p : Path) → path_of text ≡ Ok p → IsGoodPath p × (path_text p ≡ text) }
{}

/// A law of shared frames: two paths begin with the same frames and then differ, and a path that
/// shares all its frames with another is a prefix of it.
pub fn shared_frames_are_the_longest_prefix()
    ensures within { (p q : Path) → (shared_len p q ≤ length p) × (shared_len p q ≤ length q) }
    ensures same { (p q : Path) → take (shared_len p q) p ≡ take (shared_len p q) q }
    ensures differ { (p q : Path) → shared_len p q < length p → shared_len p q < length q →
        slice_get p (shared_len p q) ≢ slice_get q (shared_len p q) }
    ensures prefix { (p q : Path) → is_prefix p q ≡ true → shared_len p q ≡ length p }
    ensures all { (p q : Path) → shared_len p q ≡ length p → is_prefix p q ≡ true }
{}

/// A law of order: paths are ordered as their texts are, where the `;` between two frames comes
/// before each byte of a frame.
pub fn paths_are_ordered_by_texts()
    ensures { (p q : Path) → AreGoodFrames p → AreGoodFrames q → path_cmp p q ≡ text_cmp (path_text p) (path_text q) }
{}

/// A law of functions: a frame with a line has the function before it, and each other frame is its
/// own function.
pub fn functions_are_frames_without_lines()
    ensures line { (frame function line : List ℕ) → HasLine frame function line → func frame ≡ function }
    ensures other { (f : List ℕ) → ((function line : List ℕ) → HasLine f function line → ⊥) → func f ≡ f }
    ensures changed { (frame : List ℕ) → func frame ≢ frame → (line : List ℕ) × HasLine frame (func frame) line }
{}

/// A law of functions: those of good frames are good, and those of a prefix are a prefix.
pub fn functions_of_paths_are_paths()
    ensures frame { (frame : List ℕ) → IsTrue (is_good_frame frame) → IsTrue (is_good_frame (func frame)) }
    ensures frames { (p : Path) → AreGoodFrames p → AreGoodFrames (map func p) }
    ensures path { (p : Path) → IsGoodPath p → IsGoodPath (map func p) }
    ensures len { (p : Path) → length (map func p) ≡ length p }
    ensures prefix { (p q : Path) → is_prefix p q ≡ true → is_prefix (map func p) (map func q) ≡ true }
{}
