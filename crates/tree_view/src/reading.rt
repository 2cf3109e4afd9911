//! A view, as two words ask for it.

ghost use Rattle.std.specs.Prelude.{◌≡◌, Err, IfOk, None, OnOk, Ok, Some};
ghost use Rattle.std.specs.Char.{is_ascii_digit};
ghost use Rattle.std.specs.List.{list_all};
ghost use Rattle.rank_set.specs.RanksText.{ranks_text};
ghost use Rattle.call_path.specs.Reading.{path_of};
ghost use Rattle.tree_view.specs.Reading.{by_of, by_word, count_of, frame_in, is_number as is_number_in, ranks_in, tree_view, view_by, view_of};
ghost use Rattle.tree_view.specs.declared.reading.ViewError.TheVariants.{BadArgument};

use crate::REPS_LIMIT;
use call_path::{CallPath, PathError};
use rank_set::digits::capped_value;
use rank_set::{RankSet, RanksError, read_ranks};
use std::alloc::Global;

/// By what a tree is viewed.
#[derive(Debug, PartialEq, Eq, Clone, Copy)]
pub enum ViewBy {
    /// By ranks: the word is `ranks`.
    Ranks,
    /// By a frame: `frame`.
    Frame,
    /// Folded at a frame: `fold`.
    Fold,
    /// By representatives of each class: `reps`.
    Reps,
}

/// A view of a tree.
#[derive(Drop)]
pub enum View<'a> {
    /// These ranks alone.
    Ranks(RankSet),
    /// The paths that have this frame.
    Frame(&'a str),
    /// Each path up to its first such frame.
    Fold(&'a str),
    /// So many ranks of each class, the least ones.
    Reps(u32),
}

/// Why words give no view.
#[derive(Debug, PartialEq, Eq, Clone, Copy)]
pub enum ViewError {
    /// The argument is none of such a view.
    BadArgument,
    /// Out of memory.
    OutOfMemory,
}

/// How many digits a number has at most.
const MAX_DIGITS: usize = 20;

impl ViewBy {
    /// The one that a word names.
    pub fn read(word: &str) -> Option<ViewBy>
        ensures { result ≡ view_by word.now }
    {
        match word {
            "ranks" => Some(ViewBy::Ranks),
            "frame" => Some(ViewBy::Frame),
            "fold" => Some(ViewBy::Fold),
            "reps" => Some(ViewBy::Reps),
            _ => None,
        }
    }

    /// The word that names it.
    pub fn word(self) -> &'static str
        ensures { result.now ≡ by_word self }
    {
        match self {
            ViewBy::Ranks => "ranks",
            ViewBy::Frame => "frame",
            ViewBy::Fold => "fold",
            ViewBy::Reps => "reps",
        }
    }
}

impl<'a> View<'a> {
    /// The view by this of an argument: by ranks, a text of ranks as `7,0-2`; by a frame or folded at one, the frame;
    /// by representatives, a number of 1 to 20 digits from 1 to 1,000. Refused with `BadArgument` exactly where the
    /// argument is none of these.
    pub fn read(alloc: Global, by: ViewBy, argument: &'a str) -> Result<View<'a>, ViewError>
        ensures ok { IfOk result (λ view. view_of by argument.entry.now ≡ Some (tree_view view)) }
        ensures err { result ≡ Err BadArgument → view_of by argument.entry.now ≡ None }
    {
        match by {
            ViewBy::Ranks => match ranks_argument(alloc, argument) {
                Ok(ranks) => Ok(View::Ranks(ranks)),
                Err(error) => Err(error),
            },
            ViewBy::Frame => match frame_argument(alloc, argument) {
                Ok(()) => Ok(View::Frame(argument)),
                Err(error) => Err(error),
            },
            ViewBy::Fold => match frame_argument(alloc, argument) {
                Ok(()) => Ok(View::Fold(argument)),
                Err(error) => Err(error),
            },
            ViewBy::Reps => match count_argument(argument) {
                Some(count) => Ok(View::Reps(count)),
                None => Err(ViewError::BadArgument),
            },
        }
    }

    /// By what it views.
    pub fn by(&self) -> ViewBy
        ensures { result ≡ by_of (tree_view self.now) }
    {
        match self {
            View::Ranks(_) => ViewBy::Ranks,
            View::Frame(_) => ViewBy::Frame,
            View::Fold(_) => ViewBy::Fold,
            View::Reps(_) => ViewBy::Reps,
        }
    }
}

// The ranks of a text.
fn ranks_argument(alloc: Global, text: &str) -> Result<RankSet, ViewError>
    ensures ok { IfOk result (λ ranks. ranks_text text.now ≡ Ok ranks) }
    ensures err { result ≡ Err BadArgument → ranks_in (ranks_text text.now) ≡ None }
{
    match read_ranks(alloc, text.as_bytes()) {
        Ok(ranks) => Ok(ranks),
        Err(RanksError::OutOfMemory) => Err(ViewError::OutOfMemory),
        Err(_) => Err(ViewError::BadArgument),
    }
}

// Tells that a text is one frame.
fn frame_argument(alloc: Global, text: &str) -> Result<(), ViewError>
    ensures ok { OnOk result (frame_in (path_of text.now) ≡ Some text.now) }
    ensures err { result ≡ Err BadArgument → frame_in (path_of text.now) ≡ None }
{
    match CallPath::read(alloc, text) {
        Ok(path) => {
            if path.len() == 1 {
                Ok(())
            } else {
                Err(ViewError::BadArgument)
            }
        }
        Err(PathError::OutOfMemory) => Err(ViewError::OutOfMemory),
        Err(_) => Err(ViewError::BadArgument),
    }
}

// Whether a text is 1 to 20 decimal digits.
fn is_number(text: &[u8]) -> bool
    ensures { result ≡ is_number_in text.now }
{
    if text.is_empty() || text.len() > MAX_DIGITS {
        return false;
    }
    are_digits(text)
}

// Whether each byte is a decimal digit.
fn are_digits(text: &[u8]) -> bool
    ensures { result ≡ list_all is_ascii_digit text.now }
{
    text.iter().all(|b| b.is_ascii_digit())
}

// The number of representatives that a text writes.
fn count_argument(text: &str) -> Option<u32>
    ensures { result ≡ count_of text.now }
{
    if !is_number(text.as_bytes()) {
        return None;
    }
    let count = capped_value(text.as_bytes(), REPS_LIMIT + 1);
    if 1 <= count && count <= REPS_LIMIT {
        Some(count)
    } else {
        None
    }
}
