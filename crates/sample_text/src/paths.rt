//! The paths of a samples text, each of them once.

ghost use Rattle.std.specs.Prelude.{◌≡◌, ◌≤◌, ◌<◌, ◌+◌, ℕ, true, length, IfOk, IfSome, OnOk, Ok, Err};
ghost use Rattle.call_path.specs.Reading.{path_of};
ghost use Rattle.stat_plan.specs.declared.samples.TheConstants.{LINE_LIMIT};
ghost use Rattle.text_lines.specs.Parsing.{IsValueOf, IsErrorOf};
ghost use Rattle.sample_text.specs.Steps.{path_on};

use call_path::{CallPath, PathError};
use indexmap::IndexSet;
use std::alloc::Global;
use text_lines::{Reason, TextError};

/// Paths by number, and the set that finds the number of a text.
#[derive(Drop)]
pub struct Paths {
    texts: IndexSet<String>,
    paths: Vec<CallPath>,
    // The number that was given last.
    last: u32,
}

// The path that a text on a line writes.
#[tactic(auto, unfolding(crate::specs::Steps::path_on))]
fn path_on(alloc: Global, line_number: u64, text: &str) -> Result<CallPath, TextError>
    ensures ok { IsValueOf result (path_on line_number text.now) }
    ensures path { IfOk result (λ path. path_of text.now ≡ Ok path) }
    ensures err { IsErrorOf result (path_on line_number text.now) }
{
    match CallPath::read(alloc, text) {
        Ok(path) => Ok(path),
        Err(PathError::OutOfMemory) => Err(TextError::OutOfMemory),
        Err(_) => Err(TextError::bad(line_number, Reason::BadPath)),
    }
}

impl Paths {
    ghost use Rattle.sample_text.specs.ParserViews.{HoldsPaths, BeginsWithPath, path_at};

    /// No paths.
    pub fn new(alloc: Global) -> Paths
        ensures holds { HoldsPaths result }
        ensures empty { length result.paths.items ≡ 0 }
    {
        Paths {
            texts: IndexSet::new(alloc),
            paths: Vec::new(alloc),
            last: 0,
        }
    }

    /// The number that was given last, and what is left of a text whose first line is the text of that path, with a
    /// line feed behind it. None where the text begins otherwise.
    #[inline(always)]
    pub fn cut_last<'t>(&self, text: &'t str) -> Option<(u32, &'t str)>
        requires { HoldsPaths self.now }
        ensures path { IfSome result (λ cut. BeginsWithPath self.now text.now cut.0 cut.1.now) }
        ensures shorter { IfSome result (λ cut. length cut.1.now < length text.now) }
    {
        let last = self.texts.get_index(self.last as usize)?;
        let rest = text.as_bytes().strip_prefix(last.as_bytes())?;
        let (b, after) = rest.split_first()?;
        if *b != b'\n' {
            return None;
        }
        let (_, after) = text.split_at(text.len() - after.len());
        Some((self.last, after))
    }

    // Whether a text is that of the path whose number was given last.
    #[inline(always)]
    fn is_last(&self, text: &str) -> bool
        requires { HoldsPaths self.now }
        ensures { result ≡ true →
            (path_of text.now ≡ Ok (path_at self.now self.now.last)) × (self.now.last < length self.now.paths.items) }
    {
        match self.texts.get_index(self.last as usize) {
            Some(last) => last.as_str() == text,
            None => false,
        }
    }

    // The number of a path's text that is not the text of the call before.
    #[inline(never)]
    fn number_of_other(&mut self, line_number: u64, text: &str) -> Result<u32, TextError>
        requires holds { HoldsPaths self.old }
        requires within_limit { length self.old.paths.items < LINE_LIMIT }
        ensures ok { IfOk result (λ n. path_on line_number text.now ≡ Ok (path_at self.new n)) }
        ensures within { IfOk result (λ n. n < length self.new.paths.items) }
        ensures holds { OnOk result (HoldsPaths self.new) }
        ensures old_paths { OnOk result (
            (n : ℕ) → n < length self.old.paths.items → path_at self.new n ≡ path_at self.old n
            ) }
        ensures none_lost { OnOk result (length self.old.paths.items ≤ length self.new.paths.items) }
        ensures at_most_one_new { OnOk result (length self.new.paths.items ≤ length self.old.paths.items + 1) }
        ensures err { IsErrorOf result (path_on line_number text.now) }
    {
        if let Some(number) = self.texts.get_index_of(text) {
            self.last = number as u32;
            return Ok(self.last);
        }
        let number = self.paths.len() as u32;
        let alloc = *self.paths.allocator();
        let path = path_on(alloc, line_number, text)?;
        self.paths.push(path)?;
        let _ = self.texts.insert_full(String::from_str(alloc, text)?)?;
        self.last = number;
        Ok(number)
    }

    /// The number of the path that a text on a line writes. A text that was here before has the number that it had,
    /// and is not read again. The text of the last call is not looked for either.
    #[inline(always)]
    pub fn number(&mut self, line_number: u64, text: &str) -> Result<u32, TextError>
        requires holds { HoldsPaths self.old }
        requires within_limit { length self.old.paths.items < LINE_LIMIT }
        ensures ok { IfOk result (λ n. path_on line_number text.now ≡ Ok (path_at self.new n)) }
        ensures within { IfOk result (λ n. n < length self.new.paths.items) }
        ensures holds { OnOk result (HoldsPaths self.new) }
        ensures old_paths { OnOk result (
            (n : ℕ) → n < length self.old.paths.items → path_at self.new n ≡ path_at self.old n
            ) }
        ensures none_lost { OnOk result (length self.old.paths.items ≤ length self.new.paths.items) }
        ensures at_most_one_new { OnOk result (length self.new.paths.items ≤ length self.old.paths.items + 1) }
        ensures err { IsErrorOf result (path_on line_number text.now) }
    {
        if self.is_last(text) {
            return Ok(self.last);
        }
        self.number_of_other(line_number, text)
    }

    /// The paths by number.
    pub fn into_paths(self) -> Vec<CallPath>
        ensures { result.items ≡ self.paths.items }
    {
        self.paths
    }
}
