//! The user's words for names.

ghost use Rattle.std.specs.Prelude.{◌≡◌, []};
ghost use Rattle.frame_name.specs.Words.{fits_anywhere, word_fits, any_fits};

use crate::texts::contains;
use call_path::CallPath;
use std::marker::Model;

/// Words for names, as the user writes them: parted by `;`, as the frames of a call path are.
///
/// A `*` at a word's beginning or end stands for any bytes, and each other byte for itself.
#[derive(Drop)]
pub struct Words {
    path: Option<CallPath>,
}

impl Model for Words {
    ghost use Rattle.std.specs.Prelude.{List, ℕ};
    ghost use Rattle.frame_name.specs.WordLists.{words_of};

    ghost Value = { List (List ℕ) };

    ghost view = { λ a. words_of a.path };
}

impl Words {
    /// No words, which fit nothing.
    pub fn none() -> Words
        ensures { result ≡ [] }
    {
        Words { path: None }
    }

    /// The frames of a path, as words.
    pub fn of(path: CallPath) -> Words
        ensures { result ≡ path }
    {
        Words { path: Some(path) }
    }

    /// Whether one of the words fits a text.
    pub fn fits(&self, text: &[u8]) -> bool
        ensures { result ≡ any_fits self.now text.now }
    {
        match &self.path {
            Some(path) => any_fits(path, text),
            None => false,
        }
    }
}

// Whether a text ends with a word, or contains it where a `*` stands behind the word.
fn fits_anywhere(word: &[u8], text: &[u8]) -> bool
    ensures { result ≡ fits_anywhere word.now text.now }
{
    if word.ends_with(b"*") {
        return contains(&word[..word.len() - 1], text);
    }
    text.ends_with(word)
}

fn word_fits(word: &[u8], text: &[u8]) -> bool
    ensures { result ≡ word_fits word.now text.now }
{
    if word.starts_with(b"*") {
        return fits_anywhere(&word[1..], text);
    }
    if word.ends_with(b"*") {
        return text.starts_with(&word[..word.len() - 1]);
    }
    word == text
}

fn any_fits(words: &CallPath, text: &[u8]) -> bool
    ensures { result ≡ any_fits words.now text.now }
{
    for i in 0..words.len() {
        if word_fits(words.frame(i).as_bytes(), text) {
            return true;
        }
    }
    false
}
