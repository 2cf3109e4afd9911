//! JSON as it is written: members of objects, and the texts of sets of ranks and of call paths.
//!
//! [`JsonText`] appends one token after another, without spaces. Its caller nests the objects and the lists, and writes
//! the keys of an object in byte order:
//!
//! ```text
//! let mut json = JsonText::new(alloc);
//! json.begin_object()?;
//! json.text("covered", &ranks_text(alloc, ranks)?)?;
//! json.count("number", 1)?;
//! json.end_object()?;
//! let line = json.into_line()?;                       // {"covered":"2:[0-1]","number":1}
//! ```
//!
//! Each call fails only if memory runs out. The text may then have a part of what was to be added, and is to be
//! dropped. A contract sees a text as the tokens so far. `specs/Tokens.antt` says which tokens a value and a member
//! have, and `specs/Values.antt` which value stands for a count, a number or a set.
#![tactic(auto)]

ghost use Rattle.std.specs.Prelude.{◌≡◌, ◌∷◌, ◌++◌, [], IfOk, OnOk, string_bytes};
ghost use Rattle.json.specs.Token.{begin_array, begin_object, end_array, end_object, key as key_token};
ghost use Rattle.json.specs.Print.{print};
ghost use Rattle.serde_json.specs.Data.{string};
ghost use Rattle.rank_set.specs.Text.{text_of};
ghost use Rattle.call_path.specs.Path.{path_text as text_of_path};
ghost use Rattle.json_text.specs.Values.{count as count_data, value_data};
ghost use Rattle.json_text.specs.Tokens.{member_tokens, value_tokens};

use call_path::CallPath;
use json::{Token, Writer};
use rank_set::RankSet;
use std::alloc::{AllocError, Global};
use std::marker::Model;

/// JSON without spaces, as far as it has been written. The caller nests its objects and lists.
#[derive(Drop)]
pub struct JsonText {
    writer: Writer,
    alloc: Global,
}

impl Model for JsonText {
    ghost use Rattle.std.specs.Prelude.{◌≡◌, List, []};
    ghost use Rattle.json.specs.Token.{Token, tokens_code};

    ghost Value = { List Token };

    ghost coded = { tokens_code };

    ghost view = { λ a. a.writer.tokens };

    ghost invariant = { λ a. a.writer.before ≡ [] };
}

impl JsonText {
    /// The empty text.
    pub fn new(alloc: Global) -> JsonText
        ensures { result ≡ [] }
    {
        JsonText {
            writer: Writer::new(Vec::new(alloc)),
            alloc,
        }
    }

    /// The allocator of the text, which also serves what is written into it.
    pub fn allocator(&self) -> Global {
        self.alloc
    }

    /// The text.
    pub fn into_text(self) -> Vec<u8>
        ensures { result.items ≡ print self }
    {
        let JsonText { writer, .. } = self;
        writer.into_inner()
    }

    /// The text and a line feed.
    pub fn into_line(self) -> Result<Vec<u8>, AllocError>
        ensures { IfOk result (λ line. line.items ≡ print self ++ 10 ∷ []) }
    {
        let mut line = self.into_text();
        line.push(b'\n')?;
        Ok(line)
    }

    /// Begins an object.
    pub fn begin_object(&mut self) -> Result<(), AllocError>
        ensures { OnOk result (self.new ≡ self.old ++ begin_object ∷ []) }
    {
        self.writer.begin_object()
    }

    /// Ends an object.
    pub fn end_object(&mut self) -> Result<(), AllocError>
        ensures { OnOk result (self.new ≡ self.old ++ end_object ∷ []) }
    {
        self.writer.end_object()
    }

    /// Begins a list.
    pub fn begin_list(&mut self) -> Result<(), AllocError>
        ensures { OnOk result (self.new ≡ self.old ++ begin_array ∷ []) }
    {
        self.writer.begin_array()
    }

    /// Ends a list.
    pub fn end_list(&mut self) -> Result<(), AllocError>
        ensures { OnOk result (self.new ≡ self.old ++ end_array ∷ []) }
    {
        self.writer.end_array()
    }

    /// Appends the key of a member. Its value comes next.
    pub fn key(&mut self, key: &str) -> Result<(), AllocError>
        ensures { OnOk result (self.new ≡ self.old ++ key_token key.now ∷ []) }
    {
        self.writer.key(key)
    }

    /// Appends a text to a list.
    pub fn string(&mut self, text: &str) -> Result<(), AllocError>
        ensures { OnOk result (self.new ≡ self.old ++ value_tokens (string text.now)) }
    {
        self.writer.string(text)
    }

    /// Appends a member whose value is a text.
    pub fn text(&mut self, key: &str, text: &str) -> Result<(), AllocError>
        ensures { OnOk result (self.new ≡ self.old ++ member_tokens key.now (string text.now)) }
    {
        self.writer.key(key)?;
        self.writer.string(text)
    }

    /// Appends a member whose value is a number, or `null` where there is none.
    pub fn value(&mut self, key: &str, value: Option<i64>) -> Result<(), AllocError>
        ensures { OnOk result (self.new ≡ self.old ++ member_tokens key.now (value_data value)) }
    {
        self.writer.key(key)?;
        match value {
            Some(number) => self.writer.i64(number),
            None => self.writer.token(Token::Null),
        }
    }

    /// Appends a member whose value is a count.
    pub fn count(&mut self, key: &str, n: u64) -> Result<(), AllocError>
        ensures { OnOk result (self.new ≡ self.old ++ member_tokens key.now (count_data n)) }
    {
        self.writer.key(key)?;
        self.writer.u64(n)
    }
}

/// The text of a set of ranks.
pub fn ranks_text(alloc: Global, ranks: &RankSet) -> Result<String, AllocError>
    ensures { IfOk result (λ text. string_bytes text ≡ text_of ranks.now) }
{
    let mut text = Vec::new(alloc);
    ranks.write_text(&mut text)?;
    // Digits, `:`, `[`, `,`, `-` and `]` are ASCII.
    Ok(unsafe { String::from_utf8_unchecked(text) })
}

/// The text of a path: its frames, joined by `;`.
pub fn path_text(alloc: Global, path: &CallPath) -> Result<String, AllocError>
    ensures { IfOk result (λ text. string_bytes text ≡ text_of_path path.now) }
{
    let frames = path.len();
    let mut text = String::new(alloc);
    text.push_str(path.frame(0))?;
    for i in 1..frames {
        text.push_str(";")?;
        text.push_str(path.frame(i))?;
    }
    Ok(text)
}
