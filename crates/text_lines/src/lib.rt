//! What the readers of the job's texts share: lines, the words of a line, the numbers and ranks that words write, and
//! why a text was refused.
//!
//! All readers have one shape: a parser with `new`, `take`, which takes the next line or token with its line's number,
//! and `finish`, which checks the whole text. A reader that goes line by line implements [`LineParser`], whose `take`
//! moves the parser, so that none is left after a refusal; [`read_lines`] is the loop. The first error is a
//! [`TextError`]. `specs/Lines.antt` says what the lines, words and numbers of a text are, `specs/RanksWords.antt`
//! which ranks a word writes, and `specs/Parsing.antt` what a parser makes of lines.
#![tactic(auto)]

mod line_parser;
mod lines;
mod ranks_words;
mod text_error;

pub use line_parser::{LineParser, read_lines};
pub use lines::{
    after_blanks, are_digits, cut_number, cut_word, is_word, line_len, next_line, next_text_line,
    next_word, number_in, says_nothing,
};
pub use ranks_words::ranks_on;
pub use text_error::{Quantity, Reason, TextError};
