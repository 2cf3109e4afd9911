//! The loop of the readers that go line by line.

ghost use Rattle.std.specs.Prelude.{ℕ, List, IfOk, IfErr};
ghost use Rattle.text_lines.specs.Lines.{lines};
ghost use Rattle.text_lines.specs.Parsing.{TakesLines, RefusesLines};
ghost use Rattle.text_lines.specs.declared.text_error.TextError.{TextError};

use crate::lines::next_line;
use crate::text_error::TextError;

/// A parser that takes one line of a text after another. A line that it refuses takes the parser along: the error is
/// all that is left.
pub trait LineParser: Sized {
    /// What holds of a parser before each line.
    ghost is_ready: { Self → Type 0 };

    /// Taking a line with its number turns a parser into another.
    ghost takes: { Self → ℕ → List ℕ → Self → Type 0 };

    /// A parser refuses a line with its number because of an error.
    ghost refuses: { Self → ℕ → List ℕ → TextError → Type 0 };

    /// The parser after the next line. After a refusal there is no parser left.
    fn take(self, line_number: u64, line: &[u8]) -> Result<Self, TextError>
        requires { is_ready self }
        ensures taken { IfOk result (λ next. takes self line_number line.now next) }
        ensures ready { IfOk result (λ next. is_ready next) }
        ensures refused { IfErr result (λ e. refuses self line_number line.now e) };
}

/// The parser after the lines of a text, or the error of the first line that it refuses. After a refusal there is no
/// parser left.
pub fn read_lines<P: LineParser>(text: &[u8], parser: P) -> Result<P, TextError>
    requires { P.is_ready parser }
    ensures taken { IfOk result (λ next. TakesLines P.takes parser 1 (lines text.now) next) }
    ensures ready { IfOk result (λ next. P.is_ready next) }
    ensures refused { IfErr result (λ e. RefusesLines P.takes P.refuses parser 1 (lines text.now) e) }
{
    let mut parser = parser;
    let mut line_number = 1;
    let mut rest = text;
    while let Some((line, after)) = next_line(rest) {
        parser = parser.take(line_number, line)?;
        line_number += 1;
        rest = after;
    }
    Ok(parser)
}
