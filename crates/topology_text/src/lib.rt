//! Reads topologies: statements as `fe:0 => a:0 b:0 ;`, each a parent and its children.
//!
//! `topology_of` says what a text means: the names of its nodes in order of first appearance and each node's parent, or
//! its first error. [`read`] gives exactly that.
#![tactic(auto)]

ghost use Rattle.std.specs.Prelude.{◌≡◌, IfOk, [], ◌∷◌, Ok};
ghost use Rattle.topology_text.specs.Tokens.{pieces, End};
ghost use Rattle.topology_text.specs.ParserViews.{parser_view};
ghost use Rattle.topology_text.specs.Statements.{with_pieces};
ghost use Rattle.topology_text.specs.Grammar.{IsAcceptable};
ghost use Rattle.topology_text.specs.Whole.{topology_of};
ghost use Rattle.overlay_setup.specs.Topologies.{Nodes};
ghost use Rattle.text_lines.specs.Parsing.{IsValueOf, IsErrorOf};

mod parser;
mod tokens;
mod whole;

use overlay_setup::Topology;
use parser::Parser;
use std::alloc::Global;
use text_lines::{Reason, TextError};
use tokens::{skipped, token_at, token_len};

// Takes the tokens of a text into a parser, and gives the line on which the text ends.
fn read_tokens(text: &[u8], parser: &mut Parser) -> Result<u64, TextError>
    ensures ok { IfOk result (
        λ end. with_pieces (parser_view parser.old) (pieces 1 0 text.now)
        ≡ with_pieces (parser_view parser.new) ((end, End) ∷ [])
        ) }
    ensures err { IsErrorOf result (with_pieces (parser_view parser.old) (pieces 1 0 text.now)) }
{
    let (mut rest, mut line_number) = skipped(text, 1);
    while !rest.is_empty() {
        let Some(token) = token_at(rest) else {
            return Err(TextError::bad(line_number, Reason::BadToken));
        };
        parser.take(line_number, &token)?;
        let (_, after) = rest.split_at(token_len(&token));
        (rest, line_number) = skipped(after, line_number);
    }
    Ok(line_number)
}

/// Reads a topology. The bytes of comments may be any; elsewhere the text is refused by its first error, read from the
/// front token by token, and then by those of the whole text. While memory lasts, exactly those texts are accepted that
/// are written as the statements of a job's tree, with at most one statement for each parent, and each child once:
/// `IsAcceptable`. The names are numbered in order of first appearance, and the links are those of the statements:
/// `IsWritten`.
pub fn read(alloc: Global, text: &[u8]) -> Result<Topology, TextError>
    ensures ok { IsValueOf result (topology_of text.now) }
    ensures written { IfOk result (λ t. IsAcceptable text.now t) }
    ensures err { IsErrorOf result (topology_of text.now) }
    ensures accepted { (t : Nodes) → IsAcceptable text.now t → topology_of text.now ≡ Ok t }
{
    let mut parser = Parser::new(alloc);
    let end = read_tokens(text, &mut parser)?;
    parser.finish(end)
}
