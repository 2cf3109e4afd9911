//! Reading a values text.

ghost use Rattle.std.specs.Prelude.{◌≡◌, IfErr, IfOk, Ok};
ghost use Rattle.stat_plan.specs.Samples.{all_ranks};
ghost use Rattle.text_lines.specs.Lines.{lines};
ghost use Rattle.text_lines.specs.Parsing.{IsValueOf, IsErrorOf, TakesLines, RefusesLines};
ghost use Rattle.value_text.specs.Grammar.{IsAcceptable};
ghost use Rattle.value_text.specs.Numbers.{Numbers};
ghost use Rattle.value_text.specs.Steps.{values_of_text};
ghost use Rattle.value_text.specs.Views.{IsConsistent, refuses_line, takes_line};

use crate::parser::Parser;
use crate::values::Values;
use crate::words::first_value;
use rank_set::RankSet;
use stat_plan::Plan;
use std::alloc::{AllocError, Global};
use text_lines::{LineParser, TextError, next_line};

// The ranks that are on a daemon.
fn placed_ranks(alloc: Global, plan: &Plan) -> Result<RankSet, AllocError>
    ensures { IfOk result (λ ranks. ranks ≡ all_ranks plan.now.placed) }
{
    plan.invariant();
    let mut ranks = RankSet::new(alloc);
    for n in 0..plan.nodes() {
        ranks.union_into(plan.ranks(n))?;
    }
    Ok(ranks)
}

// The parser after the lines of a text, or the error of the first line that it refuses. A line in the usual form is
// taken where it stands, and does not move the parser.
fn take_lines<'p>(text: &[u8], parser: Parser<'p>) -> Result<Parser<'p>, TextError>
    requires { IsConsistent parser }
    ensures taken { IfOk result (λ next. TakesLines takes_line parser.entry 1 (lines text.now) next) }
    ensures ready { IfOk result (λ next. IsConsistent next) }
    ensures refused { IfErr result (λ e. RefusesLines takes_line refuses_line parser.entry 1 (lines text.now) e) }
{
    let mut parser = parser;
    let mut line_number = 1;
    let mut rest = text;
    while !rest.is_empty() {
        if let Some((value, after)) = first_value(rest) {
            parser.give_run(line_number, value)?;
            line_number += 1;
            rest = after;
            continue;
        }
        let Some((line, after)) = next_line(rest) else {
            unreachable!()
        };
        parser = parser.take(line_number, line)?;
        line_number += 1;
        rest = after;
    }
    Ok(parser)
}

/// Reads values of the ranks of a plan. A text is refused by its first error, read from the front line by line, and
/// in a line from its front. While memory lasts, exactly those texts are accepted of which each line says nothing, or
/// gives a number to ranks that are on a daemon and have none by a line before it: `IsAcceptable`. A rank has a
/// number exactly where some line gives it that number.
///
/// # Errors
///
/// The first error with its line, or [`TextError::OutOfMemory`].
#[inline(never)]
pub fn read_values(alloc: Global, text: &[u8], plan: &Plan) -> Result<Values, TextError>
    ensures ok { IsValueOf result (values_of_text (all_ranks plan.now.placed) text.now) }
    ensures written { IfOk result (λ values. IsAcceptable (all_ranks plan.now.placed) text.now values) }
    ensures err { IsErrorOf result (values_of_text (all_ranks plan.now.placed) text.now) }
    ensures accepted { (numbers : Numbers) → IsAcceptable (all_ranks plan.now.placed) text.now numbers →
        values_of_text (all_ranks plan.now.placed) text.now ≡ Ok numbers }
{
    let placed = placed_ranks(alloc, plan)?;
    let empty = Parser::new(alloc, &placed)?;
    let parser = take_lines(text, empty)?;
    Ok(parser.finish())
}
