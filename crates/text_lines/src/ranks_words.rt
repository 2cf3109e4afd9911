//! The ranks that a word of a line writes.

ghost use Rattle.text_lines.specs.Parsing.{IsValueOf, IsErrorOf};
ghost use Rattle.text_lines.specs.RanksWords.{ranks_on};

use crate::text_error::{Quantity, Reason, TextError};
use rank_set::{RANK_LIMIT, RankSet, RanksError, read_ranks};
use std::alloc::Global;

/// The ranks that a word of a line writes.
#[tactic(auto, unfolding(crate::specs::RanksWords::ranks_on))]
pub fn ranks_on(alloc: Global, line_number: u64, word: &[u8]) -> Result<RankSet, TextError>
    ensures ok { IsValueOf result (ranks_on line_number word.now) }
    ensures err { IsErrorOf result (ranks_on line_number word.now) }
{
    match read_ranks(alloc, word) {
        Ok(ranks) => Ok(ranks),
        Err(RanksError::OutOfMemory) => Err(TextError::OutOfMemory),
        Err(RanksError::OverLimit(_)) => {
            Err(TextError::over(line_number, Quantity::Ranks, RANK_LIMIT))
        }
        Err(_) => Err(TextError::bad(line_number, Reason::BadRanks)),
    }
}
