//! All runs of a set of ranks.

ghost use Rattle.std.specs.Prelude.{◌≡◌, ◌≤◌, ◌+◌, IfOk, length, map};
ghost use Rattle.rank_set.specs.Ranks.{in_order};
ghost use Rattle.rank_set.specs.Runs.{runs_of};
ghost use Rattle.rank_set.specs.Words.{ranks_in};

use crate::words::next_run;
use crate::{Run, WORD_LIMIT};
use std::alloc::{AllocError, Global};

// The longest runs of the words' ranks, in order.
pub(crate) fn runs_in(alloc: Global, offset: u32, words: &[u64]) -> Result<Vec<Run>, AllocError>
    requires { offset + length words.now ≤ WORD_LIMIT }
    ensures { IfOk result (λ runs. map (λ run. (run.first, run.last)) runs.items
        ≡ runs_of (in_order (ranks_in offset words.now))) }
{
    let mut runs = Vec::new(alloc);
    let mut from = 0;
    while let Some(run) = next_run(offset, words, from) {
        runs.push(run)?;
        from = run.last + 1;
    }
    Ok(runs)
}
