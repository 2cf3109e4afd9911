//! The waves of a node that has done no event yet.

ghost use Rattle.std.specs.Prelude.{◌≡◌, ◌<◌, ◌++◌, IfOk, OnOk};
ghost use Rattle.stat_plan.specs.Plans.{nodes, waves_at};
ghost use Rattle.wave_resend.specs.Books.{AreUntouched, first_waves, keys_of};

use crate::entry::Entry;
use stat_plan::Plan;
use std::alloc::{AllocError, Global};

/// Adds the waves of a stream.
pub fn add_waves(
    alloc: Global,
    entries: &mut Vec<Entry>,
    s: u8,
    waves: u8,
) -> Result<(), AllocError>
    requires { AreUntouched entries.old.items }
    ensures keys { OnOk result (keys_of entries.new.items ≡ keys_of entries.old.items ++ first_waves s waves) }
    ensures untouched { OnOk result (AreUntouched entries.new.items) }
{
    for w in 0..waves {
        entries.push(Entry::untouched(alloc, s, w))?;
    }
    Ok(())
}

/// One entry for each wave of each stream that the node serves, by stream and wave. Nothing has come in yet.
pub fn entries_of(alloc: Global, plan: &Plan, n: u32) -> Result<Vec<Entry>, AllocError>
    requires { n < nodes plan.now }
    ensures keys { IfOk result (λ entries. keys_of entries.items ≡ waves_at plan.now n) }
    ensures untouched { IfOk result (λ entries. AreUntouched entries.items) }
{
    let mut entries = Vec::new(alloc);
    for stream in plan.streams() {
        let s = stream.number();
        if plan.serves(n, s) {
            add_waves(alloc, &mut entries, s, stream.waves())?;
        }
    }
    Ok(entries)
}
