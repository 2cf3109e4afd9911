//! What changes all waves of a book.

ghost use Rattle.stat_plan.specs.Machine.Waves.{ticked, unsent};
ghost use Rattle.wave_resend.specs.Books.{AllChange};

use crate::entry::Entry;
use std::alloc::Global;

/// Each timer that runs goes on by one tick.
pub fn tick_all(entries: &mut [Entry])
    ensures { AllChange ticked entries.old entries.new }
{
    for i in 0..entries.len() {
        let entry = &mut entries[i];
        entry.tick();
    }
}

/// Nothing of any wave was passed on yet, and no timer runs.
pub fn reset_all(alloc: Global, entries: &mut [Entry])
    ensures { AllChange unsent entries.old entries.new }
{
    for i in 0..entries.len() {
        let entry = &mut entries[i];
        entry.reset(alloc);
    }
}
