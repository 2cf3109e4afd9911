//! What is looked for among the waves of a book.

ghost use Rattle.std.specs.Prelude.{◌≡◌, ◌==◌, ◌&&◌, find, option_map};
ghost use Rattle.std.specs.List.{list_any};
ghost use Rattle.stat_plan.specs.Machine.Waves.{is_open, is_running, is_empty_open};
ghost use Rattle.wave_resend.specs.Books.{key_of};

use crate::entry::Entry;

/// Whether a timer runs.
pub fn any_running(entries: &[Entry]) -> bool
    ensures { result ≡ list_any (λ e. is_running e.state) entries.now }
{
    entries.iter().any(|entry| entry.is_running())
}

/// The first open wave.
pub fn first_open(entries: &[Entry]) -> Option<(u8, u8)>
    ensures { result ≡ option_map key_of (find (λ e. is_open e.state) entries.now) }
{
    for entry in entries {
        if entry.is_open() {
            return Some(entry.key());
        }
    }
    None
}

/// The first wave of a stream that is open and of which nothing has come in.
pub fn first_empty(entries: &[Entry], s: u8) -> Option<u8>
    ensures { result
        ≡ option_map (λ e. e.wave) (find (λ e. (e.stream == s) && is_empty_open e.state) entries.now) }
{
    for entry in entries {
        if entry.is_empty_of(s) {
            return Some(entry.key().1);
        }
    }
    None
}
