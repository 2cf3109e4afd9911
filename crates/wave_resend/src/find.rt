//! Where a wave stands among the waves of a book: binary searches.

ghost use Rattle.std.specs.Prelude.{◌≡◌, ◌<◌, ◌≤◌, length};
ghost use Rattle.wave_resend.specs.Books.{AreAscending, IsIn, count_to, index_of, keys_of};

use crate::entry::Entry;

/// How many waves do not come behind wave `w` of stream `s`.
pub fn count_to(entries: &[Entry], s: u8, w: u8) -> usize
    requires { AreAscending (keys_of entries.now) }
    ensures count { result ≡ count_to (s, w) (keys_of entries.now) }
    ensures in_range { result ≤ length entries.now }
{
    let mut low = 0;
    let mut high = entries.len();
    while low < high {
        let middle = low + (high - low) / 2;
        if entries[middle].is_after(s, w) {
            high = middle;
        } else {
            low = middle + 1;
        }
    }
    low
}

/// The index of a wave.
pub fn index_of(entries: &[Entry], s: u8, w: u8) -> usize
    requires ascending { AreAscending (keys_of entries.now) }
    requires known { IsIn s w entries.now }
    ensures index { result ≡ index_of s w entries.now }
    ensures in_range { result < length entries.now }
{
    count_to(entries, s, w) - 1
}
