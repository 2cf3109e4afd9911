//! Parts of a text.

ghost use Rattle.std.specs.Prelude.{◌≡◌, ◌≤◌, ◌-◌, length, not, nat_eq, take, drop};
ghost use Rattle.std.specs.List.{suffix_len};
ghost use Rattle.frame_name.specs.Texts.{contains, base_name};

use memchr::memmem;

/// Whether the part stands somewhere in the text.
pub fn contains(part: &[u8], text: &[u8]) -> bool
    ensures { result ≡ contains part.now text.now }
{
    memmem::find(text, part).is_some()
}

// How many bytes stand behind the last `/` of a path.
fn base_len(path: &[u8]) -> usize
    ensures value { result ≡ suffix_len (λ b. not (nat_eq b 47)) path.now }
    ensures within { result ≤ length path.now }
{
    path.iter().rev().take_while(|b| **b != b'/').count()
}

/// The name that a path ends with, behind its last `/`.
pub fn base_name(path: &[u8]) -> &[u8]
    ensures { result.now ≡ base_name path.now }
{
    &path[path.len() - base_len(path)..]
}
