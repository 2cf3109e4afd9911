//! Where a path ends.

ghost use Rattle.std.specs.Prelude.{◌≡◌, ◌≤◌, not, length};
ghost use Rattle.std.specs.List.{prefix_len};
ghost use Rattle.stack_path.specs.Cuts.{until, is_cut_by};
ghost use Rattle.stack_path.specs.StackViews.{stack_view};

use frame_name::{Frame, Words};

// Whether one of the user's words fits a frame's name.
fn is_cut_by(words: &Words, frame: &Frame) -> bool
    ensures { result ≡ is_cut_by words.now frame.now }
{
    words.fits(frame.name().as_bytes())
}

// How many frames stand before the first one that a word fits.
fn uncut_len(frames: &[&Frame], words: &Words) -> usize
    ensures value { result ≡ prefix_len (λ f. not (is_cut_by words.now f.now)) frames.now }
    ensures within { result ≤ length frames.now }
{
    frames.iter().take_while(|f| !is_cut_by(words, f)).count()
}

/// Keeps the frames up to the first one that a word fits, and it.
pub fn cut(frames: &mut Vec<&Frame>, words: &Words)
    ensures { stack_view frames.new.items ≡ until (is_cut_by words.now) (stack_view frames.old.items) }
{
    let n = uncut_len(frames.as_slice(), words);
    frames.truncate(n + 1);
}
