//! The function of a frame: the frame without the line at its end.

ghost use Rattle.std.specs.Prelude.{◌≡◌, ◌-◌, ◌<◌, ◌≤◌, false, length, drop, slice_index, IsTrue};
ghost use Rattle.std.specs.List.{list_all};
ghost use Rattle.std.specs.Char.{is_ascii_digit};
ghost use Rattle.call_path.specs.Functions.{func};
ghost use Rattle.call_path.specs.Good.{is_good_frame};

/// The most digits of a line.
const LINE_DIGITS: usize = 9;

// Where the digits at the end of a frame begin.
fn digits_start(frame: &[u8]) -> usize
    ensures within { result ≤ length frame.now }
    ensures digits { IsTrue (list_all is_ascii_digit (drop result frame.now)) }
    ensures before { 0 < result → is_ascii_digit (slice_index frame.now (result - 1)) ≡ false }
{
    let mut start = frame.len();
    while start > 0 && frame[start - 1].is_ascii_digit() {
        start -= 1;
    }
    start
}

/// The function of a good frame.
pub fn function_of(frame: &str) -> &str
    requires { IsTrue (is_good_frame frame.now) }
    ensures function { result.now ≡ func frame.now }
    ensures good { IsTrue (is_good_frame result.now) }
{
    let bytes = frame.as_bytes();
    let start = digits_start(bytes);
    let digits = bytes.len() - start;
    if start < 2 || bytes[start - 1] != b'@' {
        return frame;
    }
    if digits == 0 || digits > LINE_DIGITS {
        return frame;
    }
    &frame[..start - 1]
}
