//! Numbers in decimal.
ghost use Rattle.std.specs.Prelude.{◌≡◌, ◌++◌, OnErr, OnOk};

use itoa::{Buffer, Integer};
use std::alloc::AllocError;

/// Appends the decimal digits of a number. On failure `out` is unchanged.
pub fn write_number<I: Integer>(n: I, out: &mut Vec<u8>) -> Result<(), AllocError>
    ensures ok { OnOk result (out.new.items ≡ out.old.items ++ I.text n) }
    ensures err { OnErr result (out.new.items ≡ out.old.items) }
{
    let mut digits = Buffer::new();
    out.extend_from_slice(digits.format(n).as_bytes())?;
    Ok(())
}

/// Appends a word and the decimal digits of a number. On failure `out` is unchanged.
pub fn write_numbered<I: Integer>(word: &[u8], n: I, out: &mut Vec<u8>) -> Result<(), AllocError>
    ensures ok { OnOk result (out.new.items ≡ out.old.items ++ word.now ++ I.text n) }
    ensures err { OnErr result (out.new.items ≡ out.old.items) }
{
    let len = out.len();
    out.extend_from_slice(word)?;
    if write_number(n, out).is_err() {
        out.truncate(len);
        return Err(AllocError);
    }
    Ok(())
}
