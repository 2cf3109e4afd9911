//! The three texts of the generated job.

ghost use Rattle.std.specs.Prelude.{◌≡◌, ◌++◌, ◌+◌, ◌*◌, ◌≤◌, ◌<◌, [], ◌∷◌, IfOk, OnOk};
ghost use Rattle.std.specs.Fmt.{decimal};
ghost use Rattle.std.specs.List.{flat_map, range_with_len};
ghost use Rattle.generated_job.specs.Texts.{numbers, text_of, middle_count, middle_line, topology_text, daemon_line, stack_line, stack_lines, samples_text, lose_line, script_text};

use crate::numbered::write_numbered;
use std::alloc::{AllocError, Global};

/// The largest size: the most daemons of a generated job.
pub const SIZE_LIMIT: u32 = 256;

// Appends the word with each of `count` numbers, from the first on.
fn write_names(word: &[u8], first: u32, count: u32, out: &mut Vec<u8>) -> Result<(), AllocError>
    requires { first + count ≤ 65536 }
    ensures { OnOk result
        (out.new.items ≡ out.old.items ++ flat_map (λ i. word.now ++ decimal i) (range_with_len first count)) }
{
    for k in 0..count {
        write_numbered(word, first + k, out)?;
    }
    Ok(())
}

// Appends the statement of middle node i.
fn write_middle(size: u32, i: u32, out: &mut Vec<u8>) -> Result<(), AllocError>
    requires size { size ≤ SIZE_LIMIT }
    requires has_daemon { 16 * i < size }
    ensures { OnOk result (out.new.items ≡ out.old.items ++ (middle_line size i ++ 10 ∷ [])) }
{
    write_numbered(b"m:", i, out)?;
    out.extend_from_slice(b" =>")?;
    let left = size - 16 * i;
    write_names(b" d:", 16 * i, left.min(16), out)?;
    out.extend_from_slice(b" ;\n")?;
    Ok(())
}

// How many middle nodes there are.
fn middle_count(size: u32) -> u32
    requires { size ≤ SIZE_LIMIT }
    ensures { result ≡ middle_count size }
{
    size.div_ceil(16)
}

/// The topology of a job of this size: the statement of the front end, and then that of each middle node, each on a
/// line.
pub fn make_topology(alloc: Global, size: u32) -> Result<Vec<u8>, AllocError>
    requires { size ≤ SIZE_LIMIT }
    ensures { IfOk result (λ text. text.items ≡ topology_text size) }
{
    let count = middle_count(size);
    let mut out = Vec::new(alloc);
    out.extend_from_slice(b"fe:0 =>")?;
    write_names(b" m:", 0, count, &mut out)?;
    out.extend_from_slice(b" ;\n")?;
    for i in 0..count {
        write_middle(size, i, &mut out)?;
    }
    Ok(out)
}

// Appends the line of daemon j.
fn write_daemon(j: u32, out: &mut Vec<u8>) -> Result<(), AllocError>
    requires { j < SIZE_LIMIT }
    ensures { OnOk result (out.new.items ≡ out.old.items ++ (daemon_line j ++ 10 ∷ [])) }
{
    write_numbered(b"daemon d:", j, out)?;
    write_numbered(b" ", 64 * j, out)?;
    write_numbered(b"-", 64 * j + 63, out)?;
    out.push(b'\n')?;
    Ok(())
}

// Appends the line of rank r at a time, for a seed with this remainder by 3.
fn write_stack(remainder: u32, time: u32, r: u32, out: &mut Vec<u8>) -> Result<(), AllocError>
    requires seed { remainder < 3 }
    requires time { time < 2 }
    requires rank { r < 64 * SIZE_LIMIT }
    ensures { OnOk result (out.new.items ≡ out.old.items ++ (stack_line remainder time r ++ 10 ∷ [])) }
{
    write_numbered(b"stack ", time, out)?;
    write_numbered(b" ", r, out)?;
    write_numbered(b" main;f", r / 16 % 4, out)?;
    write_numbered(b";g", (r + time + remainder) % 3, out)?;
    out.push(b'\n')?;
    Ok(())
}

// Appends the lines of all ranks at a time.
fn write_stacks(remainder: u32, size: u32, time: u32, out: &mut Vec<u8>) -> Result<(), AllocError>
    requires seed { remainder < 3 }
    requires size { size ≤ SIZE_LIMIT }
    requires time { time < 2 }
    ensures { OnOk result (out.new.items ≡ out.old.items ++ text_of (stack_lines remainder size time)) }
{
    for r in 0..64 * size {
        write_stack(remainder, time, r, out)?;
    }
    Ok(())
}

/// The samples of a job with this seed and size: a `daemon` line for each daemon, a `stack` line for each rank at time
/// 0, and another at time 1.
pub fn make_samples(alloc: Global, seed: u64, size: u32) -> Result<Vec<u8>, AllocError>
    requires { size ≤ SIZE_LIMIT }
    ensures { IfOk result (λ text. text.items ≡ samples_text seed size) }
{
    let remainder = (seed % 3) as u32;
    let mut out = Vec::new(alloc);
    for j in 0..size {
        write_daemon(j, &mut out)?;
    }
    write_stacks(remainder, size, 0, &mut out)?;
    write_stacks(remainder, size, 1, &mut out)?;
    Ok(out)
}

// Appends the line that loses middle node 2 * k + 1.
fn write_lose(k: u32, out: &mut Vec<u8>) -> Result<(), AllocError>
    requires { k < SIZE_LIMIT }
    ensures { OnOk result (out.new.items ≡ out.old.items ++ (lose_line k ++ 10 ∷ [])) }
{
    write_numbered(b"lose m:", 2 * k + 1, out)?;
    out.extend_from_slice(b" after 20 keep 1\n")?;
    Ok(())
}

/// The script of a job of this size: a stream that waits for all daemons, one that doesn't wait, and the loss of each
/// middle node with an odd number.
pub fn make_script(alloc: Global, size: u32) -> Result<Vec<u8>, AllocError>
    requires { size ≤ SIZE_LIMIT }
    ensures { IfOk result (λ text. text.items ≡ script_text size) }
{
    let mut out = Vec::new(alloc);
    out.extend_from_slice(b"stream 0 wait-for-all waves 1 samples 2 on all\n")?;
    out.extend_from_slice(b"stream 1 dont-wait waves 1 samples 1 on all\n")?;
    for k in 0..middle_count(size) / 2 {
        write_lose(k, &mut out)?;
    }
    Ok(out)
}
