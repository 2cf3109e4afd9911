//! The functions of MPI.

ghost use Rattle.std.specs.Prelude.{◌≡◌, option_map, IfOk};
ghost use Rattle.std.specs.List.{list_all};
ghost use Rattle.symbol_name.specs.Mpi.{upper_behind, is_profiled, without_profiling, is_lower_word, is_upper_byte, begins_upper_twice, is_upper_word, before_f08, without_f08, without_underscores, mangled_word, tail_word, open_mpi_word, capital_word, plain_word, fortran_word, capitalized, in_c, mpi_name};

use crate::text::{are_word_bytes, before, begins_lower, begins_upper, behind, ends_with};
use std::alloc::{AllocError, Global};

// Whether a name goes on with an upper-case letter behind this beginning.
fn upper_behind(name: &[u8], start: &[u8]) -> bool
    ensures { result ≡ upper_behind start.now name.now }
{
    match behind(name, start) {
        Some(rest) => begins_upper(rest),
        None => false,
    }
}

// Whether a name is `PMPI_X` or `PMPIX_X`.
fn is_profiled(name: &[u8]) -> bool
    ensures { result ≡ is_profiled name.now }
{
    upper_behind(name, b"PMPI_") || upper_behind(name, b"PMPIX_")
}

// `MPI_X` for `PMPI_X`, and `MPIX_X` for `PMPIX_X`.
fn without_profiling(name: &[u8]) -> &[u8]
    ensures { result.now ≡ without_profiling name.now }
{
    if is_profiled(name) { &name[1..] } else { name }
}

// Whether a word is a function as Fortran's compilers write it.
fn is_lower_word(word: &[u8]) -> bool
    ensures { result ≡ is_lower_word word.now }
{
    begins_lower(word) && are_word_bytes(word) && !ends_with(word, b"_")
}

fn is_upper_byte(b: u8) -> bool
    ensures { result ≡ is_upper_byte b }
{
    b.is_ascii_uppercase() || b.is_ascii_digit() || b == b'_'
}

fn are_upper_bytes(word: &[u8]) -> bool
    ensures { result ≡ list_all is_upper_byte word.now }
{
    word.iter().all(|b| is_upper_byte(*b))
}

// Whether a text begins with two upper-case letters.
fn begins_upper_twice(text: &[u8]) -> bool
    ensures { result ≡ begins_upper_twice text.now }
{
    match text.split_first() {
        Some((b, rest)) => b.is_ascii_uppercase() && begins_upper(rest),
        None => false,
    }
}

// Whether a word is a function in upper case alone, from two letters on.
fn is_upper_word(word: &[u8]) -> bool
    ensures { result ≡ is_upper_word word.now }
{
    begins_upper_twice(word) && are_upper_bytes(word) && !ends_with(word, b"_")
}

// What is left of a name before the mark of the module `mpi_f08` at its end.
fn before_f08(name: &[u8]) -> Option<&[u8]>
    ensures { option_map (λ r. r.now) result ≡ before_f08 name.now }
{
    if let Some(left) = before(name, b"_f08") {
        return Some(left);
    }
    if let Some(left) = before(name, b"_f08_") {
        return Some(left);
    }
    if let Some(left) = before(name, b"_f08ts") {
        return Some(left);
    }
    before(name, b"_f08ts_")
}

// A name without that mark.
fn without_f08(name: &[u8]) -> &[u8]
    ensures { result.now ≡ without_f08 name.now }
{
    before_f08(name).unwrap_or(name)
}

// A name without up to two `_` at its end.
fn without_underscores(name: &[u8]) -> &[u8]
    ensures { result.now ≡ without_underscores name.now }
{
    if let Some(left) = before(name, b"__") {
        return left;
    }
    before(name, b"_").unwrap_or(name)
}

// The x of `mpi_x` and `pmpi_x`, with up to two `_` behind.
fn mangled_word(name: &[u8]) -> Option<&[u8]>
    ensures { option_map (λ r. r.now) result ≡ mangled_word name.now }
{
    let rest = match behind(name, b"mpi_") {
        Some(rest) => rest,
        None => behind(name, b"pmpi_")?,
    };
    let word = without_underscores(rest);
    if is_lower_word(word) {
        Some(word)
    } else {
        None
    }
}

// The x of `ompi_mpi_x`, the function of Open MPI to which `MPI_X` jumps at its end.
fn tail_word(name: &[u8]) -> Option<&[u8]>
    ensures { option_map (λ r. r.now) result ≡ tail_word name.now }
{
    let word = behind(name, b"ompi_mpi_")?;
    if is_lower_word(word) {
        Some(word)
    } else {
        None
    }
}

// The x of Open MPI's `ompi_x_f`.
fn open_mpi_word(name: &[u8]) -> Option<&[u8]>
    ensures { option_map (λ r. r.now) result ≡ open_mpi_word name.now }
{
    let word = before(behind(name, b"ompi_")?, b"_f")?;
    if is_lower_word(word) {
        Some(word)
    } else {
        None
    }
}

// The X of `MPI_X` in upper case alone.
fn capital_word(name: &[u8]) -> Option<&[u8]>
    ensures { option_map (λ r. r.now) result ≡ capital_word name.now }
{
    let word = behind(name, b"MPI_")?;
    if is_upper_word(word) {
        Some(word)
    } else {
        None
    }
}

// Which function of MPI a name says, other than in C, where no mark of `mpi_f08` is left.
fn plain_word(name: &[u8]) -> Option<&[u8]>
    ensures { option_map (λ r. r.now) result ≡ plain_word name.now }
{
    if let Some(word) = mangled_word(name) {
        return Some(word);
    }
    if let Some(word) = tail_word(name) {
        return Some(word);
    }
    if let Some(word) = open_mpi_word(name) {
        return Some(word);
    }
    capital_word(name)
}

// A function's name in C.
fn c_name(alloc: Global, word: &[u8]) -> Result<Vec<u8>, AllocError>
    ensures { IfOk result (λ s. s.items ≡ in_c word.now (Some word.now)) }
{
    let mut name = Vec::from_slice(alloc, b"MPI_")?;
    if let Some((first, rest)) = word.split_first() {
        name.push(first.to_ascii_uppercase())?;
        for b in rest {
            name.push(b.to_ascii_lowercase())?;
        }
    }
    Ok(name)
}

/// One name for the names of MPI's functions.
pub fn mpi_name(alloc: Global, name: &[u8], in_mpi: bool) -> Result<Vec<u8>, AllocError>
    ensures { IfOk result (λ s. s.items ≡ mpi_name in_mpi name.now) }
{
    let name = without_profiling(name);
    if in_mpi && let Some(word) = plain_word(without_f08(name)) {
        return c_name(alloc, word);
    }
    Vec::from_slice(alloc, name)
}
