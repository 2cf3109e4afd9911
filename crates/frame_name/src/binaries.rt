//! The executable or the shared library that a function is in.

ghost use Rattle.std.specs.Prelude.{◌≡◌, ◌≤◌, ◌||◌, length, not, nat_eq, OnOk, ◌++◌};
ghost use Rattle.std.specs.Prelude.{List, ℕ};
ghost use Rattle.std.specs.List.{prefix_len, suffix_len, list_any};
ghost use Rattle.std.proofs.Common.{Bor};
ghost use Rattle.frame_name.specs.Texts.{begins_with};
ghost use Rattle.frame_name.specs.Tables.{in_system, is_mpi_name, is_other_waiting_name};
ghost use Rattle.frame_name.specs.Binaries.{is_version, without_version, file_name, before_colon, without_number, binary_name, is_file, is_shared, is_program, is_mpi, waits, is_plugin};

use crate::texts::base_name;
use std::alloc::AllocError;

// The directories of the system's libraries.
const SYSTEM_DIRECTORIES: [&str; 8] = [
    "/lib/",
    "/lib32/",
    "/lib64/",
    "/libx32/",
    "/usr/lib/",
    "/usr/lib32/",
    "/usr/lib64/",
    "/usr/libx32/",
];

// What the names of MPI's libraries begin with.
const MPI_LIBRARIES: [&str; 3] = ["libmpi", "libpmpi", "libfmpi"];

// What the names of the other libraries begin with in which a rank waits for others.
const OTHER_WAITING_LIBRARIES: [&str; 6] = [
    "liboshmem",
    "libsma",
    "libnccl",
    "libgomp",
    "libomp",
    "libiomp5",
];

fn is_version(b: u8) -> bool
    ensures { result ≡ is_version b }
{
    b.is_ascii_digit() || b == b'.'
}

// How many digits and dots a name ends with.
fn version_len(name: &[u8]) -> usize
    ensures value { result ≡ suffix_len is_version name.now }
    ensures within { result ≤ length name.now }
{
    name.iter().rev().take_while(|b| is_version(**b)).count()
}

// A shared library's name without its version.
#[tactic(auto, unfolding(crate::specs::Binaries::without_version))]
fn without_version(name: &[u8]) -> &[u8]
    ensures { result.now ≡ without_version name.now }
{
    let (stem, version) = name.split_at(name.len() - version_len(name));
    if stem.ends_with(b".so") && version.starts_with(b".") {
        stem
    } else {
        name
    }
}

/// The name that a file is called by: behind the last `/` of its path, and of a shared library without the version.
#[tactic(auto, unfolding(crate::specs::Binaries::file_name))]
pub fn file_name(binary: &[u8]) -> &[u8]
    ensures { result.now ≡ file_name binary.now }
{
    without_version(base_name(binary))
}

// How many bytes stand before a name's first colon.
fn colon_len(name: &[u8]) -> usize
    ensures value { result ≡ prefix_len (λ b. not (nat_eq b 58)) name.now }
    ensures within { result ≤ length name.now }
{
    name.iter().take_while(|b| **b != b':').count()
}

// A name in brackets up to its first colon.
fn before_colon(name: &[u8]) -> &[u8]
    ensures { result.now ≡ before_colon name.now }
{
    &name[..colon_len(name)]
}

// Appends a name in brackets, without what stands behind its first colon.
#[tactic(auto, unfolding(crate::specs::Binaries::without_number))]
fn push_without_number(out: &mut Vec<u8>, name: &[u8]) -> Result<(), AllocError>
    ensures { OnOk result (out.new.items ≡ out.old.items ++ without_number name.now) }
{
    let front = before_colon(name);
    out.extend_from_slice(front)?;
    if front.len() < name.len() {
        out.extend_from_slice(b"]")?;
    }
    Ok(())
}

/// Appends the name that a binary is called by.
#[tactic(auto, unfolding(crate::specs::Binaries::binary_name))]
pub fn push_binary_name(out: &mut Vec<u8>, binary: &[u8]) -> Result<(), AllocError>
    ensures { OnOk result (out.new.items ≡ out.old.items ++ binary_name binary.now) }
{
    if binary.starts_with(b"[") {
        return push_without_number(out, binary);
    }
    out.extend_from_slice(file_name(binary))
}

// Whether a binary is known, and is none of those that the kernel lends.
#[tactic(auto, unfolding(crate::specs::Binaries::is_file))]
fn is_file(binary: &[u8]) -> bool
    ensures { result ≡ is_file binary.now }
{
    !binary.is_empty()
        && !(binary.starts_with(b"[") || base_name(binary).starts_with(b"linux-vdso"))
}

/// Whether a binary is a shared library.
#[tactic(auto, unfolding(crate::specs::Binaries::is_shared))]
pub fn is_shared(binary: &[u8]) -> bool
    ensures { result ≡ is_shared binary.now }
{
    is_file(binary) && file_name(binary).ends_with(b".so")
}

// Whether a text begins with one of these.
fn begins_with_one(beginnings: &[&str], text: &[u8]) -> bool
    ensures { result ≡ list_any (λ (beginning : Bor (List ℕ)). begins_with beginning.now text.now) beginnings.now }
{
    beginnings
        .iter()
        .any(|beginning| text.starts_with(beginning.as_bytes()))
}

// Whether a binary lies below a directory of the system's libraries.
fn in_system(binary: &[u8]) -> bool
    ensures { result ≡ in_system binary.now }
{
    begins_with_one(&SYSTEM_DIRECTORIES, binary)
}

fn is_mpi_name(name: &[u8]) -> bool
    ensures { result ≡ is_mpi_name name.now }
{
    begins_with_one(&MPI_LIBRARIES, name)
}

fn is_other_waiting_name(name: &[u8]) -> bool
    ensures { result ≡ is_other_waiting_name name.now }
{
    begins_with_one(&OTHER_WAITING_LIBRARIES, name)
}

/// Whether a binary is the program.
#[tactic(auto, unfolding(crate::specs::Binaries::is_program))]
pub fn is_program(binary: &[u8]) -> bool
    ensures { result ≡ is_program binary.now }
{
    is_file(binary) && !(is_shared(binary) || in_system(binary))
}

/// Whether a binary is a library of MPI.
#[tactic(auto, unfolding(crate::specs::Binaries::is_mpi))]
pub fn is_mpi(binary: &[u8]) -> bool
    ensures { result ≡ is_mpi binary.now }
{
    is_shared(binary) && is_mpi_name(base_name(binary))
}

/// Whether a binary is a library in which a rank waits for others.
#[tactic(auto, unfolding(crate::specs::Binaries::waits))]
pub fn waits(binary: &[u8]) -> bool
    ensures { result ≡ waits binary.now }
{
    is_mpi(binary) || (is_shared(binary) && is_other_waiting_name(base_name(binary)))
}

/// Whether a binary is a library that came with the program or that the program loaded.
#[tactic(auto, unfolding(crate::specs::Binaries::is_plugin))]
pub fn is_plugin(binary: &[u8]) -> bool
    ensures { result ≡ is_plugin binary.now }
{
    is_shared(binary) && !(in_system(binary) || waits(binary))
}
