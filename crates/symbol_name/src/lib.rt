//! One name for what compilers, linkers and MPI libraries call by several. All texts are bytes.
#![tactic(auto)]

ghost use Rattle.std.specs.Prelude.{◌≡◌, ℕ, Bool, List, None, IfOk};
ghost use Rattle.symbol_name.specs.Copies.{without_mark, without_copies};
ghost use Rattle.symbol_name.specs.Symbols.{is_signal, original_symbol, symbol, is_program_start, is_start, begins_with_words, is_allocator};

use std::alloc::{AllocError, Global};
use text::{behind, is_one_of, is_word_byte};

mod copies;
mod modules;
mod mpi;
mod standard;
mod text;

pub use copies::without_copies;
pub use standard::is_standard;

/// The mark of a signal in a stack, below the function that handles it.
pub const SIGNAL_MARK: &[u8] = b"<signal handler called>";

// The functions of the C library that call `main`, parted by blanks.
const C_LIBRARY_STARTS: &[u8] = b"__libc_start_main __libc_start_call_main __libc_start_main_impl";

// The functions of C that give memory, or take it back.
const C_ALLOCATORS: &[u8] = b"malloc free calloc realloc aligned_alloc posix_memalign";

/// Whether a name without the marks of copies is the mark of a signal, or a function to which a signal's handler returns.
pub fn is_signal(name: &[u8]) -> bool
    ensures { result ≡ is_signal name.now }
{
    is_one_of(name, b"__restore_rt __kernel_rt_sigreturn") || name == SIGNAL_MARK
}

// One name for a function's names without the marks of copies.
fn original_symbol(alloc: Global, name: &[u8], in_mpi: bool) -> Result<Vec<u8>, AllocError>
    ensures { IfOk result (λ s. s.items ≡ original_symbol in_mpi name.now) }
{
    if is_signal(name) {
        return Vec::from_slice(alloc, SIGNAL_MARK);
    }
    match modules::module_parts(name) {
        Some((scope, function)) => {
            let joined = modules::joined(alloc, scope, function)?;
            mpi::mpi_name(alloc, &joined, in_mpi)
        }
        None => mpi::mpi_name(alloc, name, in_mpi),
    }
}

/// One name for a function that compilers, linkers and MPI libraries call by several: the marks of copies and versions
/// are taken off, `m::f` stands for a function in a module of Fortran, [`SIGNAL_MARK`] for what a signal's handler
/// returns to, and `MPI_X` for `PMPI_X`. Where the function is in a library of MPI's own (`in_mpi`), `MPI_X` also stands
/// for its spellings in Fortran. The one error is running out of memory.
pub fn symbol_of(alloc: Global, name: &[u8], in_mpi: bool) -> Result<Vec<u8>, AllocError>
    ensures { IfOk result (λ s. s.items ≡ symbol in_mpi name.now) }
{
    original_symbol(alloc, without_copies(name), in_mpi)
}

// Whether a function stands below a program's own beginning.
fn is_program_start(name: &[u8]) -> bool
    ensures { result ≡ is_program_start name.now }
{
    is_one_of(name, b"_start _dl_start generic_start_main") || is_one_of(name, C_LIBRARY_STARTS)
}

/// Whether a function stands below a program's own beginning, or that of a thread. The name has no mark of a version.
pub fn is_start(name: &[u8]) -> bool
    ensures { result ≡ is_start name.now }
{
    is_program_start(name) || is_one_of(name, b"start_thread clone __clone clone3 __clone3")
}

// Whether a name begins with some words, and doesn't go on with a letter, a digit or `_`.
fn begins_with_words(name: &[u8], words: &[u8]) -> bool
    ensures { result ≡ begins_with_words words.now name.now }
{
    let Some(rest) = behind(name, words) else {
        return false;
    };
    match rest.split_first() {
        Some((b, _)) => !is_word_byte(*b),
        None => true,
    }
}

/// Whether a function gives memory, or takes it back: those of C, and `operator new` and `operator delete` with whatever
/// arguments.
pub fn is_allocator(name: &[u8]) -> bool
    ensures { result ≡ is_allocator name.now }
{
    is_one_of(name, C_ALLOCATORS)
        || begins_with_words(name, b"operator new")
        || begins_with_words(name, b"operator delete")
}

/// A law of copies: what is left of a name has no mark at its end, and so a second pass does nothing.
pub fn no_mark_is_left()
    ensures none { (name : List ℕ) → without_mark (without_copies name) ≡ None }
    ensures once { (name : List ℕ) → without_copies (without_copies name) ≡ without_copies name }
{}

/// A law of symbols: the one name for a function is its own one name.
pub fn symbols_stay()
    ensures { (in_mpi : Bool) (name : List ℕ) → symbol in_mpi (symbol in_mpi name) ≡ symbol in_mpi name }
{}
