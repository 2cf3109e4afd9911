//! The frame of a call.

ghost use Rattle.std.specs.Prelude.{◌≡◌, ◌++◌, length, cond, IfOk, OnOk, [], codes, string_bytes};
ghost use Rattle.std.specs.Str.{bytes_eq};
ghost use Rattle.frame_name.specs.CallViews.{call_view};
ghost use Rattle.frame_name.specs.FrameRules.{is_own_function, is_plumbing_file};
ghost use Rattle.frame_name.specs.Names.{function_of, name_of};
ghost use Rattle.frame_name.specs.SourceLines.{line_of};

use crate::binaries::{file_name, is_mpi, is_program, is_shared, waits};
use crate::names::{function_of, name_of};
use crate::source_lines::push_line;
use crate::texts::contains;
use crate::{Call, Rules, Words};
use call_path::{FRAME_LIMIT, PathBuilder};
use std::alloc::{AllocError, Global};
use std::marker::Model;
use symbol_name::{is_allocator, is_signal, is_standard, is_start};

/// A frame of a call path, with what tells where the path begins and ends.
#[derive(Drop)]
pub struct Frame {
    // The name, and what is shown behind it.
    text: String,
    name_len: usize,
    is_main: bool,
    is_start: bool,
    is_own: bool,
    waits: bool,
    is_mpi: bool,
    is_standard: bool,
    is_plumbing: bool,
    is_deleted: bool,
}

impl Model for Frame {
    ghost use Rattle.std.specs.Prelude.{take, drop, string_bytes};
    ghost use Rattle.frame_name.specs.Frames.{FrameView};
    ghost use Rattle.frame_name.specs.FrameCuts.{IsFrameCut};

    ghost Value = { FrameView };

    ghost view = { λ f. record {
      name = take f.name_len (string_bytes f.text);
      line = drop f.name_len (string_bytes f.text);
      is_main = f.is_main;
      is_start = f.is_start;
      is_own = f.is_own;
      waits = f.waits;
      is_mpi = f.is_mpi;
      is_standard = f.is_standard;
      is_plumbing = f.is_plumbing;
      is_deleted = f.is_deleted;
    } };

    ghost invariant = { λ f. IsFrameCut f.name_len (string_bytes f.text) };
}

impl Frame {
    ghost use Rattle.std.specs.Prelude.{◌≡◌, ◌<◌, ◌++◌, length, [], ◌∷◌, OnOk, OnErr, IfOk, IsTrue};
    ghost use Rattle.call_path.specs.Good.{is_good_frame};
    ghost use Rattle.frame_name.specs.CallViews.{call_view};
    ghost use Rattle.frame_name.specs.RuleViews.{rules_view};
    ghost use Rattle.frame_name.specs.FrameRules.{frame_of};
    ghost use Rattle.frame_name.specs.Frames.{frame_text};

    /// The frame of a call. The innermost call of a stack is shown without its offset. The one error is running out of
    /// memory.
    pub fn of(
        alloc: Global,
        rules: &Rules,
        call: &Call,
        is_innermost: bool,
    ) -> Result<Frame, AllocError>
        ensures { IfOk result (λ frame. frame ≡ frame_of (rules_view rules.now) is_innermost (call_view call.now)) }
    {
        let function = function_of(alloc, call)?;
        let shown = shown_of(alloc, rules.keeps_lines, &function, is_innermost, call)?;
        Ok(Frame {
            text: shown.text,
            name_len: shown.name_len,
            is_main: function.as_slice() == b"main".as_slice(),
            is_start: is_start(&function),
            is_own: is_own_function(&rules.own, &call.binary, &function),
            waits: waits(&call.binary),
            is_mpi: is_mpi(&call.binary),
            is_standard: is_standard(&function),
            is_plumbing: is_plumbing_file(&call.file),
            is_deleted: call.is_deleted,
        })
    }

    /// The frame's text: the name, and what is shown behind it.
    pub fn text(&self) -> &str
        ensures text { result.now ≡ frame_text self.now }
        ensures good { IsTrue (is_good_frame result.now) }
    {
        self.text.as_str()
    }

    /// The function's name by the rules.
    pub fn name(&self) -> &str
        ensures { result.now ≡ self.now.name }
    {
        &self.text.as_str()[..self.name_len]
    }

    /// Whether the function is `main`.
    pub fn is_main(&self) -> bool
        ensures { result ≡ self.now.is_main }
    {
        self.is_main
    }

    /// Whether it is one of those below which a program or a thread has not begun.
    pub fn is_start(&self) -> bool
        ensures { result ≡ self.now.is_start }
    {
        self.is_start
    }

    /// Whether it is the program's own code.
    pub fn is_own(&self) -> bool
        ensures { result ≡ self.now.is_own }
    {
        self.is_own
    }

    /// Whether its library is one of those in which a rank waits for others.
    pub fn waits(&self) -> bool
        ensures { result ≡ self.now.waits }
    {
        self.waits
    }

    /// Whether that library is MPI's.
    pub fn is_mpi(&self) -> bool
        ensures { result ≡ self.now.is_mpi }
    {
        self.is_mpi
    }

    /// Whether its name is that of a function of the MPI standard.
    pub fn is_standard(&self) -> bool
        ensures { result ≡ self.now.is_standard }
    {
        self.is_standard
    }

    /// Whether its source file is one of the C++ library's.
    pub fn is_plumbing(&self) -> bool
        ensures { result ≡ self.now.is_plumbing }
    {
        self.is_plumbing
    }

    /// Whether its file was removed or replaced while it ran.
    pub fn is_deleted(&self) -> bool
        ensures { result ≡ self.now.is_deleted }
    {
        self.is_deleted
    }

    /// Appends the frame's text to a path. The text is copied once.
    pub fn push_to(&self, path: &mut PathBuilder) -> Result<(), AllocError>
        requires { length path.old < FRAME_LIMIT }
        ensures ok { OnOk result (path.new ≡ path.old ++ frame_text self.now ∷ []) }
        ensures err { OnErr result (path.new ≡ path.old) }
    {
        path.push(self.text())
    }
}

// The text of a frame, which begins with the name.
#[derive(Drop)]
struct Shown {
    text: String,
    name_len: usize,
}

// Appends what is shown of the source file and the line of a call, where lines are kept.
fn push_kept_line(
    alloc: Global,
    out: &mut Vec<u8>,
    keeps_lines: bool,
    call: &Call,
) -> Result<(), AllocError>
    ensures { OnOk result (out.new.items ≡ out.old.items ++ cond keeps_lines (line_of (call_view call.now)) []) }
{
    if !keeps_lines {
        return Ok(());
    }
    push_line(alloc, out, call)
}

// What is shown of a call of a function.
fn shown_of(
    alloc: Global,
    keeps_lines: bool,
    function: &[u8],
    is_innermost: bool,
    call: &Call,
) -> Result<Shown, AllocError>
    requires { function.now ≡ function_of (call_view call.now) }
    ensures text { IfOk result (λ shown. string_bytes shown.text
        ≡ name_of is_innermost (call_view call.now) ++ cond keeps_lines (line_of (call_view call.now)) []) }
    ensures len { IfOk result (λ shown. shown.name_len ≡ length (name_of is_innermost (call_view call.now))) }
{
    let mut bytes = name_of(alloc, function, is_innermost, call)?;
    let name_len = bytes.len();
    push_kept_line(alloc, &mut bytes, keeps_lines, call)?;
    match String::from_utf8(bytes) {
        Ok(text) => Ok(Shown { text, name_len }),
        Err(_) => unreachable!(),
    }
}

// Whether a function of a binary is the program's own code.
#[tactic(auto, unfolding(crate::specs::FrameRules::is_own_function))]
fn is_own_function(own: &Words, binary: &[u8], function: &[u8]) -> bool
    ensures { result ≡ is_own_function own.now binary.now function.now }
{
    let is_own = is_program(binary) || (is_shared(binary) && own.fits(file_name(binary)));
    is_signal(function) || (is_own && !is_allocator(function))
}

// Whether a source file is one of the C++ library's.
#[tactic(auto, unfolding(crate::specs::FrameRules::is_plumbing_file))]
fn is_plumbing_file(file: &[u8]) -> bool
    ensures { result ≡ is_plumbing_file file.now }
{
    contains(b"/include/c++/", file)
}
