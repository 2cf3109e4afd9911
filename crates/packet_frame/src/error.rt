//! Why bytes are no frame.

use std::alloc::{AllocError, AllocFailed};

/// The cause of a refusal. The rule of each field and its cause are in docs/FORMATS.md.
#[derive(Clone, Copy, Debug, PartialEq, Eq)]
pub enum FrameReason {
    /// The input ends before the field does.
    Short,
    /// A version other than 1 and 2, or a kind other than 1 to 4.
    BadKind,
    /// A length that may not be 0.
    BadLength,
    /// Another spelling of what has just one, as words that begin with 0, or siblings out of order.
    NotCanonical,
    /// A number above its limit.
    OverLimit,
}

/// Why no packet was read.
#[derive(Clone, Copy, Debug, PartialEq, Eq)]
pub enum FrameError {
    /// The first field that is whole and breaks its rule, or the one in which the input ends: the offset of its first
    /// byte.
    Refused { at: u64, reason: FrameReason },
    /// Out of memory; the bytes may be refused further on.
    OutOfMemory,
}

impl From<AllocError> for FrameError {
    ghost use Rattle.std.specs.Prelude.{◌≡◌};
    ghost use Rattle.packet_frame.specs.declared.error.FrameError.TheVariants.{OutOfMemory};

    ghost from_gives = { λ _ e. e ≡ OutOfMemory };

    fn from(_: AllocError) -> Self {
        FrameError::OutOfMemory
    }
}

impl<T: Drop> From<AllocFailed<T>> for FrameError {
    ghost use Rattle.std.specs.Prelude.{◌≡◌};
    ghost use Rattle.packet_frame.specs.declared.error.FrameError.TheVariants.{OutOfMemory};

    ghost from_gives = { λ _ e. e ≡ OutOfMemory };

    fn from(_: AllocFailed<T>) -> Self {
        FrameError::OutOfMemory
    }
}

/// Why a field was not taken.
#[derive(Clone, Copy, Debug, PartialEq, Eq)]
pub enum FieldError {
    /// It breaks a rule.
    Broken(FrameReason),
    /// Out of memory.
    OutOfMemory,
}

impl From<AllocError> for FieldError {
    ghost use Rattle.std.specs.Prelude.{◌≡◌};
    ghost use Rattle.packet_frame.specs.declared.error.FieldError.TheVariants.{OutOfMemory};

    ghost from_gives = { λ _ e. e ≡ OutOfMemory };

    fn from(_: AllocError) -> Self {
        FieldError::OutOfMemory
    }
}

impl<T: Drop> From<AllocFailed<T>> for FieldError {
    ghost use Rattle.std.specs.Prelude.{◌≡◌};
    ghost use Rattle.packet_frame.specs.declared.error.FieldError.TheVariants.{OutOfMemory};

    ghost from_gives = { λ _ e. e ≡ OutOfMemory };

    fn from(_: AllocFailed<T>) -> Self {
        FieldError::OutOfMemory
    }
}
