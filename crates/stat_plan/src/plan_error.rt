//! Why a plan was refused.

use std::alloc::AllocError;

/// Why a plan was refused.
#[derive(Debug, PartialEq, Eq, Clone, Copy)]
pub enum PlanError {
    /// The samples of a wave have more than 2,048 distinct prefixes. It is the first such wave, by stream and wave.
    TooManyPrefixes { stream: u8, wave: u8 },
    /// Out of memory.
    OutOfMemory,
}

impl From<AllocError> for PlanError {
    ghost use Rattle.std.specs.Prelude.{◌≡◌};
    ghost use Rattle.stat_plan.specs.declared.plan_error.PlanError.TheVariants.{OutOfMemory};

    ghost from_gives = { λ _ e. e ≡ OutOfMemory };

    fn from(_: AllocError) -> Self {
        PlanError::OutOfMemory
    }
}
