ghost use Rattle.std.specs.Prelude.{◌≡◌};

use rl_base::NoMemory;
use std::alloc::AllocError;
use thiserror::Error;

/// Why the words of a command line give no order.
#[derive(Clone, Copy, Debug, PartialEq, Eq, Error)]
pub enum CliFault {
    /// The words are no written form of a command.
    #[error("the words are no command")]
    Usage,
    /// Memory ran out.
    #[error("memory ran out")]
    NoMemory,
}

impl From<NoMemory> for CliFault {
    ghost use Rattle.rl_cli.specs.declared.fault.CliFault.TheVariants as faults;

    ghost from_gives = { λ _ e. e ≡ faults.NoMemory };

    fn from(_error: NoMemory) -> CliFault {
        CliFault::NoMemory
    }
}

impl From<AllocError> for CliFault {
    ghost use Rattle.rl_cli.specs.declared.fault.CliFault.TheVariants as faults;

    ghost from_gives = { λ _ e. e ≡ faults.NoMemory };

    fn from(_error: AllocError) -> CliFault {
        CliFault::NoMemory
    }
}
