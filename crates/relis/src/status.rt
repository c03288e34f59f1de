ghost use Rattle.std.specs.Prelude.{◌≡◌};

use rl_base::{NoMemory, Place};

/// How a call of the program ends.
#[derive(Clone, Copy, Debug, PartialEq, Eq)]
pub enum Status {
    /// The command's text was written.
    Done,
    /// The words are no written form of a command.
    Usage,
    /// A file that the words name could not be read.
    ReadFault,
    /// The text that was read is refused, by the rule of this number, at this place.
    Refused { number: u32, place: Place },
    /// A write failed. The beginning of a text may have been written.
    WriteFault,
    /// Memory ran out, and nothing was written.
    NoMemory,
    /// A report was audited and isn't right: on this line a guard fails, first the one of this number.
    NotSafe { line: u32, guard: u32 },
}

impl Status {
    ghost use Rattle.relis.specs.Exits.{number_of};

    /// The number with which the program ends.
    pub fn number(self) -> u8
        ensures { result ≡ number_of self }
    {
        match self {
            Status::Done => 0,
            Status::Usage => 1,
            Status::ReadFault => 2,
            Status::Refused { .. } => 3,
            Status::WriteFault => 4,
            Status::NoMemory => 6,
            Status::NotSafe { .. } => 7,
        }
    }
}

impl From<NoMemory> for Status {
    ghost use Rattle.relis.specs.declared.status.Status.TheVariants as statuses;

    ghost from_gives = { λ _ e. e ≡ statuses.NoMemory };

    fn from(_error: NoMemory) -> Status {
        Status::NoMemory
    }
}
