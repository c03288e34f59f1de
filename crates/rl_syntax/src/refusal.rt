ghost use Rattle.std.specs.Prelude.{◌≡◌};
ghost use Rattle.rl_syntax.specs.SyntaxRefusals.{refusal_number, refusal_place};

use rl_base::{NoMemory, Place};
use thiserror::Error;

/// Why a network text gives no draft, or want of memory. Each cause has a number; the first in the order of
/// the numbers is answered, and of several places of one cause the first.
#[derive(Clone, Copy, Debug, PartialEq, Eq, Error)]
pub enum SyntaxRefusal {
    /// 1. The text has more than `MAX_NETWORK_BYTES` bytes.
    #[error("the text is too long")]
    TooLong,
    /// 2. The text isn't UTF-8, or no TOML document.
    #[error("the text is no TOML document")]
    NotToml,
    /// 3. A key that isn't known, one that is missing, or a value of the wrong type.
    #[error("a key or its value is wrong")]
    Key(Place),
    /// 4. A text that should be a name and isn't.
    #[error("a text is no name")]
    BadName(Place),
    /// Memory ran out. It may stand in the place of every other answer but the first.
    #[error("memory ran out")]
    NoMemory,
}

impl From<NoMemory> for SyntaxRefusal {
    ghost use Rattle.rl_syntax.specs.declared.refusal.SyntaxRefusal.TheVariants as refusals;

    ghost from_gives = { λ _ e. e ≡ refusals.NoMemory };

    fn from(_error: NoMemory) -> SyntaxRefusal {
        SyntaxRefusal::NoMemory
    }
}

impl SyntaxRefusal {
    /// The number of the cause, 0 where memory ran out.
    pub fn number(&self) -> u32
        ensures { result ≡ refusal_number self.now }
    {
        match self {
            SyntaxRefusal::TooLong => 1,
            SyntaxRefusal::NotToml => 2,
            SyntaxRefusal::Key(_) => 3,
            SyntaxRefusal::BadName(_) => 4,
            SyntaxRefusal::NoMemory => 0,
        }
    }

    /// The place that it names, `None` where the whole text is refused, and where memory ran out.
    pub fn place(&self) -> Place
        ensures { result ≡ refusal_place self.now }
    {
        match self {
            SyntaxRefusal::Key(place) | SyntaxRefusal::BadName(place) => *place,
            _ => Place::None,
        }
    }
}
