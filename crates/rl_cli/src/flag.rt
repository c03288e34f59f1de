ghost use Rattle.std.specs.Prelude.{◌≡◌};
ghost use Rattle.rl_cli.specs.Table.{name_of, item_of};

use crate::item::Item;
use rl_base::limits::{MAX_ROUND, MAX_TRIES, MAX_WORKERS, MIN_ROUND, MIN_TRIES};

/// An option.
#[derive(Clone, Copy, Debug, PartialEq, Eq)]
pub enum Flag {
    Schedule,
    Tries,
    Workers,
    Round,
}

impl Flag {
    /// How it is written.
    pub fn name(self) -> &'static str
        ensures { result.now ≡ name_of self }
    {
        match self {
            Flag::Schedule => "-s",
            Flag::Tries => "--tries",
            Flag::Workers => "--workers",
            Flag::Round => "--round",
        }
    }

    /// What its value must be.
    pub fn value(self) -> Item
        ensures { result ≡ item_of self }
    {
        match self {
            Flag::Schedule => Item::File,
            Flag::Tries => Item::Number {
                least: MIN_TRIES,
                most: MAX_TRIES,
            },
            Flag::Workers => Item::Number {
                least: 1,
                most: MAX_WORKERS,
            },
            Flag::Round => Item::Number {
                least: MIN_ROUND,
                most: MAX_ROUND,
            },
        }
    }
}
