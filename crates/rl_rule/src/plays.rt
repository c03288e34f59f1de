//! The rule of the table, and what each kind of step tells. These types are for the proofs alone.
ghost use Rattle.rl_rule.specs.Views.{grown, begun, taking, spent};
ghost use Rattle.rl_rule.specs.Plays.{loads, steps};

use crate::views::View;
use atomic_table::{Join, Play, Split};

/// A load of any one word.
pub struct Loads;

impl Play<(), View> for Loads {
    ghost then = { loads };
}

/// The step of a node on the word that it loaded.
pub struct Steps;

impl Play<(), View> for Steps {
    ghost then = { steps };
}

/// One more node is handed a seat.
pub struct Hands;

impl Split<View> for Hands {
    ghost left = { grown };

    ghost right = { begun };
}

/// The seat of a node is taken in.
pub struct Takes;

impl Join<View> for Takes {
    ghost both = { taking };

    ghost spent = { spent };
}
