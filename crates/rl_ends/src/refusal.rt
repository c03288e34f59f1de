ghost use Rattle.std.specs.Prelude.{◌≡◌};
ghost use Rattle.rl_ends.specs.EndRefusals.{refusal_number, refusal_place};
ghost use Rattle.rl_ends.specs.declared.refusal.EndRefusal.TheVariants as refusal;

use rl_base::{NoMemory, Place};
use thiserror::Error;

/// Why segments with ends say no draft: the rule that is broken and where, or want of memory. Each rule has a number,
/// and stands in the order of the numbers.
#[derive(Debug, Drop, Error)]
pub enum EndRefusal {
    /// 21. An end that isn't a name, a dot and one digit from 0 to 3.
    #[error("an end isn't a box name, a dot and the number of an arm")]
    EndText(Place),
    /// 22. An end whose name is no box.
    #[error("an end names no box")]
    NoBox(Place),
    /// 23. An end whose box has no such arm; of boxes of one name the first is meant.
    #[error("an end names an arm that its box doesn't have")]
    NoArm(Place),
    /// 24. An end that names the same arm of the same box as an end before it.
    #[error("two ends name one arm")]
    ArmTwice(Place),
    /// 25. A box with an arm that no end names.
    #[error("a box has an arm that no end names")]
    ArmFree(Place),
    /// Memory ran out. It may stand in the place of every other answer.
    #[error("out of memory")]
    NoMemory,
}

impl From<NoMemory> for EndRefusal {
    ghost from_gives = { λ _ e. e ≡ refusal.NoMemory };

    fn from(_error: NoMemory) -> EndRefusal {
        EndRefusal::NoMemory
    }
}

impl EndRefusal {
    /// The number of the rule that is broken, 0 where memory ran out.
    pub fn number(&self) -> u32
        ensures { result ≡ refusal_number self.now }
    {
        match self {
            EndRefusal::EndText(_) => 21,
            EndRefusal::NoBox(_) => 22,
            EndRefusal::NoArm(_) => 23,
            EndRefusal::ArmTwice(_) => 24,
            EndRefusal::ArmFree(_) => 25,
            EndRefusal::NoMemory => 0,
        }
    }

    /// The place at which it is broken, `None` where memory ran out.
    pub fn place(&self) -> Place
        ensures { result ≡ refusal_place self.now }
    {
        match self {
            EndRefusal::EndText(place)
            | EndRefusal::NoBox(place)
            | EndRefusal::NoArm(place)
            | EndRefusal::ArmTwice(place)
            | EndRefusal::ArmFree(place) => *place,
            EndRefusal::NoMemory => Place::None,
        }
    }
}
