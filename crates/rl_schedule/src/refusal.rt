ghost use Rattle.std.specs.Prelude.{◌≡◌};
ghost use Rattle.rl_schedule.specs.Refusals.{refusal_number, refusal_place};

use rl_base::{NoMemory, Place};
use thiserror::Error;

/// Why a text is no schedule of a network, with the number of the line, or want of memory. The first line that is to
/// be refused decides, and for that line the first of these causes.
#[derive(Clone, Copy, Debug, PartialEq, Eq, Error)]
pub enum ScheduleRefusal {
    /// 16. The line has none of the forms.
    #[error("a line of the schedule has none of the forms")]
    Line(u32),
    /// 17. The name is that of no train or box.
    #[error("a line of the schedule names a node that isn't there")]
    NoNode(u32),
    /// 18. With the line there are more than 1,000,000 turns; line 0: the text has too many bytes.
    #[error("the schedule is too long")]
    TooMany(u32),
    /// Memory ran out. It may stand in the place of every other answer but that the text has too many bytes.
    #[error("memory ran out")]
    NoMemory,
}

impl From<NoMemory> for ScheduleRefusal {
    ghost use Rattle.rl_schedule.specs.declared.refusal.ScheduleRefusal.TheVariants as refusals;

    ghost from_gives = { λ _ e. e ≡ refusals.NoMemory };

    fn from(_error: NoMemory) -> ScheduleRefusal {
        ScheduleRefusal::NoMemory
    }
}

impl ScheduleRefusal {
    /// The number of the cause, 0 where memory ran out.
    pub fn number(&self) -> u32
        ensures { result ≡ refusal_number self.now }
    {
        match self {
            ScheduleRefusal::Line(_) => 16,
            ScheduleRefusal::NoNode(_) => 17,
            ScheduleRefusal::TooMany(_) => 18,
            ScheduleRefusal::NoMemory => 0,
        }
    }

    /// The line that it names, `None` where memory ran out.
    pub fn place(&self) -> Place
        ensures { result ≡ refusal_place self.now }
    {
        match self {
            ScheduleRefusal::Line(n) | ScheduleRefusal::NoNode(n) | ScheduleRefusal::TooMany(n) => {
                Place::ScheduleLine(*n)
            }
            ScheduleRefusal::NoMemory => Place::None,
        }
    }
}
