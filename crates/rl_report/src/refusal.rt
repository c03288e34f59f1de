ghost use Rattle.std.specs.Prelude.{◌≡◌};
ghost use Rattle.rl_report.specs.Refusals.{refusal_number, refusal_place};

use rl_base::{NoMemory, Place};
use thiserror::Error;

/// Why a text is no report of a network.
#[derive(Clone, Copy, Debug, PartialEq, Eq, Error)]
pub enum ReportRefusal {
    /// 19. The line of that number, counted from 1, is the first that isn't as it must be.
    #[error("a line of the report isn't as it must be")]
    Line(u32),
    /// 20. The text has too many bytes or too many moves.
    #[error("the report is too long")]
    Long,
    /// Memory ran out.
    #[error("memory ran out")]
    NoMemory,
}

impl From<NoMemory> for ReportRefusal {
    ghost use Rattle.rl_report.specs.declared.refusal.ReportRefusal.TheVariants.{NoMemory};

    ghost from_gives = { λ _ e. e ≡ NoMemory };

    fn from(_error: NoMemory) -> ReportRefusal {
        ReportRefusal::NoMemory
    }
}

impl ReportRefusal {
    /// The number of the cause, 0 where memory ran out.
    pub fn number(&self) -> u32
        ensures { result ≡ refusal_number self.now }
    {
        match self {
            ReportRefusal::Line(_) => 19,
            ReportRefusal::Long => 20,
            ReportRefusal::NoMemory => 0,
        }
    }

    /// The line that it names, line 0 where the text is too long, `None` where memory ran out.
    pub fn place(&self) -> Place
        ensures { result ≡ refusal_place self.now }
    {
        match self {
            ReportRefusal::Line(n) => Place::ReportLine(*n),
            ReportRefusal::Long => Place::ReportLine(0),
            ReportRefusal::NoMemory => Place::None,
        }
    }
}
