ghost use Rattle.std.specs.Prelude.{◌≡◌, ◌≢◌, ◌+◌, ◌*◌, ◌<◌, ◌≤◌, IfSome, IfNone};
ghost use Rattle.rl_words.specs.declared.run.RunWord.{RunWord};
ghost use Rattle.rl_words.specs.Run.{FitsRun, packed_run};
ghost use Rattle.rl_words.specs.Readings.{read_run};

use crate::field::{field, with_bits};
use rl_base::limits::MAX_STEPS;

/// The word by which a train and its track say where the train is: on segment `k` of its route, there and on its
/// way into box `k`, or across that box.
#[derive(Clone, Copy, Debug, PartialEq, Eq)]
pub enum RunWord {
    Clear(u32),
    Go(u32),
    Across(u32),
}

/// The word of a payload, and `None` where the payload is no packing.
fn run_of(payload: u32) -> Option<RunWord>
    ensures some { IfSome result (λ v. FitsRun v × (packed_run v ≡ payload)) }
    ensures none { IfNone result ((v : RunWord) → FitsRun v → packed_run v ≢ payload) }
    ensures back { (v : RunWord) → FitsRun v → packed_run v ≡ payload → result ≡ Some v }
{
    let k = payload >> 2;
    match field(payload, 0, 2) {
        0 if k <= MAX_STEPS as u32 => Some(RunWord::Clear(k)),
        1 if k < MAX_STEPS as u32 => Some(RunWord::Go(k)),
        2 if k < MAX_STEPS as u32 => Some(RunWord::Across(k)),
        _ => None,
    }
}

impl RunWord {
    /// The tag is in bits 0 and 1, the step in bits 2 to 8.
    pub fn pack(&self) -> u32
        requires { FitsRun self.now }
        ensures { result ≡ packed_run self.now }
    {
        match *self {
            RunWord::Clear(k) => with_bits(0, 2, k),
            RunWord::Go(k) => with_bits(1, 2, k),
            RunWord::Across(k) => with_bits(2, 2, k),
        }
    }

    /// The word of a payload, and `None` where the payload is no packing.
    pub fn unpack(payload: u32) -> Option<RunWord>
        ensures some { IfSome result (λ v. FitsRun v × (packed_run v ≡ payload)) }
        ensures none { IfNone result ((v : RunWord) → FitsRun v → packed_run v ≢ payload) }
        ensures back { (v : RunWord) → FitsRun v → packed_run v ≡ payload → result ≡ Some v }
        ensures read { result ≡ read_run payload }
    {
        run_of(payload)
    }
}
