ghost use Rattle.std.specs.Prelude.{◌≡◌, ◌≢◌, ◌⊎◌, ℕ, ◌<◌, ◌≤◌, length, reverse, Ok, Err, IfOk};
ghost use Rattle.rl_base.specs.Tries.{AreFewTries};
ghost use Rattle.rl_steps.specs.Run.{IsRun};
ghost use Rattle.rl_core.specs.Cores.{LeadsTo};
ghost use Rattle.rl_core.specs.Promises.{RunsKeepPromises};
ghost use Rattle.rl_core.specs.Replays.{replayed, IsFirstMisfit};
ghost use Rattle.rl_core.specs.declared.replays.ReplayFault.TheVariants as faults;

use crate::cores::Core;
use rl_base::NoMemory;
use rl_record::Events;
use rl_tables::Line;
use std::alloc::Global;

/// Why a list of events can't be replayed.
#[derive(Clone, Copy, Debug, PartialEq, Eq, thiserror::Error)]
pub enum ReplayFault {
    /// The event of that number, counted from 0, is the first that isn't the step of its node there.
    #[error("an event isn't the step of its node there")]
    At(u32),
    #[error("memory ran out")]
    NoMemory,
}

impl From<NoMemory> for ReplayFault {
    ghost use Rattle.std.specs.Prelude.{◌≡◌};
    ghost use Rattle.rl_core.specs.declared.replays.ReplayFault.TheVariants.{NoMemory};

    ghost from_gives = { λ _ e. e ≡ NoMemory };

    fn from(_error: NoMemory) -> ReplayFault {
        ReplayFault::NoMemory
    }
}

/// The core after the events, oldest first, with each box at its first scan place; or the first event that doesn't fit
/// the state that those before it leave. No event behind that one matters.
pub fn replay<'a>(
    alloc: Global,
    line: &'a Line,
    tries: u32,
    events: &Events,
) -> Result<Core<'a>, ReplayFault>
    requires some_tries { 1 ≤ tries }
    requires few_tries { AreFewTries tries }
    requires few { length events.now < 4294967295 }

    // What each answer says.
    ensures run { IfOk result (LeadsTo (replayed events.now)) }
    ensures at { (i : ℕ) → result ≡ Err (faults.At i) → IsFirstMisfit line.now tries events.now i }
    ensures line { IfOk result (λ core. core.line ≡ line.now) }
    ensures tries { IfOk result (λ core. core.tries ≡ tries) }
    ensures promised { IfOk result RunsKeepPromises }

    // Each comes wherever it is so, unless memory ran out.
    ensures runs { IsRun line.now tries (reverse events.now) → (i : ℕ) → result ≢ Err (faults.At i) }
    ensures misfits { (i : ℕ) → IsFirstMisfit line.now tries events.now i
        → (result ≡ Err (faults.At i)) ⊎ (result ≡ Err faults.NoMemory) }
{
    let mut core = Core::new(alloc, line, tries)?;
    for (i, event) in events.as_slice().iter().enumerate() {
        if !core.redo(*event) {
            return Err(ReplayFault::At(i as u32));
        }
    }
    // What every run promises, for the proof.
    core.promised();
    Ok(core)
}
