ghost use Rattle.std.specs.Prelude.{ℕ, ◌<◌};
ghost use Rattle.rl_base.specs.Layout.{node_count};
ghost use Rattle.rl_record.specs.declared.event.Turn.{Turn};
ghost use Rattle.rl_tables.specs.Starts.{layout_of};
ghost use Rattle.rl_core.specs.Cores as cores;
ghost use Rattle.rl_core.specs.Promises.{RunsKeepPromises, KeepsTurn, KeepsIdleTurn};
ghost use Rattle.rl_core.specs.Turns.{IsTurn, IsIdleTurn};

use crate::cores::Core;
use rl_safety::{boxes_at_work, newest_events, promises_of_runs, turns_at_rest};

/// A turn of a core keeps what turns promise, and so does one without an event.
pub(crate) fn turns_keep_promises()
    ensures turn { (old new : cores.Core) (n : ℕ) (says : Turn) → cores.IsReached old
        → n < node_count (layout_of old.line) → IsTurn old new n says → KeepsTurn old new n says }
    ensures idle { (old new : cores.Core) (n : ℕ) (says : Turn) → cores.IsReached old
        → n < node_count (layout_of old.line) → IsTurn old new n says → IsIdleTurn old new n
        → KeepsIdleTurn old new n }
{
    newest_events();
    promises_of_runs();
    turns_at_rest();
    boxes_at_work();
}

impl<'a> Core<'a> {
    /// Every run that leads to the core keeps what runs promise: minds and words agree, the moves are a safe run, and
    /// refusals, events and attempts are counted. It does nothing.
    pub fn promised(&self)
        ensures { RunsKeepPromises self.now }
    {
        promises_of_runs();
        self.reached();
    }
}
