ghost use Rattle.std.specs.Prelude.{ℕ, List, ◌∷◌};
ghost use Rattle.rl_base.specs.Tries.{AreFewTries};
ghost use Rattle.rl_model.specs.declared.network.NetworkPlan.{NetworkPlan};
ghost use Rattle.rl_model.specs.Network.{IsNetwork};
ghost use Rattle.rl_record.specs.declared.event.Event.{Event};
ghost use Rattle.rl_protocol.specs.Steps.{Step};
ghost use Rattle.rl_steps.specs.Run.{IsRun, state};
ghost use Rattle.rl_safety.specs.Guarded.{IsGuarded};
ghost use Rattle.rl_safety.specs.Promises.{KeepsPromises};
ghost use Rattle.rl_safety.specs.Stepped.{IsStepOf};
ghost use Rattle.rl_tables.specs.declared.table.Tables.{Tables};
ghost use Rattle.rl_tables.specs.Kept.{IsLine};
ghost use Rattle.rl_tables.specs.Tables.{AreTablesOf};

use crate::laws::{
    agreement, counted_events, counted_refusals, safe_runs, steps_of_events, trains_at_rest,
};
use crate::work::readable_words;
use rl_protocol as protocol;
use rl_tables::tables_of_networks;

/// The newest event of every run is one step of the protocol, in the state that the earlier events leave, with its move.
/// On the tables of a network each guard of that move holds in the world before, and the world after it is that after
/// the move; without a move the world stays.
pub fn newest_events()
    ensures step { (tables : Tables) (tries : ℕ) (e : Event) (earlier : List Event)
        → IsLine tables → AreFewTries tries → IsRun tables tries (e ∷ earlier)
        → (step : Step) × IsStepOf tables tries (state tables tries earlier) e step }
    ensures guarded { (net : NetworkPlan) (tables : Tables) (tries : ℕ) (e : Event) (earlier : List Event)
        → IsNetwork net → AreTablesOf net tables → AreFewTries tries → IsRun tables tries (e ∷ earlier)
        → IsGuarded net tables (state tables tries earlier) (state tables tries (e ∷ earlier)) e }
{
    steps_of_events();
    agreement();
    safe_runs();
    tables_of_networks();
    protocol::lines_of_tables();
    protocol::safe_runs_of_steps();
}

/// Every run keeps what runs promise.
pub fn promises_of_runs()
    ensures { (tables : Tables) (tries : ℕ) (events : List Event)
        → IsLine tables → AreFewTries tries → IsRun tables tries events → KeepsPromises tables tries events }
{
    agreement();
    readable_words();
    safe_runs();
    counted_refusals();
    trains_at_rest();
    counted_events();
}
