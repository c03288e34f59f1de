ghost use Rattle.std.specs.Prelude.{ℕ, List};
ghost use Rattle.rl_base.specs.Tries.{AreFewTries};
ghost use Rattle.rl_model.specs.declared.network.NetworkPlan.{NetworkPlan};
ghost use Rattle.rl_model.specs.Network.{IsNetwork};
ghost use Rattle.rl_model.specs.Safety.{IsKept};
ghost use Rattle.rl_record.specs.declared.event.Event.{Event};
ghost use Rattle.rl_steps.specs.Run.{IsRun, state};
ghost use Rattle.rl_safety.specs.Ranges.{NamesWhatIsThere};
ghost use Rattle.rl_safety.specs.Reading.{read};
ghost use Rattle.rl_safety.specs.World.{world_of_core};
ghost use Rattle.rl_tables.specs.declared.table.Tables.{Tables};
ghost use Rattle.rl_tables.specs.Tables.{AreTablesOf};

use crate::laws::{agreement, safe_runs};
use rl_model::laws as model;
use rl_protocol::lines_of_tables;
use rl_tables::tables_of_networks;

/// After every run the words name only what is there, and in the world that they say stands what every move keeps.
pub fn worlds_of_runs()
    ensures named { (net : NetworkPlan) (tables : Tables) (tries : ℕ) (events : List Event)
        → IsNetwork net → AreTablesOf net tables → AreFewTries tries → IsRun tables tries events
        → NamesWhatIsThere net (read tables tries (state tables tries events)) }
    ensures kept { (net : NetworkPlan) (tables : Tables) (tries : ℕ) (events : List Event)
        → IsNetwork net → AreTablesOf net tables → AreFewTries tries → IsRun tables tries events
        → IsKept net (world_of_core net tables (state tables tries events)) }
{
    model::safe_runs();
    tables_of_networks();
    lines_of_tables();
    agreement();
    safe_runs();
}
