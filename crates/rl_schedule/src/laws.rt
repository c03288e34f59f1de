ghost use Rattle.std.specs.Prelude.{◌≡◌, ◌≤◌, ℕ, List, length, Ok};
ghost use Rattle.rl_base.specs.Layout.{node_count};
ghost use Rattle.rl_base.specs.declared.limits.TheConstants.{MAX_TURNS};
ghost use Rattle.rl_model.specs.declared.network.NetworkPlan.{NetworkPlan};
ghost use Rattle.rl_model.specs.Network.{IsNetwork};
ghost use Rattle.rl_tables.specs.declared.table.Tables.{Tables};
ghost use Rattle.rl_tables.specs.Starts.{layout_of};
ghost use Rattle.rl_tables.specs.Tables.{AreTablesOf};
ghost use Rattle.rl_schedule.specs.declared.schedules.Item.{Item};
ghost use Rattle.rl_schedule.specs.Driven.{schedule_report};
ghost use Rattle.rl_schedule.specs.Readings.{nodes_of, schedule_of};
ghost use Rattle.rl_schedule.specs.Turns.{turns_of};

/// A network has as many nodes as its line: a schedule of the network is one for its line.
pub fn nodes_of_networks()
    ensures { (net : NetworkPlan) (tables : Tables) → AreTablesOf net tables
        → node_count (layout_of tables) ≡ nodes_of net }
{}

/// A turn makes one move at most, and what a text says has at most 1,000,000 turns: so the report of a schedule has
/// at most 1,000,000 moves.
pub fn few_moves()
    ensures report { (tables : Tables) (tries : ℕ) (nodes : List ℕ)
        → length (schedule_report tables tries nodes).moves ≤ length nodes }
    ensures text { (net : NetworkPlan) (text : List ℕ) (items : List Item)
        → IsNetwork net → schedule_of net text ≡ Ok items
        → length (turns_of (nodes_of net) items) ≤ MAX_TURNS }
{}
