ghost use Rattle.std.specs.Prelude.{◌≡◌, ℕ, ◌↔◌, ◌<◌, length, Some, option_map};
ghost use Rattle.rl_model.specs.declared.network.NetworkPlan.{NetworkPlan};
ghost use Rattle.rl_model.specs.Network.{IsNetwork, StartsOn};
ghost use Rattle.rl_tables.specs.declared.table.StepRow.{StepRow};
ghost use Rattle.rl_tables.specs.declared.table.Tables.{Tables};
ghost use Rattle.rl_tables.specs.Tables.{IsStepRow, AreTablesOf};
ghost use Rattle.rl_tables.specs.Kept.{IsLine};
ghost use Rattle.rl_tables.specs.Ranges.{IsRowOf};
ghost use Rattle.rl_tables.specs.Starts.{starter_of};

/// What is said of the tables of a network leaves no choice, and they are a line in the network's range,
/// in which the holder of a segment at the start is the train that starts there.
pub fn tables_of_networks()
    ensures only { (net : NetworkPlan) (a b : Tables) → AreTablesOf net a → AreTablesOf net b → a ≡ b }
    ensures line { (net : NetworkPlan) (tables : Tables) → IsNetwork net → AreTablesOf net tables → IsLine tables }
    ensures rows { (net : NetworkPlan) (t k : ℕ) (row : StepRow) → IsNetwork net → IsStepRow net t k row
        → IsRowOf net row }
    ensures holders { (net : NetworkPlan) (tables : Tables) (t s : ℕ) → IsNetwork net → AreTablesOf net tables
        → (option_map (λ u. u.0) (starter_of tables s) ≡ Some t) ↔ StartsOn net t s }
{}
