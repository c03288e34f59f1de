ghost use Rattle.std.specs.Prelude.{◌≡◌, ℕ, List};
ghost use Rattle.rl_record.specs.declared.event.Event.{Event};
ghost use Rattle.rl_record.specs.Merge.{history, IsMerge};
ghost use Rattle.rl_record.specs.Records.{Record, AreByNode, AreHistories, IsRecordOf, all_events};

/// Histories have no two merges.
pub fn one_merge()
    ensures { (h : ℕ → List Event) (a b : List Event) → IsMerge h a → IsMerge h b → a ≡ b }
{}

/// Records that stand in the order of their nodes have a merge.
pub fn records_by_node()
    ensures { (records : List Record) → AreByNode records → AreHistories records }
{}

/// The history of a node, among the events of all records, is what its record holds.
pub fn histories_of_records()
    ensures { (rs : List Record) (i n : ℕ) (r : Record) → IsRecordOf rs i n r → history n (all_events rs) ≡ r.events }
{}
