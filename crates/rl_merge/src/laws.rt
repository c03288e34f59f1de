ghost use Rattle.std.specs.Prelude.{◌≡◌, ℕ, ◌≤◌, List, [], length, reverse};
ghost use Rattle.rl_base.specs.Layout.{word_count};
ghost use Rattle.rl_base.specs.Numbers.{IsU32};
ghost use Rattle.rl_base.specs.Tries.{AreFewTries};
ghost use Rattle.rl_record.specs.declared.event.Event.{Event};
ghost use Rattle.rl_merge.specs.Chains.{clock_left, AreChained, AreLeft};
ghost use Rattle.rl_merge.specs.Records.{AreRecordsOf};
ghost use Rattle.rl_record.specs.Merge.{history, IsMerge};
ghost use Rattle.rl_record.specs.Records.{Record, AreHistories, IsMergeOf};
ghost use Rattle.rl_tables.specs.declared.table.Tables.{Tables};
ghost use Rattle.rl_tables.specs.Kept.{IsLine};
ghost use Rattle.rl_tables.specs.Starts.{layout_of};
ghost use Rattle.rl_steps.specs.declared.mind.Mind.{Mind};
ghost use Rattle.rl_steps.specs.Run.{IsRun, state};

use rl_record::{histories_of_records, one_merge, records_by_node};
use rl_steps::{sound_runs, steps_of_owners};
use rl_words::stamps;

/// Whatever the order in which the nodes made their steps: the merge of their histories is a run, and it leads to the
/// same words, minds and clocks. There is only one such list.
pub fn merged_runs()
    ensures run { (tables : Tables) (tries : ℕ) (log merged : List Event)
        → IsLine tables → AreFewTries tries → IsU32 (length log)
        → IsRun tables tries log → IsMerge (λ n. history n log) merged
        → IsRun tables tries merged × (state tables tries merged ≡ state tables tries log) }
    ensures only { (h : ℕ → List Event) (a b : List Event) → IsMerge h a → IsMerge h b → a ≡ b }
{
    sound_runs();
    steps_of_owners();
    stamps();
    one_merge();
}

/// The records of all nodes of a run have a merge, and it is a run that leads to the same words, minds and clocks.
pub fn merged_records()
    ensures histories { (tables : Tables) (tries : ℕ) (log : List Event) (records : List Record)
        → IsRun tables tries log → AreRecordsOf log records → AreHistories records }
    ensures run { (tables : Tables) (tries : ℕ) (log : List Event) (records : List Record) (events : List Event)
        → IsLine tables → AreFewTries tries → IsU32 (length log)
        → IsRun tables tries log → AreRecordsOf log records → IsMergeOf records events
        → IsRun tables tries (reverse events) × (state tables tries (reverse events) ≡ state tables tries log) }
{
    records_by_node();
    histories_of_records();
    merged_runs();
}

/// The chain law: where each event is the step that follows its node's events before it, and found what the event
/// before it on its word left, the histories have a merge, and it is a run. It leads to the words, the minds and the
/// clocks that they left.
pub fn chained_runs()
    ensures merge { (tables : Tables) (tries nodes : ℕ) (h : ℕ → List Event)
        → AreChained tables tries h → ((n : ℕ) → nodes ≤ n → h n ≡ []) → (merged : List Event) × IsMerge h merged }
    ensures run { (tables : Tables) (tries : ℕ) (h : ℕ → List Event) (merged : List Event)
        → AreChained tables tries h → IsMerge h merged → IsRun tables tries merged }
    ensures words { (tables : Tables) (tries : ℕ) (h : ℕ → List Event) (merged : List Event)
        (words : List ℕ) (minds : ℕ → Mind)
        → AreChained tables tries h → IsMerge h merged → AreLeft tables tries h words minds
        → length words ≡ word_count (layout_of tables) → (state tables tries merged).words ≡ words }
    ensures minds { (tables : Tables) (tries : ℕ) (h : ℕ → List Event) (merged : List Event)
        (words : List ℕ) (minds : ℕ → Mind)
        → AreChained tables tries h → IsMerge h merged → AreLeft tables tries h words minds
        → (n : ℕ) → (state tables tries merged).minds n ≡ minds n }
    ensures clocks { (tables : Tables) (tries : ℕ) (h : ℕ → List Event) (merged : List Event)
        → AreChained tables tries h → IsMerge h merged → (n : ℕ) → (state tables tries merged).clocks n ≡ clock_left (h n) }
{}

/// The histories of a run are chained, and the words, the minds and the clocks of its state are those that they left.
pub fn chains_of_runs()
    ensures chained { (tables : Tables) (tries : ℕ) (log : List Event)
        → IsLine tables → AreFewTries tries → IsU32 (length log) → IsRun tables tries log
        → AreChained tables tries (λ n. history n log) }
    ensures left { (tables : Tables) (tries : ℕ) (log : List Event)
        → IsLine tables → AreFewTries tries → IsU32 (length log) → IsRun tables tries log
        → AreLeft tables tries (λ n. history n log) (state tables tries log).words (state tables tries log).minds }
    ensures clocks { (tables : Tables) (tries : ℕ) (log : List Event) → IsRun tables tries log
        → (n : ℕ) → (state tables tries log).clocks n ≡ clock_left (history n log) }
{
    sound_runs();
    steps_of_owners();
    stamps();
}
