ghost use Rattle.std.specs.Prelude.{◌≡◌, ◌+◌, ◌<◌, [], ◌∷◌, ◌++◌};
ghost use Rattle.std.specs.Prelude.{ℕ, List, length, slice_get, slice_set, Some, IfOk};
ghost use Rattle.rl_base.specs.Numbers.{IsU32};
ghost use Rattle.rl_model.specs.declared.moves.Move.{Move};
ghost use Rattle.rl_audit.specs.Counting.{AreCounts, IsCounted};
ghost use Rattle.rl_audit.specs.declared.counts.Count.{Count};

use rl_base::{NoMemory, TrainId};
use rl_model::Move;
use std::alloc::Global;

/// How many steps a train made, and how many refusals it met.
#[derive(Clone, Copy, Debug, PartialEq, Eq)]
pub(crate) struct Count {
    pub(crate) made: u32,
    pub(crate) refused: u32,
}

/// The counts of so many trains before the first move.
pub(crate) fn no_counts(alloc: Global, trains: u32) -> Result<Vec<Count>, NoMemory>
    ensures count { IfOk result (λ counts. length counts.items ≡ trains) }
    ensures none { IfOk result (λ counts. AreCounts [] counts.items) }
{
    let mut counts = Vec::with_capacity(alloc, trains as usize)?;
    for _ in 0..trains {
        counts.push(Count {
            made: 0,
            refused: 0,
        })?;
    }
    Ok(counts)
}

/// One step of the train more. Fewer than 2^32 are counted.
fn add_made(counts: &mut Vec<Count>, t: TrainId)
    requires { t.0 < length counts.old.items }
    ensures len { length counts.new.items ≡ length counts.old.items }
    ensures counted { (x : Count) → slice_get counts.old.items t.0 ≡ Some x → IsU32 (x.made + 1)
        → counts.new.items ≡ slice_set counts.old.items t.0 (record x { made = x.made + 1 }) }
{
    let count = &mut counts[t.0 as usize];
    count.made = count.made.saturating_add(1);
}

/// One refusal of the train more. Fewer than 2^32 are counted.
fn add_refused(counts: &mut Vec<Count>, t: TrainId)
    requires { t.0 < length counts.old.items }
    ensures len { length counts.new.items ≡ length counts.old.items }
    ensures counted { (x : Count) → slice_get counts.old.items t.0 ≡ Some x → IsU32 (x.refused + 1)
        → counts.new.items ≡ slice_set counts.old.items t.0 (record x { refused = x.refused + 1 }) }
{
    let count = &mut counts[t.0 as usize];
    count.refused = count.refused.saturating_add(1);
}

/// Counts a move.
pub(crate) fn count_move(counts: &mut Vec<Count>, m: Move)
    requires { IsCounted (length counts.old.items) m }
    ensures len { length counts.new.items ≡ length counts.old.items }
    ensures counted { (moves : List Move) → IsU32 (length moves + 1)
        → AreCounts moves counts.old.items → AreCounts (moves ++ m ∷ []) counts.new.items }
{
    match m {
        Move::Leave { t, .. } => add_made(counts, t),
        Move::Refuse { t, .. } => add_refused(counts, t),
        Move::Bar { t, .. } => add_refused(counts, t),
        _ => {}
    }
}
