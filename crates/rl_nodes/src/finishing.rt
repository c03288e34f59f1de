ghost use Rattle.std.specs.Prelude.{◌≡◌, ◌≤◌, ◌∷◌, ◌++◌, reverse, map, IfOk, OnOk, All};
ghost use Rattle.rl_record.specs.Records.{IsMergeOf};
ghost use Rattle.rl_rule.specs.Seats.{rails_id, seat_id, walk_of, handed, taken, IsSameRails};
ghost use Rattle.rl_rule.specs.Views.{kept_of};
ghost use Rattle.rl_nodes.specs.Parts.{AreParts};
ghost use Rattle.rl_nodes.specs.Left.{with_part};
ghost use Rattle.rl_nodes.specs.Finished.{records_of, minds_of, IsRunOf, end_state, AreMinds, attempts_in, most_attempts};
ghost use Rattle.rl_nodes.specs.Finished.{AreFew, RunKeepsPromises};

use crate::parts::{Part, Parts};
use rl_base::{NoMemory, Sequence};
use rl_merge::merged_records;
use rl_record::{Events, Records, merge};
use rl_rule::{Rails, Words};
use rl_safety::{counted_events, promises_of_runs};
use rl_steps::Mind;
use std::alloc::Global;

pub type Minds = Sequence<Mind>;

/// What all nodes of some rails did: the record of each, the merge of the records, the words at the end, and the mind
/// of each.
#[derive(Debug, Drop)]
pub struct Finished {
    pub records: Records,
    pub events: Events,
    pub words: Words,
    pub minds: Minds,
}

/// The records and the minds of nodes whose seats were taken in, in order.
#[derive(Drop)]
struct Left {
    records: Records,
    minds: Minds,
}

/// Takes the seat of one part in, and keeps its record and its mind.
fn take_one_in(rails: &mut Rails, left: &mut Left, part: Part) -> Result<(), NoMemory>
    requires own { seat_id part.seat ≡ rails_id rails.old }
    ensures rails { IsSameRails rails.old rails.new }
    ensures handed { handed rails.new ≡ handed rails.old }
    ensures taken { taken rails.new ≡ kept_of (walk_of part.seat) ∷ taken rails.old }
    ensures left { OnOk result (left.new ≡ with_part left.old part) }
{
    let Part { seat, mind, record } = part;
    rails.take_in(seat);
    left.minds.push(mind)?;
    left.records.push(record)
}

/// Takes the seat of every part in, in order.
fn take_all_in(alloc: Global, rails: &mut Rails, parts: Parts) -> Result<Left, NoMemory>
    requires own { All (λ part. seat_id part.seat ≡ rails_id rails.old) parts }
    ensures rails { IsSameRails rails.old rails.new }
    ensures handed { handed rails.new ≡ handed rails.old }
    ensures taken { OnOk result
        (taken rails.new ≡ reverse (map (λ part. kept_of (walk_of part.seat)) parts) ++ taken rails.old) }
    ensures records { IfOk result (λ left. left.records ≡ records_of parts) }
    ensures minds { IfOk result (λ left. left.minds ≡ minds_of parts) }
{
    let mut left = Left {
        records: Records::new(alloc),
        minds: Minds::new(alloc),
    };
    for part in parts.into_vec() {
        take_one_in(rails, &mut left, part)?;
    }
    Ok(left)
}

/// What the nodes of these rails did together: the merge of their records, each event once and those of a node in its
/// own order. It is a run; it leads to the closing words and to the minds with which the nodes were parted. Where
/// memory is refused, the rails and the parts are gone.
pub fn finish(alloc: Global, rails: Rails, parts: Parts) -> Result<Finished, NoMemory>
    requires { AreParts rails parts }
    ensures records { IfOk result (λ done. done.records ≡ records_of parts) }
    ensures minds { IfOk result (λ done. done.minds ≡ minds_of parts) }
    ensures merge { IfOk result (λ done. IsMergeOf done.records done.events) }
    ensures run { IfOk result (λ done. IsRunOf rails done.events) }
    ensures words { IfOk result (λ done. done.words ≡ (end_state rails done.events).words) }
    ensures last_minds { IfOk result (λ done. AreMinds (end_state rails done.events).minds done.minds) }
    // Events and moves are few for each attempt that was opened in this run, and these are few for trains and tries.
    ensures few { IfOk result (λ done. AreFew (attempts_in rails done.events) done.records done.events) }
    ensures attempts { IfOk result (λ done. attempts_in rails done.events ≤ most_attempts rails) }
    ensures promised { IfOk result (λ done. RunKeepsPromises rails done.events) }
{
    let mut rails = rails;
    let Left { records, minds } = take_all_in(alloc, &mut rails, parts)?;
    let words = rails.close();
    merged_records();
    counted_events();
    promises_of_runs();
    let events = merge(alloc, &records)?;
    Ok(Finished {
        records,
        events,
        words,
        minds,
    })
}
