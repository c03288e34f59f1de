ghost use Rattle.std.specs.Prelude.{◌≡◌, ◌≤◌, IfOk};
ghost use Rattle.rl_base.specs.Draft.{HasNames};
ghost use Rattle.rl_drafts.specs.Refusals.{IsAccepted};
ghost use Rattle.rl_make.specs.Ring.{ring};

use crate::station::{push_boxes, push_segments};
use crate::train::train_of;
use rl_base::limits::MAX_MAKE;
use rl_base::{Draft, DraftBoxes, DraftTrains, Names, NoMemory};
use std::alloc::Global;

fn ring_of(alloc: Global, n: u32) -> Result<Draft, NoMemory>
    ensures { IfOk result (λ draft. draft ≡ ring n) }
{
    let mut segments = Names::new(alloc);
    let mut boxes = DraftBoxes::new(alloc);
    let mut trains = DraftTrains::new(alloc);
    for i in 0..n {
        push_segments(alloc, &mut segments, i)?;
        push_boxes(alloc, n, &mut boxes, i)?;
        trains.push(train_of(alloc, n, i)?)?;
    }
    Ok(Draft {
        segments,
        boxes,
        trains,
    })
}

/// The ring of `n` stations with a train at each.
pub fn make_draft(alloc: Global, n: u32) -> Result<Draft, NoMemory>
    requires some { 1 ≤ n }
    requires few { n ≤ MAX_MAKE }
    ensures made { IfOk result (λ draft. draft ≡ ring n) }
    // Each text of it that should be a name is one, and it breaks no rule.
    ensures names { IfOk result HasNames }
    ensures accepted { IfOk result IsAccepted }
{
    ring_of(alloc, n)
}
