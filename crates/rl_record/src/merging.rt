ghost use Rattle.std.specs.Prelude.{◌≡◌, IfOk};
ghost use Rattle.rl_record.specs.Records.{AreHistories, IsMergeOf, all_events};

use crate::event::{Event, Events};
use crate::record::Records;
use rl_base::NoMemory;
use std::alloc::Global;

/// The events of all records, one record after another.
fn gathered(alloc: Global, records: &Records) -> Result<Vec<Event>, NoMemory>
    ensures { IfOk result (λ events. events.items ≡ all_events records.now) }
{
    let mut events = Vec::new(alloc);
    for record in records.as_slice() {
        events.extend_from_slice(record.as_slice())?;
    }
    Ok(events)
}

/// The events of all records in the order in which they can have happened: by their stamps, and by their nodes where
/// stamps are equal.
pub fn merge(alloc: Global, records: &Records) -> Result<Events, NoMemory>
    requires { AreHistories records.now }
    ensures { IfOk result (IsMergeOf records.now) }
{
    let mut events = gathered(alloc, records)?;
    events.sort_unstable_by_key(|e| (e.stamp, e.node));
    Ok(Events::from_vec(events))
}
