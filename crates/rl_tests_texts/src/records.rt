//! What no clause can say: that a call with memory to spare succeeds.

ghost use Rattle.std.specs.Prelude.{◌≡◌, [], ◌∷◌, IfOk};

use rl_base::{NoMemory, NodeNo, WordNo};
use rl_record::{Event, Record, Records, merge};
use std::alloc::Global;

const fn event(node: u32, stamp: u32) -> Event
    ensures node { result.node.0 ≡ node }
    ensures stamp { result.stamp ≡ stamp }
{
    Event {
        node: NodeNo(node),
        stamp,
        word: WordNo(0),
        was: 0,
        now: 0,
    }
}

fn of_two(alloc: Global, first: Event, second: Event) -> Result<Record, NoMemory>
    ensures { IfOk result (λ r. r.events ≡ first ∷ second ∷ []) }
{
    let mut record = Record::new(alloc, 2);
    record.top_up(5)?;
    record.push(first);
    record.push(second);
    Ok(record)
}

#[test]
fn keeps_events_within_the_limit(rt: HostRuntime) -> Result<(), NoMemory> {
    let record = of_two(rt.alloc(), event(7, 1), event(7, 4))?;
    assert_eq!(rt; (record.len(), record.limit(), record.spare()), (2, 2, 0));
    assert_eq!(rt; record.at(1), event(7, 4));
    Ok(())
}

#[test]
fn merges_by_stamp_and_then_by_node(rt: HostRuntime) -> Result<(), NoMemory> {
    let mut records = Records::new(rt.alloc());
    records.push(of_two(rt.alloc(), event(0, 1), event(0, 3))?)?;
    records.push(of_two(rt.alloc(), event(1, 1), event(1, 2))?)?;
    let merged = merge(rt.alloc(), &records)?;
    let wanted = [event(0, 1), event(1, 1), event(1, 2), event(0, 3)];
    assert_eq!(rt; merged.as_slice(), wanted.as_slice());
    Ok(())
}
