//! Nodes on a line of two segments: what no clause can say, and what a train comes to.

ghost use Rattle.std.specs.Prelude.{◌<◌, length};

use crate::driven::line_of;
use crate::networks::STRAIGHT;
use rl_base::{NoMemory, NodeNo, WordNo};
use rl_nodes::{RunNode, all_seats, lay_nodes, part, top_up_all};
use rl_outside::OpenGate;
use rl_record::{Event, Turn};
use rl_rule::Rails;
use rl_runner::{Turner, rounds};
use std::test::Fail;
use std::thread::Threads;

/// How many events each node makes until the train has arrived: the train two for each of its six letters, and two on
/// the way; the track four; a box three for each letter to it.
const EVENTS: [u32; 8] = [14, 4, 3, 12, 3, 0, 0, 0];

/// Two hundred rounds by one worker.
fn many_rounds<R: Threads + Sync>(rt: &R, nodes: &mut [RunNode<'_>]) -> Result<(), NoMemory>
    requires { 0 < length nodes.old }
{
    top_up_all(nodes, 200)?;
    rounds(rt, nodes, &OpenGate, 200, 1);
    Ok(())
}

#[test]
fn a_train_arrives(rt: HostRuntime) -> Result<(), Fail> {
    let alloc = rt.alloc();
    let line = line_of(alloc, STRAIGHT)?;
    let mut rails = Rails::lay(alloc, &line, 100)?;
    let seats = all_seats(alloc, &mut rails, &line)?;
    let mut nodes = lay_nodes(alloc, &rails, &line, seats, 100, 1000)?;
    assert!(rt; nodes.len() == 8 && !nodes.at(0).at_rest());
    many_rounds(&rt, nodes.as_mut_slice())?;
    assert!(rt; nodes.as_slice().iter().all(|node| node.at_rest()));
    for (node, events) in nodes.as_slice().iter().zip(EVENTS) {
        assert_eq!(rt; node.len(), events);
    }
    assert_eq!(rt; part(alloc, nodes)?.len(), 8);
    Ok(())
}

/// A turn of the node, with room for one event more.
fn turn_once(node: &mut RunNode<'_>) -> Result<Turn, NoMemory> {
    node.top_up(1)?;
    Ok(node.turn())
}

#[test]
fn a_record_of_one_event_is_full(rt: HostRuntime) -> Result<(), Fail> {
    let alloc = rt.alloc();
    let line = line_of(alloc, STRAIGHT)?;
    let mut rails = Rails::lay(alloc, &line, 100)?;
    let seats = all_seats(alloc, &mut rails, &line)?;
    let mut nodes = lay_nodes(alloc, &rails, &line, seats, 100, 1)?;
    assert_eq!(rt; nodes.len(), 8);
    let lent = nodes.as_mut_slice();
    let posted = Event {
        node: NodeNo(0),
        stamp: 1,
        word: WordNo(7),
        was: 0,
        now: 0x0000_0001_0000_1009,
    };
    assert_eq!(rt; turn_once(&mut lent[0])?, Turn::Moved(posted));
    assert_eq!(rt; turn_once(&mut lent[0])?, Turn::Full);
    assert_eq!(rt; turn_once(&mut lent[5])?, Turn::Idle(0));
    Ok(())
}
