use crate::networks::network;
use rl_base::NodeNo;
use rl_core::Core;
use rl_record::{Event, Turn};
use rl_tables::{Line, compile};
use std::alloc::Global;
use std::process::Abort;
use std::test::Fail;

/// What was seen: the round, counted from 1, and an event of it.
pub(crate) type Seen = (u32, Event);

/// The tables of the network of the text.
pub(crate) fn line_of(alloc: Global, text: &str) -> Result<Line, Fail> {
    let net = network(alloc, text)?;
    Ok(compile(alloc, &net)?)
}

/// One turn of the node: its event, if it made one, stands behind the others.
fn turn(
    rt: &impl Abort,
    core: &mut Core<'_>,
    n: u32,
    round: u32,
    seen: &mut Vec<Seen>,
) -> Result<(), Fail> {
    let there = n < core.line().layout().nodes();
    assert!(rt; there);
    let few = core.events() < 1_000_000;
    assert!(rt; few);
    if let Turn::Moved(event) = core.turn(NodeNo(n)) {
        seen.push((round, event))?;
    }
    Ok(())
}

/// One turn of each node, in order.
fn round(
    rt: &impl Abort,
    core: &mut Core<'_>,
    number: u32,
    seen: &mut Vec<Seen>,
) -> Result<(), Fail> {
    for n in 0..core.line().layout().nodes() {
        turn(rt, core, n, number, seen)?;
    }
    Ok(())
}

/// The events of so many rounds from the start.
pub(crate) fn seen_in_rounds(
    rt: &impl Abort,
    alloc: Global,
    line: &Line,
    tries: u32,
    rounds: u32,
) -> Result<Vec<Seen>, Fail> {
    let some = 1 <= tries && tries <= 1000;
    assert!(rt; some);
    let mut core = Core::new(alloc, line, tries)?;
    let mut seen = Vec::new(alloc);
    for n in 0..rounds {
        round(rt, &mut core, n + 1, &mut seen)?;
    }
    Ok(seen)
}

/// So many turns of the node.
fn turns(
    rt: &impl Abort,
    core: &mut Core<'_>,
    n: u32,
    count: u32,
    seen: &mut Vec<Seen>,
) -> Result<(), Fail> {
    for _ in 0..count {
        turn(rt, core, n, 0, seen)?;
    }
    Ok(())
}

/// The events of these turns from the start: each line has a node, and how many turns it gets. The round is 0.
pub(crate) fn seen_in_turns(
    rt: &impl Abort,
    alloc: Global,
    line: &Line,
    lines: &[(u32, u32)],
) -> Result<Vec<Seen>, Fail> {
    let mut core = Core::new(alloc, line, 100)?;
    let mut seen = Vec::new(alloc);
    for (n, count) in lines {
        turns(rt, &mut core, *n, *count, &mut seen)?;
    }
    Ok(seen)
}
