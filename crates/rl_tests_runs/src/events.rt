use crate::driven::{Seen, line_of, seen_in_rounds};
use crate::networks::STRAIGHT;
use rl_base::{NodeNo, WordNo};
use rl_core::{ReplayFault, replay};
use rl_record::{Event, Events};
use rl_tables::Line;
use std::alloc::Global;
use std::process::Abort;
use std::test::Fail;

/// An event in numbers: its round, its node, its stamp, its word, and the whole old and the whole new word.
type Row = (u32, u32, u32, u32, u64, u64);

/// All that the nodes of the straight line do, six letters of the train and its passage between. Each letter is
/// asked, taken, done at a word of the box, granted and heard: B at J1, B at E, the lock of J1, its unlocking, A at
/// J1, A at W. In rounds with even numbers the boxes that have nothing in hand look at their lock words.
const STRAIGHT_RUN: [Row; 36] = [
    (1, 0, 1, 7, 0, 0x0000_0001_0000_1009),
    (1, 3, 2, 7, 0x0000_0001_0000_1009, 0x0000_0002_0000_100a),
    (2, 3, 3, 2, 0x0000_0000_0000_0001, 0x0000_0003_0000_0041),
    (3, 3, 4, 7, 0x0000_0002_0000_100a, 0x0000_0004_0000_100b),
    (4, 0, 5, 7, 0x0000_0004_0000_100b, 0x0000_0005_0000_0000),
    (5, 0, 6, 7, 0x0000_0005_0000_0000, 0x0000_0006_0000_0011),
    (5, 4, 7, 7, 0x0000_0006_0000_0011, 0x0000_0007_0000_0012),
    (6, 4, 8, 3, 0x0000_0000_0000_0000, 0x0000_0008_0000_0001),
    (7, 4, 9, 7, 0x0000_0007_0000_0012, 0x0000_0009_0000_0013),
    (8, 0, 10, 7, 0x0000_0009_0000_0013, 0x0000_000a_0000_0000),
    (9, 0, 11, 7, 0x0000_000a_0000_0000, 0x0000_000b_0000_4809),
    (9, 3, 12, 7, 0x0000_000b_0000_4809, 0x0000_000c_0000_480a),
    (10, 3, 13, 5, 0x0000_0000_0000_0000, 0x0000_000d_0000_0804),
    (11, 3, 14, 7, 0x0000_000c_0000_480a, 0x0000_000e_0000_480b),
    (12, 0, 15, 7, 0x0000_000e_0000_480b, 0x0000_000f_0000_0000),
    (13, 0, 16, 8, 0x0000_0000_0000_0000, 0x0000_0010_0000_0001),
    (13, 1, 17, 8, 0x0000_0010_0000_0001, 0x0000_0011_0000_0002),
    (14, 1, 18, 9, 0x0000_0000_0000_0000, 0x0000_0012_0000_0001),
    (15, 1, 19, 8, 0x0000_0011_0000_0002, 0x0000_0013_0000_0004),
    (16, 1, 20, 9, 0x0000_0012_0000_0001, 0x0000_0014_0000_0002),
    (17, 0, 21, 9, 0x0000_0014_0000_0002, 0x0000_0015_0000_0004),
    (18, 0, 22, 7, 0x0000_000f_0000_0000, 0x0000_0016_0000_4c09),
    (19, 3, 23, 7, 0x0000_0016_0000_4c09, 0x0000_0017_0000_4c0a),
    (20, 3, 24, 5, 0x0000_000d_0000_0804, 0x0000_0018_0000_0000),
    (21, 3, 25, 7, 0x0000_0017_0000_4c0a, 0x0000_0019_0000_4c0b),
    (22, 0, 26, 7, 0x0000_0019_0000_4c0b, 0x0000_001a_0000_0000),
    (23, 0, 27, 7, 0x0000_001a_0000_0000, 0x0000_001b_0000_0409),
    (23, 3, 28, 7, 0x0000_001b_0000_0409, 0x0000_001c_0000_040a),
    (24, 3, 29, 2, 0x0000_0003_0000_0041, 0x0000_001d_0000_0040),
    (25, 3, 30, 7, 0x0000_001c_0000_040a, 0x0000_001e_0000_040b),
    (26, 0, 31, 7, 0x0000_001e_0000_040b, 0x0000_001f_0000_0000),
    (27, 0, 32, 7, 0x0000_001f_0000_0000, 0x0000_0020_0000_0401),
    (27, 2, 33, 7, 0x0000_0020_0000_0401, 0x0000_0021_0000_0402),
    (28, 2, 34, 1, 0x0000_0000_0000_0001, 0x0000_0022_0000_0000),
    (29, 2, 35, 7, 0x0000_0021_0000_0402, 0x0000_0023_0000_0403),
    (30, 0, 36, 7, 0x0000_0023_0000_0403, 0x0000_0024_0000_0000),
];

/// What was seen, in numbers.
fn rows_of(alloc: Global, seen: &[Seen]) -> Result<Vec<Row>, Fail> {
    let mut rows = Vec::new(alloc);
    for (round, e) in seen {
        rows.push((*round, e.node.0, e.stamp, e.word.0, e.was, e.now))?;
    }
    Ok(rows)
}

/// The events of so many rounds of the network from the start, in numbers.
fn rows_in_rounds(
    rt: &impl Abort,
    alloc: Global,
    text: &str,
    rounds: u32,
) -> Result<Vec<Row>, Fail> {
    let line = line_of(alloc, text)?;
    let seen = seen_in_rounds(rt, alloc, &line, 100, rounds)?;
    rows_of(alloc, seen.as_slice())
}

/// The events with these numbers.
fn events_of(alloc: Global, rows: &[Row]) -> Result<Events, Fail> {
    let mut events = Vec::new(alloc);
    for (_, node, stamp, word, was, now) in rows {
        events.push(Event {
            node: NodeNo(*node),
            stamp: *stamp,
            word: WordNo(*word),
            was: *was,
            now: *now,
        })?;
    }
    Ok(Events::from_vec(events))
}

/// The fault of a replay of the events, if it has one.
fn fault_of(alloc: Global, line: &Line, events: &Events) -> Option<ReplayFault> {
    if events.len() > 1_000_000 {
        return Some(ReplayFault::NoMemory);
    }
    match replay(alloc, line, 100, events) {
        Ok(_) => None,
        Err(fault) => Some(fault),
    }
}

/// The fault of a replay of these rows on the network.
fn fault_of_rows(alloc: Global, text: &str, rows: &[Row]) -> Result<Option<ReplayFault>, Fail> {
    let line = line_of(alloc, text)?;
    let events = events_of(alloc, rows)?;
    Ok(fault_of(alloc, &line, &events))
}

#[test]
fn makes_the_first_four_events(rt: HostRuntime) -> Result<(), Fail> {
    let rows = rows_in_rounds(&rt, rt.alloc(), STRAIGHT, 3)?;
    assert_eq!(rt; rows.as_slice(), &STRAIGHT_RUN[..4]);
    Ok(())
}

#[test]
fn makes_the_whole_run(rt: HostRuntime) -> Result<(), Fail> {
    let rows = rows_in_rounds(&rt, rt.alloc(), STRAIGHT, 200)?;
    assert_eq!(rt; rows.as_slice(), STRAIGHT_RUN.as_slice());
    Ok(())
}

#[test]
fn replays_the_first_four_events(rt: HostRuntime) -> Result<(), Fail> {
    let fault = fault_of_rows(rt.alloc(), STRAIGHT, &STRAIGHT_RUN[..4])?;
    assert_eq!(rt; fault, None);
    Ok(())
}

#[test]
fn replays_the_whole_run(rt: HostRuntime) -> Result<(), Fail> {
    let fault = fault_of_rows(rt.alloc(), STRAIGHT, STRAIGHT_RUN.as_slice())?;
    assert_eq!(rt; fault, None);
    Ok(())
}

/// With the second and the third event exchanged the second one isn't the step of its node there: the box would
/// reserve with no letter in hand.
#[test]
fn finds_exchanged_events(rt: HostRuntime) -> Result<(), Fail> {
    let [first, second, third, fourth, ..] = STRAIGHT_RUN;
    let fault = fault_of_rows(rt.alloc(), STRAIGHT, &[first, third, second, fourth])?;
    assert_eq!(rt; fault, Some(ReplayFault::At(1)));
    Ok(())
}
