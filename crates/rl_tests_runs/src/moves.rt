use crate::driven::{Seen, line_of, seen_in_rounds, seen_in_turns};
use crate::networks::{CROSSING, FORK, OCCUPIED, STRAIGHT};
use rl_base::{BoxId, SegId, Side, TrainId};
use rl_core::move_of;
use rl_model::Move;
use rl_tables::Line;
use std::alloc::Global;
use std::process::Abort;
use std::test::Fail;

/// A move, with the stamp of its event.
type Stamped = (u32, Move);

const T1: TrainId = TrainId(0);

const T2: TrainId = TrainId(1);

// The straight line, and the one that is occupied.
const A: SegId = SegId(0);

const B: SegId = SegId(1);

const W: BoxId = BoxId(0);

const J1: BoxId = BoxId(1);

const E: BoxId = BoxId(2);

// The fork, of which W is a box too.
const S: SegId = SegId(0);

const R: SegId = SegId(2);

const P: BoxId = BoxId(1);

const ER: BoxId = BoxId(3);

// The crossing, of which A and B are segments too.
const D: SegId = SegId(3);

const X: BoxId = BoxId(0);

const EB: BoxId = BoxId(2);

const ED: BoxId = BoxId(4);

/// The train goes from A to B.
const STRAIGHT_MOVES: [Stamped; 8] = [
    (3, Move::Reserve { t: T1, s: B, b: J1 }),
    (8, Move::Reserve { t: T1, s: B, b: E }),
    (
        13,
        Move::Lock {
            t: T1,
            b: J1,
            s: A,
            s2: B,
        },
    ),
    (
        17,
        Move::Enter {
            t: T1,
            b: J1,
            s: A,
            s2: B,
        },
    ),
    (19, Move::Leave { t: T1, s: A }),
    (24, Move::Unlock { t: T1, b: J1 }),
    (29, Move::Release { t: T1, s: A, b: J1 }),
    (34, Move::Release { t: T1, s: A, b: W }),
];

/// T1 asks twice for B, which T2 holds.
const OCCUPIED_MOVES: [Stamped; 2] = [
    (
        4,
        Move::Refuse {
            t: T1,
            s: B,
            b: J1,
            u: T2,
        },
    ),
    (
        9,
        Move::Refuse {
            t: T1,
            s: B,
            b: J1,
            u: T2,
        },
    ),
];

/// The train goes from S to R, over points that stand at left.
const FORK_MOVES: [Stamped; 10] = [
    (3, Move::Reserve { t: T1, s: R, b: P }),
    (8, Move::Reserve { t: T1, s: R, b: ER }),
    (
        13,
        Move::Lock {
            t: T1,
            b: P,
            s: S,
            s2: R,
        },
    ),
    (14, Move::Throw { b: P }),
    (
        15,
        Move::Settle {
            b: P,
            side: Side::Right,
        },
    ),
    (
        20,
        Move::Enter {
            t: T1,
            b: P,
            s: S,
            s2: R,
        },
    ),
    (22, Move::Leave { t: T1, s: S }),
    (27, Move::Unlock { t: T1, b: P }),
    (32, Move::Release { t: T1, s: S, b: P }),
    (37, Move::Release { t: T1, s: S, b: W }),
];

/// Turns on the crossing: train T1, the boxes X and EB, the track of T1; then train T2, and the boxes X and ED.
const BARRED: [(u32, u32); 14] = [
    (0, 1),
    (4, 5),
    (0, 2),
    (6, 5),
    (0, 2),
    (4, 5),
    (0, 2),
    (2, 1),
    (1, 1),
    (4, 5),
    (1, 2),
    (8, 5),
    (1, 2),
    (4, 5),
];

/// T1 is across when T2 asks for the crossing.
const BARRED_MOVES: [Stamped; 7] = [
    (3, Move::Reserve { t: T1, s: B, b: X }),
    (8, Move::Reserve { t: T1, s: B, b: EB }),
    (
        13,
        Move::Lock {
            t: T1,
            b: X,
            s: A,
            s2: B,
        },
    ),
    (
        17,
        Move::Enter {
            t: T1,
            b: X,
            s: A,
            s2: B,
        },
    ),
    (16, Move::Reserve { t: T2, s: D, b: X }),
    (21, Move::Reserve { t: T2, s: D, b: ED }),
    (27, Move::Bar { t: T2, b: X, u: T1 }),
];

/// The moves of what was seen.
fn moves_of(alloc: Global, line: &Line, seen: &[Seen]) -> Result<Vec<Stamped>, Fail> {
    let mut moves = Vec::new(alloc);
    for (_, e) in seen {
        if e.word.0 >= line.layout().words() {
            return Err(Fail::from("no such word"));
        }
        if let Some(m) = move_of(line, e) {
            moves.push((e.stamp, m))?;
        }
    }
    Ok(moves)
}

/// The moves of so many rounds of the network from the start.
fn moves_in_rounds(
    rt: &impl Abort,
    alloc: Global,
    text: &str,
    tries: u32,
    rounds: u32,
) -> Result<Vec<Stamped>, Fail> {
    let line = line_of(alloc, text)?;
    let seen = seen_in_rounds(rt, alloc, &line, tries, rounds)?;
    moves_of(alloc, &line, seen.as_slice())
}

/// The moves of these turns of the network from the start.
fn moves_in_turns(
    rt: &impl Abort,
    alloc: Global,
    text: &str,
    turns: &[(u32, u32)],
) -> Result<Vec<Stamped>, Fail> {
    let line = line_of(alloc, text)?;
    let seen = seen_in_turns(rt, alloc, &line, turns)?;
    moves_of(alloc, &line, seen.as_slice())
}

/// Of the first four events of the straight line the third alone is a move.
#[test]
fn reserves_in_three_rounds(rt: HostRuntime) -> Result<(), Fail> {
    let moves = moves_in_rounds(&rt, rt.alloc(), STRAIGHT, 100, 3)?;
    assert_eq!(rt; moves.as_slice(), &STRAIGHT_MOVES[..1]);
    Ok(())
}

#[test]
fn goes_straight(rt: HostRuntime) -> Result<(), Fail> {
    let moves = moves_in_rounds(&rt, rt.alloc(), STRAIGHT, 100, 200)?;
    assert_eq!(rt; moves.as_slice(), STRAIGHT_MOVES.as_slice());
    Ok(())
}

#[test]
fn refuses_twice(rt: HostRuntime) -> Result<(), Fail> {
    let moves = moves_in_rounds(&rt, rt.alloc(), OCCUPIED, 2, 200)?;
    assert_eq!(rt; moves.as_slice(), OCCUPIED_MOVES.as_slice());
    Ok(())
}

#[test]
fn throws_points(rt: HostRuntime) -> Result<(), Fail> {
    let moves = moves_in_rounds(&rt, rt.alloc(), FORK, 100, 300)?;
    assert_eq!(rt; moves.as_slice(), FORK_MOVES.as_slice());
    Ok(())
}

#[test]
fn bars_a_crossing(rt: HostRuntime) -> Result<(), Fail> {
    let moves = moves_in_turns(&rt, rt.alloc(), CROSSING, BARRED.as_slice())?;
    assert_eq!(rt; moves.as_slice(), BARRED_MOVES.as_slice());
    Ok(())
}
