//! The steps of a box, word by word.
use rl_base::{BoxId, Kind, Layout, SegId, Side, WordNo};
use rl_box::BoxMind;
use rl_tables::BoxTable;

// The reservations of box 1 are word 2, its lock is word 5, and the mail words of trains 0 and 1 are 7 and 8.
const LAYOUT: Layout = Layout {
    boxes: 3,
    trains: 2,
};

const POINT: BoxTable = BoxTable {
    number: BoxId(1),
    kind: Kind::Point,
    side: Side::Left,
    seg0: Some(SegId(0)),
    seg1: Some(SegId(1)),
    seg2: Some(SegId(2)),
    seg3: None,
};

/// A word at which the box looks, what it says, and what the box writes there, if anything. In a mail word the tag is
/// 1 ask, 2 taken, 3 yes and 4 no, box 1 is 8, the verbs are 0, 1024, 2048 and 3072, an arm `x` is 4096 and an arm `y`
/// 16384 times its number, and a holder 65536 times its. In a lock word the tag is 1 asked, 2 moving, 3 moved and 4
/// locked, a train is 16, an arm `x` 512 and an arm `y` 2048 times its number, and free at right is 8. In a
/// reservation word arm 1 is 64 times one more than the number of its train.
const STEPS: [(u32, u32, Option<u32>); 48] = [
    // It takes a letter to it about an arm that it has.
    (7, 0, None),
    (7, 17, None),
    (7, 12297, None),
    (9, 4105, None),
    (7, 4105, Some(4106)),
    // It reserves the arm for train 0, where it is free.
    (5, 0, None),
    (2, 64, None),
    (2, 0, Some(64)),
    // It says yes to train 0.
    (8, 4106, None),
    (7, 4107, None),
    (7, 4106, Some(4107)),
    // It refuses the arm to train 1, since train 0 holds it.
    (8, 4105, Some(4106)),
    (2, 128, None),
    (2, 64, Some(64)),
    (8, 4105, None),
    (8, 4106, Some(4108)),
    // It releases the arm for train 0, which holds it.
    (7, 5129, Some(5130)),
    (2, 0, None),
    (2, 128, None),
    (2, 64, Some(0)),
    (7, 5130, Some(5131)),
    // It locks the passage from arm 0 to arm 1, which it connects at left.
    (7, 18441, Some(18442)),
    (5, 4113, None),
    (5, 2052, None),
    (5, 0, Some(2052)),
    (7, 18442, Some(18443)),
    // It is busy, and bars train 1, since train 0 has the lock.
    (8, 34825, Some(34826)),
    (5, 4116, None),
    (5, 2052, Some(2052)),
    (8, 18442, None),
    (8, 34826, Some(34828)),
    // It unlocks the passage for train 0, which has it.
    (7, 19465, Some(19466)),
    (5, 2068, None),
    (5, 2052, Some(0)),
    (7, 19466, Some(19467)),
    // It asks for its points, since it connects arm 0 with arm 2 at right, and waits until they have moved.
    (5, 4115, None),
    (8, 34825, Some(34826)),
    (5, 0, Some(4113)),
    (5, 4113, None),
    (5, 4114, None),
    (5, 4115, Some(4116)),
    (8, 34826, Some(34827)),
    // It stands at right after that.
    (8, 35849, Some(35850)),
    (5, 4116, Some(8)),
    (8, 35850, Some(35851)),
    (7, 18441, Some(18442)),
    (5, 2048, None),
    (5, 8, Some(2049)),
];

#[test]
fn serves_two_trains(rt: HostRuntime) {
    let mut mind = BoxMind::start();
    for (w, payload, want) in STEPS {
        assert!(rt; w < 13);
        let found = mind.act(&LAYOUT, &POINT, WordNo(w), payload);
        assert_eq!(rt;
            found.map(|f| f.0),
            want,
            "word {w} at {payload} in {mind:?}"
        );
        if let Some((_, after)) = found {
            mind = after;
        }
    }
}
