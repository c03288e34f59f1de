//! The steps of a train, payload by payload.
ghost use Rattle.std.specs.Prelude.{◌≡◌, ◌∷◌, [], IfOk};
ghost use Rattle.rl_train.specs.Mind.{IsUsable};

use rl_base::{Arm, BoxId, Job, NoMemory, SegId, TrainId};
use rl_tables::{StepRow, StepRows, TrainTable};
use rl_train::TrainMind;
use std::alloc::Global;
use std::test::Fail;

// From segment 0 through box 1 to segment 1, whose other end is at box 2; that of segment 0 is at box 0.
const ROW: StepRow = StepRow {
    s: SegId(0),
    s2: SegId(1),
    b: BoxId(1),
    x: Arm(0),
    y: Arm(1),
    c: BoxId(2),
    c_arm: Arm(0),
    a: BoxId(0),
    a_arm: Arm(0),
    next: None,
};

fn one_step(alloc: Global) -> Result<TrainTable, NoMemory>
    ensures { IfOk result IsUsable }
{
    let mut rows = StepRows::new(alloc);
    rows.push(ROW)?;
    Ok(TrainTable {
        number: TrainId(0),
        first: SegId(0),
        rows,
    })
}

/// What the train sees on its target, and what it writes there, if anything. In a mail word the tag is 1 ask, 2 taken,
/// 3 yes and 4 no, a box is 8 times its number, the verbs are 0, 1024, 2048 and 3072, an arm `x` is 4096 and an arm `y`
/// 16384 times its number, and a holder 65536 times its. Tags of a run word are 0 clear and 1 go, those of a sense word
/// 0 quiet, 1 head and 2 tail; a step is four times its number.
const STEPS: [(u32, Option<u32>); 53] = [
    // Refused the near end: it asks again.
    (4106, None),
    (0, Some(4105)),
    (0, None),
    (4105, None),
    (4106, None),
    (19, None),
    (69644, Some(0)),
    // Refused the far end: it drops the near one.
    (0, Some(4105)),
    (4107, Some(0)),
    (0, Some(17)),
    (4107, None),
    (65556, Some(0)),
    (0, Some(5129)),
    (5131, Some(0)),
    // Refused the lock: it drops the far end and the near one.
    (0, Some(4105)),
    (4107, Some(0)),
    (0, Some(17)),
    (19, Some(0)),
    (0, Some(18441)),
    (83980, Some(0)),
    (0, Some(1041)),
    (1044, None),
    (1043, Some(0)),
    (0, Some(5129)),
    (5131, Some(0)),
    // Given all that it asks for, it goes when its run word is clear at its step.
    (0, Some(4105)),
    (4107, Some(0)),
    (0, Some(17)),
    (19, Some(0)),
    (0, Some(18441)),
    (18443, Some(0)),
    (4, None),
    (1, None),
    (0, Some(1)),
    // It waits for the report of its tail at its step.
    (0, None),
    (1, None),
    (6, None),
    (2, Some(4)),
    // It unlocks the box, and releases the segment that it left at both its ends.
    (0, Some(19465)),
    (19466, None),
    (19467, Some(0)),
    (0, Some(1033)),
    (1035, Some(0)),
    (0, Some(1025)),
    (1028, None),
    (1027, Some(0)),
    // It has arrived.
    (0, None),
    (4105, None),
    (4107, None),
    (4108, None),
    (4, None),
    (19, None),
    (1, None),
];

#[test]
fn makes_a_step(rt: HostRuntime) -> Result<(), Fail> {
    let table = one_step(rt.alloc())?;
    let mut mind = TrainMind::start(4);
    for (payload, want) in STEPS {
        let found = mind.act(&table, payload);
        assert_eq!(rt; found.map(|f| f.0), want, "{payload} in {mind:?}");
        if let Some((_, after)) = found {
            mind = after;
        }
    }
    assert!(rt; mind.at_rest(&table));
    assert_eq!(rt;
        mind,
        TrainMind {
            step: 1,
            job: Job::Near,
            waits: false,
            left: 0,
            refused: 3,
        }
    );
    Ok(())
}
