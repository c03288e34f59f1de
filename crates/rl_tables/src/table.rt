use rl_base::{Arm, BoxId, Kind, SegId, Sequence, Side, TrainId};

/// What a box knows: its kind, the side at which it stands at the start, and the segment at each arm,
/// `None` where its kind has no such arm.
#[derive(Clone, Copy, Debug, PartialEq, Eq)]
pub struct BoxTable {
    pub number: BoxId,
    pub kind: Kind,
    pub side: Side,
    pub seg0: Option<SegId>,
    pub seg1: Option<SegId>,
    pub seg2: Option<SegId>,
    pub seg3: Option<SegId>,
}

/// The segment after the next one, to which the step after a step goes.
#[derive(Clone, Copy, Debug, PartialEq, Eq)]
pub struct NextRow {
    pub s3: SegId,
    /// The box of that step, and the arm of `s3` there.
    pub b2: BoxId,
    pub b2_arm: Arm,
    /// The box at the other end of `s3`, and the arm of `s3` there.
    pub c2: BoxId,
    pub c2_arm: Arm,
}

/// A step of a train, from `s` through `b` to `s2`.
#[derive(Clone, Copy, Debug, PartialEq, Eq)]
pub struct StepRow {
    pub s: SegId,
    pub s2: SegId,
    pub b: BoxId,
    /// The arm of `s` at `b`.
    pub x: Arm,
    /// The arm of `s2` at `b`.
    pub y: Arm,
    /// The box at the other end of `s2`, and the arm of `s2` there.
    pub c: BoxId,
    pub c_arm: Arm,
    /// The box at the other end of `s`, and the arm of `s` there.
    pub a: BoxId,
    pub a_arm: Arm,
    /// Where the step looks ahead: there is a step after it, which doesn't lead back to `s`.
    pub next: Option<NextRow>,
}

pub type StepRows = Sequence<StepRow>;

/// What a train knows: the segment on which it starts, and its steps in order.
#[derive(Debug, Drop)]
pub struct TrainTable {
    pub number: TrainId,
    pub first: SegId,
    pub rows: StepRows,
}

pub type BoxTables = Sequence<BoxTable>;

pub type TrainTables = Sequence<TrainTable>;

/// The tables of all boxes and all trains, each at the place of its number.
#[derive(Debug, Drop)]
pub struct Tables {
    pub boxes: BoxTables,
    pub trains: TrainTables,
}
