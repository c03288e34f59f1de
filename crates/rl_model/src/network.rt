use rl_base::{Arm, BoxId, Kind, Name, SegId, Sequence, Side};

pub type SegIds = Sequence<SegId>;

pub type BoxIds = Sequence<BoxId>;

pub type Segments = Sequence<Segment>;

pub type SwitchBoxes = Sequence<SwitchBox>;

pub type Trains = Sequence<Train>;

/// Where a segment ends: an arm of a box.
#[derive(Clone, Copy, Debug, PartialEq, Eq)]
pub struct SegmentEnd {
    pub at: BoxId,
    pub arm: Arm,
}

/// A segment of track and its two ends, that at the box with the lower number first.
#[derive(Debug, Drop)]
pub struct Segment {
    pub name: Name,
    pub low: SegmentEnd,
    pub high: SegmentEnd,
}

/// A switch box: the side at which it stands at the start, and the segment at each arm, arm 0 first.
#[derive(Debug, Drop)]
pub struct SwitchBox {
    pub name: Name,
    pub kind: Kind,
    pub side: Side,
    pub arms: SegIds,
}

/// A train and its route: step `k` goes from segment `k` through box `k` to segment `k + 1`.
#[derive(Debug, Drop)]
pub struct Train {
    pub name: Name,
    pub segments: SegIds,
    pub boxes: BoxIds,
}

/// A railway network as a value. Segments, boxes and trains are numbered by their places.
#[derive(Debug, Drop)]
pub struct NetworkPlan {
    pub segments: Segments,
    pub boxes: SwitchBoxes,
    pub trains: Trains,
}
