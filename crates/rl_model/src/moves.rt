use rl_base::{BoxId, SegId, Sequence, Side, TrainId};

/// One event of the world. Refuse and Bar change nothing. `t` is the train that moves or asks, and `u` one that is in
/// its way.
#[derive(Clone, Copy, Debug, PartialEq, Eq)]
pub enum Move {
    /// The train reserves the segment at the box.
    Reserve {
        t: TrainId,
        s: SegId,
        b: BoxId,
    },
    /// The train gives that reservation back.
    Release {
        t: TrainId,
        s: SegId,
        b: BoxId,
    },
    /// The train gets the lock of the box, for a passage from one segment to another.
    Lock {
        t: TrainId,
        b: BoxId,
        s: SegId,
        s2: SegId,
    },
    /// The train gives the lock back.
    Unlock {
        t: TrainId,
        b: BoxId,
    },
    /// The points of the box begin to move.
    Throw {
        b: BoxId,
    },
    /// The points of the box come to stand at the side.
    Settle {
        b: BoxId,
        side: Side,
    },
    /// The head of the train enters the next segment, and the train stands across the box.
    Enter {
        t: TrainId,
        b: BoxId,
        s: SegId,
        s2: SegId,
    },
    /// The tail of the train leaves the segment behind it.
    Leave {
        t: TrainId,
        s: SegId,
    },
    /// The box refuses the train the segment, which `u` holds there.
    Refuse {
        t: TrainId,
        s: SegId,
        b: BoxId,
        u: TrainId,
    },
    /// The box refuses the train the lock, which is `u`'s.
    Bar {
        t: TrainId,
        b: BoxId,
        u: TrainId,
    },
}

pub type Moves = Sequence<Move>;

/// How the points of a box stand. Points that move connect nothing.
#[derive(Clone, Copy, Debug, PartialEq, Eq)]
pub enum Points {
    Left,
    Right,
    Moving,
}
