/// What a train asks of a box.
#[derive(Clone, Copy, Debug, PartialEq, Eq, Hash)]
pub enum Verb {
    /// To reserve the segment at an arm.
    Reserve,
    /// To give that reservation back.
    Release,
    /// To lock the box for a passage from one arm to another.
    Lock,
    /// To give that lock back.
    Unlock,
}

/// What a train has in hand on its way from its segment through a box to the next segment. Where its row looks ahead it
/// reserves the segment after the next one too, before it asks for the lock.
#[derive(Clone, Copy, Debug, PartialEq, Eq, Hash)]
pub enum Job {
    /// Reserves the next segment at its near end, at the box.
    Near,
    /// Reserves the next segment at its far end.
    Far,
    /// Reserves the segment after the next one at its near end, at the box of the next step.
    Near2,
    /// Reserves the segment after the next one at its far end.
    Far2,
    /// Locks the box.
    Lock,
    /// Passes the box.
    Pass,
    /// Unlocks the box.
    Unlock,
    /// Releases the segment that was left, at the box.
    FreeNear,
    /// Releases the segment that was left, at its other end.
    FreeFar,
    /// Was refused the lock: releases the segment after the next one at its far end.
    DropFar2,
    /// Was refused that far end, or has dropped it: releases the segment after the next one at its near end.
    DropNear2,
    /// Was refused the segment after the next one or has dropped it, was refused the lock where the row doesn't look
    /// ahead, or has no attempt left for the next step: releases the next segment at its far end.
    DropFar,
    /// Was refused the far end, or has dropped it: releases the next segment at its near end.
    DropNear,
}
