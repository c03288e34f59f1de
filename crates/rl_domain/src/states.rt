ghost use Rattle.std.specs.Prelude.{◌≡◌};
ghost use Rattle.rl_domain.specs.States.{holder_at, with_holder, is_train, is_lock, is_lock_of, stands_on, is_across, comes_from, is_on_one_segment, is_across_one_box, meets};

use rl_base::{Arm, BoxId, SegId, TrainId};
use rl_model::Points;

/// The lock of a box: train `t` may pass from segment `s` to segment `s2`.
#[derive(Clone, Copy, Debug, PartialEq, Eq)]
pub struct PathLock {
    pub t: TrainId,
    pub s: SegId,
    pub s2: SegId,
}

/// What a box has: its points, its lock, and the holders of the segments at its arms 0 to 3.
#[derive(Clone, Copy, Debug, PartialEq, Eq)]
pub struct BoxState {
    pub points: Points,
    pub lock: Option<PathLock>,
    pub hold0: Option<TrainId>,
    pub hold1: Option<TrainId>,
    pub hold2: Option<TrainId>,
    pub hold3: Option<TrainId>,
}

impl BoxState {
    /// Who holds the segment at the arm.
    pub(crate) fn holder(&self, x: Arm) -> Option<TrainId>
        ensures { result ≡ holder_at self.now x.0 }
    {
        match x.0 {
            0 => self.hold0,
            1 => self.hold1,
            2 => self.hold2,
            3 => self.hold3,
            _ => None,
        }
    }

    /// The state with another holder of the segment at the arm.
    pub(crate) fn with_holder(self, x: Arm, holder: Option<TrainId>) -> BoxState
        ensures { result ≡ with_holder self x.0 holder }
    {
        let mut state = self;
        match x.0 {
            0 => state.hold0 = holder,
            1 => state.hold1 = holder,
            2 => state.hold2 = holder,
            3 => state.hold3 = holder,
            _ => {}
        }
        state
    }
}

/// Where a train across a box goes: the box, and the segment that its head has entered.
#[derive(Clone, Copy, Debug, PartialEq, Eq)]
pub struct Passage {
    pub b: BoxId,
    pub to: SegId,
}

/// How a train stands: the steps that it has made, the segment that its tail is on, and its passage where
/// it is across a box.
#[derive(Clone, Copy, Debug, PartialEq, Eq)]
pub struct Standing {
    pub made: u32,
    pub on: SegId,
    pub across: Option<Passage>,
}

impl Standing {
    /// Whether its tail or its head is on the segment.
    pub(crate) fn is_on(&self, s: SegId) -> bool
        ensures { result ≡ stands_on s.0 self.now }
    {
        s == self.on || self.across.is_some_and(|p| s == p.to)
    }

    /// Whether it is across the box.
    pub(crate) fn is_across(&self, b: BoxId) -> bool
        ensures { result ≡ is_across b.0 self.now }
    {
        self.across.is_some_and(|p| b == p.b)
    }

    /// Whether it is across a box, and comes from the segment.
    pub(crate) fn comes_from(&self, s: SegId) -> bool
        ensures { result ≡ comes_from s.0 self.now }
    {
        s == self.on && self.across.is_some()
    }

    fn is_on_one_segment(&self, other: &Standing) -> bool
        ensures { result ≡ is_on_one_segment self.now other.now }
    {
        self.is_on(other.on) || other.across.is_some_and(|p| self.is_on(p.to))
    }

    fn is_across_one_box(&self, other: &Standing) -> bool
        ensures { result ≡ is_across_one_box self.now other.now }
    {
        other.across.is_some_and(|p| self.is_across(p.b))
    }

    /// Whether two trains that stand so are on one segment, or across one box.
    pub(crate) fn meets(&self, other: &Standing) -> bool
        ensures { result ≡ meets self.now other.now }
    {
        self.is_on_one_segment(other) || self.is_across_one_box(other)
    }
}

/// Whether the lock is the train's.
pub(crate) fn is_lock_of(t: TrainId, lock: Option<PathLock>) -> bool
    ensures { result ≡ is_lock_of t.0 lock }
{
    lock.is_some_and(|l| t == l.t)
}

/// Whether the holder is the train.
pub(crate) fn is_train(t: TrainId, holder: Option<TrainId>) -> bool
    ensures { result ≡ is_train t.0 holder }
{
    holder.is_some_and(|u| t == u)
}

/// Whether the lock is the train's, from one segment to the other.
pub(crate) fn is_lock(t: TrainId, s: SegId, s2: SegId, lock: Option<PathLock>) -> bool
    ensures { result ≡ is_lock t.0 s.0 s2.0 lock }
{
    lock.is_some_and(|l| t == l.t && s == l.s && s2 == l.s2)
}
