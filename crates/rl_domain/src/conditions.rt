ghost use Rattle.std.specs.Prelude.{◌≡◌, ℕ, ◌<◌, ◌↔◌, ◌≢◌, IsTrue, false, true, length};
ghost use Rattle.rl_base.specs.declared.limits.TheConstants.{MAX_STEPS};
ghost use Rattle.rl_model.specs.Network.{has_end, can_connect, connects, steps_of, IsStep, IsTrainOf, IsSegmentOf, IsBoxOf};
ghost use Rattle.rl_model.specs.World.{points_connect};
ghost use Rattle.rl_model.specs.Moves.{IsFree, EachLockedPath, holds_ends};
ghost use Rattle.rl_domain.specs.Rows.{world_of, holder_of, lock_of, locked_of, occupies_of, across_of, points_of, Fits};

use crate::states::{PathLock, is_lock, is_lock_of, is_train};
use crate::world::World;
use rl_base::{BoxId, SegId, Side, TrainId};
use rl_model::Points;
use rl_net::Network;

/// Whether the segment has an end at the box.
pub(crate) fn has_end(net: &Network, s: SegId, b: BoxId) -> bool
    requires there { IsSegmentOf net.now s × IsBoxOf net.now b }
    ensures { result ≡ has_end net.now s.0 b.0 }
{
    net.arm_of(b, s).is_some()
}

/// Whether some side of the box connects the segments.
pub(crate) fn can_connect(net: &Network, b: BoxId, s: SegId, s2: SegId) -> bool
    requires there { IsBoxOf net.now b × IsSegmentOf net.now s × IsSegmentOf net.now s2 }
    ensures { result ≡ can_connect net.now b.0 s.0 s2.0 }
{
    net.connects(b, s, s2, Side::Left) || net.connects(b, s, s2, Side::Right)
}

/// Whether points that stand so connect the segments at the box.
pub(crate) fn points_connect(net: &Network, b: BoxId, s: SegId, s2: SegId, points: Points) -> bool
    requires there { IsBoxOf net.now b × IsSegmentOf net.now s × IsSegmentOf net.now s2 }
    ensures { result ≡ points_connect net.now b.0 s.0 s2.0 points }
{
    match points {
        Points::Left => net.connects(b, s, s2, Side::Left),
        Points::Right => net.connects(b, s, s2, Side::Right),
        Points::Moving => false,
    }
}

/// Whether step `k` of the train's route is from `s` through the box to `s2`.
fn is_step(net: &Network, t: TrainId, k: u32, b: BoxId, s: SegId, s2: SegId) -> bool
    requires there { IsTrainOf net.now t }
    requires step { k < steps_of net.now t.0 }
    requires few { k < MAX_STEPS }
    ensures { IsTrue result ↔ IsStep net.now t.0 k s.0 b.0 s2.0 }
{
    let from = net.route_seg(t, k);
    let through = net.route_box(t, k);
    let to = net.route_seg(t, k + 1);
    from == s && through == b && to == s2
}

impl World {
    /// Who holds the segment at the box.
    pub(crate) fn holder(&self, net: &Network, s: SegId, b: BoxId) -> Option<TrainId>
        requires fits { Fits net.now self.now }
        requires there { IsSegmentOf net.now s × IsBoxOf net.now b }
        ensures { result ≡ holder_of net.now self.now s.0 b.0 }
    {
        match net.arm_of(b, s) {
            Some(x) => self.state(b).holder(x),
            None => None,
        }
    }

    pub(crate) fn lock(&self, b: BoxId) -> Option<PathLock>
        requires { b.0 < length self.now.boxes }
        ensures { result ≡ lock_of self.now b.0 }
    {
        self.state(b).lock
    }

    /// How the points of the box stand.
    pub fn points(&self, b: BoxId) -> Points
        requires { b.0 < length self.now.boxes }
        ensures { result ≡ points_of self.now b.0 }
    {
        self.state(b).points
    }

    /// Whether nobody holds the segment at the box.
    pub(crate) fn is_free(&self, net: &Network, s: SegId, b: BoxId) -> bool
        requires fits { Fits net.now self.now }
        requires there { IsSegmentOf net.now s × IsBoxOf net.now b }
        ensures { IsTrue result ↔ IsFree (world_of net.now self.now) s.0 b.0 }
    {
        self.holder(net, s, b).is_none()
    }

    pub(crate) fn holds(&self, net: &Network, t: TrainId, s: SegId, b: BoxId) -> bool
        requires fits { Fits net.now self.now }
        requires there { IsSegmentOf net.now s × IsBoxOf net.now b }
        ensures { result ≡ (world_of net.now self.now).holds t.0 s.0 b.0 }
    {
        is_train(t, self.holder(net, s, b))
    }

    /// Whether the train holds the segment at both its ends.
    pub(crate) fn holds_ends(&self, net: &Network, t: TrainId, s: SegId) -> bool
        requires fits { Fits net.now self.now }
        requires there { IsSegmentOf net.now s }
        ensures { result ≡ holds_ends (world_of net.now self.now) net.now t.0 s.0 }
    {
        // What acceptance gave, for the proof.
        net.accepted();
        let ((low, _), (high, _)) = net.ends(s);
        self.holds(net, t, s, low) && self.holds(net, t, s, high)
    }

    pub(crate) fn occupies(&self, t: TrainId, s: SegId) -> bool
        requires { t.0 < length self.now.trains }
        ensures { result ≡ occupies_of self.now t.0 s.0 }
    {
        self.standing(t).is_on(s)
    }

    /// Whether the train doesn't occupy the segment.
    pub(crate) fn is_away(&self, t: TrainId, s: SegId) -> bool
        requires { t.0 < length self.now.trains }
        ensures { IsTrue result ↔ (occupies_of self.now t.0 s.0 ≡ false) }
    {
        !self.occupies(t, s)
    }

    pub(crate) fn is_unlocked(&self, b: BoxId) -> bool
        requires { b.0 < length self.now.boxes }
        ensures { IsTrue result ↔ ((u from to : ℕ) → locked_of self.now b.0 u from to ≡ false) }
    {
        self.lock(b).is_none()
    }

    pub(crate) fn has_lock(&self, b: BoxId) -> bool
        requires { b.0 < length self.now.boxes }
        ensures { IsTrue result
            ↔ ((u : ℕ) × (from : ℕ) × (to : ℕ) × IsTrue (locked_of self.now b.0 u from to)) }
    {
        self.lock(b).is_some()
    }

    pub(crate) fn has_lock_of(&self, b: BoxId, t: TrainId) -> bool
        requires { b.0 < length self.now.boxes }
        ensures { IsTrue result
            ↔ ((from : ℕ) × (to : ℕ) × IsTrue (locked_of self.now b.0 t.0 from to)) }
    {
        is_lock_of(t, self.lock(b))
    }

    /// Whether the lock of the box is the train's, from one segment to the other.
    pub(crate) fn has_path(&self, b: BoxId, t: TrainId, s: SegId, s2: SegId) -> bool
        requires { b.0 < length self.now.boxes }
        ensures { result ≡ locked_of self.now b.0 t.0 s.0 s2.0 }
    {
        is_lock(t, s, s2, self.lock(b))
    }

    pub(crate) fn is_off(&self, t: TrainId, b: BoxId) -> bool
        requires { t.0 < length self.now.trains }
        ensures { IsTrue result ↔ ((from to : ℕ) → across_of self.now t.0 b.0 from to ≡ false) }
    {
        !self.standing(t).is_across(b)
    }

    /// Whether the train is across no box.
    pub(crate) fn is_off_all(&self, t: TrainId) -> bool
        requires { t.0 < length self.now.trains }
        ensures { IsTrue result ↔ ((b from to : ℕ) → across_of self.now t.0 b from to ≡ false) }
    {
        self.standing(t).across.is_none()
    }

    /// Whether the train is across a box, and comes from the segment.
    pub(crate) fn comes_from(&self, t: TrainId, s: SegId) -> bool
        requires { t.0 < length self.now.trains }
        ensures { IsTrue result
            ↔ ((b : ℕ) × (to : ℕ) × IsTrue (across_of self.now t.0 b s.0 to)) }
    {
        self.standing(t).comes_from(s)
    }

    /// Whether the points don't connect the path for which the box is locked.
    pub(crate) fn points_bar_lock(&self, net: &Network, b: BoxId) -> bool
        requires fits { Fits net.now self.now }
        requires there { IsBoxOf net.now b }
        ensures { let w = world_of net.now self.now in
            IsTrue result
            ↔ EachLockedPath w b.0 (λ from to. points_connect net.now b.0 from to (w.points b.0)) false }
    {
        match self.lock(b) {
            Some(l) => !points_connect(net, b, l.s, l.s2, self.points(b)),
            None => true,
        }
    }

    /// Whether the side connects the path for which the box is locked.
    pub(crate) fn side_fits_lock(&self, net: &Network, b: BoxId, side: Side) -> bool
        requires fits { Fits net.now self.now }
        requires there { IsBoxOf net.now b }
        ensures { let w = world_of net.now self.now in
            IsTrue result ↔ EachLockedPath w b.0 (λ from to. connects net.now b.0 from to side) true }
    {
        match self.lock(b) {
            Some(l) => net.connects(b, l.s, l.s2, side),
            None => true,
        }
    }

    /// Whether the next step of the train's route is from `s` through the box to `s2`.
    pub(crate) fn is_next_step(
        &self,
        net: &Network,
        t: TrainId,
        b: BoxId,
        s: SegId,
        s2: SegId,
    ) -> bool
        requires fits { Fits net.now self.now }
        requires there { IsTrainOf net.now t }
        ensures { let made = (world_of net.now self.now).made t.0 in
            IsTrue result ↔ ((made < steps_of net.now t.0) × IsStep net.now t.0 made s.0 b.0 s2.0) }
    {
        let k = self.made(t);
        k < net.steps(t) && is_step(net, t, k, b, s, s2)
    }
}
