ghost use Rattle.std.specs.Prelude.{◌≡◌, ℕ, false, option_map, IfNone, IfSome, IsTrue};
ghost use Rattle.rl_model.specs.Moves.{IsFree, IsUnlocked, HasLockOf};
ghost use Rattle.rl_domain.specs.Rows.{world_of, Fits};
ghost use Rattle.rl_model.specs.Network.{IsTrainOf, IsSegmentOf, IsBoxOf};

use crate::states::PathLock;
use crate::world::World;
use rl_base::{BoxId, SegId, TrainId};
use rl_net::Network;

fn train_of(lock: Option<PathLock>) -> Option<TrainId>
    ensures { result ≡ option_map (λ l. l.t) lock }
{
    match lock {
        Some(lock) => Some(lock.t),
        None => None,
    }
}

impl World {
    /// The train that holds the segment at the box.
    pub fn reserved_by(&self, net: &Network, s: SegId, b: BoxId) -> Option<TrainId>
        requires fits { Fits net.now self.now }
        requires there { IsSegmentOf net.now s × IsBoxOf net.now b }
        ensures free { IfNone result (IsFree (world_of net.now self.now) s.0 b.0) }
        ensures held { IfSome result (λ u. IsTrue ((world_of net.now self.now).holds u.0 s.0 b.0)) }
        ensures in_range { IfSome result (IsTrainOf net.now) }
    {
        self.holder(net, s, b)
    }

    /// The train that is on the segment.
    pub fn occupied_by(&self, net: &Network, s: SegId) -> Option<TrainId>
        requires { Fits net.now self.now }
        ensures free { IfNone result ((t : ℕ) → (world_of net.now self.now).occupies t s.0 ≡ false) }
        ensures occupied { IfSome result (λ t. IsTrue ((world_of net.now self.now).occupies t.0 s.0)) }
        ensures in_range { IfSome result (IsTrainOf net.now) }
    {
        for k in 0..net.trains() {
            if self.standing(TrainId(k)).is_on(s) {
                return Some(TrainId(k));
            }
        }
        None
    }

    /// The train that has the lock of the box.
    pub fn locked_by(&self, net: &Network, b: BoxId) -> Option<TrainId>
        requires fits { Fits net.now self.now }
        requires there { IsBoxOf net.now b }
        ensures unlocked { IfNone result (IsUnlocked (world_of net.now self.now) b.0) }
        ensures locked { IfSome result (λ u. HasLockOf (world_of net.now self.now) b.0 u.0) }
        ensures in_range { IfSome result (IsTrainOf net.now) }
    {
        train_of(self.lock(b))
    }
}
