ghost use Rattle.std.specs.Prelude.{◌≡◌, ◌↔◌, IsTrue};
ghost use Rattle.rl_model.specs.Reports.{Rests};
ghost use Rattle.rl_domain.specs.States.{is_train, holder_at};
ghost use Rattle.rl_domain.specs.Rests.{is_at_arm, KeepsArms, KeepsOnly};
ghost use Rattle.rl_domain.specs.Rows.{world_of, Fits};
ghost use Rattle.rl_model.specs.Network.{IsTrainOf, IsBoxOf};

use crate::states::{BoxState, is_lock_of, is_train};
use crate::world::World;
use rl_base::{Arm, BoxId, SegId, TrainId};
use rl_net::Network;

fn is_at_arm(net: &Network, s: SegId, b: BoxId, x: Arm) -> bool
    requires there { IsBoxOf net.now b }
    ensures { result ≡ is_at_arm net.now s.0 b.0 x.0 }
{
    match net.arm(b, x) {
        Some(y) => y == s,
        None => false,
    }
}

/// Whether of the arms of the box the train holds that of the segment, and no other.
fn keeps_arms(net: &Network, state: &BoxState, t: TrainId, s: SegId, b: BoxId) -> bool
    requires there { IsBoxOf net.now b }
    ensures { IsTrue result ↔ KeepsArms net.now state.now t.0 s.0 b.0 }
{
    for i in 0..4 {
        let x = Arm(i);
        if is_train(t, state.holder(x)) != is_at_arm(net, s, b, x) {
            return false;
        }
    }
    true
}

impl World {
    /// Whether at the box the train holds the segment, if it ends there, and nothing else, and has no lock.
    fn keeps_only(&self, net: &Network, t: TrainId, s: SegId, b: BoxId) -> bool
        requires fits { Fits net.now self.now }
        requires there { IsBoxOf net.now b }
        ensures { IsTrue result ↔ KeepsOnly net.now self.now t.0 s.0 b.0 }
    {
        // What acceptance gave, for the proof.
        net.accepted();
        let state = self.state(b);
        !is_lock_of(t, state.lock) && keeps_arms(net, &state, t, s, b)
    }

    /// Whether the train isn't across, holds its own segment at both ends and nothing else, and has no lock.
    pub fn rests(&self, net: &Network, t: TrainId) -> bool
        requires fits { Fits net.now self.now }
        requires there { IsTrainOf net.now t }
        ensures { IsTrue result ↔ Rests net.now (world_of net.now self.now) t.0 }
    {
        let standing = self.standing(t);
        if standing.across.is_some() {
            return false;
        }
        for k in 0..net.boxes() {
            if !self.keeps_only(net, t, standing.on, BoxId(k)) {
                return false;
            }
        }
        true
    }
}
