ghost use Rattle.std.specs.Prelude.{◌≡◌, ◌<◌, length, IsTrue, Some};
ghost use Rattle.rl_base.specs.declared.ids.TrainId.{TrainId};
ghost use Rattle.rl_base.specs.declared.limits.TheConstants.{MAX_STEPS};
ghost use Rattle.rl_domain.specs.declared.states.PathLock.{PathLock};
ghost use Rattle.rl_model.specs.declared.network.NetworkPlan.{NetworkPlan};
ghost use Rattle.rl_model.specs.Network.{IsNetwork, has_end, IsTrainOf, IsSegmentOf, IsBoxOf};
ghost use Rattle.rl_model.specs.Moves.{guards, after, AllHold};
ghost use Rattle.rl_domain.specs.Rows.{world_of, made_of, Fits, IsLock};
ghost use Rattle.rl_domain.specs.Changes.{ChangesHolder, ChangesLock, ChangesPoints, ChangesStanding, enters, leaves};
ghost use Rattle.rl_model.specs.Moves.{IsMoveOf};

use crate::first_states::points_of;
use crate::states::{Passage, PathLock, Standing};
use crate::world::World;
use rl_base::{BoxId, SegId, TrainId};
use rl_model::{Move, Points};
use rl_net::Network;

impl World {
    /// Writes who holds the segment at the box.
    fn set_holder(&mut self, net: &Network, s: SegId, b: BoxId, holder: Option<TrainId>)
        requires network { IsNetwork net.now }
        requires fits { Fits net.now self.old }
        requires there { IsSegmentOf net.now s × IsBoxOf net.now b }
        requires end { IsTrue (has_end net.now s.0 b.0) }
        requires train { (u : TrainId) → holder ≡ Some u → IsTrainOf net.now u }
        ensures changed { ChangesHolder net.now self.old self.new s.0 b.0 holder }
        ensures fits { Fits net.now self.new }
    {
        match net.arm_of(b, s) {
            Some(x) => self.put_state(b, self.state(b).with_holder(x, holder)),
            None => unreachable!(),
        }
    }

    /// Writes the lock of the box.
    fn set_lock(&mut self, b: BoxId, lock: Option<PathLock>)
        requires { b.0 < length self.old.boxes }
        ensures changed { ChangesLock self.old self.new b.0 lock }
        ensures fits { (net : NetworkPlan)
            → Fits net self.old
            → ((l : PathLock) → lock ≡ Some l → IsLock net l)
            → Fits net self.new }
    {
        let mut state = self.state(b);
        state.lock = lock;
        self.put_state(b, state);
    }

    /// Writes how the points of the box stand.
    fn set_points(&mut self, b: BoxId, points: Points)
        requires { b.0 < length self.old.boxes }
        ensures changed { ChangesPoints self.old self.new b.0 points }
        ensures fits { (net : NetworkPlan) → Fits net self.old → Fits net self.new }
    {
        let mut state = self.state(b);
        state.points = points;
        self.put_state(b, state);
    }

    /// Puts the train across the box, with its head on the segment.
    fn enter(&mut self, t: TrainId, b: BoxId, s2: SegId)
        requires { t.0 < length self.old.trains }
        ensures changed { ChangesStanding self.old self.new t.0 (enters b s2) }
    {
        let mut standing = self.standing(t);
        standing.across = Some(Passage { b, to: s2 });
        self.put_standing(t, standing);
    }

    /// Takes the tail of the train after its head, which ends its step.
    fn leave(&mut self, t: TrainId)
        requires train { t.0 < length self.old.trains }
        requires few { made_of self.old t.0 < MAX_STEPS }
        ensures changed { ChangesStanding self.old self.new t.0 leaves }
    {
        let standing = self.standing(t);
        if let Some(passage) = standing.across {
            let made = standing.made + 1;
            self.put_standing(
                t,
                Standing {
                    made,
                    on: passage.to,
                    across: None,
                },
            );
        }
    }

    /// Makes the change of a move whose guards hold.
    pub(crate) fn change(&mut self, net: &Network, m: &Move)
        requires network { IsNetwork net.now }
        requires fits { Fits net.now self.old }
        requires of { IsMoveOf net.now m.now }
        requires guards { AllHold (guards net.now (world_of net.now self.old) m.now) }
        ensures world { world_of net.now self.new ≡ after (world_of net.now self.old) m.now }
        ensures fits { Fits net.now self.new }
    {
        match *m {
            Move::Reserve { t, s, b } => self.set_holder(net, s, b, Some(t)),
            Move::Release { t: _, s, b } => self.set_holder(net, s, b, None),
            Move::Lock { t, b, s, s2 } => self.set_lock(b, Some(PathLock { t, s, s2 })),
            Move::Unlock { t: _, b } => self.set_lock(b, None),
            Move::Throw { b } => self.set_points(b, Points::Moving),
            Move::Settle { b, side } => self.set_points(b, points_of(side)),
            Move::Enter { t, b, s: _, s2 } => self.enter(t, b, s2),
            Move::Leave { t, s: _ } => self.leave(t),
            Move::Refuse { .. } | Move::Bar { .. } => {}
        }
    }
}
