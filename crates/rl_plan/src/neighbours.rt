ghost use Rattle.std.specs.Prelude.{◌≡◌, ℕ, ◌<◌, ◌+◌, ◌≤◌, ◌↔◌, IfSome, IfNone, IsTrue, Some, length};
ghost use Rattle.rl_model.specs.Network.{IsBoxOf, IsSegmentOf, segment_at};
ghost use Rattle.rl_plan.specs.Walks.{AreNeighbours};
ghost use Rattle.rl_plan.specs.Levels.{level_of};

use rl_base::{Arm, BoxId, SegId, Side};
use rl_net::Network;

/// The level of a segment, none where the list has none for it.
pub(crate) fn level_of(levels: &[Option<u32>], s: SegId) -> Option<u32>
    ensures { result ≡ level_of levels.now s.0 }
{
    if (s.0 as usize) < levels.len() {
        levels[s.0 as usize]
    } else {
        None
    }
}

#[tactic(auto, using(crate::proofs::BothWays::arm_there))]
/// The neighbour of the segment at arm `y` of the box, `None` where no side of the box connects the two.
pub(crate) fn neighbour_at(net: &Network, b: BoxId, s: SegId, y: Arm) -> Option<SegId>
    requires there { IsBoxOf net.now b × IsSegmentOf net.now s }
    ensures some { IfSome result (λ r. AreNeighbours net.now b.0 s.0 r.0 × IsSegmentOf net.now r
        × (segment_at net.now b.0 y.0 ≡ Some r.0)) }
    ensures none { IfNone result ((r : ℕ) → segment_at net.now b.0 y.0 ≡ Some r → ¬ AreNeighbours net.now b.0 s.0 r) }
{
    // What acceptance gave, for the proof.
    net.accepted();
    let Some(r) = net.arm(b, y) else {
        return None;
    };
    if net.connects(b, s, r, Side::Left) || net.connects(b, s, r, Side::Right) {
        Some(r)
    } else {
        None
    }
}
