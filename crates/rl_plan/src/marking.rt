ghost use Rattle.std.specs.Prelude.{◌≡◌, ℕ, ◌<◌, ◌+◌, ◌^◌, length, Some};
ghost use Rattle.rl_model.specs.Network.{IsBoxOf, IsSegmentOf, segment_at};
ghost use Rattle.rl_plan.specs.Walks.{AreNeighbours};
ghost use Rattle.rl_plan.specs.Levels.{level_of};
ghost use Rattle.rl_plan.specs.Marking.{Gives, IsGrown, IsMarked, MarksFrom};

use crate::neighbours::{level_of, neighbour_at};
use rl_base::{Arm, BoxId, SegId};
use rl_net::Network;

/// Gives the segment a level if it has none, and says whether it did.
fn mark(levels: &mut [Option<u32>], r: SegId, level: u32) -> bool
    requires there { r.0 < length levels.old }
    ensures marked { IsMarked levels.new r.0 }
    ensures changes { Gives result levels.old levels.new r.0 level }
{
    if levels[r.0 as usize].is_some() {
        return false;
    }
    levels[r.0 as usize] = Some(level);
    true
}

/// Gives the neighbour of the segment at arm `y` of the box the level above `n` if it has none, and says whether it
/// did.
fn mark_at(net: &Network, levels: &mut [Option<u32>], b: BoxId, s: SegId, y: Arm, n: u32) -> bool
    requires there { IsBoxOf net.now b × IsSegmentOf net.now s }
    requires each { length levels.old ≡ length net.now.segments }
    requires level { level_of levels.old s.0 ≡ Some n }
    requires room { n + 1 < 2 ^ 32 }
    ensures grown { IsGrown net.now n result levels.old levels.new }
    ensures marks { (r : ℕ) → segment_at net.now b.0 y.0 ≡ Some r → AreNeighbours net.now b.0 s.0 r
        → IsMarked levels.new r }
{
    match neighbour_at(net, b, s, y) {
        Some(r) => mark(levels, r, n + 1),
        None => false,
    }
}

/// Gives each neighbour of the segment through the box that has no level the one above `n`, and says whether there
/// was one.
fn mark_through(net: &Network, levels: &mut [Option<u32>], b: BoxId, s: SegId, n: u32) -> bool
    requires there { IsBoxOf net.now b × IsSegmentOf net.now s }
    requires each { length levels.old ≡ length net.now.segments }
    requires level { level_of levels.old s.0 ≡ Some n }
    requires room { n + 1 < 2 ^ 32 }
    ensures grown { IsGrown net.now n result levels.old levels.new }
    ensures marks { (r : ℕ) → AreNeighbours net.now b.0 s.0 r → IsMarked levels.new r }
{
    // What acceptance gave, for the proof.
    net.accepted();
    let mut more = false;
    for y in 0..4 {
        let new = mark_at(net, levels, b, s, Arm(y), n);
        more = new | more;
    }
    more
}

/// Gives each neighbour of the segment that has no level the one above `n`, and says whether there was one.
fn mark_around(net: &Network, levels: &mut [Option<u32>], s: SegId, n: u32) -> bool
    requires there { IsSegmentOf net.now s }
    requires each { length levels.old ≡ length net.now.segments }
    requires level { level_of levels.old s.0 ≡ Some n }
    requires room { n + 1 < 2 ^ 32 }
    ensures grown { IsGrown net.now n result levels.old levels.new }
    ensures marks { (b r : ℕ) → AreNeighbours net.now b s.0 r → IsMarked levels.new r }
{
    // What acceptance gave, for the proof.
    net.accepted();
    let (low, high) = net.ends(s);
    let first = mark_through(net, levels, low.0, s, n);
    let second = mark_through(net, levels, high.0, s, n);
    second | first
}

/// The same where the segment has level `n`, and nothing where it has another or none.
fn mark_from(net: &Network, levels: &mut [Option<u32>], s: SegId, n: u32) -> bool
    requires there { IsSegmentOf net.now s }
    requires each { length levels.old ≡ length net.now.segments }
    requires room { n + 1 < 2 ^ 32 }
    ensures grown { IsGrown net.now n result levels.old levels.new }
    ensures marks { MarksFrom net.now n levels.old levels.new s.0 }
{
    match level_of(levels, s) {
        Some(m) if m == n => mark_around(net, levels, s, n),
        _ => false,
    }
}

/// Gives each neighbour of a segment of level `n` that has no level the one above, and says whether there was one.
pub(crate) fn mark_round(net: &Network, levels: &mut [Option<u32>], n: u32) -> bool
    requires each { length levels.old ≡ length net.now.segments }
    requires room { n + 1 < 2 ^ 32 }
    ensures grown { IsGrown net.now n result levels.old levels.new }
    ensures marks { (s : ℕ) → MarksFrom net.now n levels.old levels.new s }
{
    let mut more = false;
    for s in 0..net.segments() {
        let new = mark_from(net, levels, SegId(s), n);
        more = new | more;
    }
    more
}
