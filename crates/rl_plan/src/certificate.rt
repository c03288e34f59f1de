ghost use Rattle.std.specs.Prelude.{◌≡◌, ℕ, ◌↔◌, IsTrue};
ghost use Rattle.rl_model.specs.Network.{IsBoxOf, IsSegmentOf};
ghost use Rattle.rl_plan.specs.Walks.{AreNeighbours, IsWalk};
ghost use Rattle.rl_plan.specs.Levels.{level_of, IsLevel};
ghost use Rattle.rl_plan.specs.Rising.{RisesTo, RisesFrom, RisesByOne};
ghost use Rattle.rl_plan.specs.Plans.{HasEnds, IsRouteOf, Passes, Shows};

use crate::neighbours::{level_of, neighbour_at};
use crate::plan::{Plan, PlanStep, PlanSteps};
use rl_base::{Arm, BoxId, SegId, Side};
use rl_net::Network;

/// Whether the level is there, and at most the next one.
fn rises_to(level: Option<u32>, n: u32) -> bool
    ensures { IsTrue result ↔ RisesTo n level }
{
    match level {
        Some(m) => m.saturating_sub(1) <= n,
        None => false,
    }
}

/// Whether no neighbour of the segment through the box has more than the next level, or none.
fn rises_at(net: &Network, levels: &[Option<u32>], b: BoxId, s: SegId, n: u32) -> bool
    requires there { IsBoxOf net.now b × IsSegmentOf net.now s }
    ensures { IsTrue result ↔ ((r : ℕ) → AreNeighbours net.now b.0 s.0 r → RisesTo n (level_of levels.now r)) }
{
    // What acceptance gave, for the proof.
    net.accepted();
    for y in 0..4 {
        if let Some(r) = neighbour_at(net, b, s, Arm(y)) {
            if !rises_to(level_of(levels, r), n) {
                return false;
            }
        }
    }
    true
}

/// Whether no neighbour of the segment has more than the level after its own, or none; a segment without a level
/// asks for nothing.
fn rises_around(net: &Network, levels: &[Option<u32>], s: SegId) -> bool
    requires there { IsSegmentOf net.now s }
    ensures { IsTrue result ↔ RisesFrom net.now levels.now s.0 }
{
    let Some(n) = level_of(levels, s) else {
        return true;
    };
    // What acceptance gave, for the proof.
    net.accepted();
    let (low, high) = net.ends(s);
    rises_at(net, levels, low.0, s, n) && rises_at(net, levels, high.0, s, n)
}

/// Whether levels rise by one at most from each segment to its neighbours.
fn rises(net: &Network, levels: &[Option<u32>]) -> bool
    ensures { IsTrue result ↔ RisesByOne net.now levels.now }
{
    for s in 0..net.segments() {
        if !rises_around(net, levels, SegId(s)) {
            return false;
        }
    }
    true
}

/// Whether the step leads from the segment to a neighbour. Its numbers may be any.
fn leads_on(net: &Network, s: SegId, step: PlanStep) -> bool
    requires there { IsSegmentOf net.now s }
    ensures neighbours { IsTrue result ↔ AreNeighbours net.now step.b.0 s.0 step.s.0 }
    ensures there { IsTrue result → IsSegmentOf net.now step.s }
{
    step.b.0 < net.boxes()
        && step.s.0 < net.segments()
        && (net.connects(step.b, s, step.s, Side::Left)
            || net.connects(step.b, s, step.s, Side::Right))
}

/// Whether the steps lead from the one segment to the other, each to a neighbour.
fn is_walk(net: &Network, from: SegId, to: SegId, steps: &PlanSteps) -> bool
    requires there { IsSegmentOf net.now from }
    ensures { IsTrue result ↔ IsWalk net.now to.0 from.0 steps.now }
{
    let mut s = from;
    for step in steps.as_slice() {
        if !leads_on(net, s, *step) {
            return false;
        }
        s = step.s;
    }
    s == to
}

/// Whether the route is one of so many steps from the one segment to the other, or has none where there are no steps.
fn is_route(net: &Network, from: SegId, to: SegId, steps: Option<u32>, route: &PlanSteps) -> bool
    requires there { IsSegmentOf net.now from }
    ensures { IsTrue result ↔ IsRouteOf net.now from.0 to.0 steps route.now }
{
    match steps {
        Some(n) => route.len() == n as usize && is_walk(net, from, to, route),
        None => route.is_empty(),
    }
}

/// Whether there is a level for each segment, 0 at the end, and so many steps as the level of the beginning.
fn has_ends(
    net: &Network,
    from: SegId,
    to: SegId,
    steps: Option<u32>,
    levels: &[Option<u32>],
) -> bool
    ensures { IsTrue result ↔ HasEnds net.now from to steps levels.now }
{
    levels.len() == net.segments() as usize
        && level_of(levels, to) == Some(0)
        && steps == level_of(levels, from)
}

/// Whether so many steps, the route and the levels show what a plan has to.
fn shows(
    net: &Network,
    from: SegId,
    to: SegId,
    steps: Option<u32>,
    route: &PlanSteps,
    levels: &[Option<u32>],
) -> bool
    requires there { IsSegmentOf net.now from }
    ensures { IsTrue result ↔ Shows net.now from to steps route.now levels.now }
{
    has_ends(net, from, to, steps, levels)
        && is_route(net, from, to, steps, route)
        && rises(net, levels)
}

/// Whether the plan shows that it is one of the fewest steps: a level for each segment, 0 at the end, that rises by one
/// at most from a segment to its neighbours, and a route of so many steps as the level at its beginning. It takes no
/// memory, and whoever made the plan need not be trusted.
pub fn check_plan(net: &Network, from: SegId, to: SegId, plan: &Plan) -> bool
    requires there { IsSegmentOf net.now from × IsSegmentOf net.now to }
    ensures passes { IsTrue result ↔ Passes net.now from to plan.now }
    ensures least { IsTrue result → IsLevel net.now to.0 from.0 plan.now.steps }
{
    shows(
        net,
        from,
        to,
        plan.steps,
        &plan.route,
        plan.levels.as_slice(),
    )
}
