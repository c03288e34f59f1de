ghost use Rattle.std.specs.Prelude.{◌≡◌, ℕ, ◌+◌, Some, IfSome, IfNone, IfOk, length};
ghost use Rattle.rl_model.specs.Network.{IsBoxOf, IsSegmentOf, segment_at};
ghost use Rattle.rl_plan.specs.declared.plan.PlanStep.{PlanStep};
ghost use Rattle.rl_plan.specs.Levels.{level_of};
ghost use Rattle.rl_plan.specs.Plans.{IsChosen, IsRoute, LeadsDown, LeadsTo};
ghost use Rattle.rl_plan.specs.Searching.{AreLevels};
ghost use Rattle.rl_plan.specs.Choosing.{IsLowest, IsNext, lower};

use crate::neighbours::{level_of, neighbour_at};
use crate::plan::{PlanStep, PlanSteps};
use rl_base::{Arm, BoxId, NoMemory, SegId};
use rl_net::Network;
use std::alloc::Global;

/// The segment at arm `y` of the box, if it is a neighbour of level `n`.
fn next_at(
    net: &Network,
    levels: &[Option<u32>],
    b: BoxId,
    s: SegId,
    n: u32,
    y: Arm,
) -> Option<SegId>
    requires there { IsBoxOf net.now b × IsSegmentOf net.now s }
    ensures some { IfSome result (λ r. IsNext net.now levels.now b.0 s.0 n r.0
        × (segment_at net.now b.0 y.0 ≡ Some r.0)) }
    ensures none { IfNone result ((r : ℕ) → segment_at net.now b.0 y.0 ≡ Some r
        → ¬ IsNext net.now levels.now b.0 s.0 n r) }
{
    let r = neighbour_at(net, b, s, y)?;
    match level_of(levels, r) {
        Some(m) if m == n => Some(r),
        _ => None,
    }
}

/// The lower of the two segments, where there are two.
fn lower(a: Option<SegId>, b: Option<SegId>) -> Option<SegId>
    ensures { result ≡ lower a b }
{
    match (a, b) {
        (Some(x), Some(y)) => Some(SegId(x.0.min(y.0))),
        (Some(x), None) => Some(x),
        (None, y) => y,
    }
}

/// The lowest neighbour of level `n` through the box, none where there is none.
fn lowest(net: &Network, levels: &[Option<u32>], b: BoxId, s: SegId, n: u32) -> Option<SegId>
    requires there { IsBoxOf net.now b × IsSegmentOf net.now s }
    ensures { IsLowest net.now levels.now b.0 s.0 n result }
{
    // What acceptance gave, for the proof.
    net.accepted();
    let mut best = None;
    for y in 0..4 {
        best = lower(best, next_at(net, levels, b, s, n, Arm(y)));
    }
    best
}

/// The chosen step from the segment to a neighbour of level `n`: of those through the lowest box the lowest segment.
fn chosen(net: &Network, levels: &[Option<u32>], s: SegId, n: u32) -> Option<PlanStep>
    requires there { IsSegmentOf net.now s }
    ensures some { IfSome result (IsChosen net.now levels.now s.0 n) }
    ensures none { IfNone result ((step : PlanStep) → ¬ LeadsTo net.now levels.now s.0 n step) }
{
    // What acceptance gave, for the proof.
    net.accepted();
    let (low, high) = net.ends(s);
    if let Some(r) = lowest(net, levels, low.0, s, n) {
        return Some(PlanStep { b: low.0, s: r });
    }
    match lowest(net, levels, high.0, s, n) {
        Some(r) => Some(PlanStep { b: high.0, s: r }),
        None => None,
    }
}

/// The chosen step from a segment whose level is the one above `n`, on the way to the end of the levels.
fn next_step(net: &Network, levels: &[Option<u32>], to: SegId, s: SegId, n: u32) -> PlanStep
    requires there { IsSegmentOf net.now s }
    requires levels { AreLevels net.now to levels.now }
    requires above { level_of levels.now s.0 ≡ Some (n + 1) }
    ensures { IsChosen net.now levels.now s.0 n result }
{
    let _end = to;
    match chosen(net, levels, s, n) {
        Some(step) => step,
        // There is one: a walk from the segment begins with it.
        None => PlanStep { b: BoxId(0), s },
    }
}

/// The chosen steps from a segment of level `n` down to the end of the levels.
fn steps_down(
    alloc: Global,
    net: &Network,
    levels: &[Option<u32>],
    to: SegId,
    from: SegId,
    n: u32,
) -> Result<PlanSteps, NoMemory>
    requires there { IsSegmentOf net.now from }
    requires levels { AreLevels net.now to levels.now }
    requires level { level_of levels.now from.0 ≡ Some n }
    ensures { IfOk result (λ route. (length route ≡ n) × LeadsDown net.now levels.now from.0 route) }
{
    let mut route = PlanSteps::new(alloc);
    let mut s = from;
    for k in 0..n {
        let step = next_step(net, levels, to, s, n - k - 1);
        route.push(step)?;
        s = step.s;
    }
    Ok(route)
}

/// The route of a plan: the chosen steps, none where the segment has no level.
pub(crate) fn route_of(
    alloc: Global,
    net: &Network,
    levels: &[Option<u32>],
    to: SegId,
    from: SegId,
    steps: Option<u32>,
) -> Result<PlanSteps, NoMemory>
    requires there { IsSegmentOf net.now from }
    requires levels { AreLevels net.now to levels.now }
    requires level { steps ≡ level_of levels.now from.0 }
    ensures { IfOk result (IsRoute net.now levels.now from.0 steps) }
{
    match steps {
        Some(n) => steps_down(alloc, net, levels, to, from, n),
        None => Ok(PlanSteps::new(alloc)),
    }
}
