ghost use Rattle.std.specs.Prelude.{◌≡◌, ◌++◌, ◌≤◌, ℕ, OnOk, IfOk, flat_map, length, slice_get, Some};
ghost use Rattle.rl_base.specs.declared.limits.TheConstants.{MAX_SEGMENTS};
ghost use Rattle.rl_model.specs.Network.{IsBoxOf, IsSegmentOf};
ghost use Rattle.rl_plan.specs.declared.plan.PlanStep.{PlanStep};
ghost use Rattle.rl_plan.specs.Plans.{Passes};
ghost use Rattle.rl_plan.specs.PlanText.{plan_line, step_text, route_line, level_line, level_lines, plan_text};

use crate::plan::{Plan, PlanStep};
use rl_base::{NoMemory, SegId};
use rl_net::Network;
use rl_text::Out;
use std::alloc::Global;

/// Appends the line that says from where to where, and in how many steps.
fn put_plan_line(
    out: &mut Out,
    net: &Network,
    from: SegId,
    to: SegId,
    steps: Option<u32>,
) -> Result<(), NoMemory>
    requires there { IsSegmentOf net.now from × IsSegmentOf net.now to }
    ensures { OnOk result (out.new ≡ out.old ++ plan_line net.now from.0 to.0 steps) }
{
    out.text(b"plan")?;
    out.word(net.seg_name(from))?;
    out.word(net.seg_name(to))?;
    match steps {
        Some(n) => {
            out.word(b"steps")?;
            out.count(n)?;
        }
        None => out.word(b"none")?,
    }
    out.text(b"\n")
}

/// Appends the box of the step and the segment that it reaches.
fn put_step(out: &mut Out, net: &Network, step: PlanStep) -> Result<(), NoMemory>
    requires there { IsBoxOf net.now step.b × IsSegmentOf net.now step.s }
    ensures { OnOk result (out.new ≡ out.old ++ step_text net.now step) }
{
    out.word(net.box_name(step.b))?;
    out.word(net.seg_name(step.s))
}

/// Appends the steps.
fn put_steps(out: &mut Out, net: &Network, route: &[PlanStep]) -> Result<(), NoMemory>
    requires there { (k : ℕ) (step : PlanStep) → slice_get route.now k ≡ Some step
        → IsBoxOf net.now step.b × IsSegmentOf net.now step.s }
    ensures { OnOk result (out.new ≡ out.old ++ flat_map (step_text net.now) route.now) }
{
    for step in route {
        put_step(out, net, *step)?;
    }
    Ok(())
}

/// Appends the line of the route, if there is a walk.
fn put_route(
    out: &mut Out,
    net: &Network,
    from: SegId,
    steps: Option<u32>,
    route: &[PlanStep],
) -> Result<(), NoMemory>
    requires begin { IsSegmentOf net.now from }
    requires there { (k : ℕ) (step : PlanStep) → slice_get route.now k ≡ Some step
        → IsBoxOf net.now step.b × IsSegmentOf net.now step.s }
    ensures { OnOk result (out.new ≡ out.old ++ route_line net.now from.0 steps route.now) }
{
    if steps.is_none() {
        return Ok(());
    }
    out.text(b"route ")?;
    out.text(net.seg_name(from))?;
    put_steps(out, net, route)?;
    out.text(b"\n")
}

/// Appends the line of the segment, if it has a level.
fn put_level(out: &mut Out, net: &Network, s: SegId, level: Option<u32>) -> Result<(), NoMemory>
    requires there { IsSegmentOf net.now s }
    ensures { OnOk result (out.new ≡ out.old ++ level_line net.now s.0 level) }
{
    let Some(n) = level else {
        return Ok(());
    };
    out.text(b"level")?;
    out.word(net.seg_name(s))?;
    out.count(n)?;
    out.text(b"\n")
}

/// Appends the lines of the segments.
fn put_levels(out: &mut Out, net: &Network, levels: &[Option<u32>]) -> Result<(), NoMemory>
    requires few { length levels.now ≤ MAX_SEGMENTS }
    requires each { length levels.now ≡ length net.now.segments }
    ensures { OnOk result (out.new ≡ out.old ++ level_lines net.now 0 levels.now) }
{
    for (s, level) in levels.iter().enumerate() {
        put_level(out, net, SegId(s as u32), *level)?;
    }
    Ok(())
}

/// The text of a plan that `check_plan` says true of.
pub fn plan_text(
    alloc: Global,
    net: &Network,
    from: SegId,
    to: SegId,
    plan: &Plan,
) -> Result<Out, NoMemory>
    requires there { IsSegmentOf net.now from × IsSegmentOf net.now to }
    requires passes { Passes net.now from to plan.now }
    ensures { IfOk result (λ out. out ≡ plan_text net.now from.0 to.0 plan.now) }
{
    // What acceptance gave, for the proof.
    net.accepted();
    let mut out = Out::new(alloc);
    put_plan_line(&mut out, net, from, to, plan.steps)?;
    put_route(&mut out, net, from, plan.steps, plan.route.as_slice())?;
    put_levels(&mut out, net, plan.levels.as_slice())?;
    out.text(b"end\n")?;
    Ok(out)
}
