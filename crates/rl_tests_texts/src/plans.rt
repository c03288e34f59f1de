//! Plans: worked ones, each of which passes its check, and what doesn't pass.
ghost use Rattle.rl_model.specs.Network.{IsSegmentOf};
ghost use Rattle.rl_plan.specs.Plans.{Passes};

use crate::short::network_of;
use rl_base::SegId;
use rl_net::Network;
use rl_plan::{Levels, Plan, check_plan, least_plan, plan_text};
use std::alloc::Global;
use std::process::Abort;
use std::test::Fail;

/// Two platforms at each end, and a loop between them.
const TERMINUS: &str =
    "plat1 plat2 west mid up down east plat3 plat4/buffer E1 plat1/buffer E2 plat2\
    /point@left P1 west plat1 plat2/joint J west mid/point@left P2 mid up down/point@left P3 east up down\
    /point@left P4 east plat3 plat4/buffer E3 plat3/buffer E4 plat4";

/// A crossing of two lines, and a straight line.
const CROSSING: &str = "A B C D/crossing X A B C D/buffer WA A/buffer EB B/buffer WC C/buffer ED D";

const STRAIGHT: &str = "A B/buffer W A/joint J1 A B/buffer E B";

/// Two segments between the same two joints, and one that is reached by neither.
const ROUND: &str = "A B C/joint J1 A B/joint J2 A B/buffer W C/buffer E C";

fn segment_of(rt: &impl Abort, net: &Network, name: &str) -> SegId
    ensures { IsSegmentOf net.now result }
{
    net.find_seg(name.as_bytes()).expect(rt, "a segment")
}

/// Asserts that the plan has this text.
fn assert_text(
    rt: &impl Abort,
    alloc: Global,
    net: &Network,
    from: SegId,
    to: SegId,
    plan: &Plan,
    text: &str,
) -> Result<(), Fail>
    requires there { IsSegmentOf net.now from × IsSegmentOf net.now to }
    requires passes { Passes net.now from to plan.now }
{
    let out = plan_text(alloc, net, from, to, plan)?;
    assert_eq!(rt; out.bytes(), text.as_bytes());
    Ok(())
}

/// Asserts that the least plan between the segments has this text, and passes its check.
fn assert_plan(
    rt: &impl Abort,
    alloc: Global,
    net: &Network,
    from: &str,
    to: &str,
    text: &str,
) -> Result<(), Fail> {
    let from = segment_of(rt, net, from);
    let to = segment_of(rt, net, to);
    let plan = least_plan(alloc, net, from, to)?;
    assert!(rt; check_plan(net, from, to, &plan));
    assert_text(rt, alloc, net, from, to, &plan, text)
}

#[test]
fn plans_with_the_fewest_steps(rt: HostRuntime) -> Result<(), Fail> {
    let alloc = rt.alloc();
    let net = network_of(&rt, alloc, TERMINUS)?;
    let text =
        "plan plat1 plat3 steps 5\nroute plat1 P1 west J mid P2 up P3 east P4 plat3\nlevel plat1 5\n\
        level plat2 5\nlevel west 4\nlevel mid 3\nlevel up 2\nlevel down 2\nlevel east 1\nlevel plat3 0\n\
        level plat4 2\nend\n";
    assert_plan(&rt, alloc, &net, "plat1", "plat3", text)?;
    let net = network_of(&rt, alloc, CROSSING)?;
    assert_plan(
        &rt,
        alloc,
        &net,
        "A",
        "C",
        "plan A C none\nlevel C 0\nlevel D 1\nend\n",
    )
}

#[test]
fn plans_over_a_line_and_around(rt: HostRuntime) -> Result<(), Fail> {
    let alloc = rt.alloc();
    let net = network_of(&rt, alloc, STRAIGHT)?;
    let text = "plan A A steps 0\nroute A\nlevel A 0\nlevel B 1\nend\n";
    assert_plan(&rt, alloc, &net, "A", "A", text)?;
    let net = network_of(&rt, alloc, ROUND)?;
    let text = "plan A B steps 1\nroute A J1 B\nlevel A 1\nlevel B 0\nend\n";
    assert_plan(&rt, alloc, &net, "A", "B", text)?;
    assert_plan(
        &rt,
        alloc,
        &net,
        "C",
        "A",
        "plan C A none\nlevel A 0\nlevel B 1\nend\n",
    )
}

/// The plan with the level of a segment raised by one.
fn raised(plan: Plan, s: usize) -> Plan {
    let mut levels = plan.levels.into_vec();
    if let Some(Some(level)) = levels.get_mut(s) {
        *level = level.saturating_add(1);
    }
    Plan {
        steps: plan.steps,
        route: plan.route,
        levels: Levels::from_vec(levels),
    }
}

/// Whether the least plan from plat1 to plat3 of the terminus passes with the level of a segment raised by one.
fn passes_raised(rt: &impl Abort, alloc: Global, s: usize) -> Result<bool, Fail> {
    let net = network_of(rt, alloc, TERMINUS)?;
    let from = segment_of(rt, &net, "plat1");
    let to = segment_of(rt, &net, "plat3");
    let plan = raised(least_plan(alloc, &net, from, to)?, s);
    Ok(check_plan(&net, from, to, &plan))
}

#[test]
fn refuses_a_level_that_is_too_high(rt: HostRuntime) -> Result<(), Fail> {
    // `up`, a neighbour of `east`, which has level 1; and the platform at the end.
    assert!(rt; !passes_raised(&rt, rt.alloc(), 4)?);
    assert!(rt; !passes_raised(&rt, rt.alloc(), 7)?);
    // a level past the last segment is none
    assert!(rt; passes_raised(&rt, rt.alloc(), 9)?);
    Ok(())
}
