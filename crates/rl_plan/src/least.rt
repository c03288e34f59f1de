ghost use Rattle.std.specs.Prelude.{IfOk};
ghost use Rattle.rl_model.specs.Network.{IsSegmentOf};
ghost use Rattle.rl_plan.specs.Plans.{IsLeastPlan, Passes};

use crate::neighbours::level_of;
use crate::plan::{Levels, Plan};
use crate::route::route_of;
use crate::search::levels_to;
use rl_base::{NoMemory, SegId};
use rl_net::Network;
use std::alloc::Global;

/// The plan with the least number of steps from a segment to another: the same for the same network, and one that
/// `check_plan` says true of.
pub fn least_plan(alloc: Global, net: &Network, from: SegId, to: SegId) -> Result<Plan, NoMemory>
    requires there { IsSegmentOf net.now from × IsSegmentOf net.now to }
    ensures least { IfOk result (IsLeastPlan net.now from to) }
    ensures passes { IfOk result (Passes net.now from to) }
{
    let levels = levels_to(alloc, net, to)?;
    let steps = level_of(&levels, from);
    let route = route_of(alloc, net, &levels, to, from, steps)?;
    Ok(Plan {
        steps,
        route,
        levels: Levels::from_vec(levels),
    })
}
