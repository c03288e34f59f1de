ghost use Rattle.std.specs.Prelude.{◌<◌, length, IfOk, Some, option_map};
ghost use Rattle.rl_model.specs.Network.{segment_at, IsBoxOf, IsTrainOf};
ghost use Rattle.rl_model.specs.World.{points_at};
ghost use Rattle.std.specs.Prelude.{◌≡◌};
ghost use Rattle.rl_domain.specs.FirstStates.{IsStarter, IsFirstStanding, IsFirstState, AreFirstStandings, AreFirstStates};

use crate::states::{BoxState, Standing};
use rl_base::{Arm, BoxId, NoMemory, SegId, Side, TrainId};
use rl_model::Points;
use rl_net::Network;
use std::alloc::Global;

pub(crate) fn points_of(side: Side) -> Points
    ensures { result ≡ points_at side }
{
    match side {
        Side::Left => Points::Left,
        Side::Right => Points::Right,
    }
}

/// The train that starts on the segment.
fn starter(net: &Network, s: SegId) -> Option<TrainId>
    ensures { IsStarter net.now (Some s.0) result }
{
    for k in 0..net.trains() {
        let t = TrainId(k);
        if net.route_seg(t, 0) == s {
            return Some(t);
        }
    }
    None
}

/// The train that starts on the segment at the arm of the box.
fn holder_at_start(net: &Network, b: BoxId, x: Arm) -> Option<TrainId>
    requires there { IsBoxOf net.now b }
    ensures { IsStarter net.now (segment_at net.now b.0 x.0) result }
{
    match net.arm(b, x) {
        Some(s) => starter(net, s),
        None => None,
    }
}

fn first_state(net: &Network, b: BoxId) -> BoxState
    requires there { IsBoxOf net.now b }
    ensures { IsFirstState net.now b.0 result }
{
    BoxState {
        points: points_of(net.start_side(b)),
        lock: None,
        hold0: holder_at_start(net, b, Arm(0)),
        hold1: holder_at_start(net, b, Arm(1)),
        hold2: holder_at_start(net, b, Arm(2)),
        hold3: holder_at_start(net, b, Arm(3)),
    }
}

fn first_standing(net: &Network, t: TrainId) -> Standing
    requires there { IsTrainOf net.now t }
    ensures { IsFirstStanding net.now t.0 result }
{
    Standing {
        made: 0,
        on: net.route_seg(t, 0),
        across: None,
    }
}

/// How each train stands at the start.
pub(crate) fn first_standings(alloc: Global, net: &Network) -> Result<Vec<Standing>, NoMemory>
    ensures { IfOk result (λ xs. AreFirstStandings net.now xs.items) }
{
    let count = net.trains();
    let mut standings = Vec::with_capacity(alloc, count as usize)?;
    for t in 0..count {
        standings.push(first_standing(net, TrainId(t)))?;
    }
    Ok(standings)
}

/// How each box stands at the start.
pub(crate) fn first_states(alloc: Global, net: &Network) -> Result<Vec<BoxState>, NoMemory>
    ensures { IfOk result (λ xs. AreFirstStates net.now xs.items) }
{
    let count = net.boxes();
    let mut states = Vec::with_capacity(alloc, count as usize)?;
    for b in 0..count {
        states.push(first_state(net, BoxId(b)))?;
    }
    Ok(states)
}
