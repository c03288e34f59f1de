ghost use Rattle.std.specs.Prelude.{◌≡◌, ◌<◌, IfOk, length};
ghost use Rattle.rl_model.specs.Network.{IsTrainOf, steps_of};
ghost use Rattle.rl_domain.specs.Parts.{IsSpot, AreParts};
ghost use Rattle.rl_domain.specs.PartRows.{IsRoutePassage, IsStandingAt, AreStandingsOf};

use crate::states::{BoxState, Passage, Standing};
use rl_base::{NoMemory, Sequence, TrainId};
use rl_net::Network;
use std::alloc::Global;

/// Where a train is: how many steps of its route it has made, and whether it is across the box of the next.
#[derive(Clone, Copy, Debug, PartialEq, Eq)]
pub struct Spot {
    pub step: u32,
    pub across: bool,
}

pub type Spots = Sequence<Spot>;

pub type BoxStates = Sequence<BoxState>;

/// The passage of a train that is across the box of step `k` of its route.
fn passage_at(net: &Network, t: TrainId, k: u32) -> Passage
    requires there { IsTrainOf net.now t }
    requires step { k < steps_of net.now t.0 }
    ensures { IsRoutePassage net.now t.0 k result }
{
    // No route has many steps, for the proof.
    let _steps = net.steps(t);
    Passage {
        b: net.route_box(t, k),
        to: net.route_seg(t, k + 1),
    }
}

/// How a train at the spot stands.
fn standing_at(net: &Network, t: TrainId, spot: Spot) -> Standing
    requires there { IsTrainOf net.now t }
    requires spot { IsSpot net.now t.0 spot }
    ensures { IsStandingAt net.now t.0 spot result }
{
    let across = if spot.across {
        Some(passage_at(net, t, spot.step))
    } else {
        None
    };
    Standing {
        made: spot.step,
        on: net.route_seg(t, spot.step),
        across,
    }
}

/// How each train stands.
pub(crate) fn standings_of(
    alloc: Global,
    net: &Network,
    spots: &Spots,
    boxes: &BoxStates,
) -> Result<Vec<Standing>, NoMemory>
    requires { AreParts net.now spots.now boxes.now }
    ensures { IfOk result (λ xs. AreStandingsOf net.now spots.now xs.items) }
{
    let count = net.trains();
    let mut standings = Vec::with_capacity(alloc, count as usize)?;
    for t in 0..count {
        let spot = *spots.at(t as usize);
        standings.push(standing_at(net, TrainId(t), spot))?;
    }
    Ok(standings)
}

/// How each box stands.
pub(crate) fn states_of(alloc: Global, boxes: &BoxStates) -> Result<Vec<BoxState>, NoMemory>
    ensures { IfOk result (λ xs. xs.items ≡ boxes.now) }
{
    Ok(boxes.as_slice().to_vec(alloc)?)
}
