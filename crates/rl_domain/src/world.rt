ghost use Rattle.std.specs.Prelude.{◌≡◌, ◌<◌, length, slice_get, slice_set, Some, IfOk, IfErr, OnOk, OnErr};
ghost use Rattle.rl_model.specs.declared.network.NetworkPlan.{NetworkPlan};
ghost use Rattle.rl_model.specs.Safety.{IsKept};
ghost use Rattle.rl_model.specs.World.{start};
ghost use Rattle.rl_model.specs.Moves.{guards, AllHold, FirstFails, after};
ghost use Rattle.rl_domain.specs.Parts.{world_of_parts, AreParts};
ghost use Rattle.rl_domain.specs.Rows.{world_of, Fits};
ghost use Rattle.rl_model.specs.Moves.{IsMoveOf};

use crate::first_states::{first_standings, first_states};
use crate::parts::{BoxStates, Spots, standings_of, states_of};
use crate::states::{BoxState, Standing};
use rl_base::{BoxId, NoMemory, TrainId};
use rl_model::Move;
use rl_model::laws::safe_runs;
use rl_net::Network;
use std::alloc::Global;
use std::marker::Model;

/// The guard of a move that failed. Guards have the numbers 1 to 24, and a move's are tested in their order.
#[derive(Clone, Copy, Debug, PartialEq, Eq)]
pub struct Guard {
    pub number: u32,
}

/// Where every train stands, who holds what, and how the points stand.
#[derive(Debug, Drop)]
pub struct World {
    trains: Vec<Standing>,
    boxes: Vec<BoxState>,
}

impl Model for World {
    ghost use Rattle.rl_domain.specs.Rows.{Rows};

    ghost Value = { Rows };

    ghost view = { λ w. record { trains = w.trains.items; boxes = w.boxes.items } };
}

impl World {
    /// The start of the network: each train on the first segment of its route, which it holds at both ends.
    pub fn start(alloc: Global, net: &Network) -> Result<World, NoMemory>
        ensures start { IfOk result (λ w. world_of net.now w ≡ start net.now) }
        ensures fits { IfOk result (Fits net.now) }
        ensures kept { IfOk result (λ w. IsKept net.now (world_of net.now w)) }
    {
        // The law of the moves, and what acceptance gave, for the proof.
        safe_runs();
        net.accepted();
        let trains = first_standings(alloc, net)?;
        let boxes = first_states(alloc, net)?;
        Ok(World { trains, boxes })
    }

    /// The world of its parts: where each train is, and the state of each box, in the order of their numbers.
    pub fn of(
        alloc: Global,
        net: &Network,
        spots: &Spots,
        boxes: &BoxStates,
    ) -> Result<World, NoMemory>
        requires { AreParts net.now spots.now boxes.now }
        ensures world { IfOk result (λ w. world_of net.now w ≡ world_of_parts net.now spots.now boxes.now) }
        ensures fits { IfOk result (Fits net.now) }
        ensures kept { IfOk result (λ w. IsKept net.now (world_of net.now w)) }
    {
        let trains = standings_of(alloc, net, spots, boxes)?;
        let boxes = states_of(alloc, boxes)?;
        Ok(World { trains, boxes })
    }

    /// Makes the move where every guard of it holds, and else names the first that fails. It takes no memory.
    pub fn apply(&mut self, net: &Network, m: &Move) -> Result<(), Guard>
        requires fits { Fits net.now self.old }
        requires of { IsMoveOf net.now m.now }

        ensures all_hold { OnOk result (AllHold (guards net.now (world_of net.now self.old) m.now)) }
        ensures changed { OnOk result
            (world_of net.now self.new ≡ after (world_of net.now self.old) m.now) }

        ensures first_fails { IfErr result
            (λ g. FirstFails g.number (guards net.now (world_of net.now self.old) m.now)) }
        ensures unchanged { OnErr result (self.new ≡ self.old) }

        ensures fits { Fits net.now self.new }
        ensures kept { IsKept net.now (world_of net.now self.old)
            → IsKept net.now (world_of net.now self.new) }
    {
        // The law of the moves, and what acceptance gave, for the proof.
        safe_runs();
        net.accepted();
        self.test(net, m)?;
        self.change(net, m);
        Ok(())
    }

    pub(crate) fn standings(&self) -> &[Standing]
        ensures { result.now ≡ self.now.trains }
    {
        self.trains.as_slice()
    }

    pub(crate) fn standing(&self, t: TrainId) -> Standing
        requires { t.0 < length self.now.trains }
        ensures { slice_get self.now.trains t.0 ≡ Some result }
    {
        self.trains[t.0 as usize]
    }

    pub(crate) fn state(&self, b: BoxId) -> BoxState
        requires { b.0 < length self.now.boxes }
        ensures { slice_get self.now.boxes b.0 ≡ Some result }
    {
        self.boxes[b.0 as usize]
    }

    pub(crate) fn put_standing(&mut self, t: TrainId, standing: Standing)
        requires { t.0 < length self.old.trains }
        ensures { self.new ≡ record self.old { trains = slice_set self.old.trains t.0 standing } }
    {
        self.trains[t.0 as usize] = standing;
    }

    pub(crate) fn put_state(&mut self, b: BoxId, state: BoxState)
        requires { b.0 < length self.old.boxes }
        ensures { self.new ≡ record self.old { boxes = slice_set self.old.boxes b.0 state } }
    {
        self.boxes[b.0 as usize] = state;
    }

    /// How many steps the train has made.
    pub fn made(&self, t: TrainId) -> u32
        requires { t.0 < length self.now.trains }
        ensures { (net : NetworkPlan) → result ≡ (world_of net self.now).made t.0 }
    {
        self.standing(t).made
    }
}
