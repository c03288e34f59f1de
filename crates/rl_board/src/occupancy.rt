ghost use Rattle.std.specs.Prelude.{◌≡◌, ℕ, IfOk, IfErr, IfSome, OnOk, OnErr, option_map};
ghost use Rattle.rl_model.specs.declared.network.NetworkPlan.{NetworkPlan};
ghost use Rattle.rl_model.specs.Moves.{guards, AllHold, FirstFails, after, IsMoveOf};
ghost use Rattle.rl_model.specs.Network.{IsSegmentOf, IsTrainOf};
ghost use Rattle.rl_model.specs.World.{start};
ghost use Rattle.rl_board.specs.Boards.{IsBoard, world_on, occupied_in, reserved_in, locked_in, occupant, low_holder, high_holder};
ghost use Rattle.rl_board.specs.Changes.{CountsMove, HasRoom};

use crate::counting::{count_occupied, count_reserved};
use rl_base::{NoMemory, SegId, TrainId};
use rl_domain::{Guard, World};
use rl_model::Move;
use rl_net::Network;
use std::alloc::Global;

/// A world, and how many of its segments are occupied, ends of segments reserved and boxes locked.
#[derive(Debug, Drop)]
pub struct Board {
    world: World,
    occupied: u32,
    reserved: u32,
    locked: u32,
}

impl Board {
    /// The board of the network's start.
    pub fn start(alloc: Global, net: &Network) -> Result<Board, NoMemory>
        ensures world { IfOk result (λ board. world_on net.now board ≡ start net.now) }
        ensures board { IfOk result (IsBoard net.now) }
    {
        let world = World::start(alloc, net)?;
        let occupied = count_occupied(net, &world);
        let reserved = count_reserved(net, &world);
        Ok(Board {
            world,
            occupied,
            reserved,
            locked: 0,
        })
    }

    /// Counts what the move adds and takes away.
    fn count(&mut self, m: Move)
        requires { HasRoom m self.old }
        ensures world { self.new.world ≡ self.old.world }
        ensures counted { CountsMove m self.old self.new }
    {
        match m {
            Move::Enter { .. } => self.occupied += 1,
            Move::Leave { .. } => self.occupied -= 1,
            Move::Reserve { .. } => self.reserved += 1,
            Move::Release { .. } => self.reserved -= 1,
            Move::Lock { .. } => self.locked += 1,
            Move::Unlock { .. } => self.locked -= 1,
            Move::Throw { .. } | Move::Settle { .. } | Move::Refuse { .. } | Move::Bar { .. } => {}
        }
    }

    /// Makes the move where every guard of it holds, and else names the first that fails, as the board's world does. It
    /// takes no memory.
    pub fn apply(&mut self, net: &Network, m: &Move) -> Result<(), Guard>
        requires board { IsBoard net.now self.old }
        requires of { IsMoveOf net.now m.now }

        ensures all_hold { OnOk result (AllHold (guards net.now (world_on net.now self.old) m.now)) }
        ensures changed { OnOk result
            (world_on net.now self.new ≡ after (world_on net.now self.old) m.now) }

        ensures first_fails { IfErr result
            (λ g. FirstFails g.number (guards net.now (world_on net.now self.old) m.now)) }
        ensures unchanged { OnErr result (self.new ≡ self.old) }

        ensures board { IsBoard net.now self.new }
    {
        // What acceptance gave, for the proof.
        net.accepted();
        self.world.apply(net, m)?;
        self.count(*m);
        Ok(())
    }

    /// How many segments some train occupies.
    pub fn occupied(&self) -> u32
        ensures { (net : NetworkPlan) → IsBoard net self.now → result ≡ occupied_in net (world_on net self.now) }
    {
        self.occupied
    }

    /// How many pairs of a segment and a box some train holds: each segment has one at each end.
    pub fn reserved(&self) -> u32
        ensures { (net : NetworkPlan) → IsBoard net self.now → result ≡ reserved_in net (world_on net self.now) }
    {
        self.reserved
    }

    /// How many boxes have a lock.
    pub fn locked(&self) -> u32
        ensures { (net : NetworkPlan) → IsBoard net self.now → result ≡ locked_in net (world_on net self.now) }
    {
        self.locked
    }

    /// The train that is on the segment.
    pub fn occupant(&self, net: &Network, s: SegId) -> Option<TrainId>
        requires board { IsBoard net.now self.now }
        requires there { IsSegmentOf net.now s }
        ensures train { option_map (λ t. t.0) result ≡ occupant net.now (world_on net.now self.now) s.0 }
        ensures in_range { IfSome result (IsTrainOf net.now) }
    {
        self.world.occupied_by(net, s)
    }

    /// The trains that hold the segment: at its end at the box with the lower number, and at the other end.
    pub fn holders(&self, net: &Network, s: SegId) -> (Option<TrainId>, Option<TrainId>)
        requires board { IsBoard net.now self.now }
        requires there { IsSegmentOf net.now s }
        ensures low { option_map (λ t. t.0) result.0 ≡ low_holder net.now (world_on net.now self.now) s.0 }
        ensures high { option_map (λ t. t.0) result.1 ≡ high_holder net.now (world_on net.now self.now) s.0 }
        ensures low_in_range { IfSome result.0 (IsTrainOf net.now) }
        ensures high_in_range { IfSome result.1 (IsTrainOf net.now) }
    {
        // What acceptance gave, for the proof.
        net.accepted();
        let (low, high) = net.ends(s);
        (
            self.world.reserved_by(net, s, low.0),
            self.world.reserved_by(net, s, high.0),
        )
    }
}
