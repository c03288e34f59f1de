ghost use Rattle.std.specs.Prelude.{◌≡◌, ◌↔◌, IsTrue, IsOk, IfErr, MatchResult};
ghost use Rattle.rl_base.specs.declared.ids.TrainId.{TrainId};
ghost use Rattle.rl_model.specs.declared.moves.Move.TheVariants as move;
ghost use Rattle.rl_model.specs.Moves.{guards, IsMoveOf};
ghost use Rattle.rl_model.specs.Network.{IsTrainOf, IsSegmentOf, IsBoxOf};
ghost use Rattle.rl_domain.specs.Rows.{world_of, Fits};
ghost use Rattle.rl_domain.specs.Applies.{Tests};

use crate::conditions::{can_connect, has_end, points_connect};
use crate::world::{Guard, World};
use rl_base::{BoxId, SegId, Side, TrainId};
use rl_model::{Move, Points};
use rl_net::Network;

/// Fails with the guard of that number where it doesn't hold.
fn guard(number: u32, holds: bool) -> Result<(), Guard>
    ensures ok { IsOk result ↔ IsTrue holds }
    ensures number { IfErr result (λ g. g.number ≡ number) }
{
    if holds { Ok(()) } else { Err(Guard { number }) }
}

impl World {
    fn test_reserve(&self, net: &Network, s: SegId, b: BoxId) -> Result<(), Guard>
        requires fits { Fits net.now self.now }
        requires there { IsSegmentOf net.now s × IsBoxOf net.now b }
        ensures { (t : TrainId) → Tests (guards net.now (world_of net.now self.now) (move.Reserve t s b)) result }
    {
        guard(1, has_end(net, s, b))?;
        guard(2, self.is_free(net, s, b))
    }

    fn test_release(&self, net: &Network, t: TrainId, s: SegId, b: BoxId) -> Result<(), Guard>
        requires fits { Fits net.now self.now }
        requires there { IsTrainOf net.now t × IsSegmentOf net.now s × IsBoxOf net.now b }
        ensures { Tests (guards net.now (world_of net.now self.now) (move.Release t s b)) result }
    {
        guard(3, has_end(net, s, b))?;
        guard(4, self.holds(net, t, s, b))?;
        guard(5, self.is_away(t, s))
    }

    fn test_lock(
        &self,
        net: &Network,
        t: TrainId,
        b: BoxId,
        s: SegId,
        s2: SegId,
    ) -> Result<(), Guard>
        requires fits { Fits net.now self.now }
        requires there { IsBoxOf net.now b × IsSegmentOf net.now s × IsSegmentOf net.now s2 }
        ensures { Tests (guards net.now (world_of net.now self.now) (move.Lock t b s s2)) result }
    {
        guard(6, s != s2 && has_end(net, s, b) && has_end(net, s2, b))?;
        guard(7, self.is_unlocked(b))?;
        guard(8, self.holds(net, t, s, b) && self.holds(net, t, s2, b))?;
        guard(9, can_connect(net, b, s, s2))
    }

    fn test_unlock(&self, net: &Network, t: TrainId, b: BoxId) -> Result<(), Guard>
        requires fits { Fits net.now self.now }
        requires there { IsTrainOf net.now t × IsBoxOf net.now b }
        ensures { Tests (guards net.now (world_of net.now self.now) (move.Unlock t b)) result }
    {
        guard(10, self.has_lock_of(b, t))?;
        guard(11, self.is_off(t, b))
    }

    fn test_throw(&self, net: &Network, b: BoxId) -> Result<(), Guard>
        requires fits { Fits net.now self.now }
        requires there { IsBoxOf net.now b }
        ensures { Tests (guards net.now (world_of net.now self.now) (move.Throw b)) result }
    {
        guard(12, self.has_lock(b) && self.points(b) != Points::Moving)?;
        guard(13, self.points_bar_lock(net, b))
    }

    fn test_settle(&self, net: &Network, b: BoxId, side: Side) -> Result<(), Guard>
        requires fits { Fits net.now self.now }
        requires there { IsBoxOf net.now b }
        ensures { Tests (guards net.now (world_of net.now self.now) (move.Settle b side)) result }
    {
        guard(14, self.has_lock(b) && self.points(b) == Points::Moving)?;
        guard(15, self.side_fits_lock(net, b, side))
    }

    fn test_enter(
        &self,
        net: &Network,
        t: TrainId,
        b: BoxId,
        s: SegId,
        s2: SegId,
    ) -> Result<(), Guard>
        requires fits { Fits net.now self.now }
        requires there { IsTrainOf net.now t × IsBoxOf net.now b × IsSegmentOf net.now s × IsSegmentOf net.now s2 }
        ensures { Tests (guards net.now (world_of net.now self.now) (move.Enter t b s s2)) result }
    {
        guard(16, self.is_next_step(net, t, b, s, s2))?;
        guard(17, self.occupies(t, s) && self.is_off_all(t))?;
        guard(18, self.holds_ends(net, t, s2))?;
        guard(19, self.has_path(b, t, s, s2))?;
        guard(20, points_connect(net, b, s, s2, self.points(b)))
    }

    fn test_leave(&self, net: &Network, t: TrainId, s: SegId) -> Result<(), Guard>
        requires fits { Fits net.now self.now }
        requires there { IsTrainOf net.now t }
        ensures { Tests (guards net.now (world_of net.now self.now) (move.Leave t s)) result }
    {
        guard(21, self.comes_from(t, s))
    }

    fn test_refuse(
        &self,
        net: &Network,
        t: TrainId,
        s: SegId,
        b: BoxId,
        u: TrainId,
    ) -> Result<(), Guard>
        requires fits { Fits net.now self.now }
        requires there { IsSegmentOf net.now s × IsBoxOf net.now b }
        ensures { Tests (guards net.now (world_of net.now self.now) (move.Refuse t s b u)) result }
    {
        guard(22, has_end(net, s, b))?;
        guard(23, u != t && self.holds(net, u, s, b))
    }

    fn test_bar(&self, net: &Network, t: TrainId, b: BoxId, u: TrainId) -> Result<(), Guard>
        requires fits { Fits net.now self.now }
        requires there { IsBoxOf net.now b }
        ensures { Tests (guards net.now (world_of net.now self.now) (move.Bar t b u)) result }
    {
        guard(24, u != t && self.has_lock_of(b, u))
    }

    /// Tests the guards of the move in their order, and changes nothing.
    pub(crate) fn test(&self, net: &Network, m: &Move) -> Result<(), Guard>
        requires fits { Fits net.now self.now }
        requires of { IsMoveOf net.now m.now }
        ensures { Tests (guards net.now (world_of net.now self.now) m.now) result }
    {
        match *m {
            Move::Reserve { t: _, s, b } => self.test_reserve(net, s, b),
            Move::Release { t, s, b } => self.test_release(net, t, s, b),
            Move::Lock { t, b, s, s2 } => self.test_lock(net, t, b, s, s2),
            Move::Unlock { t, b } => self.test_unlock(net, t, b),
            Move::Throw { b } => self.test_throw(net, b),
            Move::Settle { b, side } => self.test_settle(net, b, side),
            Move::Enter { t, b, s, s2 } => self.test_enter(net, t, b, s, s2),
            Move::Leave { t, s } => self.test_leave(net, t, s),
            Move::Refuse { t, s, b, u } => self.test_refuse(net, t, s, b, u),
            Move::Bar { t, b, u } => self.test_bar(net, t, b, u),
        }
    }
}
