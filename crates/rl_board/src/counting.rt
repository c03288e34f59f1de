ghost use Rattle.std.specs.Prelude.{◌≡◌, is_some, length};
ghost use Rattle.rl_model.specs.Network.{IsSegmentOf, IsBoxOf};
ghost use Rattle.rl_domain.specs.Rows.{world_of, Fits};
ghost use Rattle.rl_board.specs.Below.{count_below};
ghost use Rattle.rl_board.specs.Boards.{occupant, holder, occupied_in, reserved_in};

use rl_base::{BoxId, SegId};
use rl_domain::World;
use rl_net::Network;

fn is_occupied(net: &Network, world: &World, s: SegId) -> bool
    requires fits { Fits net.now world.now }
    requires there { IsSegmentOf net.now s }
    ensures { result ≡ is_some (occupant net.now (world_of net.now world.now) s.0) }
{
    world.occupied_by(net, s).is_some()
}

fn is_held(net: &Network, world: &World, s: SegId, b: BoxId) -> bool
    requires fits { Fits net.now world.now }
    requires there { IsSegmentOf net.now s × IsBoxOf net.now b }
    ensures { result ≡ is_some (holder net.now (world_of net.now world.now) s.0 b.0) }
{
    world.reserved_by(net, s, b).is_some()
}

/// How many segments some train occupies.
pub(crate) fn count_occupied(net: &Network, world: &World) -> u32
    requires { Fits net.now world.now }
    ensures { result ≡ occupied_in net.now (world_of net.now world.now) }
{
    let mut count = 0;
    for s in 0..net.segments() {
        if is_occupied(net, world, SegId(s)) {
            count += 1;
        }
    }
    count
}

/// At how many boxes some train holds the segment.
fn count_held(net: &Network, world: &World, s: SegId) -> u32
    requires fits { Fits net.now world.now }
    requires there { IsSegmentOf net.now s }
    ensures { result ≡ count_below (λ b. is_some (holder net.now (world_of net.now world.now) s.0 b))
        (length net.now.boxes) }
{
    let mut count = 0;
    for b in 0..net.boxes() {
        if is_held(net, world, s, BoxId(b)) {
            count += 1;
        }
    }
    count
}

/// How many pairs of a segment and a box some train holds.
pub(crate) fn count_reserved(net: &Network, world: &World) -> u32
    requires { Fits net.now world.now }
    ensures { result ≡ reserved_in net.now (world_of net.now world.now) }
{
    let mut count = 0;
    for s in 0..net.segments() {
        count += count_held(net, world, SegId(s));
    }
    count
}
