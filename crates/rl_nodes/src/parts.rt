ghost use Rattle.std.specs.Prelude.{◌≡◌, reverse};
ghost use Rattle.rl_rule.specs.Seats.{walk_of};

use rl_base::Sequence;
use rl_record::Record;
use rl_rule::NodeSeat;
use rl_steps::Mind;

/// What is left of a node when it is parted: its seat, its mind and its record.
#[derive(Drop)]
pub struct Part {
    pub(crate) seat: NodeSeat,
    pub(crate) mind: Mind,
    pub(crate) record: Record,
    ghost mind_is: { (walk_of seat).mind ≡ mind },
    ghost history_is: { (walk_of seat).history ≡ reverse «record».events },
}

pub type Parts = Sequence<Part>;
