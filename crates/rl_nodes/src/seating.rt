ghost use Rattle.std.specs.Prelude.{◌≡◌, [], IfOk};
ghost use Rattle.rl_rule.specs.Seats.{rails_line, handed, taken, IsSameRails};
ghost use Rattle.rl_nodes.specs.Laying.{AreSeatsOf};

use crate::laying::Seats;
use rl_base::{NoMemory, NodeNo};
use rl_rule::Rails;
use rl_tables::Line;
use std::alloc::Global;

/// Hands every node of these rails its seat, in order.
pub fn all_seats(alloc: Global, rails: &mut Rails, line: &Line) -> Result<Seats, NoMemory>
    requires line { line.now ≡ rails_line rails.old }
    requires first { handed rails.old ≡ 0 }
    requires none_taken { taken rails.old ≡ [] }
    ensures rails { IsSameRails rails.old rails.new }
    ensures seats { IfOk result (AreSeatsOf rails.new) }
{
    let mut seats = Seats::new(alloc);
    for n in 0..line.layout().nodes() {
        seats.push(rails.seat(NodeNo(n)))?;
    }
    Ok(seats)
}
