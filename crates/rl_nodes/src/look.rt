ghost use Rattle.std.specs.Prelude.{◌≡◌, ◌<◌, length, Some, None};
ghost use Rattle.rl_base.specs.declared.limits.TheConstants.{MAX_EVENTS};
ghost use Rattle.rl_base.specs.Layout.{node_count, word_count};
ghost use Rattle.rl_tables.specs.Starts.{layout_of};
ghost use Rattle.rl_steps.specs.Held.{HasMind};
ghost use Rattle.rl_steps.specs.Step.{LooksAt};
ghost use Rattle.rl_rule.specs.Seats.{rails_id, rails_line, seat_id, seat_line, walk_of};
ghost use Rattle.rl_nodes.specs.Looks.{IsLook};

use rl_base::WordNo;
use rl_record::Event;
use rl_rule::{NodeSeat, Rails};
use rl_steps::{Mind, act, kept_minds};
use rl_tables::Line;
use rl_words::payload_of;

/// What a look at a word comes to: the node leaves it, or makes its step there and has another mind.
pub(crate) enum Look {
    /// The whole word.
    Left(u64),
    Made(Event, Mind),
}

/// One load of the word, the node's target, and its step there, if it has one.
pub(crate) fn look_at(
    rails: &Rails,
    line: &Line,
    seat: &mut NodeSeat,
    mind: &Mind,
    w: WordNo,
) -> Look
    requires own { seat_id seat.old ≡ rails_id rails.now }
    requires line { rails_line rails.now ≡ line.now }
    requires seat_line { seat_line seat.old ≡ line.now }
    requires there { (walk_of seat.old).node.0 < node_count (layout_of line.now) }
    requires mind { (walk_of seat.old).mind ≡ mind.now }
    requires formed { HasMind line.now (walk_of seat.old).node.0 mind.now }
    requires word { w.0 < word_count (layout_of line.now) }
    requires looks { LooksAt line.now (walk_of seat.old).node.0 mind.now w.0 }
    requires room { length (walk_of seat.old).history < MAX_EVENTS }
    ensures own { seat_id seat.new ≡ seat_id seat.old }
    ensures line { seat_line seat.new ≡ seat_line seat.old }
    ensures look { IsLook line.now w.0 (walk_of seat.old) (walk_of seat.new) result }
{
    kept_minds();
    let _lay = line.layout();
    let value = rails.load(seat, w);
    match act(line, seat.node(), mind, w, payload_of(value)) {
        None => Look::Left(value),
        Some((payload, after)) => Look::Made(rails.step(seat, payload, after), after),
    }
}
