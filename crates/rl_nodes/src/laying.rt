ghost use Rattle.std.specs.Prelude.{◌≡◌, ◌<◌, ◌≤◌, IfOk};
ghost use Rattle.rl_base.specs.declared.limits.TheConstants.{MAX_EVENTS};
ghost use Rattle.rl_base.specs.Tries.{AreFewTries};
ghost use Rattle.rl_base.specs.Layout.{node_count};
ghost use Rattle.rl_tables.specs.Starts.{layout_of};
ghost use Rattle.rl_rule.specs.Seats.{rails_line, rails_tries, walk_of};
ghost use Rattle.rl_nodes.specs.Nodes.{AreNodesOf};
ghost use Rattle.rl_nodes.specs.Laying.{AreSeatsOf, AreStartNodes, AreLaid, IsStartSeat, start_node};

use crate::nodes::{Nodes, RunNode};
use rl_base::{NoMemory, Sequence};
use rl_record::Record;
use rl_rule::{NodeSeat, Rails};
use rl_steps::{kept_minds, start_mind};
use rl_tables::Line;
use std::alloc::Global;

pub type Seats = Sequence<NodeSeat>;

/// A node at the start, at its seat.
fn lay_node<'a>(
    alloc: Global,
    rails: &'a Rails,
    line: &'a Line,
    seat: NodeSeat,
    tries: u32,
    events: u32,
) -> RunNode<'a>
    requires line { line.now ≡ rails_line rails.now }
    requires tries { tries ≡ rails_tries rails.now }
    requires few_tries { AreFewTries tries }
    requires few_events { events ≤ MAX_EVENTS }
    requires there { (walk_of seat).node.0 < node_count (layout_of line.now) }
    requires seat { IsStartSeat rails.now (walk_of seat).node.0 seat }
    ensures { result ≡ start_node rails.now events (walk_of seat).node.0 }
{
    kept_minds();
    let mind = start_mind(line, tries, seat.node());
    RunNode {
        rails,
        line,
        seat,
        mind,
        scan: 0,
        log: Record::new(alloc, events),
        turns: 0,
    }
}

/// A node at each seat, in order.
fn laid<'a>(
    alloc: Global,
    rails: &'a Rails,
    line: &'a Line,
    seats: Seats,
    tries: u32,
    events: u32,
) -> Result<Nodes<'a>, NoMemory>
    requires line { line.now ≡ rails_line rails.now }
    requires tries { tries ≡ rails_tries rails.now }
    requires few_tries { AreFewTries tries }
    requires few_events { events ≤ MAX_EVENTS }
    requires seats { AreSeatsOf rails.now seats }
    ensures { IfOk result (AreLaid rails.now events seats) }
{
    let mut nodes = Nodes::new(alloc);
    for seat in seats.into_vec() {
        nodes.push(lay_node(alloc, rails, line, seat, tries, events))?;
    }
    Ok(nodes)
}

/// A node at each seat, in order, at its start, with an empty record of `events` events.
pub fn lay_nodes<'a>(
    alloc: Global,
    rails: &'a Rails,
    line: &'a Line,
    seats: Seats,
    tries: u32,
    events: u32,
) -> Result<Nodes<'a>, NoMemory>
    requires line { line.now ≡ rails_line rails.now }
    requires tries { tries ≡ rails_tries rails.now }
    requires few_tries { AreFewTries tries }
    requires some_events { 1 ≤ events }
    requires few_events { events ≤ MAX_EVENTS }
    requires seats { AreSeatsOf rails.now seats }
    ensures nodes { IfOk result (AreNodesOf rails.now events) }
    ensures start { IfOk result (AreStartNodes rails.now events) }
{
    laid(alloc, rails, line, seats, tries, events)
}
