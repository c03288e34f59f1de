ghost use Rattle.std.specs.Prelude.{◌≡◌, ◌≤◌, length, OnOk, OnErr};
ghost use Rattle.rl_record.specs.Records.{Record};
ghost use Rattle.rl_runner.specs.Turns.{raised};
ghost use Rattle.rl_nodes.specs.Nodes.{IsReady, IsToppedUp};
ghost use Rattle.rl_nodes.specs.Turns.{IsTurn};

use crate::look::{Look, look_at};
use rl_base::{NoMemory, NodeNo, Sequence};
use rl_record::{Record, Turn};
use rl_rule::{NodeSeat, Rails};
use rl_runner::Turner;
use rl_steps::who::{Who, identify};
use rl_steps::{Mind, scan_after, target};
use rl_tables::Line;
use std::marker::Model;

/// A node at its seat: its mind, the place at which it scans, and the record of what it made, which is the history
/// that its seat knows, event for event. It may go to any thread.
#[derive(Drop)]
pub struct RunNode<'a> {
    pub(crate) rails: &'a Rails,
    pub(crate) line: &'a Line,
    pub(crate) seat: NodeSeat,
    pub(crate) mind: Mind,
    pub(crate) scan: u32,
    pub(crate) log: Record,
    pub(crate) turns: u64,
}

impl<'a> Model for RunNode<'a> {
    ghost use Rattle.rl_nodes.specs.Nodes.{Node, IsWhole, node_of};

    ghost Value = { Node };

    ghost view = { λ n. node_of n.rails.now n.line.now n.seat n.scan n.log n.turns };

    ghost invariant = { λ n. IsWhole n.rails.now n.line.now n.seat n.mind n.scan n.log };
}

impl<'a> RunNode<'a> {
    /// How many events it has made.
    pub fn len(&self) -> u32
        ensures { result ≡ length self.now.log.events }
    {
        self.log.len()
    }

    /// Takes room for the events of `n` more turns, or for as many as the record can still take.
    pub fn top_up(&mut self, n: u32) -> Result<(), NoMemory>
        ensures ready { OnOk result (IsReady n self.new) }
        ensures no_less { self.old.log.spare ≤ self.new.log.spare }
        ensures kept { IsToppedUp self.old self.new }
        ensures refused { OnErr result (self.new ≡ self.old) }
    {
        self.log.top_up(n)
    }

    /// One turn: it looks at one word, its target, and makes its step there, if it has one. Full exactly where the
    /// record has as many events as it may; else Rest exactly for a train at rest; these two look at no word. It takes
    /// no memory and never waits.
    pub fn turn(&mut self) -> Turn
        requires { IsReady 1 self.old }
        ensures { IsTurn self.old self.new result }
    {
        self.turns = one_more(self.turns);
        if self.log.len() == self.log.limit() {
            return Turn::Full;
        }
        let node = self.seat.node();
        let Some(w) = target(self.line, node, &self.mind, self.scan) else {
            return Turn::Rest;
        };
        self.scan = scan_after(self.line, &self.mind, self.scan);
        match look_at(self.rails, self.line, &mut self.seat, &self.mind, w) {
            Look::Left(value) => Turn::Idle(value),
            Look::Made(event, mind) => {
                self.mind = mind;
                self.log.push(event);
                Turn::Moved(event)
            }
        }
    }
}

/// One more, up to the last number of 64 bits.
fn one_more(turns: u64) -> u64
    ensures { result ≡ raised turns 1 }
{
    turns.saturating_add(1)
}

impl<'a> Turner for RunNode<'a> {
    ghost use Rattle.rl_nodes.specs.Nodes.{number, turns_of, rests, IsReady, IsHome};

    ghost number = { number };

    ghost ready = { IsReady };

    ghost turns = { turns_of };

    ghost home = { IsHome };

    ghost at_rest = { rests };

    fn turn(&mut self) -> Turn {
        self.turn()
    }

    fn number(&self) -> NodeNo {
        self.seat.node()
    }

    fn at_rest(&self) -> bool {
        match identify(self.line, self.seat.node(), &self.mind) {
            Who::Train(t, mind) => mind.at_rest(self.line.train_table(t)),
            Who::Track(_, _) | Who::Box(_, _) | Who::Machine(_, _) => true,
        }
    }

    ghost use Rattle.std.proofs.Common.{arith, refl, ◌∙◌};

    ghost ready_once = { λ n node some ready. omega arith };

    ghost home_first = { λ node. record { rails = refl; line = refl; tries = refl; limit = refl } };

    ghost home_on = { λ first second third a b. record {
      rails = b.rails ∙ a.rails;
      line = b.line ∙ a.line;
      tries = b.tries ∙ a.tries;
      limit = b.limit ∙ a.limit;
    } };
}

/// Nodes of some rails.
pub type Nodes<'a> = Sequence<RunNode<'a>>;
