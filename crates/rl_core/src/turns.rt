ghost use Rattle.std.specs.Prelude.{◌≡◌, ℕ, ◌<◌, true, false, length, slice_index_or, if◌then◌else◌};
ghost use Rattle.rl_base.specs.declared.layout.NodeKind.TheVariants as nodes;
ghost use Rattle.rl_base.specs.Layout.{node_count, node_number};
ghost use Rattle.rl_tables.specs.Starts.{layout_of};
ghost use Rattle.rl_steps.specs.Step.{is_ready};
ghost use Rattle.rl_core.specs.Cores.{state_of};
ghost use Rattle.rl_core.specs.Looks.{IsLook, after_look, answer_to};
ghost use Rattle.rl_core.specs.Made.{advanced};
ghost use Rattle.rl_core.specs.Promises.{KeepsTurn};
ghost use Rattle.rl_core.specs.Turns.{IsTurn};

use crate::cores::Core;
use crate::look::Look;
use crate::promises::turns_keep_promises;
use rl_base::{NodeKind, NodeNo, TrainId};
use rl_record::Turn;
use rl_steps::who::{Who, identify};
use rl_steps::{Mind, act, is_ready, numbered, target};
use rl_train::TrainMind;
use rl_words::payload_of;

impl<'a> Core<'a> {
    /// The mind of the train.
    pub fn train(&self, t: TrainId) -> TrainMind
        requires { t.0 < length self.now.line.trains }
        ensures { (state_of self.now).minds (node_number (layout_of self.now.line) (nodes.Train t))
            ≡ Mind.Train result }
    {
        self.sound();
        numbered();
        let line = self.line();
        let node = line.layout().node(NodeKind::Train(t));
        match identify(line, node, self.mind(node)) {
            Who::Train(_, mind) => *mind,
            Who::Track(_, _) | Who::Box(_, _) | Who::Machine(_, _) => unreachable!(),
        }
    }

    /// What the node sees where it looks, a ready box at its scan place.
    #[inline(always)]
    fn look(&self, node: NodeNo) -> Look
        requires { node.0 < node_count (layout_of self.now.line) }
        ensures look { IsLook self.now.line (state_of self.now) node.0 (slice_index_or self.now.scans node.0 0) result }
        ensures steady { is_ready ((state_of self.now).minds node.0) ≡ false
            → (scan : ℕ) → IsLook self.now.line (state_of self.now) node.0 scan result }
    {
        self.sound();
        let line = self.line();
        let mind = self.mind(node);
        let Some(w) = target(line, node, mind, self.scan(node)) else {
            return Look::Rests;
        };
        let was = self.word_at(w);
        match act(line, node, mind, w, payload_of(was)) {
            Some((payload, after)) => Look::Steps(w, was, payload, after),
            None => Look::Idles(w, was),
        }
    }

    /// Changes what the step of the look changes, and says what the turn came to.
    fn make(&mut self, node: NodeNo, look: Look) -> Turn
        requires there { node.0 < node_count (layout_of self.old.line) }
        requires few { self.old.events < 4294967295 }
        requires look { IsLook self.old.line (state_of self.old) node.0 (slice_index_or self.old.scans node.0 0) look }
        ensures core { self.new ≡ after_look self.old node.0 look }
        ensures answer { result ≡ answer_to self.old node.0 look }
    {
        match look {
            Look::Rests => Turn::Rest,
            Look::Idles(_, was) => Turn::Idle(was),
            Look::Steps(w, was, payload, mind) => {
                Turn::Moved(self.step(node, w, was, payload, mind))
            }
        }
    }

    /// A ready box goes on to its next scan place.
    fn go_on(&mut self, node: NodeNo, ready: bool)
        requires { node.0 < node_count (layout_of self.old.line) }
        ensures { self.new ≡ (if ready then advanced self.old node.0 else self.old) }
    {
        if ready {
            self.advance(node);
        }
    }

    /// One turn of the node: it looks at its target, and makes the step there, if it has one. Moved has the event;
    /// Idle has the whole word on which the node has no step; Rest comes exactly for a train at rest. Full never
    /// comes. A ready box goes on to its next scan place in any case: the mail words of all trains in order, and then
    /// its lock word. An event's stamp is one more than the greater of the node's clock and the word's stamp (Lamport
    /// 1978), and the node's clock is then that stamp. It takes no memory.
    ///
    /// It is `passes`, and `turn_closely` where that says no. Who puts something between the two, as a place for the
    /// move that may come, calls them in its place.
    #[inline(always)]
    pub fn turn(&mut self, node: NodeNo) -> Turn
        requires there { node.0 < node_count (layout_of self.old.line) }
        requires few { self.old.events < 4294967295 }
        ensures turn { IsTurn self.old self.new node.0 result }
        ensures promised { KeepsTurn self.old self.new node.0 result }
    {
        // What turns promise, for the proof.
        turns_keep_promises();
        self.reached();
        match self.glance(node) {
            Some(glance) => self.pass(node, glance),
            None => self.turn_closely(node),
        }
    }

    /// The turn of the node, which looks closely at its target whatever is kept of it: for a node of which `passes` has
    /// said no, and else the same turn as `turn`.
    #[inline(never)]
    pub fn turn_closely(&mut self, node: NodeNo) -> Turn
        requires there { node.0 < node_count (layout_of self.old.line) }
        requires few { self.old.events < 4294967295 }
        ensures turn { IsTurn self.old self.new node.0 result }
        ensures promised { KeepsTurn self.old self.new node.0 result }
    {
        // What turns promise, for the proof.
        turns_keep_promises();
        self.reached();
        let ready = is_ready(self.mind(node));
        let look = self.look(node);
        self.keep_look(node, look);
        let answer = self.make(node, look);
        self.go_on(node, ready);
        answer
    }
}
