//! What is there for speed alone: turns and answers are the same with it and without.
//!
//! A node decides from its mind and the word at which it looks. So what it saw stays true while its mind stays, and a
//! turn in which it has no step is a load and a compare: a `Watch` of each node is kept, and a `Glance` by it tells
//! that the node has no step, or nothing. A new mind forgets the watch.

ghost use Rattle.std.specs.Prelude.{◌≡◌, ℕ, ◌<◌, ◌≤◌, true, false, if◌then◌else◌};
ghost use Rattle.std.specs.Prelude.{length, slice_index_or, replicate, is_some, Some, IfSome, IfOk};
ghost use Rattle.rl_base.specs.declared.layout.NodeKind.TheVariants as nodes;
ghost use Rattle.rl_base.specs.Layout.{node_count};
ghost use Rattle.rl_tables.specs.Starts.{layout_of};
ghost use Rattle.rl_steps.specs.Numbers.{node_at};
ghost use Rattle.rl_steps.specs.Step.{is_ready};
ghost use Rattle.rl_steps.specs.Turn.{next_place};
ghost use Rattle.rl_core.specs.Cores.{state_of};
ghost use Rattle.rl_core.specs.Looks.{IsLook, answer_to};
ghost use Rattle.rl_core.specs.Made.{advanced};
ghost use Rattle.rl_core.specs.Promises.{KeepsIdleTurn};
ghost use Rattle.rl_core.specs.Speed.{IsGlance, IsNext, IsWatch, look_of, ready_of, waits_of, watch_by, watch_scanning};
ghost use Rattle.rl_core.specs.Turns.{IsIdleTurn};

use crate::cores::Core;
use crate::look::Look;
use crate::promises::turns_keep_promises;
use rl_base::{Arm, BoxId, NoMemory, NodeNo, TrainId, WordNo};
use rl_box::{BoxMind, Work, box_glances};
use rl_record::Turn;
use rl_steps::who::{Who, identify};
use rl_steps::{is_ready, numbered};
use rl_tables::Line;
use rl_words::{Path, payload_of};
use std::alloc::Global;

/// What a node is known to see as long as its mind stays: a node decides from its mind and the word at which it looks.
/// The two that come most often stand beside the others, so that they are told apart first.
#[derive(Clone, Copy, Debug, PartialEq, Eq)]
pub enum Watch {
    /// It looks at this word, and has no step there while the word has this whole value.
    At(WordNo, u64),
    /// It is this box, which has nothing in hand, goes round its scan places and waits for no points.
    Scans(BoxId),
    /// What comes less often.
    Rarely(Rare),
}

/// The watches that come less often.
#[derive(Clone, Copy, Debug, PartialEq, Eq)]
pub enum Rare {
    /// Nothing is known: it has to look closely.
    Closely,
    /// It is a train at rest, and looks at none.
    Rests,
    /// It is this box, which has nothing in hand, goes round its scan places and waits for its points.
    Awaits(BoxId),
}

/// What a node without a step sees at a glance.
#[derive(Clone, Copy, Debug, PartialEq, Eq)]
pub enum Glance {
    /// It is a train at rest, and looks at none.
    Rests,
    /// The word that it looks at and its whole value.
    Idles(WordNo, u64),
    /// The same of a ready box, and the place at which it scans next.
    Scans(WordNo, u64, u32),
}

/// A watch for each node: at the start every node has to look closely.
pub(crate) fn no_watches(alloc: Global, line: &Line) -> Result<Vec<Watch>, NoMemory>
    ensures { IfOk result (λ xs. xs.items ≡ replicate (node_count (layout_of line.now)) (Watch.Rarely Rare.Closely)) }
{
    Ok(vec![in alloc; Watch::Rarely(Rare::Closely); line.layout().nodes() as usize]?)
}

/// What is kept of a node that isn't a ready box: that it rests, or has no step on this word.
fn watch_by(look: Look) -> Watch
    ensures { result ≡ watch_by look }
{
    match look {
        Look::Rests => Watch::Rarely(Rare::Rests),
        Look::Idles(w, was) => Watch::At(w, was),
        Look::Steps(_, _, _, _) => Watch::Rarely(Rare::Closely),
    }
}

/// What is kept of a ready box: that it is one, and whether it waits for its points.
fn watch_scanning(b: BoxId, waits: bool) -> Watch
    ensures { result ≡ watch_scanning b waits }
{
    if waits {
        Watch::Rarely(Rare::Awaits(b))
    } else {
        Watch::Scans(b)
    }
}

/// A ready box, which waits for its points or doesn't. For which path it waits is nothing that a glance sees.
fn ready_box(waits: bool) -> BoxMind
    ensures work { result.work ≡ Work.Ready }
    ensures waiting { is_some result.waiting ≡ waits }
{
    let path = Path {
        train: TrainId(0),
        x: Arm(0),
        y: Arm(0),
    };
    BoxMind {
        work: Work::Ready,
        waiting: if waits { Some(path) } else { None },
    }
}

impl<'a> Core<'a> {
    /// A glance of a ready box at a place that it scans.
    #[inline(always)]
    fn glance_place(
        &self,
        node: NodeNo,
        b: BoxId,
        waits: bool,
        scan: u32,
        next: u32,
    ) -> Option<Glance>
        requires at { node_at (layout_of self.now.line) node.0 ≡ Some (nodes.Box b) }
        requires ready { is_ready ((state_of self.now).minds node.0) ≡ true }
        requires waits { waits ≡ waits_of ((state_of self.now).minds node.0) }
        requires scan { scan ≤ length self.now.line.trains }
        requires next { next ≡ next_place self.now.line scan }
        ensures { IfSome result (IsGlance self.now.line (state_of self.now) node.0 scan) }
    {
        self.sound();
        numbered();
        box_glances();
        let word = BoxMind::start().target(&self.line().layout(), self.line().box_table(b), scan);
        let was = self.word_at(word);
        if ready_box(waits).may_step(b, payload_of(was)) {
            return None;
        }
        Some(Glance::Scans(word, was, next))
    }

    /// A glance of a ready box at its scan place.
    #[inline(always)]
    fn glance_box(&self, node: NodeNo, b: BoxId, waits: bool) -> Option<Glance>
        requires at { node_at (layout_of self.now.line) node.0 ≡ Some (nodes.Box b) }
        requires ready { is_ready ((state_of self.now).minds node.0) ≡ true }
        requires waits { waits ≡ waits_of ((state_of self.now).minds node.0) }
        requires there { node.0 < node_count (layout_of self.now.line) }
        ensures { IfSome result (IsGlance self.now.line (state_of self.now) node.0
            (slice_index_or self.now.scans node.0 0)) }
    {
        let scan = self.scan(node);
        if scan < self.line().layout().trains {
            self.glance_place(node, b, waits, scan, scan + 1)
        } else {
            self.glance_place(node, b, waits, scan, 0)
        }
    }

    /// The same by a watch that comes less often.
    #[inline(always)]
    fn glance_rarely(&self, node: NodeNo, rare: Rare) -> Option<Glance>
        requires watch { IsWatch self.now.line node.0 ((state_of self.now).minds node.0) (Watch.Rarely rare) }
        requires there { node.0 < node_count (layout_of self.now.line) }
        ensures { IfSome result (IsGlance self.now.line (state_of self.now) node.0
            (slice_index_or self.now.scans node.0 0)) }
    {
        match rare {
            Rare::Closely => None,
            Rare::Rests => Some(Glance::Rests),
            Rare::Awaits(b) => self.glance_box(node, b, true),
        }
    }

    /// A glance of the node at its target, by what is kept of it. `None` where it has to look closely.
    #[inline(always)]
    pub(crate) fn glance(&self, node: NodeNo) -> Option<Glance>
        requires { node.0 < node_count (layout_of self.now.line) }
        ensures { IfSome result (IsGlance self.now.line (state_of self.now) node.0
            (slice_index_or self.now.scans node.0 0)) }
    {
        self.sound();
        match self.watch(node) {
            Watch::At(word, was) => {
                let seen = self.word_at(word);
                if was == seen {
                    Some(Glance::Idles(word, was))
                } else {
                    None
                }
            }
            Watch::Scans(b) => self.glance_box(node, b, false),
            Watch::Rarely(rare) => self.glance_rarely(node, rare),
        }
    }

    /// What is kept of a node that has looked.
    fn watch_of(&self, node: NodeNo, look: Look) -> Watch
        requires there { node.0 < node_count (layout_of self.now.line) }
        requires looks { is_ready ((state_of self.now).minds node.0) ≡ false
            → (scan : ℕ) → IsLook self.now.line (state_of self.now) node.0 scan look }
        ensures { IsWatch self.now.line node.0 ((state_of self.now).minds node.0) result }
    {
        self.sound();
        let line = self.line();
        let mind = self.mind(node);
        if !is_ready(mind) {
            return watch_by(look);
        }
        match identify(line, node, mind) {
            Who::Box(b, m) => watch_scanning(b, m.waiting.is_some()),
            Who::Train(_, _) | Who::Track(_, _) | Who::Machine(_, _) => Watch::Rarely(
                Rare::Closely,
            ),
        }
    }

    /// Keeps what a node has seen that has no step.
    pub(crate) fn keep_look(&mut self, node: NodeNo, look: Look)
        requires there { node.0 < node_count (layout_of self.old.line) }
        requires looks { is_ready ((state_of self.old).minds node.0) ≡ false
            → (scan : ℕ) → IsLook self.old.line (state_of self.old) node.0 scan look }
        ensures { self.new ≡ self.old }
    {
        match look {
            Look::Rests | Look::Idles(_, _) => {
                let watch = self.watch_of(node, look);
                self.keep(node, watch);
            }
            Look::Steps(_, _, _, _) => {}
        }
    }

    /// The turn of a node without a step, as a glance has told.
    #[inline(always)]
    pub(crate) fn pass(&mut self, node: NodeNo, glance: Glance) -> Turn
        requires there { node.0 < node_count (layout_of self.old.line) }
        requires next { IsNext self.old.line (slice_index_or self.old.scans node.0 0) glance }
        ensures core { self.new ≡ (if ready_of glance then advanced self.old node.0 else self.old) }
        ensures answer { result ≡ answer_to self.old node.0 (look_of glance) }
    {
        self.reached();
        match glance {
            Glance::Rests => Turn::Rest,
            Glance::Idles(_, was) => Turn::Idle(was),
            Glance::Scans(_, was, next) => {
                self.put_scan(node, next);
                Turn::Idle(was)
            }
        }
    }

    /// Makes the turn of the node if a glance tells that it has no step, and says whether it did. No event comes of
    /// it then; where it wasn't made, all is as it was, and `turn_closely` makes it.
    #[inline(always)]
    pub fn passes(&mut self, node: NodeNo) -> bool
        requires { node.0 < node_count (layout_of self.old.line) }
        ensures passed { result ≡ true → IsIdleTurn self.old self.new node.0 }
        ensures promised { result ≡ true → KeepsIdleTurn self.old self.new node.0 }
        ensures unchanged { result ≡ false → self.new ≡ self.old }
    {
        // What turns promise, for the proof.
        turns_keep_promises();
        self.reached();
        match self.glance(node) {
            Some(glance) => {
                let _answer = self.pass(node, glance);
                true
            }
            None => false,
        }
    }
}
