ghost use Rattle.std.specs.Prelude.{◌≡◌, length, ◌+◌, ◌<◌, ◌≤◌, slice_get, slice_set, slice_index_or, Some, IfOk};
ghost use Rattle.rl_base.specs.Tries.{AreFewTries};
ghost use Rattle.rl_base.specs.Layout.{node_count, word_count};
ghost use Rattle.rl_words.specs.Stamps.{payload_in, stamp_in};
ghost use Rattle.rl_tables.specs.Starts.{layout_of};
ghost use Rattle.rl_steps.specs.Step.{node_step};
ghost use Rattle.rl_steps.specs.Held.{HasMind};
ghost use Rattle.rl_steps.specs.Turn.{start_drive};
ghost use Rattle.rl_tables.specs.Kept.{IsLine};
ghost use Rattle.rl_steps.specs.Sound.{IsSound};
ghost use Rattle.rl_core.specs.Cores.{state_of, LeadsTo, HasSizes, IsReached};
ghost use Rattle.rl_core.specs.Made.{event_in, put_in, made, advanced};
ghost use Rattle.rl_core.specs.Speed.{IsWatch};

use crate::speed::{Rare, Watch, no_watches};
use crate::starts::{start_minds, zeros};
use rl_base::{NoMemory, NodeNo, WordNo};
use rl_record::Event;
use rl_steps::{Mind, next_place, next_stamp, sound_runs, start_words};
use rl_tables::Line;
use rl_words::word_of;
use std::alloc::Global;
use std::marker::Model;

/// All words of a line, the minds and clocks of its nodes, and the places at which its boxes scan. Contracts see it
/// as these tables, and as the run that led to them.
#[derive(Debug, Drop)]
pub struct Core<'a> {
    line: &'a Line,
    tries: u32,
    words: Vec<u64>,
    minds: Vec<Mind>,
    clocks: Vec<u32>,
    scans: Vec<u32>,
    watches: Vec<Watch>,
    events: u64,
}

impl<'a> Model for Core<'a> {
    ghost use Rattle.rl_core.specs.Cores.{Core, IsReached};
    ghost use Rattle.rl_core.specs.Speed.{AreWatches};

    ghost Value = { Core };

    ghost view = { λ c. record {
      line = c.line.now;
      tries = c.tries;
      words = c.words.items;
      minds = c.minds.items;
      clocks = c.clocks.items;
      scans = c.scans.items;
      events = c.events;
    } };

    ghost invariant = { λ c. IsReached (record {
      line = c.line.now;
      tries = c.tries;
      words = c.words.items;
      minds = c.minds.items;
      clocks = c.clocks.items;
      scans = c.scans.items;
      events = c.events;
    }) × AreWatches c.line.now c.minds.items c.watches.items };
}

impl<'a> Core<'a> {
    /// The start: the words as the line has them, every mind at its start with so many tries, every clock at 0, and
    /// each box at its first scan place.
    pub fn new(alloc: Global, line: &'a Line, tries: u32) -> Result<Core<'a>, NoMemory>
        requires some_tries { 1 ≤ tries }
        requires few_tries { AreFewTries tries }
        ensures start { IfOk result (LeadsTo start_drive) }
        ensures line { IfOk result (λ core. core.line ≡ line.now) }
        ensures tries { IfOk result (λ core. core.tries ≡ tries) }
    {
        let words = start_words(alloc, line)?;
        let minds = start_minds(alloc, line, tries)?;
        let clocks = zeros(alloc, line)?;
        let scans = zeros(alloc, line)?;
        let watches = no_watches(alloc, line)?;
        Ok(Core {
            line,
            tries,
            words,
            minds,
            clocks,
            scans,
            watches,
            events: 0,
        })
    }

    /// The line on which the core runs.
    pub fn line(&self) -> &Line
        ensures { result.now ≡ self.now.line }
    {
        self.line
    }

    /// How many events were made so far.
    pub fn events(&self) -> u64
        ensures { result ≡ self.now.events }
    {
        self.events
    }

    /// Some run leads to the core: for the proofs of who uses it. It does nothing.
    pub fn reached(&self)
        ensures { IsReached self.now }
    {
        let _events = &self.events;
    }

    pub(crate) fn word_at(&self, w: WordNo) -> u64
        requires { w.0 < length self.now.words }
        ensures { slice_get self.now.words w.0 ≡ Some result }
    {
        self.words[w.0 as usize]
    }

    /// The word with its stamp.
    pub fn word(&self, w: WordNo) -> u64
        requires { w.0 < word_count (layout_of self.now.line) }
        ensures { slice_get self.now.words w.0 ≡ Some result }
    {
        self.reached();
        self.word_at(w)
    }

    /// The minds of all nodes, in order.
    pub fn minds(&self) -> &[Mind]
        ensures { result.now ≡ self.now.minds }
    {
        self.minds.as_slice()
    }

    /// The mind in the table.
    fn mind_at(&self, n: NodeNo) -> &Mind
        requires { n.0 < length self.now.minds }
        ensures { slice_get self.now.minds n.0 ≡ Some result.now }
    {
        &self.minds[n.0 as usize]
    }

    /// The scan place in the table.
    fn scan_at(&self, n: NodeNo) -> u32
        requires { n.0 < length self.now.scans }
        ensures { slice_get self.now.scans n.0 ≡ Some result }
    {
        self.scans[n.0 as usize]
    }

    /// What is so of the core's state, whatever run led to it.
    pub(crate) fn sound(&self)
        ensures sound { IsSound self.now.line self.now.events (state_of self.now) }
        ensures sizes { HasSizes self.now }
        ensures line { IsLine self.now.line }
    {
        sound_runs();
        self.reached();
    }

    /// The mind of the node, which is well formed.
    #[inline(always)]
    pub(crate) fn mind(&self, n: NodeNo) -> &Mind
        requires { n.0 < node_count (layout_of self.now.line) }
        ensures mind { (state_of self.now).minds n.0 ≡ result.now }
        ensures formed { HasMind self.now.line n.0 result.now }
    {
        self.sound();
        self.mind_at(n)
    }

    /// The clock of the node.
    fn clock_at(&self, n: NodeNo) -> u32
        requires { n.0 < length self.now.clocks }
        ensures { result ≡ slice_index_or self.now.clocks n.0 0 }
    {
        self.clocks[n.0 as usize]
    }

    /// Writes a word, and the mind and the clock of a node, of which nothing is known then.
    fn put(&mut self, node: NodeNo, w: WordNo, now: u64, stamp: u32, mind: Mind)
        requires sizes { HasSizes self.old }
        requires node { node.0 < node_count (layout_of self.old.line) }
        requires word { w.0 < word_count (layout_of self.old.line) }
        requires few { self.old.events < 4294967295 }
        requires reached { IsReached (put_in self.old node.0 w.0 now stamp mind) }
        ensures { self.new ≡ put_in self.old node.0 w.0 now stamp mind }
    {
        let n = node.0 as usize;
        self.words[w.0 as usize] = now;
        self.minds[n] = mind;
        self.watches[n] = Watch::Rarely(Rare::Closely);
        self.clocks[n] = stamp;
        self.events += 1;
    }

    /// The event that the node makes by a step to the payload on a word that was this.
    pub(crate) fn event(&self, node: NodeNo, w: WordNo, was: u64, payload: u32) -> Event
        requires there { node.0 < node_count (layout_of self.now.line) }
        requires few { self.now.events < 4294967295 }
        requires word { slice_get self.now.words w.0 ≡ Some was }
        ensures { result ≡ event_in self.now node.0 w.0 was payload }
    {
        self.sound();
        let stamp = next_stamp(self.clock_at(node), was);
        Event {
            node,
            stamp,
            word: w,
            was,
            now: word_of(stamp, payload),
        }
    }

    /// Makes the step of the node on the word: the word, the mind and the clock of the node are new.
    #[inline(never)]
    pub(crate) fn step(
        &mut self,
        node: NodeNo,
        w: WordNo,
        was: u64,
        payload: u32,
        mind: Mind,
    ) -> Event
        requires there { node.0 < node_count (layout_of self.old.line) }
        requires few { self.old.events < 4294967295 }
        requires word { slice_get self.old.words w.0 ≡ Some was }
        requires step { node_step self.old.line node.0 ((state_of self.old).minds node.0) w.0 (payload_in was)
            ≡ Some (payload, mind) }
        ensures core { self.new ≡ made self.old node.0 w.0 was payload mind }
        ensures event { result ≡ event_in self.old node.0 w.0 was payload }
    {
        self.reached();
        let event = self.event(node, w, was, payload);
        self.put(node, w, event.now, event.stamp, mind);
        event
    }

    /// The place at which the box of the node scans.
    pub(crate) fn scan(&self, node: NodeNo) -> u32
        requires { node.0 < node_count (layout_of self.now.line) }
        ensures place { result ≡ slice_index_or self.now.scans node.0 0 }
        ensures within { result ≤ length self.now.line.trains }
    {
        self.reached();
        self.scan_at(node)
    }

    /// Writes a scan place.
    pub(crate) fn put_scan(&mut self, node: NodeNo, place: u32)
        requires there { node.0 < length self.old.scans }
        requires reached { IsReached (record self.old { scans = slice_set self.old.scans node.0 place }) }
        ensures { self.new ≡ record self.old { scans = slice_set self.old.scans node.0 place } }
    {
        self.scans[node.0 as usize] = place;
    }

    /// The box of the node goes on to its next scan place.
    pub(crate) fn advance(&mut self, node: NodeNo)
        requires { node.0 < node_count (layout_of self.old.line) }
        ensures { self.new ≡ advanced self.old node.0 }
    {
        self.reached();
        let place = next_place(self.line(), self.scan(node));
        self.put_scan(node, place);
    }

    // For speed alone, as all that stands in `speed.rt`.

    /// What is kept of the node while its mind stays.
    #[inline(always)]
    pub(crate) fn watch(&self, n: NodeNo) -> Watch
        requires { n.0 < node_count (layout_of self.now.line) }
        ensures { IsWatch self.now.line n.0 ((state_of self.now).minds n.0) result }
    {
        self.watches[n.0 as usize]
    }

    /// Keeps a watch of the node, which is right of its mind.
    pub(crate) fn keep(&mut self, n: NodeNo, watch: Watch)
        requires there { n.0 < node_count (layout_of self.old.line) }
        requires watch { IsWatch self.old.line n.0 ((state_of self.old).minds n.0) watch }
        ensures { self.new ≡ self.old }
    {
        self.watches[n.0 as usize] = watch;
    }
}
