ghost use Rattle.std.specs.Prelude.{◌≡◌, ◌≤◌, []};
ghost use Rattle.std.specs.Vec.{vec_capacity};
ghost use Rattle.core.specs.Mem.Slots.{IsFull, slots_items, slots_len};
ghost use Rattle.rl_base.specs.Layout.{word_count};
ghost use Rattle.rl_tables.specs.Starts.{layout_of};
ghost use Rattle.rl_rule.specs.declared.views.Role.TheVariants.{Root};

use crate::plays::{Hands, Loads, Steps, Takes};
use crate::rule::{Board, Key, Place};
use crate::seats::NodeSeat;
use crate::views::Load;
use atomic_table::{Closed, Table};
use rl_base::{NoMemory, NodeNo, Sequence, WordNo};
use rl_merge::{chained_runs, chains_of_runs, merged_runs};
use rl_record::Event;
use rl_steps::{Mind, next_stamp, sound_runs, start_words, steps_of_owners};
use rl_tables::Line;
use rl_words::{one_owner, word_of};
use std::alloc::Global;
use std::snapshot::Snapshot;

pub type Words = Sequence<u64>;

/// The words of a line, which any number of threads may load and step at once, each by the seat of its node. What
/// they did is at every moment one run.
#[derive(Drop)]
pub struct Rails {
    table: Board,
    root: Place,
    room: Vec<u64>,
    ghost own: { root.table_id ≡ table.shared.table_id },
    ghost line: { table.shared.key.line.value ≡ root.me.0.line },
    ghost tries: { table.shared.key.tries ≡ root.me.0.tries },
    ghost role: { root.me.0.role ≡ Root },
    ghost words: { table.shared.table_id.words ≡ word_count (layout_of root.me.0.line) },
    ghost slots: { table.shared.table_id.slots ≡ 0 },
    ghost empty: { room.items ≡ [] },
    ghost has_room: { table.shared.table_id.words ≤ vec_capacity room },
}

impl Rails {
    ghost use Rattle.std.specs.Prelude.{◌≡◌, ◌≤◌, ◌<◌, ◌+◌, [], List, ◌∷◌, length, Some, IfOk};
    ghost use Rattle.rl_record.specs.declared.event.Event.{Event};
    ghost use Rattle.rl_record.specs.Merge.{IsMerge};
    ghost use Rattle.rl_base.specs.declared.limits.TheConstants.{MAX_EVENTS};
    ghost use Rattle.rl_base.specs.Layout.{node_count, word_count};
    ghost use Rattle.rl_base.specs.Tries.{AreFewTries};
    ghost use Rattle.rl_tables.specs.Kept.{IsLine};
    ghost use Rattle.rl_tables.specs.Starts.{layout_of};
    ghost use Rattle.rl_rule.specs.declared.views.Load.{Load};
    ghost use Rattle.rl_rule.specs.Views.{start_walk, loaded, event_by, stepped, kept_of};
    ghost use Rattle.rl_rule.specs.Loads.{Tells, IsAlone, last_value};
    ghost use Rattle.rl_rule.specs.Plays.{IsStep};
    ghost use Rattle.rl_rule.specs.Closing.{kept_history, IsReplay};
    ghost use Rattle.rl_rule.specs.Seats.{rails_id, rails_line, rails_tries, handed, taken, IsSameRails};
    ghost use Rattle.rl_rule.specs.Seats.{seat_id, seat_line, seat_tries, walk_of};
    ghost use Rattle.rl_rule.specs.Moments.{IsSeen};

    /// The words at the start, in one table. The room for the closing words is taken here.
    pub fn lay(alloc: Global, line: &Line, tries: u32) -> Result<Rails, NoMemory>
        requires few_tries { AreFewTries tries }
        ensures line { IfOk result (λ rails. rails_line rails ≡ line.now) }
        ensures tries { IfOk result (λ rails. rails_tries rails ≡ tries) }
        ensures handed { IfOk result (λ rails. handed rails ≡ 0) }
        ensures taken { IfOk result (λ rails. taken rails ≡ []) }
    {
        let words = start_words(alloc, line)?;
        let room = Vec::with_capacity(alloc, words.len())?;
        let key = Key {
            line: Snapshot::of(line),
            tries,
        };
        let (table, root) = Table::of_words(alloc, words.as_slice(), &key)?;
        Ok(Rails { table, root, room })
    }

    /// Hands the next node its seat: its mind is at its start, its clock is 0, and it has made no event. One atomic
    /// load of the still word.
    pub fn seat(&mut self, node: NodeNo) -> NodeSeat
        requires next { node.0 ≡ handed self.old }
        requires there { node.0 < node_count (layout_of (rails_line self.old)) }
        ensures rails { IsSameRails self.old self.new }
        ensures handed { handed self.new ≡ handed self.old + 1 }
        ensures taken { taken self.new ≡ taken self.old }
        ensures own { seat_id result ≡ rails_id self.old }
        ensures line { seat_line result ≡ rails_line self.old }
        ensures tries { seat_tries result ≡ rails_tries self.old }
        ensures walk { walk_of result ≡ start_walk (rails_line self.old) (rails_tries self.old) node.0 }
    {
        let table = &self.table;
        let seat = table.shared.split_seat::<Hands>(&mut self.root);
        NodeSeat {
            seat,
            node,
            clock: 0,
            load: None,
        }
    }

    /// The whole word as it stands: one atomic load, which never waits. At that moment the words and the minds of all
    /// nodes are those of the replay of the merge of what the nodes have done so far.
    pub fn load(&self, seat: &mut NodeSeat, w: WordNo) -> u64
        requires own { seat_id seat.old ≡ rails_id self.now }
        requires there { w.0 < word_count (layout_of (rails_line self.now)) }
        ensures own { seat_id seat.new ≡ seat_id seat.old }
        ensures line { seat_line seat.new ≡ seat_line seat.old }
        ensures tries { seat_tries seat.new ≡ seat_tries seat.old }
        ensures walk { walk_of seat.new ≡ loaded (walk_of seat.old) w.0 result }
        ensures tells { Tells (walk_of seat.old).history w.0 result }
        ensures alone { IsAlone (seat_line seat.old) w.0 (walk_of seat.old).node.0
            → result ≡ last_value (seat_line seat.old) (walk_of seat.old).history w.0 }
        ensures moment { IsSeen (seat_line seat.old) (seat_tries seat.old) (walk_of seat.old) w.0 result }
    {
        chains_of_runs();
        chained_runs();
        sound_runs();
        steps_of_owners();
        one_owner();
        let value = self
            .table
            .shared
            .load::<Loads>(&mut seat.seat, w.0 as usize);
        seat.load = Some(Load { word: w, value });
        value
    }

    /// The step of the node on the word that it loaded last: one atomic store, which always succeeds, since nobody
    /// else may change the word at that value. The moment after it is as `load` has it.
    pub fn step(&self, seat: &mut NodeSeat, now: u32, mind: Mind) -> Event
        requires own { seat_id seat.old ≡ rails_id self.now }
        requires step { (load : Load) × IsStep (seat_line seat.old) (walk_of seat.old) load now mind }
        requires room { length (walk_of seat.old).history < MAX_EVENTS }
        ensures own { seat_id seat.new ≡ seat_id seat.old }
        ensures line { seat_line seat.new ≡ seat_line seat.old }
        ensures tries { seat_tries seat.new ≡ seat_tries seat.old }
        ensures event { (load : Load) → (walk_of seat.old).load ≡ Some load
            → result ≡ event_by (walk_of seat.old) load now }
        ensures walk { walk_of seat.new ≡ stepped (walk_of seat.old) result mind }
        ensures moment { IsSeen (seat_line seat.old) (seat_tries seat.old) (walk_of seat.new) result.word.0 result.now }
    {
        chains_of_runs();
        chained_runs();
        sound_runs();
        steps_of_owners();
        one_owner();
        let Some(load) = seat.load else {
            unreachable!()
        };
        let stamp = next_stamp(seat.clock, load.value);
        let new = word_of(stamp, now);
        self.table
            .shared
            .store::<Steps>(&mut seat.seat, load.word.0 as usize, new);
        seat.clock = stamp;
        seat.load = None;
        Event {
            node: seat.node,
            stamp,
            word: load.word,
            was: load.value,
            now: new,
        }
    }

    /// Takes a seat in, and keeps its node, its mind and its history. One atomic load of the still word.
    pub fn take_in(&mut self, seat: NodeSeat)
        requires { seat_id seat ≡ rails_id self.old }
        ensures rails { IsSameRails self.old self.new }
        ensures handed { handed self.new ≡ handed self.old }
        ensures taken { taken self.new ≡ kept_of (walk_of seat) ∷ taken self.old }
    {
        let NodeSeat {
            seat,
            node: _,
            clock: _,
            load: _,
        } = seat;
        let table = &self.table;
        table.shared.join_seat::<Takes>(&mut self.root, seat);
    }

    /// The words at the end, once every seat was taken in. Some run has just the histories that were kept, and leaves
    /// these words and the minds that were kept; and so does the merge of the histories. The line and the tries are
    /// within their limits, as they were when the words were laid.
    pub fn close(self) -> Words
        requires { length (taken self) ≡ handed self }
        ensures line { IsLine (rails_line self) }
        ensures tries { AreFewTries (rails_tries self) }
        ensures run { (log : List Event) × IsReplay (rails_line self) (rails_tries self) (taken self) result log }
        ensures merge { (merged : List Event) → IsMerge (kept_history (taken self)) merged
            → IsReplay (rails_line self) (rails_tries self) (taken self) result merged }
    {
        merged_runs();
        let Rails { table, root, room } = self;
        let closed = table.close_with(root);
        let words = closed_words(&closed, room);
        closed.free();
        Words::from_vec(words)
    }
}

/// The words of a closed table, in a vector that has room for them.
fn closed_words(closed: &Closed<(), Global>, room: Vec<u64>) -> Vec<u64>
    requires full { IsFull closed.now.words }
    requires empty { room.items ≡ [] }
    requires has_room { slots_len closed.now.words ≤ vec_capacity room }
    ensures { result.items ≡ slots_items closed.now.words }
{
    let mut words = room;
    for w in 0..closed.words.len() {
        words.push_reserved(closed.word(w));
    }
    words
}
