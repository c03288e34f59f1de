ghost use Rattle.std.specs.Prelude.{◌≡◌, ◌+◌, ◌-◌, ◌<◌, ◌≤◌, [], length, min, slice_get, Some, OnOk, OnErr};
ghost use Rattle.rl_record.specs.Records.{pushed};

use crate::event::Event;
use rl_base::{NoMemory, Sequence};
use std::alloc::Global;
use std::cmp::min;
use std::marker::Model;

/// The events of one node, oldest first, up to a limit. Room is taken ahead, so that a node that steps asks for no
/// memory. Contracts see the events, the limit, and how many more there is room for.
#[derive(Debug, Drop)]
pub struct Record {
    events: Vec<Event>,
    limit: u32,
    spare: u32,
}

impl Model for Record {
    ghost use Rattle.std.specs.Prelude.{vec_len, vec_capacity};
    ghost use Rattle.rl_record.specs.Records.{Record, HasRoom};

    ghost Value = { Record };

    ghost view = { λ r. record { events = r.events.items; limit = r.limit; spare = r.spare } };

    ghost invariant = { λ r. HasRoom (vec_len r.events) r.spare (vec_capacity r.events) r.limit };
}

pub type Records = Sequence<Record>;

impl Record {
    /// The empty record, without room.
    pub fn new(alloc: Global, limit: u32) -> Record
        ensures { result ≡ record { events = []; limit = limit; spare = 0 } }
    {
        Record {
            events: Vec::new(alloc),
            limit,
            spare: 0,
        }
    }

    /// How many events there are.
    pub fn len(&self) -> u32
        ensures len { result ≡ length self.now.events }
        ensures within { result + self.now.spare ≤ self.now.limit }
    {
        self.events.len() as u32
    }

    pub fn limit(&self) -> u32
        ensures { result ≡ self.now.limit }
    {
        self.limit
    }

    /// For how many more events there is room.
    pub fn spare(&self) -> u32
        ensures { result ≡ self.now.spare }
    {
        self.spare
    }

    /// The event at `i`, counted from 0.
    pub fn at(&self, i: u32) -> Event
        requires { i < length self.now.events }
        ensures { slice_get self.now.events i ≡ Some result }
    {
        self.events[i as usize]
    }

    /// Takes room for `n` more events, or for as many as the limit leaves.
    pub fn top_up(&mut self, n: u32) -> Result<(), NoMemory>
        ensures room { OnOk result (min n (self.old.limit - length self.old.events) ≤ self.new.spare) }
        ensures no_less { self.old.spare ≤ self.new.spare }
        ensures kept { self.new ≡ record self.old { spare = self.new.spare } }
        ensures refused { OnErr result (self.new ≡ self.old) }
    {
        let wanted = min(n, self.limit - self.len());
        if wanted > self.spare {
            self.events.reserve(wanted as usize)?;
            self.spare = wanted;
        }
        Ok(())
    }

    /// Appends the event, for which there is room.
    pub fn push(&mut self, e: Event)
        requires room { 1 ≤ self.old.spare }
        requires within { length self.old.events < self.old.limit }
        ensures { self.new ≡ pushed self.old e }
    {
        let _with_room = self.events.push(e);
        self.spare -= 1;
    }

    /// Lends the events.
    pub fn as_slice(&self) -> &[Event]
        ensures { result.now ≡ self.now.events }
    {
        self.events.as_slice()
    }
}
