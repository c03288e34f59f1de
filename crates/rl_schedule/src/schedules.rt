ghost use Rattle.std.specs.Prelude.{◌≡◌, ◌*◌, ◌<◌, [], length, slice_get, Some, IfSome, IsNone, IsTrue, ◌↔◌};
ghost use Rattle.rl_base.specs.declared.limits.TheConstants.{MAX_TURNS};
ghost use Rattle.std.specs.List.{repeat, range_with_len};
ghost use Rattle.rl_schedule.specs.Readings.{nodes_of};
ghost use Rattle.rl_schedule.specs.Turns.{IsScheduleFor, turns_of};

use rl_base::limits::MAX_TURNS;
use rl_base::{NodeNo, Sequence};
use rl_net::Network;
use std::marker::Model;

/// A part of a schedule, in a text one line.
#[derive(Clone, Copy, Debug, PartialEq, Eq)]
pub enum Item {
    /// So many turns of the node.
    Turn { node: NodeNo, count: u32 },
    /// So many rounds: in each of them every node has one turn, in the order of their numbers.
    Round { count: u32 },
}

pub(crate) type ItemList = Sequence<Item>;

/// What is kept of a schedule.
#[derive(Debug, Drop)]
enum Items {
    Read(ItemList),
    Rounds(u32),
}

/// Which nodes are to have turns, in which order. Contracts see it as the list of its items.
#[derive(Debug, Drop)]
pub struct Schedule {
    items: Items,
}

impl Model for Schedule {
    ghost use Rattle.std.specs.Prelude.{List};
    ghost use Rattle.rl_schedule.specs.declared.schedules.Item.{Item};
    ghost use Rattle.rl_schedule.specs.Kept.{items_kept};

    ghost Value = { List Item };

    ghost view = { λ s. items_kept s.items };
}

impl Schedule {
    /// The schedule of these items.
    pub(crate) fn of(items: ItemList) -> Schedule
        ensures { result ≡ items }
    {
        Schedule {
            items: Items::Read(items),
        }
    }

    /// So many rounds. `None` exactly where they have more than 1,000,000 turns. It takes no memory.
    pub fn rounds(net: &Network, n: u32) -> Option<Schedule>
        ensures rounds { IfSome result (λ s.
            turns_of (nodes_of net.now) s ≡ repeat n (range_with_len 0 (nodes_of net.now))) }
        ensures fits { IfSome result (IsScheduleFor (nodes_of net.now)) }
        ensures none { IsNone result ↔ (MAX_TURNS < n * nodes_of net.now) }
    {
        let nodes = net.layout().nodes();
        if u64::from(n) * u64::from(nodes) > MAX_TURNS {
            return None;
        }
        Some(Schedule {
            items: Items::Rounds(n),
        })
    }

    /// How many items there are.
    pub fn len(&self) -> usize
        ensures { result ≡ length self.now }
    {
        match &self.items {
            Items::Read(items) => items.len(),
            Items::Rounds(_) => 1,
        }
    }

    pub fn is_empty(&self) -> bool
        ensures { IsTrue result ↔ (self.now ≡ []) }
    {
        self.len() == 0
    }

    /// The item at `i`, counted from 0.
    pub fn item(&self, i: usize) -> Item
        requires { i < length self.now }
        ensures { slice_get self.now i ≡ Some result }
    {
        match &self.items {
            Items::Read(items) => *items.at(i),
            Items::Rounds(count) => Item::Round { count: *count },
        }
    }
}
