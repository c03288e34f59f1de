use rl_base::{NodeNo, Sequence, WordNo};

/// One change of one shared word by one node. `was` and `now` are the whole old and the whole new word, and
/// `stamp` is the stamp of the new one.
#[derive(Clone, Copy, Debug, PartialEq, Eq)]
pub struct Event {
    pub node: NodeNo,
    pub stamp: u32,
    pub word: WordNo,
    pub was: u64,
    pub now: u64,
}

/// What a turn of a node comes to: it changed a word, it looked at a word and left it, it is a train at rest and
/// looked at none, or its record has no room for one event more.
#[derive(Clone, Copy, Debug, PartialEq, Eq)]
pub enum Turn {
    Moved(Event),
    /// The whole word that the node looked at.
    Idle(u64),
    Rest,
    Full,
}

pub type Events = Sequence<Event>;
