use rl_base::{NodeNo, WordNo};
use rl_record::Event;
use rl_steps::Mind;
use rl_tables::Line;
use std::collections::LinkedList;

/// The word that a node loaded last, and the whole value that it found.
#[derive(Clone, Copy, Debug, PartialEq, Eq)]
pub struct Load {
    pub word: WordNo,
    pub value: u64,
}

/// What a node knows of itself: its mind, its clock, the events that it made, newest first, and its last load, if no
/// step came after it. No value of it is made.
pub struct Walk {
    pub node: NodeNo,
    pub mind: Mind,
    pub clock: u32,
    pub history: LinkedList<Event>,
    pub load: Option<Load>,
    pub loads: u64,
}

/// What is kept of a node whose seat was taken in. No value of it is made.
pub struct Kept {
    pub node: NodeNo,
    pub mind: Mind,
    pub history: LinkedList<Event>,
}

/// Whose view it is: the rails' own, a node's, or that of a seat that was taken in.
pub enum Role {
    Root,
    Node,
    Spent,
}

/// What a seat at the table knows. No value of it is made.
pub struct View {
    pub role: Role,
    pub line: Line,
    pub tries: u32,
    /// How many nodes were handed a seat.
    pub handed: u32,
    /// The nodes whose seats were taken in, the last one first.
    pub taken: LinkedList<Kept>,
    pub walk: Walk,
}
