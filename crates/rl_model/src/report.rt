use crate::moves::Moves;
use rl_base::Sequence;

/// How a train stands at the end of a run.
#[derive(Clone, Copy, Debug, PartialEq, Eq)]
pub enum Fate {
    /// It has made every step of its route.
    Arrived,
    /// It has used up its attempts before the end of its route.
    Spent,
    /// Under way, as the report says it: nothing is claimed but that its attempts are enough for what it met.
    Underway,
}

/// The outcome of one train: its fate, the steps that it made and the refusals that it met.
#[derive(Clone, Copy, Debug, PartialEq, Eq)]
pub struct Outcome {
    pub fate: Fate,
    pub made: u32,
    pub refused: u32,
}

pub type Outcomes = Sequence<Outcome>;

/// What a run leaves: the attempts that each train had, from 1 to 1000, the moves in order, and the
/// outcome of each train in the order of train numbers.
#[derive(Debug, Drop)]
pub struct Report {
    pub tries: u32,
    pub moves: Moves,
    pub outcomes: Outcomes,
}
