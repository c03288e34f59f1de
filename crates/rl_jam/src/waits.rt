use rl_base::{Sequence, TrainId};

/// Of a train in a jam: by which train it was last refused, and the line of that move in the report, counted from 1.
#[derive(Clone, Copy, Debug, PartialEq, Eq)]
pub struct WaitRow {
    pub t: TrainId,
    pub u: TrainId,
    pub line: u32,
}

/// The trains of a jam, each last refused by the next and the last by the first, which has the lowest number.
pub type Jam = Sequence<WaitRow>;

pub type Jams = Sequence<Jam>;
