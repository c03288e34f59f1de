use rl_box::BoxMind;
use rl_track::{MachineMind, TrackMind};
use rl_train::TrainMind;

/// What a node remembers from one turn to the next.
#[derive(Clone, Copy, Debug, PartialEq, Eq)]
pub enum Mind {
    Train(TrainMind),
    Track(TrackMind),
    Box(BoxMind),
    Machine(MachineMind),
}
