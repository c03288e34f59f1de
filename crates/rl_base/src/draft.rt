use crate::kind::{Kind, Side};
use crate::name::{Name, Names};
use crate::sequence::Sequence;

/// A box as the network text has it: `arms` are segment names, arm 0 first, and `at` is there where the
/// text says at which side the box stands.
#[derive(Debug, Drop)]
pub struct DraftBox {
    pub name: Name,
    pub kind: Kind,
    pub arms: Names,
    pub at: Option<Side>,
}

/// A train as the network text has it: the route is segment, box, segment, and so on.
#[derive(Debug, Drop)]
pub struct DraftTrain {
    pub name: Name,
    pub route: Names,
}

pub type DraftBoxes = Sequence<DraftBox>;

pub type DraftTrains = Sequence<DraftTrain>;

/// A network as its text says it, with names in place of numbers, not yet checked.
#[derive(Debug, Drop)]
pub struct Draft {
    pub segments: Names,
    pub boxes: DraftBoxes,
    pub trains: DraftTrains,
}
