/// The number of a segment: its place in the network text, from 0, at most 255.
#[derive(Clone, Copy, Debug, PartialEq, Eq, PartialOrd, Ord, Hash)]
pub struct SegId(pub u32);

/// The number of a box: its place in the network text, from 0, at most 127.
#[derive(Clone, Copy, Debug, PartialEq, Eq, PartialOrd, Ord, Hash)]
pub struct BoxId(pub u32);

/// The number of a train: its place in the network text, from 0, at most 31.
#[derive(Clone, Copy, Debug, PartialEq, Eq, PartialOrd, Ord, Hash)]
pub struct TrainId(pub u32);

/// The number of an arm of a box, from 0, at most 3.
#[derive(Clone, Copy, Debug, PartialEq, Eq, PartialOrd, Ord, Hash)]
pub struct Arm(pub u32);

/// The number of a node: with `T` trains and `B` boxes the trains come first, then the tracks of the
/// trains, then the boxes, then the point machines of the boxes, `2T + 2B` in all.
#[derive(Clone, Copy, Debug, PartialEq, Eq, PartialOrd, Ord, Hash)]
pub struct NodeNo(pub u32);

/// The number of a shared word: 0 is the still word; then come the reservation words of all boxes, the lock
/// words of all boxes, and the mail, the run and the sense words of all trains, `1 + 2B + 3T` in all.
#[derive(Clone, Copy, Debug, PartialEq, Eq, PartialOrd, Ord, Hash)]
pub struct WordNo(pub u32);
