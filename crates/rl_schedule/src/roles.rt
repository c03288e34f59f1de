/// What a node is: a train or a box, or the track of a train, or the point machine of a box.
#[derive(Clone, Copy, Debug, PartialEq, Eq)]
pub enum Role {
    Train,
    Track,
    SwitchBox,
    Machine,
}
