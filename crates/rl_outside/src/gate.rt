use rl_base::{NodeNo, WordNo};

/// Who may watch the turns of nodes, on whatever thread they run. A gate tells nothing and changes
/// nothing of the railway.
pub trait Gate: Sync {
    /// Comes before each turn of the node.
    fn pass(&self, node: NodeNo);

    /// Comes after each turn in which the node changed the word from `was` to `now`, with the stamp of
    /// the change, on the thread that made the turn.
    fn moved(&self, node: NodeNo, stamp: u32, word: WordNo, was: u64, now: u64);
}

/// The gate that lets everything pass at once and notes nothing.
#[derive(Clone, Copy, Debug)]
pub struct OpenGate;

impl Gate for OpenGate {
    fn pass(&self, _node: NodeNo) {}

    fn moved(&self, _node: NodeNo, _stamp: u32, _word: WordNo, _was: u64, _now: u64) {}
}
