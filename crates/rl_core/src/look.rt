use rl_base::WordNo;
use rl_steps::Mind;

/// What a node sees where it looks at its target.
#[derive(Clone, Copy, Debug, PartialEq, Eq)]
pub enum Look {
    /// It is a train at rest, and looks at none.
    Rests,
    /// The word that it looks at and its whole value, on which it has no step.
    Idles(WordNo, u64),
    /// The word and its whole value, and the step there: the new payload and the new mind.
    Steps(WordNo, u64, u32, Mind),
}
