ghost use Rattle.std.specs.Prelude.{◌≡◌};
ghost use Rattle.rl_base.specs.declared.layout.Layout.{Layout};
ghost use Rattle.rl_tables.specs.declared.table.BoxTable.{BoxTable};
ghost use Rattle.rl_box.specs.Mind.{start_box, IsBoxMind};

use rl_base::TrainId;
use rl_words::{Letter, Path};

/// What a box answers to a letter: yes, or no, since this train holds what was asked for.
#[derive(Clone, Copy, Debug, PartialEq, Eq)]
pub enum Answer {
    Yes,
    No(TrainId),
}

/// What a box has in hand: nothing, the letter of a train that it is to serve, or the answer that it is to write
/// back.
#[derive(Clone, Copy, Debug, PartialEq, Eq)]
pub enum Work {
    Ready,
    Serve(TrainId, Letter),
    Say(TrainId, Letter, Answer),
}

/// What a box remembers: its work, and the path for which it has asked its point machine to move the points.
#[derive(Clone, Copy, Debug, PartialEq, Eq)]
pub struct BoxMind {
    pub work: Work,
    pub waiting: Option<Path>,
}

impl BoxMind {
    /// Ready, with nothing waiting.
    pub fn start() -> BoxMind
        ensures mind { result ≡ start_box }
        ensures kept { (lay : Layout) (b : BoxTable) → IsBoxMind lay b result }
    {
        BoxMind {
            work: Work::Ready,
            waiting: None,
        }
    }
}
