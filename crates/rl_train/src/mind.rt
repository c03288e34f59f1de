ghost use Rattle.std.specs.Prelude.{◌≡◌};
ghost use Rattle.rl_base.specs.Tries.{AreFewTries};
ghost use Rattle.rl_tables.specs.declared.table.TrainTable.{TrainTable};
ghost use Rattle.rl_train.specs.Mind.{start_train, at_rest, IsTrainMind};

use crate::jobs::is_near;
use rl_base::Job;
use rl_tables::TrainTable;

/// What a train remembers: the step of its route at which it is, the job that it has in hand there, whether it
/// has posted the letter of that job or gone, and now waits, how many attempts it has left, and how often it was
/// refused.
#[derive(Clone, Copy, Debug, PartialEq, Eq)]
pub struct TrainMind {
    pub step: u32,
    pub job: Job,
    pub waits: bool,
    pub left: u32,
    pub refused: u32,
}

impl TrainMind {
    /// At the first step, with so many attempts left.
    #[tactic(auto, unfolding(crate::specs::Jobs::is_near, crate::specs::Jobs::is_open, crate::specs::Jobs::names_next))]
    pub fn start(tries: u32) -> TrainMind
        ensures mind { result ≡ start_train tries }
        ensures kept { AreFewTries tries → (table : TrainTable) → IsTrainMind table result }
    {
        TrainMind {
            step: 0,
            job: Job::Near,
            waits: false,
            left: tries,
            refused: 0,
        }
    }

    /// Whether the train has arrived at the end of its route, or has spent its attempts.
    pub fn at_rest(&self, t: &TrainTable) -> bool
        ensures { result ≡ at_rest t.now self.now }
    {
        is_near(self.job) && !self.waits && (self.step as usize == t.rows.len() || self.left == 0)
    }
}
