ghost use Rattle.std.specs.Prelude.{◌≡◌, ◌+◌, ◌<◌, ◌≤◌, [], ◌∷◌, ◌++◌, ℕ, List, length, IfOk};
ghost use Rattle.rl_model.specs.declared.moves.Move.{Move};
ghost use Rattle.rl_model.specs.declared.report.Report.{Report};
ghost use Rattle.rl_model.specs.Moves.{IsMoveOf};
ghost use Rattle.rl_model.specs.Network.{IsTrainOf};
ghost use Rattle.rl_domain.specs.Rows.{Fits};
ghost use Rattle.rl_report.specs.Grammar.{most_moves};
ghost use Rattle.rl_audit.specs.Judging.{HasJudged, HasJudgedTrains, OutcomeTested, VerdictIs};

use crate::counts::{Count, count_move, no_counts};
use crate::fates::fate_fits;
use crate::verdict::Verdict;
use rl_base::{NoMemory, TrainId};
use rl_domain::World;
use rl_model::{Move, Outcome};
use rl_net::Network;
use std::alloc::Global;

/// Where a guard failed first.
#[derive(Clone, Copy)]
pub(crate) struct Failure {
    pub(crate) line: u32,
    pub(crate) guard: u32,
}

/// What was found so far: the world and the counts up to the first guard that failed, and where that was.
#[derive(Drop)]
pub(crate) struct Judge {
    pub(crate) world: World,
    pub(crate) counts: Vec<Count>,
    pub(crate) moves: u32,
    pub(crate) failure: Option<Failure>,
}

/// The line of the first move.
const FIRST_MOVE: u32 = 3;

impl Judge {
    /// Stands at the start of the network.
    pub(crate) fn start(alloc: Global, net: &Network) -> Result<Judge, NoMemory>
        ensures { IfOk result (HasJudged net.now []) }
    {
        let world = World::start(alloc, net)?;
        let counts = no_counts(alloc, net.trains())?;
        Ok(Judge {
            world,
            counts,
            moves: 0,
            failure: None,
        })
    }

    /// Makes the next move, if no guard has failed yet.
    pub(crate) fn take_move(&mut self, net: &Network, m: Move)
        requires fits { Fits net.now self.old.world }
        requires trains { length self.old.counts.items ≡ length net.now.trains }
        requires few { self.old.moves ≤ most_moves }
        requires of { IsMoveOf net.now m }
        ensures { (moves : List Move) → length moves ≤ most_moves
            → HasJudged net.now moves self.old → HasJudged net.now (moves ++ m ∷ []) self.new }
    {
        let line = self.moves + FIRST_MOVE;
        self.moves += 1;
        if self.failure.is_some() {
            return;
        }
        match self.world.apply(net, &m) {
            Ok(()) => count_move(&mut self.counts, m),
            Err(guard) => {
                self.failure = Some(Failure {
                    line,
                    guard: guard.number,
                });
            }
        }
    }

    /// The number of the first guard that fails at the outcome of the train.
    fn failing(&self, net: &Network, tries: u32, t: TrainId, o: Outcome) -> Option<u32>
        requires fits { Fits net.now self.now.world }
        requires trains { length self.now.counts.items ≡ length net.now.trains }
        requires train { IsTrainOf net.now t }
        ensures { OutcomeTested net.now tries self.now t.0 o result }
    {
        let count = self.counts[t.0 as usize];
        if o.made != count.made || o.refused != count.refused {
            Some(25)
        } else if !fate_fits(net, tries, &self.world, t, o) {
            Some(26)
        } else {
            None
        }
    }

    /// Tests the outcome of the next train, if no guard has failed yet.
    pub(crate) fn take_outcome(&mut self, net: &Network, tries: u32, t: TrainId, o: Outcome)
        requires fits { Fits net.now self.old.world }
        requires trains { length self.old.counts.items ≡ length net.now.trains }
        requires few { self.old.moves ≤ most_moves }
        requires train { IsTrainOf net.now t }
        ensures judged { (report : Report) → report.tries ≡ tries → length report.outcomes ≡ t.0
            → HasJudgedTrains net.now report self.old
            → HasJudgedTrains net.now (record report { outcomes = report.outcomes ++ o ∷ [] }) self.new }
        ensures world { self.new.world ≡ self.old.world }
        ensures counts { self.new.counts ≡ self.old.counts }
        ensures moves { self.new.moves ≡ self.old.moves }
    {
        // What acceptance gave, for the proof.
        net.accepted();
        if self.failure.is_some() {
            return;
        }
        if let Some(guard) = self.failing(net, tries, t, o) {
            self.failure = Some(Failure {
                line: self.moves + FIRST_MOVE + t.0,
                guard,
            });
        }
    }

    /// The verdict, where all lines were read.
    pub(crate) fn verdict(&self) -> Verdict
        ensures { VerdictIs self.now result }
    {
        match self.failure {
            Some(failure) => Verdict::Bad {
                line: failure.line,
                guard: failure.guard,
            },
            None => Verdict::Safe(self.moves),
        }
    }
}
