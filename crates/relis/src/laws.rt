ghost use Rattle.std.specs.Prelude.{◌≡◌, ◌+◌, ◌≤◌, ◌⊎◌, ℕ, List, length, slice_get, Some, Ok};
ghost use Rattle.rl_base.specs.Tries.{AreFewTries};
ghost use Rattle.rl_base.specs.declared.limits.TheConstants.{MAX_MOVES};
ghost use Rattle.rl_model.specs.declared.network.NetworkPlan.{NetworkPlan};
ghost use Rattle.rl_model.specs.declared.report.Fate.TheVariants.{Arrived, Spent};
ghost use Rattle.rl_model.specs.declared.report.Outcome.{Outcome};
ghost use Rattle.rl_model.specs.declared.report.Report.{Report};
ghost use Rattle.rl_model.specs.Network.{IsNetwork, steps_of};
ghost use Rattle.rl_model.specs.Reports.{IsRightReport, refused_in};
ghost use Rattle.rl_to_rest.specs.ToRest.{AreEnded};
ghost use Rattle.relis.specs.Commands.{DrivesRoundsTo, DrivesScheduleTo};
ghost use Rattle.relis.specs.Judged.{IsCalledSafe};
ghost use Rattle.relis.specs.Runs.{IsRunReport, IsRunText};

use rl_safety::counted_events;
use rl_schedule::few_moves;
use rl_tables::tables_of_networks;

/// What `drive` prints, of any accepted network and any schedule of it, `audit` calls safe, and it can say nothing else
/// of it.
pub fn drives_are_safe()
    ensures rounds { (net : NetworkPlan) (rounds tries : ℕ) (text : List ℕ)
        → IsNetwork net → DrivesRoundsTo net rounds tries (Ok text) → IsCalledSafe net text }
    ensures schedules { (net : NetworkPlan) (schedule : List ℕ) (tries : ℕ) (text : List ℕ)
        → IsNetwork net → DrivesScheduleTo net schedule tries (Ok text) → IsCalledSafe net text }
{
    // That a report has no more moves than its schedule has turns, for the proof.
    few_moves();
}

/// What `run` prints `audit` calls safe, whatever the run, and it can say nothing else of it: a run never has more moves
/// than a report may have.
pub fn runs_are_safe()
    ensures few { (net : NetworkPlan) (tries : ℕ) (report : Report)
        → IsNetwork net → AreFewTries tries → IsRunReport net tries report → length report.moves ≤ MAX_MOVES }
    ensures safe { (net : NetworkPlan) (tries : ℕ) (text : List ℕ)
        → IsNetwork net → AreFewTries tries → IsRunText net tries text → IsCalledSafe net text }
{
    counted_events();
    tables_of_networks();
}

/// A right report in which no train is underway, as that of a run. A train that spent its attempts used each of them for
/// a step or for a refusal that is one of the moves. One that met no refusal has arrived, if it had attempts enough.
pub fn spent_attempts()
    ensures spent { (net : NetworkPlan) (report : Report) (t : ℕ) (o : Outcome)
        → IsRightReport net report → slice_get report.outcomes t ≡ Some o → o.fate ≡ Spent
        → (o.made + o.refused ≡ report.tries) × (o.refused ≡ refused_in report.moves t) }
    ensures arrived { (net : NetworkPlan) (report : Report) (t : ℕ) (o : Outcome)
        → IsRightReport net report → AreEnded report.outcomes → slice_get report.outcomes t ≡ Some o
        → o.refused ≡ 0 → steps_of net t ≤ report.tries → o.fate ≡ Arrived }
{}
