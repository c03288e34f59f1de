ghost use Rattle.std.specs.Prelude.{◌≡◌, ◌≤◌, ◌≢◌, ◌⊎◌, ℕ, List, length, Result, Ok, Err};
ghost use Rattle.rl_model.specs.declared.network.NetworkPlan.{NetworkPlan};
ghost use Rattle.rl_model.specs.declared.report.Report.{Report};
ghost use Rattle.rl_model.specs.Network.{IsNetwork};
ghost use Rattle.rl_report.specs.declared.refusal.ReportRefusal.{ReportRefusal};
ghost use Rattle.rl_report.specs.declared.refusal.ReportRefusal.TheVariants.{NoMemory};
ghost use Rattle.rl_report.specs.Answers.{ReadsAs};
ghost use Rattle.rl_report.specs.Grammar.{most_moves};
ghost use Rattle.rl_audit.specs.declared.verdict.Verdict.{Verdict};
ghost use Rattle.rl_audit.specs.Verdicts.{IsVerdict, AuditsAs, IsAnswer};

/// A report has one verdict: it is safe exactly if it is right, and else one line and one guard are the first.
pub fn one_verdict()
    ensures { (net : NetworkPlan) (report : Report) (verdict other : Verdict)
        → IsVerdict net report verdict → IsVerdict net report other → verdict ≡ other }
{}

/// To read a report and to judge it is to audit its text: a report that was read has no more moves than it may have,
/// an audit of its text gives the verdict on it, and where the reading is refused an audit is refused for the same
/// cause. Either may lack memory.
pub fn one_judgment()
    ensures few { (net : NetworkPlan) (text : List ℕ) (report : Report)
        → IsNetwork net → ReadsAs net text (Ok report) → length report.moves ≤ most_moves }
    ensures verdicts { (net : NetworkPlan) (text : List ℕ) (report : Report) (verdict : Verdict)
        (answer : Result Verdict ReportRefusal)
        → IsNetwork net → ReadsAs net text (Ok report) → IsVerdict net report verdict → AuditsAs net text answer
        → IsAnswer verdict answer }
    ensures refusals { (net : NetworkPlan) (text : List ℕ) (refusal : ReportRefusal)
        (answer : Result Verdict ReportRefusal)
        → IsNetwork net → ReadsAs net text (Err refusal) → refusal ≢ NoMemory → AuditsAs net text answer
        → (answer ≡ Err refusal) ⊎ (answer ≡ Err NoMemory) }
{}
