ghost use Rattle.std.specs.Prelude.{◌≡◌, ◌≢◌, ℕ, List, Some, slice_get};
ghost use Rattle.std.specs.List.{AllByRecursion};
ghost use Rattle.rl_model.specs.declared.network.NetworkPlan.{NetworkPlan};
ghost use Rattle.rl_model.specs.declared.report.Report.{Report};
ghost use Rattle.rl_model.specs.Reports.{IsRightReport, IsReportOf};
ghost use Rattle.rl_model.specs.Network.{IsTrainOf};
ghost use Rattle.rl_jam.specs.declared.waits.WaitRow.{WaitRow};
ghost use Rattle.rl_jam.specs.Jams.{IsJam, AreJams};
ghost use Rattle.rl_jam.specs.Stuck.{IsStuck};

/// In a right report each train of a jam rests before the end of its route, with all of its attempts used up, and was
/// refused by another train.
pub fn trains_in_jams()
    ensures stuck { (net : NetworkPlan) (report : Report) (t : ℕ) (rows : List WaitRow)
        → IsRightReport net report → IsJam report t rows
        → AllByRecursion (λ (row : WaitRow). IsStuck net report row.t.0) rows }
    ensures by_another { (net : NetworkPlan) (report : Report) (t : ℕ) (rows : List WaitRow)
        → IsRightReport net report → IsJam report t rows
        → AllByRecursion (λ (row : WaitRow). row.u.0 ≢ row.t.0) rows }
    ensures in_range { (net : NetworkPlan) (report : Report) (jams : List (List WaitRow)) (j k : ℕ)
        (rows : List WaitRow) (row : WaitRow)
        → IsReportOf net report → AreJams report jams → slice_get jams j ≡ Some rows → slice_get rows k ≡ Some row
        → IsTrainOf net row.t × IsTrainOf net row.u }
{}

/// No train is in two jams of a report.
pub fn jams_share_no_train()
    ensures { (report : Report) (t v j k : ℕ) (rows others : List WaitRow) (row other : WaitRow)
        → IsJam report t rows → IsJam report v others → slice_get rows j ≡ Some row → slice_get others k ≡ Some other
        → row.t.0 ≡ other.t.0 → rows ≡ others }
{}
