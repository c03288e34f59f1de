ghost use Rattle.std.specs.Prelude.{◌≡◌, ℕ, List};
ghost use Rattle.rl_model.specs.declared.network.NetworkPlan.{NetworkPlan};
ghost use Rattle.rl_model.specs.declared.report.Report.{Report};
ghost use Rattle.rl_board.specs.BoardText.{IsBoardText};

/// A report has one board.
pub fn one_board_text()
    ensures { (net : NetworkPlan) (report : Report) (text other : List ℕ)
        → IsBoardText net report text → IsBoardText net report other → text ≡ other }
{}
