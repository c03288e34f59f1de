ghost use Rattle.std.specs.Prelude.{◌≡◌, ◌≤◌, length, IfOk};
ghost use Rattle.rl_base.specs.Tries.{AreFewTries};
ghost use Rattle.rl_base.specs.Layout.{node_count};
ghost use Rattle.rl_base.specs.declared.limits.TheConstants.{MAX_MOVES};
ghost use Rattle.rl_model.specs.declared.network.NetworkPlan.{NetworkPlan};
ghost use Rattle.rl_model.specs.Network.{IsNetwork};
ghost use Rattle.rl_model.specs.Reports.{IsReportOf, IsRightReport};
ghost use Rattle.rl_tables.specs.Starts.{layout_of};
ghost use Rattle.rl_tables.specs.Tables.{AreTablesOf};
ghost use Rattle.rl_schedule.specs.Driven.{schedule_report};
ghost use Rattle.rl_schedule.specs.Turns.{IsScheduleFor, turns_of};

use crate::drives::drive;
use crate::schedules::Schedule;
use rl_base::NoMemory;
use rl_core::{Core, report_of};
use rl_model::Report;
use rl_safety::right_reports;
use rl_tables::Line;
use std::alloc::Global;

/// The report of the turns of a schedule, from the start, with so many attempts for each train.
pub fn report(
    alloc: Global,
    line: &Line,
    tries: u32,
    schedule: &Schedule,
) -> Result<Report, NoMemory>
    requires some_tries { 1 ≤ tries }
    requires few_tries { AreFewTries tries }
    requires fits { IsScheduleFor (node_count (layout_of line.now)) schedule.now }
    // It is the report of the turns.
    ensures report { IfOk result (λ r.
        r ≡ schedule_report line.now tries (turns_of (node_count (layout_of line.now)) schedule.now)) }
    // It has no more moves than a report may have.
    ensures few { IfOk result (λ r. length r.moves ≤ MAX_MOVES) }
    // On the tables of a network it is right, and one of the network.
    ensures right { (net : NetworkPlan) → IsNetwork net → AreTablesOf net line.now → IfOk result (IsRightReport net) }
    ensures of { (net : NetworkPlan) → IsNetwork net → AreTablesOf net line.now → IfOk result (IsReportOf net) }
{
    let mut core = Core::new(alloc, line, tries)?;
    let moves = drive(alloc, &mut core, schedule)?;
    // What is so of the core and of its report, for the proof.
    core.reached();
    right_reports();
    report_of(alloc, line, tries, moves, core.minds())
}
