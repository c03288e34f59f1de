ghost use Rattle.std.specs.Prelude.{◌≤◌, ◌<◌, [], length, IfOk};
ghost use Rattle.std.specs.Bool.{OnTrue, OnFalse};
ghost use Rattle.rl_base.specs.Tries.{AreFewTries};
ghost use Rattle.rl_to_rest.specs.Starts.{NoneMoves};
ghost use Rattle.rl_to_rest.specs.ToRest.{IsReportToRest};

use crate::events::report_of_events;
use rl_base::{NoMemory, TrainId};
use rl_core::Core;
use rl_model::Report;
use rl_record::Event;
use rl_tables::Line;
use std::alloc::Global;

/// Whether no train has a step to make.
pub fn rests_at_start(line: &Line) -> bool
    ensures none { OnTrue result (NoneMoves line.now) }
    ensures some { OnFalse result (0 < length line.now.trains) }
{
    let trains = line.layout().trains;
    for t in 0..trains {
        if line.train_table(TrainId(t)).rows.len() != 0 {
            return false;
        }
    }
    true
}

/// The report of no events, of trains that all rest.
pub fn report_of_none(alloc: Global, line: &Line, tries: u32) -> Result<Report, NoMemory>
    requires some_tries { 1 ≤ tries }
    requires few_tries { AreFewTries tries }
    requires rest { NoneMoves line.now }
    ensures { IfOk result (IsReportToRest line.now tries) }
{
    let core = Core::new(alloc, line, tries)?;
    core.reached();
    let none: [Event; 0] = [];
    report_of_events(alloc, line, tries, none.as_slice(), core.minds())
}
