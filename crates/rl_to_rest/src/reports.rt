ghost use Rattle.std.specs.Prelude.{◌≡◌, ◌≤◌, ◌<◌, length, IfOk};
ghost use Rattle.rl_base.specs.Tries.{AreFewTries};
ghost use Rattle.rl_base.specs.Layout.{node_count};
ghost use Rattle.rl_model.specs.declared.network.NetworkPlan.{NetworkPlan};
ghost use Rattle.rl_model.specs.Network.{IsNetwork};
ghost use Rattle.rl_model.specs.Reports.{IsReportOf, IsRightReport};
ghost use Rattle.rl_nodes.specs.Laying.{AreSeatsOf};
ghost use Rattle.rl_rule.specs.Seats.{rails_line, rails_tries};
ghost use Rattle.rl_tables.specs.Starts.{layout_of};
ghost use Rattle.rl_tables.specs.Tables.{AreTablesOf};
ghost use Rattle.rl_to_rest.specs.Going.{ArePartsAtRest};
ghost use Rattle.rl_to_rest.specs.ToRest.{IsReportToRest, AreEnded};

use crate::events::report_of_events;
use crate::going::go_to_rest;
use crate::starts::{report_of_none, rests_at_start};
use rl_base::NoMemory;
use rl_base::limits::MAX_EVENTS;
use rl_model::Report;
use rl_nodes::{Parts, Seats, all_seats, finish, lay_nodes, part, parts_at_rest};
use rl_outside::Gate;
use rl_rule::Rails;
use rl_safety::right_reports;
use rl_steps::sound_runs;
use rl_tables::Line;
use std::alloc::Global;
use std::sync::Wait;
use std::thread::Threads;

/// How a run goes on: by how many workers, and how many turns each node has between two looks at whether every train
/// rests.
#[derive(Clone, Copy, Debug, PartialEq, Eq)]
pub struct Pace {
    pub workers: u32,
    pub round: u32,
}

/// Runs the nodes of these seats until every train rests, and parts them.
fn run_to_rest<R: Threads + Wait + Sync, G: Gate>(
    rt: &R,
    alloc: Global,
    rails: &Rails,
    line: &Line,
    seats: Seats,
    tries: u32,
    pace: Pace,
    gate: &G,
) -> Result<Parts, NoMemory>
    requires line { line.now ≡ rails_line rails.now }
    requires tries { tries ≡ rails_tries rails.now }
    requires few_tries { AreFewTries tries }
    requires some { 0 < node_count (layout_of line.now) }
    requires seats { AreSeatsOf rails.now seats }
    requires workers { 1 ≤ pace.workers }
    requires round { 1 ≤ pace.round }
    ensures { IfOk result (ArePartsAtRest rails.now) }
{
    // How many trains there are at most, for the proof.
    let _layout = line.layout();
    let mut nodes = lay_nodes(alloc, rails, line, seats, tries, MAX_EVENTS as u32)?;
    go_to_rest(rt, &mut nodes, gate, pace.round, pace.workers)?;
    parts_at_rest();
    part(alloc, nodes)
}

/// The report of a run on rails that are laid for it.
fn report_on_rails<R: Threads + Wait + Sync, G: Gate>(
    rt: &R,
    alloc: Global,
    line: &Line,
    tries: u32,
    pace: Pace,
    gate: &G,
) -> Result<Report, NoMemory>
    requires few_tries { AreFewTries tries }
    requires some { 0 < length line.now.trains }
    requires workers { 1 ≤ pace.workers }
    requires round { 1 ≤ pace.round }
    ensures { IfOk result (IsReportToRest line.now tries) }
{
    let mut rails = Rails::lay(alloc, line, tries)?;
    let seats = all_seats(alloc, &mut rails, line)?;
    let parts = run_to_rest(rt, alloc, &rails, line, seats, tries, pace, gate)?;
    let done = finish(alloc, rails, parts)?;
    // Which minds nodes have, for the proof.
    let _layout = line.layout();
    sound_runs();
    report_of_events(
        alloc,
        line,
        tries,
        done.events.as_slice(),
        done.minds.as_slice(),
    )
}

/// The report of a run from the start, with so many attempts for each train: all nodes have turns until every train
/// rests, which may be never. The gate lets each turn pass, and is told of each event.
pub fn report<R: Threads + Wait + Sync, G: Gate>(
    rt: &R,
    alloc: Global,
    line: &Line,
    tries: u32,
    pace: Pace,
    gate: &G,
) -> Result<Report, NoMemory>
    requires some_tries { 1 ≤ tries }
    requires few_tries { AreFewTries tries }
    requires workers { 1 ≤ pace.workers }
    requires round { 1 ≤ pace.round }
    // It is the report of what the nodes did, which is a run to rest.
    ensures to_rest { IfOk result (IsReportToRest line.now tries) }
    ensures ended { IfOk result (λ r. AreEnded r.outcomes) }
    // On the tables of a network it is right, and one of the network.
    ensures right { (net : NetworkPlan) → IsNetwork net → AreTablesOf net line.now → IfOk result (IsRightReport net) }
    ensures of { (net : NetworkPlan) → IsNetwork net → AreTablesOf net line.now → IfOk result (IsReportOf net) }
{
    right_reports();
    if rests_at_start(line) {
        report_of_none(alloc, line, tries)
    } else {
        report_on_rails(rt, alloc, line, tries, pace, gate)
    }
}
