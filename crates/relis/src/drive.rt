ghost use Rattle.std.specs.Prelude.{[], ◌∷◌, ◌≡◌, ◌≤◌, ℕ, List, IfOk, Err};
ghost use Rattle.rl_base.specs.Tries.{AreFewTries};
ghost use Rattle.rl_base.specs.declared.limits.TheConstants.{MIN_TRIES};
ghost use Rattle.rl_cli.specs.declared.order.Order.{Order};
ghost use Rattle.rl_cli.specs.Limits.{IsWithinLimits};
ghost use Rattle.rl_model.specs.declared.network.NetworkPlan.{NetworkPlan};
ghost use Rattle.rl_schedule.specs.Readings.{nodes_of};
ghost use Rattle.rl_schedule.specs.Refusals.{refusal_number, refusal_place};
ghost use Rattle.rl_schedule.specs.Turns.{IsScheduleFor, turns_of};
ghost use Rattle.relis.specs.Answers.{EndsAs, UnlessMemory};
ghost use Rattle.relis.specs.Reading.{FetchesOf};
ghost use Rattle.relis.specs.Commands.{IsDrivenReport, IsDriveText, MayRefuse, DrivesRoundsTo, DrivesScheduleTo};

use crate::reading::{TooLong, read_file, read_network};
use crate::status::Status;
use rl_base::NoMemory;
use rl_base::limits::MAX_SCHEDULE_BYTES;
use rl_model::Report;
use rl_net::Network;
use rl_outside::Files;
use rl_report::report_text;
use rl_schedule::{Schedule, ScheduleRefusal, read_schedule, report};
use rl_tables::compile;
use rl_text::Out;
use std::alloc::Global;

/// What a schedule is called that is too long.
fn long_schedule() -> TooLong
    ensures number { result.number ≡ refusal_number (ScheduleRefusal.TooMany 0) }
    ensures place { result.place ≡ refusal_place (ScheduleRefusal.TooMany 0) }
{
    let refusal = ScheduleRefusal::TooMany(0);
    TooLong {
        number: refusal.number(),
        place: refusal.place(),
    }
}

/// The report of the turns of a schedule.
pub fn driven(
    alloc: Global,
    net: &Network,
    tries: u32,
    schedule: &Schedule,
) -> Result<Report, NoMemory>
    requires some_tries { MIN_TRIES ≤ tries }
    requires few_tries { AreFewTries tries }
    requires fits { IsScheduleFor (nodes_of net.now) schedule.now }
    ensures { IfOk result (IsDrivenReport net.now tries (turns_of (nodes_of net.now) schedule.now)) }
{
    // What acceptance gave, for the proof.
    let _trains = net.trains();
    let line = compile(alloc, net)?;
    report(alloc, &line, tries, schedule)
}

fn text_of_turns(
    alloc: Global,
    net: &Network,
    tries: u32,
    schedule: &Schedule,
) -> Result<Out, NoMemory>
    requires some_tries { MIN_TRIES ≤ tries }
    requires few_tries { AreFewTries tries }
    requires fits { IsScheduleFor (nodes_of net.now) schedule.now }
    ensures { IfOk result (IsDriveText net.now tries (turns_of (nodes_of net.now) schedule.now)) }
{
    let report = driven(alloc, net, tries, schedule)?;
    report_text(alloc, net, &report)
}

fn rounds_on(alloc: Global, net: &Network, rounds: u32, tries: u32) -> Result<Out, Status>
    requires some_tries { MIN_TRIES ≤ tries }
    requires few_tries { AreFewTries tries }
    ensures { UnlessMemory (DrivesRoundsTo net.now rounds tries) result }
{
    match Schedule::rounds(net, rounds) {
        Some(schedule) => Ok(text_of_turns(alloc, net, tries, &schedule)?),
        None => {
            let refusal = ScheduleRefusal::TooMany(1);
            Err(Status::Refused {
                number: refusal.number(),
                place: refusal.place(),
            })
        }
    }
}

/// `drive NET N`: prints the report of so many rounds from the start.
pub fn drive_rounds<F: Files>(
    alloc: Global,
    files: &mut F,
    net: &str,
    rounds: u32,
    tries: u32,
) -> Result<Out, Status>
    requires { IsWithinLimits (Order.Rounds net.now rounds tries) }
    ensures ends { UnlessMemory (EndsAs (Order.Rounds net.now rounds tries)
        (F.held files.old) (F.faults files.old) (F.faults files.new)) result }
    ensures fetches { FetchesOf (net.now ∷ [])
        (F.held files.old) (F.held files.new) (F.faults files.old) (F.faults files.new) }
{
    let net = read_network(alloc, files, net)?;
    rounds_on(alloc, &net, rounds, tries)
}

/// The status of a schedule that is refused.
fn refusal_of(refusal: ScheduleRefusal) -> Status
    ensures { (net : NetworkPlan) (schedule : List ℕ) (tries : ℕ)
        → MayRefuse net schedule refusal
        → UnlessMemory (DrivesScheduleTo net schedule tries) (Err result) }
{
    match refusal {
        ScheduleRefusal::NoMemory => Status::NoMemory,
        _ => Status::Refused {
            number: refusal.number(),
            place: refusal.place(),
        },
    }
}

fn schedule_on(alloc: Global, net: &Network, schedule: &[u8], tries: u32) -> Result<Out, Status>
    requires some_tries { MIN_TRIES ≤ tries }
    requires few_tries { AreFewTries tries }
    ensures { UnlessMemory (DrivesScheduleTo net.now schedule.now tries) result }
{
    match read_schedule(alloc, net, schedule) {
        Ok(schedule) => Ok(text_of_turns(alloc, net, tries, &schedule)?),
        Err(refusal) => Err(refusal_of(refusal)),
    }
}

/// `drive NET -s SCHEDULE`: prints the report of the turns of a schedule from the start.
pub fn drive_schedule<F: Files>(
    alloc: Global,
    files: &mut F,
    net: &str,
    schedule: &str,
    tries: u32,
) -> Result<Out, Status>
    requires { IsWithinLimits (Order.Drive net.now schedule.now tries) }
    ensures ends { UnlessMemory (EndsAs (Order.Drive net.now schedule.now tries)
        (F.held files.old) (F.faults files.old) (F.faults files.new)) result }
    ensures fetches { FetchesOf (net.now ∷ schedule.now ∷ [])
        (F.held files.old) (F.held files.new) (F.faults files.old) (F.faults files.new) }
{
    let net = read_network(alloc, files, net)?;
    let schedule = read_file(alloc, files, schedule, MAX_SCHEDULE_BYTES, long_schedule())?;
    schedule_on(alloc, &net, schedule.as_slice(), tries)
}
