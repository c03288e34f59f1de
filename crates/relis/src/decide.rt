ghost use Rattle.std.specs.Prelude.{◌≡◌, ◌≢◌, ℕ, ◌≤◌, List, Option, Some, IfOk, MatchResult};
ghost use Rattle.rl_cli.specs.declared.order.Order.{Order};
ghost use Rattle.rl_cli.specs.Limits.{IsWithinLimits};
ghost use Rattle.rl_cli.specs.Orders.{order_of};
ghost use Rattle.relis.specs.Answers.{Held, Counts, IsOutcome, LeadsTo, UnlessMemory, names_of};
ghost use Rattle.relis.specs.Reading.{FetchesOf};
ghost use Rattle.relis.specs.Orders.{plain, plain_order_of};

use crate::audit::audit;
use crate::check::{check, tables};
use crate::drive::{drive_rounds, drive_schedule};
use crate::lines::status_line;
use crate::made::make;
use crate::run::{RunOptions, run};
use crate::status::Status;
use rl_base::{Args, NoMemory};
use rl_cli::{CliFault, Order, parse};
use rl_outside::{Files, Gate};
use rl_text::Out;
use std::alloc::Global;
use std::sync::Wait;
use std::thread::Threads;

/// An answer, and the text that goes with it.
#[derive(Debug, Drop)]
pub struct Decision {
    pub status: Status,
    pub text: Out,
}

/// Carries an order out on one thread, which a run can't be.
fn carry_out<F: Files>(alloc: Global, files: &mut F, order: &Order) -> Result<Out, Status>
    requires { IsWithinLimits order.now }
    ensures outcome { UnlessMemory
        (IsOutcome (plain order.now) (F.held files.old) (F.faults files.old) (F.faults files.new)) result }
    ensures fetches { FetchesOf (names_of (plain order.now))
        (F.held files.old) (F.held files.new) (F.faults files.old) (F.faults files.new) }
{
    match order {
        Order::Check { net } => check(alloc, files, net.as_str()),
        Order::Tables { net } => tables(alloc, files, net.as_str()),
        Order::Rounds { net, rounds, tries } => {
            drive_rounds(alloc, files, net.as_str(), *rounds, *tries)
        }
        Order::Drive {
            net,
            schedule,
            tries,
        } => { drive_schedule(alloc, files, net.as_str(), schedule.as_str(), *tries) }
        Order::Audit { net, report } => audit(alloc, files, net.as_str(), report.as_str()),
        Order::Make { n } => Ok(make(alloc, *n)?),
        Order::Run { .. } => Err(Status::Usage),
    }
}

/// Carries any order out, a run on threads.
fn carry_out_all<R: Threads + Wait + Sync, F: Files, G: Gate>(
    rt: &R,
    alloc: Global,
    files: &mut F,
    order: &Order,
    gate: &G,
) -> Result<Out, Status>
    requires { IsWithinLimits order.now }
    ensures outcome { UnlessMemory
        (IsOutcome (Some order.now) (F.held files.old) (F.faults files.old) (F.faults files.new)) result }
    ensures fetches { FetchesOf (names_of (Some order.now))
        (F.held files.old) (F.held files.new) (F.faults files.old) (F.faults files.new) }
{
    match order {
        Order::Run {
            net,
            tries,
            workers,
            round,
        } => {
            let options = RunOptions {
                tries: *tries,
                workers: *workers,
                round: *round,
            };
            run(rt, alloc, files, net.as_str(), options, gate)
        }
        _ => carry_out(alloc, files, order),
    }
}

/// Does what the words ask for on one thread, but puts nothing.
pub fn outcome_of<F: Files>(alloc: Global, words: &Args, files: &mut F) -> Result<Out, Status>
    ensures outcome { UnlessMemory (IsOutcome (plain_order_of words.now)
        (F.held files.old) (F.faults files.old) (F.faults files.new)) result }
    ensures fetches { FetchesOf (names_of (plain_order_of words.now))
        (F.held files.old) (F.held files.new) (F.faults files.old) (F.faults files.new) }
{
    match parse(alloc, words) {
        Ok(order) => carry_out(alloc, files, &order),
        Err(CliFault::Usage) => Err(Status::Usage),
        Err(CliFault::NoMemory) => Err(Status::NoMemory),
    }
}

/// Does whatever the words ask for, but puts nothing.
pub fn outcome_of_all<R: Threads + Wait + Sync, F: Files, G: Gate>(
    rt: &R,
    alloc: Global,
    words: &Args,
    files: &mut F,
    gate: &G,
) -> Result<Out, Status>
    ensures outcome { UnlessMemory (IsOutcome (order_of words.now)
        (F.held files.old) (F.faults files.old) (F.faults files.new)) result }
    ensures fetches { FetchesOf (names_of (order_of words.now))
        (F.held files.old) (F.held files.new) (F.faults files.old) (F.faults files.new) }
{
    match parse(alloc, words) {
        Ok(order) => carry_out_all(rt, alloc, files, &order, gate),
        Err(CliFault::Usage) => Err(Status::Usage),
        Err(CliFault::NoMemory) => Err(Status::NoMemory),
    }
}

/// The answer that an outcome is, with its text.
pub fn decide(alloc: Global, outcome: Result<Out, Status>) -> Result<Decision, NoMemory>
    ensures { (asked : Option Order) (held : Held) (before now : Counts)
        → UnlessMemory (IsOutcome asked held before now) outcome
        → IfOk result (λ d. LeadsTo asked held before now d.status d.text) }
{
    match outcome {
        Ok(text) => Ok(Decision {
            status: Status::Done,
            text,
        }),
        Err(Status::NoMemory) => Err(NoMemory),
        Err(status) => Ok(Decision {
            status,
            text: status_line(alloc, status)?,
        }),
    }
}
