ghost use Rattle.std.specs.Prelude.{[], ◌∷◌, ◌≤◌, IfOk, IfSome};
ghost use Rattle.rl_base.specs.Tries.{AreFewTries};
ghost use Rattle.rl_base.specs.declared.limits.TheConstants.{MIN_TRIES, MIN_ROUND, MAX_WORKERS};
ghost use Rattle.rl_cli.specs.declared.order.Order.{Order};
ghost use Rattle.rl_cli.specs.Limits.{IsFrom, IsWithinLimits};
ghost use Rattle.relis.specs.Answers.{EndsAs, UnlessMemory};
ghost use Rattle.relis.specs.Reading.{FetchesOf};
ghost use Rattle.relis.specs.Runs.{IsRunText};

use crate::reading::read_network;
use crate::status::Status;
use rl_base::NoMemory;
use rl_base::limits::DEFAULT_WORKERS;
use rl_net::Network;
use rl_outside::{Files, Gate};
use rl_report::report_text;
use rl_tables::compile;
use rl_text::Out;
use rl_to_rest::{Pace, report};
use std::alloc::Global;
use std::sync::Wait;
use std::thread::Threads;

/// What may be asked of a run besides its network.
#[derive(Clone, Copy, Debug, PartialEq, Eq)]
pub struct RunOptions {
    pub tries: u32,
    pub workers: Option<u32>,
    pub round: u32,
}

/// The pace that is asked for. Where no number of workers is, there is one for each node, up to `DEFAULT_WORKERS`.
fn pace_of(net: &Network, options: RunOptions) -> Pace
    requires workers { IfSome options.workers (IsFrom 1 MAX_WORKERS) }
    requires round { MIN_ROUND ≤ options.round }
    ensures workers { 1 ≤ result.workers }
    ensures round { 1 ≤ result.round }
{
    let nodes = net.layout().nodes();
    Pace {
        workers: match options.workers {
            Some(workers) => workers,
            None => nodes.clamp(1, DEFAULT_WORKERS),
        },
        round: options.round,
    }
}

fn text_of_run<R: Threads + Wait + Sync, G: Gate>(
    rt: &R,
    alloc: Global,
    net: &Network,
    options: RunOptions,
    gate: &G,
) -> Result<Out, NoMemory>
    requires some_tries { MIN_TRIES ≤ options.tries }
    requires few_tries { AreFewTries options.tries }
    requires workers { IfSome options.workers (IsFrom 1 MAX_WORKERS) }
    requires round { MIN_ROUND ≤ options.round }
    ensures { IfOk result (IsRunText net.now options.tries) }
{
    // What acceptance gave, for the proof.
    let _trains = net.trains();
    let line = compile(alloc, net)?;
    let report = report(rt, alloc, &line, options.tries, pace_of(net, options), gate)?;
    report_text(alloc, net, &report)
}

/// `run NET`: prints the report of a run on threads, which goes on until every train rests.
pub fn run<R: Threads + Wait + Sync, F: Files, G: Gate>(
    rt: &R,
    alloc: Global,
    files: &mut F,
    net: &str,
    options: RunOptions,
    gate: &G,
) -> Result<Out, Status>
    requires { IsWithinLimits (Order.Run net.now options.tries options.workers options.round) }
    ensures ends { UnlessMemory (EndsAs (Order.Run net.now options.tries options.workers options.round)
        (F.held files.old) (F.faults files.old) (F.faults files.new)) result }
    ensures fetches { FetchesOf (net.now ∷ [])
        (F.held files.old) (F.held files.new) (F.faults files.old) (F.faults files.new) }
{
    let net = read_network(alloc, files, net)?;
    Ok(text_of_run(rt, alloc, &net, options, gate)?)
}
