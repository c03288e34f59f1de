ghost use Rattle.std.specs.Prelude.{Option, Result};
ghost use Rattle.rl_cli.specs.declared.order.Order.{Order};
ghost use Rattle.rl_cli.specs.Orders.{order_of};
ghost use Rattle.relis.specs.Answers.{Held, Counts, IsOutcome, UnlessMemory, names_of};
ghost use Rattle.relis.specs.Calls.{IsCall, outside};
ghost use Rattle.relis.specs.Orders.{plain_order_of};
ghost use Rattle.relis.specs.Reading.{FetchesOf};

use crate::decide::{decide, outcome_of, outcome_of_all};
use crate::status::Status;
use rl_base::Args;
use rl_outside::{Files, Gate, Sink, put_all};
use rl_text::Out;
use std::alloc::Global;
use std::sync::Wait;
use std::thread::Threads;

/// Puts what came of the words, and says how the call ends.
fn tell<K: Sink>(alloc: Global, outcome: Result<Out, Status>, out: &mut K) -> Status
    ensures { (asked : Option Order) (held after : Held) (before now : Counts)
        → UnlessMemory (IsOutcome asked held before now) outcome → FetchesOf (names_of asked) held after before now
        → IsCall asked (outside held before (K.written out.old) (K.faults out.old))
        (outside after now (K.written out.new) (K.faults out.new)) result }
{
    match decide(alloc, outcome) {
        Ok(decision) => match put_all(out, decision.text.bytes()) {
            Ok(()) => decision.status,
            Err(_) => Status::WriteFault,
        },
        Err(_) => Status::NoMemory,
    }
}

/// Does what the words ask for, on one thread. The words don't include the program's own name. It always
/// returns, and a run is no command for it.
pub fn relis_plain<F: Files, K: Sink>(
    alloc: Global,
    words: &Args,
    files: &mut F,
    out: &mut K,
) -> Status
    ensures { IsCall (plain_order_of words.now)
        (outside (F.held files.old) (F.faults files.old) (K.written out.old) (K.faults out.old))
        (outside (F.held files.new) (F.faults files.new) (K.written out.new) (K.faults out.new))
        result }
{
    let outcome = outcome_of(alloc, words, files);
    tell(alloc, outcome, out)
}

/// Does all that the words may ask for. A run works on threads, and goes on until every train rests; it promises what
/// stands here if it returns.
pub fn relis<R: Threads + Wait + Sync, F: Files, K: Sink, G: Gate>(
    rt: &R,
    alloc: Global,
    words: &Args,
    files: &mut F,
    out: &mut K,
    gate: &G,
) -> Status
    ensures { IsCall (order_of words.now)
        (outside (F.held files.old) (F.faults files.old) (K.written out.old) (K.faults out.old))
        (outside (F.held files.new) (F.faults files.new) (K.written out.new) (K.faults out.new))
        result }
{
    let outcome = outcome_of_all(rt, alloc, words, files, gate);
    tell(alloc, outcome, out)
}
