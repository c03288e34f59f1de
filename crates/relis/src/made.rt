ghost use Rattle.std.specs.Prelude.{◌≡◌, ◌≤◌, ◌++◌, IfOk, OnOk, count_by};
ghost use Rattle.std.specs.Prelude.{length};
ghost use Rattle.rl_cli.specs.declared.order.Order.{Order};
ghost use Rattle.rl_cli.specs.Limits.{IsWithinLimits};
ghost use Rattle.rl_drafts.specs.Drafts.{network_of};
ghost use Rattle.rl_make.specs.Ring.{ring};
ghost use Rattle.relis.specs.Commands.{IsMakeText};
ghost use Rattle.relis.specs.Summaries.{is_refused, has_arrived, is_spent, is_underway, size_line, counts_line};

use crate::drive::driven;
use crate::lines::put_count;
use rl_base::NoMemory;
use rl_base::limits::{DEFAULT_TRIES, MAX_MAKE};
use rl_make::make_draft;
use rl_model::{Fate, Move, Outcome, Report};
use rl_net::{NetRefusal, Network, check};
use rl_schedule::Schedule;
use rl_text::Out;
use std::alloc::Global;

/// How many rounds `make` drives.
pub const MADE_ROUNDS: u32 = 3900;

/// The network of the ring of so many stations.
fn made_network(alloc: Global, n: u32) -> Result<Network, NoMemory>
    requires some { 1 ≤ n }
    requires few { n ≤ MAX_MAKE }
    ensures { IfOk result (λ net. net ≡ network_of (ring n)) }
{
    match check(alloc, make_draft(alloc, n)?) {
        Ok(net) => Ok(net),
        Err(NetRefusal::NoMemory) => Err(NoMemory),
        Err(_) => unreachable!(),
    }
}

fn is_refused(m: &Move) -> bool
    ensures { result ≡ is_refused m.now }
{
    matches!(m, Move::Refuse { .. } | Move::Bar { .. })
}

fn has_arrived(o: &Outcome) -> bool
    ensures { result ≡ has_arrived o.now }
{
    matches!(o.fate, Fate::Arrived)
}

fn is_spent(o: &Outcome) -> bool
    ensures { result ≡ is_spent o.now }
{
    matches!(o.fate, Fate::Spent)
}

fn is_underway(o: &Outcome) -> bool
    ensures { result ≡ is_underway o.now }
{
    matches!(o.fate, Fate::Underway)
}

fn refused_moves(moves: &[Move]) -> usize
    ensures { result ≡ count_by is_refused moves.now }
{
    moves.iter().filter(|m| is_refused(*m)).count()
}

fn arrived_trains(outcomes: &[Outcome]) -> usize
    ensures { result ≡ count_by has_arrived outcomes.now }
{
    outcomes.iter().filter(|o| has_arrived(*o)).count()
}

fn spent_trains(outcomes: &[Outcome]) -> usize
    ensures { result ≡ count_by is_spent outcomes.now }
{
    outcomes.iter().filter(|o| is_spent(*o)).count()
}

fn trains_underway(outcomes: &[Outcome]) -> usize
    ensures { result ≡ count_by is_underway outcomes.now }
{
    outcomes.iter().filter(|o| is_underway(*o)).count()
}

/// Appends the line that says how large the network is.
fn put_size(out: &mut Out, n: u32, net: &Network) -> Result<(), NoMemory>
    ensures { OnOk result (out.new ≡ out.old ++ size_line n net.now) }
{
    let segments = net.segments();
    let layout = net.layout();
    put_count(out, b"make ", u64::from(n))?;
    put_count(out, b" segments ", u64::from(segments))?;
    put_count(out, b" boxes ", u64::from(layout.boxes))?;
    put_count(out, b" trains ", u64::from(layout.trains))?;
    out.text(b"\n")
}

/// Appends the line of the counts of the report.
fn put_counts(out: &mut Out, report: &Report) -> Result<(), NoMemory>
    ensures { OnOk result (out.new ≡ out.old ++ counts_line report.now) }
{
    let moves = report.moves.as_slice();
    let outcomes = report.outcomes.as_slice();
    put_count(out, b"rounds ", u64::from(MADE_ROUNDS))?;
    put_count(out, b" moves ", moves.len() as u64)?;
    put_count(out, b" refused ", refused_moves(moves) as u64)?;
    put_count(out, b" arrived ", arrived_trains(outcomes) as u64)?;
    put_count(out, b" spent ", spent_trains(outcomes) as u64)?;
    put_count(out, b" underway ", trains_underway(outcomes) as u64)?;
    out.text(b"\n")
}

/// `make N`: drives the ring of so many stations, and prints a summary.
pub fn make(alloc: Global, n: u32) -> Result<Out, NoMemory>
    requires { IsWithinLimits (Order.Make n) }
    ensures { IfOk result (IsMakeText n) }
{
    let net = made_network(alloc, n)?;
    let schedule = match Schedule::rounds(&net, MADE_ROUNDS) {
        Some(schedule) => schedule,
        None => unreachable!(),
    };
    let report = driven(alloc, &net, DEFAULT_TRIES, &schedule)?;
    let mut out = Out::new(alloc);
    put_size(&mut out, n, &net)?;
    put_counts(&mut out, &report)?;
    Ok(out)
}
