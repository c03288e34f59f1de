ghost use Rattle.std.specs.Prelude.{◌≡◌, ◌<◌, ◌≤◌, true, All, length, IfOk, OnOk};
ghost use Rattle.std.specs.Bool.{OnTrue};
ghost use Rattle.rl_nodes.specs.Nodes.{rests, IsReady, AreToppedUp};
ghost use Rattle.rl_to_rest.specs.Going.{StillNodes};
ghost use Rattle.rl_to_rest.specs.Rounds.{HaveRecords, IsGranted, HaveGoneRound};

use rl_base::NoMemory;
use rl_nodes::{Nodes, RunNode, kept_nodes, top_up_all, topped_up_nodes};
use rl_outside::Gate;
use rl_runner::{Turner, rounds};
use std::sync::Wait;
use std::thread::Threads;

/// Takes room for so many turns of each node, or for half of them where memory is refused, or for half of that and so on,
/// down to one. How many there is room for.
fn granted(nodes: &mut [RunNode<'_>], turns: u32) -> Result<u32, NoMemory>
    ensures granted { IfOk result (IsGranted turns) }
    ensures ready { IfOk result (λ n. All (IsReady n) nodes.new) }
    ensures kept { AreToppedUp nodes.old nodes.new }
{
    let mut asked = turns;
    while asked != 0 {
        match top_up_all(nodes, asked) {
            Ok(()) => return Ok(asked),
            Err(NoMemory) => asked /= 2,
        }
    }
    Err(NoMemory)
}

/// Takes the room for a round of so many turns of each node, or of as many as are granted, and gives each its turns.
fn go_round<R: Threads + Sync, G: Gate>(
    rt: &R,
    nodes: &mut [RunNode<'_>],
    gate: &G,
    turns: u32,
    workers: u32,
) -> Result<(), NoMemory>
    requires some { 0 < length nodes.old }
    requires workers { 1 ≤ workers }
    requires turns { 1 ≤ turns }
    ensures turned { OnOk result (HaveGoneRound turns nodes.old nodes.new) }
    ensures kept { StillNodes nodes.old nodes.new }
{
    // The nodes stay the same, for the proof.
    topped_up_nodes();
    kept_nodes();
    let round = granted(nodes, turns)?;
    rounds(rt, nodes, gate, round, workers);
    Ok(())
}

/// Whether every train rests.
fn all_rest(nodes: &[RunNode<'_>]) -> bool
    ensures { OnTrue result (All (λ node. rests node ≡ true) nodes.now) }
{
    nodes.iter().all(|node| node.at_rest())
}

/// Gives the nodes round after round, of so many turns each or of as many as are granted, until every train rests. It may
/// go on for ever.
pub fn go_to_rest<R: Threads + Wait + Sync, G: Gate>(
    rt: &R,
    nodes: &mut Nodes<'_>,
    gate: &G,
    turns: u32,
    workers: u32,
) -> Result<(), NoMemory>
    requires some { 0 < length nodes.old }
    requires workers { 1 ≤ workers }
    requires turns { 1 ≤ turns }
    requires records { HaveRecords nodes.old }
    ensures kept { StillNodes nodes.old nodes.new }
    ensures rest { OnOk result (All (λ node. rests node ≡ true) nodes.new) }
{
    for _ in rt.forever() {
        if all_rest(nodes.as_slice()) {
            return Ok(());
        }
        go_round(rt, nodes.as_mut_slice(), gate, turns, workers)?;
    }
    unreachable!()
}
