ghost use Rattle.std.specs.Prelude.{◌≡◌, ℕ, ◌-◌, ◌<◌, ◌≤◌, All, length};
ghost use Rattle.rl_runner.specs.Groups.{group_size};
ghost use Rattle.rl_runner.specs.Turns.{HasTurned, EachTurned};

use crate::abreast::Abreast;
use crate::turner::Turner;
use rl_outside::Gate;
use rl_record::Turn;
use std::cmp::min;
use std::thread::{Threads, for_each_chunk_mut};

/// What is at home two steps on is at home, for the proofs here.
fn at_home<T: Turner>()
    ensures { (x y z : T) → T.home x y → T.home y z → T.home x z }
{}

/// A turn of the node, which the gate lets pass and is told of.
fn once<T: Turner, G: Gate>(node: &mut T, gate: &G)
    requires { T.ready 1 node.old }
    ensures turned { HasTurned T.number T.turns T.home 1 node.old node.new }
    ensures ready { (n : ℕ) → 1 ≤ n → T.ready n node.old → T.ready (n - 1) node.new }
{
    gate.pass(node.number());
    if let Turn::Moved(event) = node.turn() {
        gate.moved(event.node, event.stamp, event.word, event.was, event.now);
    }
}

/// A turn of each node of the group, in order.
fn one_round<T: Turner, G: Gate>(group: &mut [T], gate: &G)
    requires { All (T.ready 1) group.old }
    ensures turned { EachTurned T.number T.turns T.home 1 group.old group.new }
    ensures ready { (n : ℕ) → 1 ≤ n → All (T.ready n) group.old → All (T.ready (n - 1)) group.new }
{
    for node in group.iter_mut() {
        once(node, gate);
    }
}

/// So many turns of each node of the group, in as many passes, abreast of the other workers.
fn work<T: Turner, G: Gate>(group: &mut [T], gate: &G, round: u32, abreast: &Abreast)
    requires { All (T.ready round) group.old }
    ensures { EachTurned T.number T.turns T.home round group.old group.new }
{
    at_home::<T>();
    let mut waits = true;
    for pass in 0..round {
        one_round(group, gate);
        waits = abreast.keep(pass + 1, waits);
    }
}

/// How many nodes the group of a worker has: they are shared out among the workers, rounded up. The last group may have
/// fewer.
fn group_size(nodes: usize, workers: u32) -> usize
    requires some { 0 < nodes }
    requires workers { 1 ≤ workers }
    ensures size { result ≡ group_size nodes workers }
    ensures some { 1 ≤ result }
{
    nodes.div_ceil(min(workers as usize, nodes))
}

/// Gives each node `round` turns, by at most so many workers: each has a group of neighbours, and goes through it
/// round after round.
pub fn rounds<R: Threads + Sync, T: Turner, G: Gate>(
    rt: &R,
    nodes: &mut [T],
    gate: &G,
    round: u32,
    workers: u32,
)
    requires some { 0 < length nodes.old }
    requires workers { 1 ≤ workers }
    requires ready { All (T.ready round) nodes.old }
    ensures { EachTurned T.number T.turns T.home round nodes.old nodes.new }
{
    let size = group_size(nodes.len(), workers);
    let abreast = Abreast::new(nodes.len().div_ceil(size));
    let worker = |_start: usize, group: &mut [T]|
        requires { All (T.ready round) group.now }
        ensures { EachTurned T.number T.turns T.home round group.entry.now group.exit.now }
    { work(group, gate, round, &abreast) };
    for_each_chunk_mut(rt, nodes, size, &worker);
}
