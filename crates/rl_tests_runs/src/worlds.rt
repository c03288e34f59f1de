ghost use Rattle.std.specs.Prelude.{◌≡◌, ◌<◌, IsTrue};
ghost use Rattle.rl_base.specs.Layout.{node_count};
ghost use Rattle.rl_domain.specs.Rows.{Fits};
ghost use Rattle.rl_model.specs.Moves.{IsMoveOf};
ghost use Rattle.rl_tables.specs.Starts.{layout_of};
ghost use Rattle.rl_tables.specs.Tables.{AreTablesOf};

use crate::networks::{FORK, OCCUPIED, STRAIGHT, network};
use rl_base::NodeNo;
use rl_core::{Core, move_of};
use rl_domain::{Move, World};
use rl_net::Network;
use rl_record::{Event, Turn};
use rl_tables::{Line, compile};
use std::alloc::Global;
use std::process::Abort;
use std::test::Fail;

/// A tram terminus: two platforms at each end, a passing loop between them, and four trams.
const TERMINUS: &str = r#"format = 1
segments = ["plat1", "plat2", "west", "mid", "up", "down", "east", "plat3", "plat4"]
box = [
  { name = "E1", kind = "buffer", arms = ["plat1"] },
  { name = "E2", kind = "buffer", arms = ["plat2"] },
  { name = "P1", kind = "point", arms = ["west", "plat1", "plat2"], at = "left" },
  { name = "J", kind = "joint", arms = ["west", "mid"] },
  { name = "P2", kind = "point", arms = ["mid", "up", "down"], at = "left" },
  { name = "P3", kind = "point", arms = ["east", "up", "down"], at = "left" },
  { name = "P4", kind = "point", arms = ["east", "plat3", "plat4"], at = "left" },
  { name = "E3", kind = "buffer", arms = ["plat3"] },
  { name = "E4", kind = "buffer", arms = ["plat4"] },
]
train = [
  { name = "Tram1", route = ["plat1", "P1", "west", "J", "mid", "P2", "up", "P3", "east", "P4", "plat3"] },
  { name = "Tram2", route = ["plat2", "P1", "west", "P1", "plat2"] },
  { name = "Tram3", route = ["plat3", "P4", "east", "P3", "down", "P2", "mid", "J", "west", "P1", "plat1"] },
  { name = "Tram4", route = ["plat4"] },
]
"#;

/// Worlds of the straight line in this order: at the start the train is on A, which it holds at W and at J1; it holds
/// B at both ends too, has the lock of J1 and is across it; and at the end it rests on B.
const STRAIGHT_WORLDS: [&str; 3] = [
    "World { trains: [Standing { made: 0, on: SegId(0), across: None }], boxes: [\
BoxState { points: Left, lock: None, hold0: Some(TrainId(0)), hold1: None, hold2: None, hold3: None }, \
BoxState { points: Left, lock: None, hold0: Some(TrainId(0)), hold1: None, hold2: None, hold3: None }, \
BoxState { points: Left, lock: None, hold0: None, hold1: None, hold2: None, hold3: None }] }",
    "World { trains: [Standing { made: 0, on: SegId(0), \
across: Some(Passage { b: BoxId(1), to: SegId(1) }) }], boxes: [\
BoxState { points: Left, lock: None, hold0: Some(TrainId(0)), hold1: None, hold2: None, hold3: None }, \
BoxState { points: Left, lock: Some(PathLock { t: TrainId(0), s: SegId(0), s2: SegId(1) }), \
hold0: Some(TrainId(0)), hold1: Some(TrainId(0)), hold2: None, hold3: None }, \
BoxState { points: Left, lock: None, hold0: Some(TrainId(0)), hold1: None, hold2: None, hold3: None }] }",
    "World { trains: [Standing { made: 1, on: SegId(1), across: None }], boxes: [\
BoxState { points: Left, lock: None, hold0: None, hold1: None, hold2: None, hold3: None }, \
BoxState { points: Left, lock: None, hold0: None, hold1: Some(TrainId(0)), hold2: None, hold3: None }, \
BoxState { points: Left, lock: None, hold0: Some(TrainId(0)), hold1: None, hold2: None, hold3: None }] }",
];

/// Whether the move names trains, segments and boxes of the network.
fn is_move_of(net: &Network, m: &Move) -> bool
    ensures { IsTrue result → IsMoveOf net.now m.now }
{
    let (trains, segments, boxes) = (net.trains(), net.segments(), net.boxes());
    match *m {
        Move::Reserve { t, s, b } | Move::Release { t, s, b } => {
            t.0 < trains && s.0 < segments && b.0 < boxes
        }
        Move::Lock { t, b, s, s2 } | Move::Enter { t, b, s, s2 } => {
            t.0 < trains && b.0 < boxes && s.0 < segments && s2.0 < segments
        }
        Move::Unlock { t, b } => t.0 < trains && b.0 < boxes,
        Move::Throw { b } | Move::Settle { b, side: _ } => b.0 < boxes,
        Move::Leave { t, s } => t.0 < trains && s.0 < segments,
        Move::Refuse { t, s, b, u } => {
            t.0 < trains && s.0 < segments && b.0 < boxes && u.0 < trains
        }
        Move::Bar { t, b, u } => t.0 < trains && b.0 < boxes && u.0 < trains,
    }
}

/// Makes the move of the event in the world, if it has one.
fn follow(rt: &impl Abort, net: &Network, line: &Line, world: &mut World, event: &Event)
    requires { Fits net.now world.old }
    ensures { Fits net.now world.new }
{
    let there = event.word.0 < line.layout().words();
    assert!(rt; there);
    if let Some(m) = move_of(line, event) {
        let named = is_move_of(net, &m);
        assert!(rt; named, "{m:?}");
        let made = world.apply(net, &m).is_ok();
        assert!(rt; made, "{m:?}");
    }
}

/// One turn of the node, and its move in the world.
fn turn(rt: &impl Abort, net: &Network, core: &mut Core<'_>, world: &mut World, node: NodeNo)
    requires there { node.0 < node_count (layout_of core.old.line) }
    requires fits { Fits net.now world.old }
    ensures line { core.new.line ≡ core.old.line }
    ensures fits { Fits net.now world.new }
{
    let few = core.events() < 1_000_000;
    assert!(rt; few);
    if let Turn::Moved(event) = core.turn(node) {
        follow(rt, net, core.line(), world, &event);
    }
}

/// One turn of each node, in order.
fn round(rt: &impl Abort, net: &Network, core: &mut Core<'_>, world: &mut World)
    requires { Fits net.now world.old }
    ensures line { core.new.line ≡ core.old.line }
    ensures fits { Fits net.now world.new }
{
    for n in 0..core.line().layout().nodes() {
        turn(rt, net, core, world, NodeNo(n));
    }
}

/// Asserts that the world of the core is the one that its moves made, and is safe, and gives its text.
fn compare(
    rt: &impl Abort,
    alloc: Global,
    net: &Network,
    core: &Core<'_>,
    world: &World,
) -> Result<String, Fail>
    requires { AreTablesOf net.now core.now.line }
{
    let told = core.world(alloc, net)?;
    assert!(rt; !told.collided());
    assert!(rt; !told.derailed(net));
    let (text, made) = (
        format!(in alloc; "{told:?}")?,
        format!(in alloc; "{world:?}")?,
    );
    assert_eq!(rt; text.as_str(), made.as_str());
    Ok(text)
}

/// Asserts that the world at the end is the last of the texts, if there is one.
fn assert_end(rt: &impl Abort, end: &str, texts: &[&str]) {
    if let Some(text) = texts.last() {
        assert_eq!(rt; end, *text);
    }
}

/// Drives the core for so many rounds, and compares its world with that of its moves before each and at the end, where
/// it has the last of the texts. Gives how many of the texts, in their order, were texts of its worlds.
fn drive(
    rt: &impl Abort,
    alloc: Global,
    net: &Network,
    core: &mut Core<'_>,
    world: &mut World,
    rounds: u32,
    texts: &[&str],
) -> Result<usize, Fail>
    requires tables { AreTablesOf net.now core.old.line }
    requires fits { Fits net.now world.old }
{
    let mut seen = 0;
    'rounds: for _ in 0..rounds {
        let text = compare(rt, alloc, net, core, world)?;
        if seen < texts.len() && text.as_str() == texts[seen] {
            seen += 1;
        }
        round(rt, net, core, world);
    }
    let end = compare(rt, alloc, net, core, world)?;
    assert_end(rt, end.as_str(), texts);
    Ok(seen)
}

/// Drives the network for so many rounds from the start, and asserts that its worlds have these texts.
fn drive_from_start(
    rt: &impl Abort,
    alloc: Global,
    net: &Network,
    line: &Line,
    rounds: u32,
    texts: &[&str],
) -> Result<(), Fail>
    requires { AreTablesOf net.now line.now }
{
    let mut world = World::start(alloc, net)?;
    let mut core = Core::new(alloc, line, 100)?;
    let seen = drive(rt, alloc, net, &mut core, &mut world, rounds, texts)?;
    assert_eq!(rt; seen, texts.len());
    Ok(())
}

fn drive_network(
    rt: &impl Abort,
    alloc: Global,
    net: &Network,
    rounds: u32,
    texts: &[&str],
) -> Result<(), Fail> {
    let line = compile(alloc, net)?;
    drive_from_start(rt, alloc, net, &line, rounds, texts)
}

fn drive_text(
    rt: &impl Abort,
    alloc: Global,
    text: &str,
    rounds: u32,
    texts: &[&str],
) -> Result<(), Fail> {
    let net = network(alloc, text)?;
    drive_network(rt, alloc, &net, rounds, texts)
}

#[test]
fn tells_the_world_of_its_moves(rt: HostRuntime) -> Result<(), Fail> {
    drive_text(&rt, rt.alloc(), STRAIGHT, 200, &STRAIGHT_WORLDS)?;
    drive_text(&rt, rt.alloc(), OCCUPIED, 100, &[])?;
    drive_text(&rt, rt.alloc(), FORK, 200, &[])?;
    drive_text(&rt, rt.alloc(), TERMINUS, 600, &[])
}
