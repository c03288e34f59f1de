ghost use Rattle.std.specs.Prelude.{◌≡◌, ◌+◌, ◌*◌, ◌<◌, ◌≤◌, [], ◌∷◌, replicate, OnOk, OnErr, IfOk};
ghost use Rattle.std.specs.List.{repeat, range_with_len};
ghost use Rattle.rl_base.specs.Layout.{node_count};
ghost use Rattle.rl_tables.specs.Starts.{layout_of};
ghost use Rattle.rl_schedule.specs.Driven.{IsDriven, IsPartlyDriven, GoesOn, BreaksOff, IsOnLine, move_in};
ghost use Rattle.rl_schedule.specs.Turns.{HasNode, IsScheduleFor, turn_count, turns_in, turns_of, turns_together};

use crate::schedules::{Item, Schedule};
use rl_base::{NoMemory, NodeNo};
use rl_core::{Core, move_of};
use rl_model::{Move, Moves};
use rl_record::Turn;
use rl_tables::Line;
use std::alloc::Global;

/// The move of a turn.
#[inline(always)]
fn move_in(line: &Line, turn: &Turn) -> Option<Move>
    requires { IsOnLine line.now turn.now }
    ensures { result ≡ move_in line.now turn.now }
{
    match turn {
        Turn::Moved(e) => move_of(line, e),
        Turn::Idle(_) | Turn::Rest | Turn::Full => None,
    }
}

/// A turn of the node by a close look; its move is put behind the others. Where there is no place for a move, it isn't
/// made.
#[inline(never)]
fn drive_closely(core: &mut Core<'_>, node: NodeNo, moves: &mut Vec<Move>) -> Result<(), NoMemory>
    requires there { node.0 < node_count (layout_of core.old.line) }
    requires few { core.old.events < 4294967295 }
    ensures ok { OnOk result (GoesOn core.old moves.old.items (node.0 ∷ []) core.new moves.new.items) }
    ensures err { OnErr result (core.new ≡ core.old) }
{
    moves.reserve(1)?;
    core.reached();
    let turn = core.turn_closely(node);
    if let Some(m) = move_in(core.line(), &turn) {
        moves.push_reserved(m);
    }
    Ok(())
}

/// A turn of the node, for which a place is taken only where a glance doesn't tell that it makes no move.
#[inline(always)]
fn drive_turn(core: &mut Core<'_>, node: NodeNo, moves: &mut Vec<Move>) -> Result<(), NoMemory>
    requires there { node.0 < node_count (layout_of core.old.line) }
    requires few { core.old.events < 4294967295 }
    ensures ok { OnOk result (GoesOn core.old moves.old.items (node.0 ∷ []) core.new moves.new.items) }
    ensures err { OnErr result (core.new ≡ core.old) }
{
    core.reached();
    if core.passes(node) {
        Ok(())
    } else {
        drive_closely(core, node, moves)
    }
}

/// So many turns of the node.
fn drive_turns(
    core: &mut Core<'_>,
    node: NodeNo,
    count: u32,
    moves: &mut Vec<Move>,
) -> Result<(), NoMemory>
    requires there { node.0 < node_count (layout_of core.old.line) }
    requires few { core.old.events + count ≤ 4294967295 }
    ensures ok { OnOk result (GoesOn core.old moves.old.items (replicate count node.0) core.new moves.new.items) }
    ensures err { OnErr result (BreaksOff core.old moves.old.items (replicate count node.0) core.new) }
{
    for i in 0..count {
        drive_turn(core, node, moves)?;
    }
    Ok(())
}

/// How many nodes there are.
fn count_nodes(core: &Core<'_>) -> u32
    ensures { result ≡ node_count (layout_of core.now.line) }
{
    core.line().layout().nodes()
}

/// A turn of every node.
fn drive_round(core: &mut Core<'_>, moves: &mut Vec<Move>) -> Result<(), NoMemory>
    requires few { core.old.events + node_count (layout_of core.old.line) ≤ 4294967295 }
    ensures ok { OnOk result (GoesOn core.old moves.old.items
        (range_with_len 0 (node_count (layout_of core.old.line))) core.new moves.new.items) }
    ensures err { OnErr result (BreaksOff core.old moves.old.items
        (range_with_len 0 (node_count (layout_of core.old.line))) core.new) }
{
    let nodes = count_nodes(core);
    for n in 0..nodes {
        drive_turn(core, NodeNo(n), moves)?;
    }
    Ok(())
}

/// So many rounds.
fn drive_rounds(core: &mut Core<'_>, count: u32, moves: &mut Vec<Move>) -> Result<(), NoMemory>
    requires few { core.old.events + count * node_count (layout_of core.old.line) ≤ 4294967295 }
    ensures ok { OnOk result (GoesOn core.old moves.old.items
        (repeat count (range_with_len 0 (node_count (layout_of core.old.line)))) core.new moves.new.items) }
    ensures err { OnErr result (BreaksOff core.old moves.old.items
        (repeat count (range_with_len 0 (node_count (layout_of core.old.line)))) core.new) }
{
    for i in 0..count {
        drive_round(core, moves)?;
    }
    Ok(())
}

/// The turns of an item.
fn drive_item(core: &mut Core<'_>, item: Item, moves: &mut Vec<Move>) -> Result<(), NoMemory>
    requires there { HasNode (node_count (layout_of core.old.line)) item }
    requires few { core.old.events + turn_count (node_count (layout_of core.old.line)) item ≤ 4294967295 }
    ensures ok { OnOk result (GoesOn core.old moves.old.items
        (turns_in (node_count (layout_of core.old.line)) item) core.new moves.new.items) }
    ensures err { OnErr result (BreaksOff core.old moves.old.items
        (turns_in (node_count (layout_of core.old.line)) item) core.new) }
{
    match item {
        Item::Turn { node, count } => drive_turns(core, node, count, moves),
        Item::Round { count } => drive_rounds(core, count, moves),
    }
}

/// The turns of all items.
fn drive_items(
    core: &mut Core<'_>,
    schedule: &Schedule,
    moves: &mut Vec<Move>,
) -> Result<(), NoMemory>
    requires fits { IsScheduleFor (node_count (layout_of core.old.line)) schedule.now }
    requires few { core.old.events + turns_together (node_count (layout_of core.old.line)) schedule.now ≤ 4294967295 }
    ensures ok { OnOk result (GoesOn core.old moves.old.items
        (turns_of (node_count (layout_of core.old.line)) schedule.now) core.new moves.new.items) }
    ensures err { OnErr result (BreaksOff core.old moves.old.items
        (turns_of (node_count (layout_of core.old.line)) schedule.now) core.new) }
{
    for i in 0..schedule.len() {
        drive_item(core, schedule.item(i), moves)?;
    }
    Ok(())
}

/// Makes the turns of a schedule, and gives their moves in order. It takes memory for the moves alone, a place before
/// each turn that may make one; where there is none, the core stands after a beginning of the turns.
pub fn drive(alloc: Global, core: &mut Core<'_>, schedule: &Schedule) -> Result<Moves, NoMemory>
    requires fits { IsScheduleFor (node_count (layout_of core.old.line)) schedule.now }
    requires few { core.old.events + turns_together (node_count (layout_of core.old.line)) schedule.now ≤ 4294967295 }
    ensures ok { IfOk result (λ moves. IsDriven core.old
        (turns_of (node_count (layout_of core.old.line)) schedule.now) moves core.new) }
    ensures err { OnErr result (IsPartlyDriven core.old
        (turns_of (node_count (layout_of core.old.line)) schedule.now) core.new) }
{
    let mut moves = Vec::new(alloc);
    drive_items(core, schedule, &mut moves)?;
    Ok(Moves::from_vec(moves))
}
