ghost use Rattle.std.specs.Prelude.{◌≡◌, [], ◌+◌, ◌<◌, ◌≤◌, List, length, IfOk, IfSome, OnOk, Result, Ok, Err};
ghost use Rattle.rl_base.specs.declared.limits.TheConstants.{MAX_TURNS, MAX_SCHEDULE_BYTES};
ghost use Rattle.rl_text.specs.Lines.{lines_of};
ghost use Rattle.rl_schedule.specs.Given.{item_at, line_of, ordered};
ghost use Rattle.rl_schedule.specs.Meaning.{Means};
ghost use Rattle.rl_schedule.specs.Readings.{item_in, item_of, items_after, nodes_of, schedule_of};
ghost use Rattle.rl_schedule.specs.Refusals.{UnlessMemory};
ghost use Rattle.rl_schedule.specs.Turns.{HasNode, IsScheduleFor, turn_count, turns_together};
ghost use Rattle.rl_schedule.specs.declared.schedules.Item.{Item};

use crate::nodes::{Near, node_named};
use crate::orders::{Given, order_of};
use crate::plain::plain_turn;
use crate::refusal::ScheduleRefusal;
use crate::schedules::{Item, ItemList, Schedule};
use rl_base::limits::{MAX_SCHEDULE_BYTES, MAX_TURNS};
use rl_net::Network;
use rl_text::{TextLine, Tokens};
use std::alloc::Global;

/// The item that is ordered, if the node is there.
fn item_of(net: &Network, near: &mut Near, given: &Given<'_>) -> Option<Item>
    ensures item { result ≡ item_of net.now (ordered given.now) }
    ensures within { IfSome result (HasNode (nodes_of net.now)) }
{
    match given {
        Given::Turns { node, count } => {
            let number = node_named(net, near, node.role, node.name)?;
            Some(Item::Turn {
                node: number,
                count: *count,
            })
        }
        Given::Rounds { count } => Some(Item::Round { count: *count }),
    }
}

/// How many turns an item stands for.
fn count_turns(net: &Network, item: Item) -> u64
    ensures { result ≡ turn_count (nodes_of net.now) item }
{
    match item {
        Item::Turn { count, .. } => u64::from(count),
        Item::Round { count } => u64::from(count) * u64::from(net.layout().nodes()),
    }
}

/// The item of a line, or the line's refusal.
#[inline(always)]
fn item_of_line(
    net: &Network,
    near: &mut Near,
    line: &TextLine<'_>,
) -> Result<Item, ScheduleRefusal>
    ensures item { result ≡ item_at net.now line.now.number (line_of line.now) }
    ensures within { IfOk result (HasNode (nodes_of net.now)) }
{
    if let Some(item) = plain_turn(net, near, line) {
        return Ok(item);
    }
    let given = order_of(line).ok_or(ScheduleRefusal::Line(line.number))?;
    item_of(net, near, &given).ok_or(ScheduleRefusal::NoNode(line.number))
}

/// The item of a line that stands after so many turns, or the line's refusal.
#[inline(always)]
fn item_in(
    net: &Network,
    near: &mut Near,
    turns: u64,
    line: &TextLine<'_>,
) -> Result<Item, ScheduleRefusal>
    requires { turns ≤ MAX_TURNS }
    ensures item { (items : List Item) → turns ≡ turns_together (nodes_of net.now) items
        → line.now.number ≡ length items + 1
        → result ≡ item_in net.now items (line_of line.now) }
    ensures within { IfOk result (HasNode (nodes_of net.now)) }
    ensures few { IfOk result (λ item. turns + turn_count (nodes_of net.now) item ≤ MAX_TURNS) }
{
    let item = item_of_line(net, near, line)?;
    if count_turns(net, item) > MAX_TURNS - turns {
        return Err(ScheduleRefusal::TooMany(line.number));
    }
    Ok(item)
}

/// The items of all lines, or the first refusal.
fn read_lines(alloc: Global, net: &Network, text: &[u8]) -> Result<ItemList, ScheduleRefusal>
    requires { length text.now ≤ MAX_SCHEDULE_BYTES }
    ensures answer { UnlessMemory result (result ≡ items_after net.now [] (lines_of text.now)) }
    ensures fits { IfOk result (IsScheduleFor (nodes_of net.now)) }
{
    let mut items = ItemList::new(alloc);
    let mut turns = 0;
    let mut near = Near::START;
    let mut lines = Tokens::new(text);
    while let Some(line) = lines.line() {
        let item = item_in(net, &mut near, turns, &line)?;
        turns += count_turns(net, item);
        items.push(item)?;
    }
    Ok(items)
}

/// The schedule of a text on the network, or its first refusal. It takes memory for one item a line.
pub fn read_schedule(alloc: Global, net: &Network, text: &[u8]) -> Result<Schedule, ScheduleRefusal>
    // The one answer that the text has, unless memory runs out.
    ensures answer { UnlessMemory result (result ≡ schedule_of net.now text.now) }
    // What that answer says of the text: which items its lines say, or which line is the first to be refused, and why.
    ensures meaning { UnlessMemory result (Means net.now text.now result) }
    // No other answer says what is so of the text.
    ensures exact { (other : Result (List Item) ScheduleRefusal) → Means net.now text.now other
        → UnlessMemory result (result ≡ other) }
    // A text that is too long is refused before anything is read, whatever memory is left.
    ensures too_long { MAX_SCHEDULE_BYTES < length text.now → result ≡ Err (ScheduleRefusal.TooMany 0) }
    // The nodes are in the range of the network, and the turns not too many.
    ensures fits { IfOk result (IsScheduleFor (nodes_of net.now)) }
{
    if text.len() > MAX_SCHEDULE_BYTES {
        return Err(ScheduleRefusal::TooMany(0));
    }
    // What acceptance gave, for the proof.
    let _layout = net.layout();
    let items = read_lines(alloc, net, text)?;
    Ok(Schedule::of(items))
}
