ghost use Rattle.std.specs.Prelude.{◌≡◌, IfOk, All, option_map, option_and_then};
ghost use Rattle.toml.specs.View.{view, table_view, items_view};
ghost use Rattle.rl_syntax.specs.Countable.{IsCountable, HasCountableArms};
ghost use Rattle.rl_syntax.specs.DraftReading.{box_of, box_in, boxes_of};
ghost use Rattle.rl_syntax.specs.Reading.{Reads, needed, optional};
ghost use Rattle.rl_syntax.specs.Words.{kind_named, side_of};

use crate::keys::Keys;
use crate::names::{NameList, is_countable, name_at, needed_names};
use crate::refusal::SyntaxRefusal;
use crate::table::{array_at, table_with, text_at, value_at};
use crate::words::{kind_named, side_named};
use rl_base::{DraftBox, DraftBoxes, Kind, Place, Side};
use std::alloc::Global;
use toml::{Table, Value};

/// The kind that stands at a place, where a text names one.
fn kind_at(place: Place, text: Option<&str>) -> Result<Kind, Place>
    ensures { result ≡ needed place (option_and_then kind_named (option_map (λ s. s.now) text.entry)) }
{
    match text {
        Some(text) => kind_named(text).ok_or(place),
        None => Err(place),
    }
}

/// The side that stands at a place, where anything does.
fn side_at(place: Place, value: Option<&Value>) -> Result<Option<Side>, Place>
    ensures { result ≡ optional place side_of (option_map (λ v. view v.now) value.entry) }
{
    let Some(value) = value else {
        return Ok(None);
    };
    match value.as_str() {
        Some(text) => match side_named(text) {
            Some(side) => Ok(Some(side)),
            None => Err(place),
        },
        None => Err(place),
    }
}

/// The box that a table says.
#[tactic(auto, unfolding(crate::specs::DraftReading::box_of))]
fn box_of(alloc: Global, i: u32, table: &Table) -> Result<DraftBox, SyntaxRefusal>
    ensures reads { Reads result (box_of i (table_view table.now)) }
    ensures countable { IfOk result HasCountableArms }
{
    let name = name_at(alloc, Place::BoxName(i), text_at(table, "name"))?;
    let kind = kind_at(Place::BoxKind(i), text_at(table, "kind")).map_err(SyntaxRefusal::Key)?;
    let arms = needed_names(alloc, NameList::Arms(i), array_at(table, "arms"))?;
    let at = side_at(Place::BoxSide(i), value_at(table, "at")).map_err(SyntaxRefusal::Key)?;
    Ok(DraftBox {
        name,
        kind,
        arms,
        at,
    })
}

/// The box that a value says, where it is a table with the keys of a box.
fn box_in(alloc: Global, i: u32, value: &Value) -> Result<DraftBox, SyntaxRefusal>
    ensures reads { Reads result (box_in i (view value.now)) }
    ensures countable { IfOk result HasCountableArms }
{
    match table_with(Keys::Box, value) {
        Some(table) => box_of(alloc, i, table),
        None => Err(SyntaxRefusal::Key(Place::BoxItem(i))),
    }
}

/// The boxes of an array, in order.
#[tactic(auto, unfolding(crate::specs::DraftReading::boxes_of), using(crate::proofs::Items::steps))]
pub(crate) fn boxes_of(alloc: Global, items: &[Value]) -> Result<DraftBoxes, SyntaxRefusal>
    ensures reads { Reads result (boxes_of (items_view items.now)) }
    ensures countable { IfOk result IsCountable }
    ensures arms { IfOk result (All HasCountableArms) }
{
    if !is_countable(items) {
        return Err(SyntaxRefusal::NoMemory);
    }
    let mut boxes = DraftBoxes::new(alloc);
    for (i, item) in items.iter().enumerate() {
        boxes.push(box_in(alloc, i as u32, item)?)?;
    }
    Ok(boxes)
}
