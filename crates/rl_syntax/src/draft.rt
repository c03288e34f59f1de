ghost use Rattle.std.specs.Prelude.{◌≡◌, IfOk};
ghost use Rattle.toml.specs.View.{table_view};
ghost use Rattle.rl_syntax.specs.Countable.{HasCountableLists};
ghost use Rattle.rl_syntax.specs.DraftReading.{lists_of, draft_of};
ghost use Rattle.rl_syntax.specs.Reading.{Reads};

use crate::boxes::boxes_of;
use crate::keys::{Keys, has_other_key};
use crate::names::{NameList, names_of};
use crate::refusal::SyntaxRefusal;
use crate::table::{has_format_one, optional_array, value_at};
use crate::trains::trains_of;
use rl_base::{Draft, Place};
use std::alloc::Global;
use toml::Table;

#[tactic(auto, unfolding(crate::specs::DraftReading::lists_of))]
fn lists_of(alloc: Global, table: &Table) -> Result<Draft, SyntaxRefusal>
    ensures reads { Reads result (lists_of (table_view table.now)) }
    ensures countable { IfOk result HasCountableLists }
{
    let segments = optional_array(Place::Segments, value_at(table, "segments")).map_err(
        SyntaxRefusal::Key,
    )?;
    let segments = names_of(alloc, NameList::Segments, segments)?;
    let boxes = optional_array(Place::Boxes, value_at(table, "box")).map_err(SyntaxRefusal::Key)?;
    let boxes = boxes_of(alloc, boxes)?;
    let trains = optional_array(Place::Trains, value_at(table, "train")).map_err(
        SyntaxRefusal::Key,
    )?;
    let trains = trains_of(alloc, trains)?;
    Ok(Draft {
        segments,
        boxes,
        trains,
    })
}

/// The draft that a document says, its names not yet tested.
#[tactic(auto, unfolding(crate::specs::DraftReading::draft_of))]
pub(crate) fn draft_of(alloc: Global, table: &Table) -> Result<Draft, SyntaxRefusal>
    ensures reads { Reads result (draft_of (table_view table.now)) }
    ensures countable { IfOk result HasCountableLists }
{
    if has_other_key(Keys::Network, table) {
        return Err(SyntaxRefusal::Key(Place::Top));
    }
    if !has_format_one(table) {
        return Err(SyntaxRefusal::Key(Place::Format));
    }
    lists_of(alloc, table)
}
