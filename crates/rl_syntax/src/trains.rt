ghost use Rattle.std.specs.Prelude.{◌≡◌, IfOk, All};
ghost use Rattle.toml.specs.View.{view, table_view, items_view};
ghost use Rattle.rl_syntax.specs.Countable.{IsCountable, HasCountableRoute};
ghost use Rattle.rl_syntax.specs.DraftReading.{train_of, train_in, trains_of};
ghost use Rattle.rl_syntax.specs.Reading.{Reads};

use crate::keys::Keys;
use crate::names::{NameList, is_countable, name_at, needed_names};
use crate::refusal::SyntaxRefusal;
use crate::table::{array_at, table_with, text_at};
use rl_base::{DraftTrain, DraftTrains, Place};
use std::alloc::Global;
use toml::{Table, Value};

/// The train that a table says.
#[tactic(auto, unfolding(crate::specs::DraftReading::train_of))]
fn train_of(alloc: Global, i: u32, table: &Table) -> Result<DraftTrain, SyntaxRefusal>
    ensures reads { Reads result (train_of i (table_view table.now)) }
    ensures countable { IfOk result HasCountableRoute }
{
    let name = name_at(alloc, Place::TrainName(i), text_at(table, "name"))?;
    let route = needed_names(alloc, NameList::Route(i), array_at(table, "route"))?;
    Ok(DraftTrain { name, route })
}

/// The train that a value says, where it is a table with the keys of a train.
fn train_in(alloc: Global, i: u32, value: &Value) -> Result<DraftTrain, SyntaxRefusal>
    ensures reads { Reads result (train_in i (view value.now)) }
    ensures countable { IfOk result HasCountableRoute }
{
    match table_with(Keys::Train, value) {
        Some(table) => train_of(alloc, i, table),
        None => Err(SyntaxRefusal::Key(Place::TrainItem(i))),
    }
}

/// The trains of an array, in order.
#[tactic(auto, unfolding(crate::specs::DraftReading::trains_of), using(crate::proofs::Items::steps))]
pub(crate) fn trains_of(alloc: Global, items: &[Value]) -> Result<DraftTrains, SyntaxRefusal>
    ensures reads { Reads result (trains_of (items_view items.now)) }
    ensures countable { IfOk result IsCountable }
    ensures routes { IfOk result (All HasCountableRoute) }
{
    if !is_countable(items) {
        return Err(SyntaxRefusal::NoMemory);
    }
    let mut trains = DraftTrains::new(alloc);
    for (i, item) in items.iter().enumerate() {
        trains.push(train_in(alloc, i as u32, item)?)?;
    }
    Ok(trains)
}
