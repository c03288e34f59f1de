ghost use Rattle.std.specs.Prelude.{◌≡◌, ◌<◌, ◌^◌, ◌↔◌, IsTrue, IfOk, length, option_map};
ghost use Rattle.toml.specs.View.{items_view};
ghost use Rattle.rl_syntax.specs.Countable.{IsCountable};
ghost use Rattle.rl_syntax.specs.DraftReading.{list_place, name_place, names_of, needed_names};
ghost use Rattle.rl_syntax.specs.Reading.{Reads, needed};

use crate::refusal::SyntaxRefusal;
use rl_base::{Name, Names, Place};
use std::alloc::Global;
use toml::Value;

/// The three lists of names in a network text, by the number of the box or the train.
#[derive(Clone, Copy, Debug)]
pub(crate) enum NameList {
    Segments,
    Arms(u32),
    Route(u32),
}

impl NameList {
    /// The place of the list itself.
    pub(crate) fn place(self) -> Place
        ensures { result ≡ list_place self }
    {
        match self {
            NameList::Segments => Place::Segments,
            NameList::Arms(i) => Place::BoxArms(i),
            NameList::Route(i) => Place::TrainRoute(i),
        }
    }

    /// The place of one of its names.
    pub(crate) fn place_of(self, j: u32) -> Place
        ensures { result ≡ name_place self j }
    {
        match self {
            NameList::Segments => Place::Segment(j),
            NameList::Arms(i) => Place::BoxArm(i, j),
            NameList::Route(i) => Place::RouteItem(i, j),
        }
    }
}

/// Whether places can number the items of a list. No text that is short enough has a list of 2 ^ 32 items
/// or more; one that had would be answered as want of memory.
pub(crate) fn is_countable(items: &[Value]) -> bool
    ensures { IsTrue result ↔ IsCountable items.now }
{
    items.len() < 1 << 32
}

/// The name that stands at a place, where a text does.
pub(crate) fn name_at(
    alloc: Global,
    place: Place,
    text: Option<&str>,
) -> Result<Name, SyntaxRefusal>
    ensures { Reads result (needed place (option_map (λ s. s.now) text.entry)) }
{
    match text {
        Some(text) => Ok(Name::of(alloc, text.as_bytes())?),
        None => Err(SyntaxRefusal::Key(place)),
    }
}

/// The names of an array, in order.
#[tactic(auto, unfolding(crate::specs::DraftReading::names_of), using(crate::proofs::Items::steps))]
pub(crate) fn names_of(
    alloc: Global,
    list: NameList,
    items: &[Value],
) -> Result<Names, SyntaxRefusal>
    ensures reads { Reads result (names_of list (items_view items.now)) }
    ensures countable { IfOk result IsCountable }
{
    if !is_countable(items) {
        return Err(SyntaxRefusal::NoMemory);
    }
    let mut names = Names::new(alloc);
    for (j, item) in items.iter().enumerate() {
        let place = list.place_of(j as u32);
        names.push(name_at(alloc, place, item.as_str())?)?;
    }
    Ok(names)
}

/// The names of an array that must be there.
pub(crate) fn needed_names(
    alloc: Global,
    list: NameList,
    items: Option<&[Value]>,
) -> Result<Names, SyntaxRefusal>
    ensures reads { Reads result (needed_names list (option_map (λ s. items_view s.now) items.entry)) }
    ensures countable { IfOk result IsCountable }
{
    match items {
        Some(items) => names_of(alloc, list, items),
        None => Err(SyntaxRefusal::Key(list.place())),
    }
}
