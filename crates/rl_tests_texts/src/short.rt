//! Networks and texts in short, as the tables of the tests have them.
ghost use Rattle.std.specs.Prelude.{◌≡◌, IfOk, IsTrue};
ghost use Rattle.std.specs.List.{list_all};
ghost use Rattle.rl_base.specs.Draft.{HasNames};
ghost use Rattle.rl_base.specs.Name.{is_name};

use rl_base::{
    Draft, DraftBox, DraftBoxes, DraftTrain, DraftTrains, Kind, Name, Names, NoMemory, Side,
    kind_word, name_ok, side_word,
};
use rl_net::{Network, check};
use rl_text::Out;
use std::alloc::Global;
use std::process::Abort;
use std::test::Fail;

fn are_names(names: &[Name]) -> bool
    ensures { result ≡ list_all is_name names.now }
{
    names.iter().all(|n| name_ok(n.bytes()))
}

fn have_names(boxes: &[DraftBox]) -> bool
    ensures { result ≡ list_all (λ b. is_name b.name) boxes.now }
{
    boxes.iter().all(|b| name_ok(b.name.bytes()))
}

fn have_named_arms(boxes: &[DraftBox]) -> bool
    ensures { result ≡ list_all (λ b. list_all is_name b.arms) boxes.now }
{
    boxes.iter().all(|b| are_names(b.arms.as_slice()))
}

fn are_called_names(trains: &[DraftTrain]) -> bool
    ensures { result ≡ list_all (λ t. is_name t.name) trains.now }
{
    trains.iter().all(|t| name_ok(t.name.bytes()))
}

fn have_named_routes(trains: &[DraftTrain]) -> bool
    ensures { result ≡ list_all (λ t. list_all is_name t.route) trains.now }
{
    trains.iter().all(|t| are_names(t.route.as_slice()))
}

fn has_names(draft: &Draft) -> bool
    ensures { IsTrue result → HasNames draft.now }
{
    are_names(draft.segments.as_slice())
        && have_names(draft.boxes.as_slice())
        && have_named_arms(draft.boxes.as_slice())
        && are_called_names(draft.trains.as_slice())
        && have_named_routes(draft.trains.as_slice())
}

/// The words of the text, each as a name.
fn names_of(alloc: Global, text: &str) -> Result<Names, NoMemory> {
    let mut names = Names::new(alloc);
    for word in text.split(' ') {
        if !word.is_empty() {
            names.push(Name::of(alloc, word.as_bytes())?)?;
        }
    }
    Ok(names)
}

fn kind_of(word: &str) -> Kind {
    match word.as_bytes() {
        b"joint" => Kind::Joint,
        b"crossing" => Kind::Crossing,
        b"point" => Kind::Point,
        _ => Kind::Buffer,
    }
}

fn side_of(word: &str) -> Side {
    if word == "right" {
        Side::Right
    } else {
        Side::Left
    }
}

/// Adds a box: its kind and its side, its name, and its arms.
fn add_box(draft: &mut Draft, word: &str, name: Name, arms: Names) -> Result<(), NoMemory> {
    let (kind, at) = match word.split_once('@') {
        Some((kind, side)) => (kind_of(kind), Some(side_of(side))),
        None => (kind_of(word), None),
    };
    draft.boxes.push(DraftBox {
        name,
        kind,
        arms,
        at,
    })
}

/// Adds a box, or a train: its name, and its route.
fn add_item(alloc: Global, draft: &mut Draft, item: &str) -> Result<(), NoMemory> {
    let (word, rest) = item.split_once(' ').unwrap_or((item, ""));
    let (name, others) = rest.split_once(' ').unwrap_or((rest, ""));
    let name = Name::of(alloc, name.as_bytes())?;
    let others = names_of(alloc, others)?;
    if word == "train" {
        draft.trains.push(DraftTrain {
            name,
            route: others,
        })
    } else {
        add_box(draft, word, name, others)
    }
}

fn add_items(alloc: Global, draft: &mut Draft, items: &str) -> Result<(), NoMemory> {
    for item in items.split('/') {
        if !item.is_empty() {
            add_item(alloc, draft, item)?;
        }
    }
    Ok(())
}

/// The draft that is written in short: the segments, then each box with its kind, its side, its name and its arms, and
/// each train with its name and its route. A stroke parts them, and a space their words.
fn draft_of(alloc: Global, text: &str) -> Result<Draft, NoMemory> {
    let (segments, items) = text.split_once('/').unwrap_or((text, ""));
    let mut draft = Draft {
        segments: names_of(alloc, segments)?,
        boxes: DraftBoxes::new(alloc),
        trains: DraftTrains::new(alloc),
    };
    add_items(alloc, &mut draft, items)?;
    Ok(draft)
}

/// The draft that is written in short, all of whose names are names.
pub(crate) fn named_draft(rt: &impl Abort, alloc: Global, text: &str) -> Result<Draft, NoMemory>
    ensures { IfOk result HasNames }
{
    let draft = draft_of(alloc, text)?;
    let named = has_names(&draft);
    assert!(rt; named, "a name in {text}");
    Ok(draft)
}

/// The network that is written in short.
pub(crate) fn network_of(rt: &impl Abort, alloc: Global, text: &str) -> Result<Network, Fail> {
    Ok(check(alloc, named_draft(rt, alloc, text)?)?)
}

/// Appends the names, each behind a space.
fn put_names(out: &mut Out, names: &Names) -> Result<(), NoMemory> {
    for name in names.as_slice() {
        out.word(name.bytes())?;
    }
    Ok(())
}

fn put_box(out: &mut Out, found: &DraftBox) -> Result<(), NoMemory> {
    out.text("/".as_bytes())?;
    out.text(kind_word(found.kind))?;
    if let Some(side) = found.at {
        out.text("@".as_bytes())?;
        out.text(side_word(side))?;
    }
    out.word(found.name.bytes())?;
    put_names(out, &found.arms)
}

fn put_train(out: &mut Out, train: &DraftTrain) -> Result<(), NoMemory> {
    out.text("/train".as_bytes())?;
    out.word(train.name.bytes())?;
    put_names(out, &train.route)
}

/// The draft in short, behind a space.
pub(crate) fn short_of(alloc: Global, draft: &Draft) -> Result<Out, NoMemory> {
    let mut out = Out::new(alloc);
    put_names(&mut out, &draft.segments)?;
    for found in draft.boxes.as_slice() {
        put_box(&mut out, found)?;
    }
    for train in draft.trains.as_slice() {
        put_train(&mut out, train)?;
    }
    Ok(out)
}

/// Appends the text, in which a stroke is the end of a line.
pub(crate) fn put_text(text: &mut Vec<u8>, short: &str) -> Result<(), NoMemory> {
    for byte in short.bytes() {
        text.push(if byte == b'|' { b'\n' } else { byte })?;
    }
    Ok(())
}
