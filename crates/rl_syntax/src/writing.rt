ghost use Rattle.std.specs.Prelude.{◌≡◌, ◌≤◌, false, IfOk, OnOk, IsTrue, length, string_bytes};
ghost use Rattle.std.specs.List.{list_all};
ghost use Rattle.rl_base.specs.Draft.{HasNames};
ghost use Rattle.rl_base.specs.Name.{is_name};
ghost use Rattle.rl_syntax.specs.DraftTable.{with_key, with_side, box_table, train_table, tables, draft_table};
ghost use Rattle.rl_syntax.specs.Meaning.{Means};
ghost use Rattle.rl_syntax.specs.Spelling.{texts};
ghost use Rattle.toml.specs.Data.{string, array, members_depth};
ghost use Rattle.toml.specs.Parse.{parse_document};
ghost use Rattle.toml_parser.specs.Strings.{recursion_limit};
ghost use Rattle.toml.specs.Text.{IsDocumentText};
ghost use Rattle.toml.specs.View.{view, table_view};

use rl_base::limits::MAX_NETWORK_BYTES;
use rl_base::{Draft, DraftBox, DraftTrain, Name, NoMemory, Side, kind_word, side_word};
use rl_text::Out;
use std::alloc::Global;
use toml::{Table, Value};

/// Puts a value at a key.
#[tactic(auto, using(crate::proofs::Written::entries))]
fn set_key(alloc: Global, table: &mut Table, key: &str, value: Value) -> Result<(), NoMemory>
    ensures { OnOk result (table_view table.new ≡ with_key key.now (view value) (table_view table.old)) }
{
    table.insert(String::from_str(alloc, key)?, value)?;
    Ok(())
}

/// A name, or a word that is made as names are, as a value.
#[tactic(auto, using(crate::proofs::Written::names))]
fn text_value(alloc: Global, text: &[u8]) -> Result<Value, NoMemory>
    requires { IsTrue (is_name text.now) }
    ensures { IfOk result (λ v. view v ≡ string text.now) }
{
    match str::from_utf8(text) {
        Ok(text) => Ok(Value::string(alloc, text)?),
        Err(_) => unreachable!(),
    }
}

/// A list of names as a value.
#[tactic(auto, using(crate::proofs::Written::steps))]
fn names_value(alloc: Global, names: &[Name]) -> Result<Value, NoMemory>
    requires { IsTrue (list_all is_name names.now) }
    ensures { IfOk result (λ v. view v ≡ array (texts names.now)) }
{
    let mut items = Vec::new(alloc);
    for name in names {
        items.push(text_value(alloc, name.bytes())?)?;
    }
    Ok(Value::from(items))
}

/// Puts a name, or a word that is made as names are, at a key.
fn set_text(alloc: Global, table: &mut Table, key: &str, text: &[u8]) -> Result<(), NoMemory>
    requires { IsTrue (is_name text.now) }
    ensures { OnOk result (table_view table.new ≡ with_key key.now (string text.now) (table_view table.old)) }
{
    set_key(alloc, table, key, text_value(alloc, text)?)
}

/// Puts a list of names at a key.
fn set_names(alloc: Global, table: &mut Table, key: &str, names: &[Name]) -> Result<(), NoMemory>
    requires { IsTrue (list_all is_name names.now) }
    ensures { OnOk result (table_view table.new ≡ with_key key.now (array (texts names.now)) (table_view table.old)) }
{
    set_key(alloc, table, key, names_value(alloc, names)?)
}

/// Puts the side of a box, where it has one.
#[tactic(auto, using(crate::proofs::Written::names))]
fn set_side(alloc: Global, table: &mut Table, side: Option<Side>) -> Result<(), NoMemory>
    ensures { OnOk result (table_view table.new ≡ with_side side (table_view table.old)) }
{
    match side {
        Some(side) => set_text(alloc, table, "at", side_word(side)),
        None => Ok(()),
    }
}

#[tactic(auto, using(crate::proofs::Written::names))]
fn box_table(alloc: Global, draft: &DraftBox) -> Result<Table, NoMemory>
    requires name { IsTrue (is_name draft.now.name) }
    requires arms { IsTrue (list_all is_name draft.now.arms) }
    ensures { IfOk result (λ t. table_view t ≡ box_table draft.now) }
{
    let mut table = Table::new(alloc);
    set_text(alloc, &mut table, "name", draft.name.bytes())?;
    set_text(alloc, &mut table, "kind", kind_word(draft.kind))?;
    set_names(alloc, &mut table, "arms", draft.arms.as_slice())?;
    set_side(alloc, &mut table, draft.at)?;
    Ok(table)
}

#[tactic(auto, using(crate::proofs::Written::steps))]
fn boxes_value(alloc: Global, boxes: &[DraftBox]) -> Result<Value, NoMemory>
    requires names { IsTrue (list_all (λ b. is_name b.name) boxes.now) }
    requires arms { IsTrue (list_all (λ b. list_all is_name b.arms) boxes.now) }
    ensures { IfOk result (λ v. view v ≡ array (tables box_table boxes.now)) }
{
    let mut items = Vec::new(alloc);
    for draft in boxes {
        items.push(Value::from(box_table(alloc, draft)?))?;
    }
    Ok(Value::from(items))
}

fn train_table(alloc: Global, draft: &DraftTrain) -> Result<Table, NoMemory>
    requires name { IsTrue (is_name draft.now.name) }
    requires route { IsTrue (list_all is_name draft.now.route) }
    ensures { IfOk result (λ t. table_view t ≡ train_table draft.now) }
{
    let mut table = Table::new(alloc);
    set_text(alloc, &mut table, "name", draft.name.bytes())?;
    set_names(alloc, &mut table, "route", draft.route.as_slice())?;
    Ok(table)
}

#[tactic(auto, using(crate::proofs::Written::steps))]
fn trains_value(alloc: Global, trains: &[DraftTrain]) -> Result<Value, NoMemory>
    requires names { IsTrue (list_all (λ t. is_name t.name) trains.now) }
    requires routes { IsTrue (list_all (λ t. list_all is_name t.route) trains.now) }
    ensures { IfOk result (λ v. view v ≡ array (tables train_table trains.now)) }
{
    let mut items = Vec::new(alloc);
    for draft in trains {
        items.push(Value::from(train_table(alloc, draft)?))?;
    }
    Ok(Value::from(items))
}

fn draft_table(alloc: Global, draft: &Draft) -> Result<Table, NoMemory>
    requires { HasNames draft.now }
    ensures { IfOk result (λ t. table_view t ≡ draft_table draft.now) }
{
    let mut table = Table::new(alloc);
    set_key(alloc, &mut table, "format", Value::from(1i64))?;
    set_names(alloc, &mut table, "segments", draft.segments.as_slice())?;
    set_key(
        alloc,
        &mut table,
        "box",
        boxes_value(alloc, draft.boxes.as_slice())?,
    )?;
    set_key(
        alloc,
        &mut table,
        "train",
        trains_value(alloc, draft.trains.as_slice())?,
    )?;
    Ok(table)
}

fn text_of(alloc: Global, table: &Table) -> Result<String, NoMemory>
    ensures text { IfOk result (λ s. IsDocumentText false (table_view table.now) (string_bytes s)) }
    ensures reads_back { IfOk result (λ s. members_depth (table_view table.now) ≤ recursion_limit
        → parse_document (string_bytes s) ≡ Some (table_view table.now)) }
{
    toml::table_to_string(alloc, table).map_err(|_| NoMemory)
}

/// Writes a draft as a network text. The text of a large draft may be too long to be read.
pub fn write_draft(alloc: Global, draft: &Draft) -> Result<Out, NoMemory>
    requires { HasNames draft.now }
    // The text is the draft's table, as TOML.
    ensures printed { IfOk result (IsDocumentText false (draft_table draft.now)) }
    // Read back, it gives the same draft, where it is short enough.
    ensures reads_back { IfOk result (λ text. length text ≤ MAX_NETWORK_BYTES → Means text (Ok draft.now)) }
{
    let table = draft_table(alloc, draft)?;
    let text = text_of(alloc, &table)?;
    let mut out = Out::new(alloc);
    out.text(text.as_str().as_bytes())?;
    Ok(out)
}
