ghost use Rattle.std.specs.Prelude.{◌≡◌, ◌*◌, ◌<◌, ℕ, length, map, slice_get, Some, Result, IfOk, OnOk, IfErr};
ghost use Rattle.rl_base.specs.Numbers.{IsU32};
ghost use Rattle.rl_base.specs.Kind.{arms_of};
ghost use Rattle.rl_base.specs.declared.draft.Draft.{Draft};
ghost use Rattle.rl_ends.specs.EndsDrafts.{box_names, named_arms, segment_name, arm_name, arm_names, joined_box, joined_boxes, draft_of};
ghost use Rattle.rl_ends.specs.EndRules.{IsUnbroken};
ghost use Rattle.rl_ends.specs.EndRefusals.{IsRefusal, IsRight, UnlessMemory};
ghost use Rattle.rl_ends.specs.Tables.{HasNumbers, Keeps, IsCountable};
ghost use Rattle.rl_ends.specs.declared.refusal.EndRefusal.{EndRefusal};
ghost use Rattle.rl_ends.specs.declared.refusal.EndRefusal.TheVariants as refusal;
ghost use Rattle.rl_ends.specs.declared.ends_draft.EndsBox.{EndsBox};

use crate::arm_table::{ArmTable, check_free_arms};
use crate::ends_draft::EndsDraft;
use crate::number_table::NumberTable;
use crate::refusal::EndRefusal;
use crate::rules_21_to_23::{arms_named, check_arms, check_texts};
use rl_base::{Draft, DraftBox, DraftBoxes, Kind, Name, Names, NoMemory, Sequence, arm_count};
use std::alloc::Global;

/// The end that names each arm, or the first refusal.
fn unless_refused(alloc: Global, draft: &EndsDraft) -> Result<ArmTable, EndRefusal>
    requires { IsCountable draft.now }
    ensures unbroken { OnOk result (IsUnbroken draft.now) }
    ensures keeps { IfOk result (λ t. Keeps (length draft.now.boxes) (named_arms draft.now) t.ends.items) }
    ensures refused { IfErr result (IsRefusal draft.now) }
{
    check_texts(draft)?;
    let boxes = NumberTable::of(alloc, draft.boxes.as_slice())?;
    let arms = arms_named(alloc, draft, &boxes)?;
    check_arms(draft, &arms)?;
    let table = ArmTable::of(alloc, draft, &arms)?;
    check_free_arms(draft, &table)?;
    Ok(table)
}

/// The name of the segment whose end names arm `x` of box `b`, and no name where none does.
fn name_at(
    alloc: Global,
    draft: &EndsDraft,
    table: &ArmTable,
    b: u32,
    x: u32,
) -> Result<Name, NoMemory>
    requires keeps { Keeps (length draft.now.boxes) (named_arms draft.now) table.now.ends.items }
    requires box_in { b < length draft.now.boxes }
    requires arm_in { x < 4 }
    ensures { IfOk result (λ name. name ≡ arm_name draft.now b x) }
{
    match table.end_at(b, x) {
        Some(k) => Name::of(alloc, draft.segments.at(k / 2).name.bytes()),
        None => Name::of(alloc, b""),
    }
}

/// The names at the arms of box `b`.
fn names_at(
    alloc: Global,
    draft: &EndsDraft,
    table: &ArmTable,
    b: u32,
    kind: Kind,
) -> Result<Names, NoMemory>
    requires keeps { Keeps (length draft.now.boxes) (named_arms draft.now) table.now.ends.items }
    requires box_in { b < length draft.now.boxes }
    ensures { IfOk result (λ names. names ≡ arm_names draft.now b (arms_of kind)) }
{
    let mut names = Sequence::new(alloc);
    for x in 0..arm_count(kind) {
        names.push(name_at(alloc, draft, table, b, x)?)?;
    }
    Ok(names)
}

fn box_from(
    alloc: Global,
    draft: &EndsDraft,
    table: &ArmTable,
    b: usize,
) -> Result<DraftBox, NoMemory>
    requires countable { IsU32 (length draft.now.boxes) }
    requires keeps { Keeps (length draft.now.boxes) (named_arms draft.now) table.now.ends.items }
    requires box_in { b < length draft.now.boxes }
    ensures { (x : EndsBox) → slice_get draft.now.boxes b ≡ Some x → IfOk result (λ y. y ≡ joined_box draft.now b x) }
{
    let x = draft.boxes.at(b);
    Ok(DraftBox {
        name: Name::of(alloc, x.name.bytes())?,
        kind: x.kind,
        arms: names_at(alloc, draft, table, b as u32, x.kind)?,
        at: x.at,
    })
}

fn boxes_from(alloc: Global, draft: &EndsDraft, table: &ArmTable) -> Result<DraftBoxes, NoMemory>
    requires countable { IsU32 (length draft.now.boxes) }
    requires keeps { Keeps (length draft.now.boxes) (named_arms draft.now) table.now.ends.items }
    ensures { IfOk result (λ boxes. boxes ≡ joined_boxes draft.now 0 draft.now.boxes) }
{
    let mut boxes = Sequence::new(alloc);
    for b in 0..draft.boxes.len() {
        boxes.push(box_from(alloc, draft, table, b)?)?;
    }
    Ok(boxes)
}

fn segment_names(alloc: Global, draft: &EndsDraft) -> Result<Names, NoMemory>
    ensures { IfOk result (λ names. names ≡ map (λ g. g.name) draft.now.segments) }
{
    let mut names = Sequence::new(alloc);
    for segment in draft.segments.as_slice() {
        names.push(Name::of(alloc, segment.name.bytes())?)?;
    }
    Ok(names)
}

/// The draft of segments with ends, or the first refusal: of rules 21 to 25 that are broken the one with the lowest
/// number, and the first place at which it is. Apart from `NoMemory` the answer depends on nothing but what is given.
/// Each rule takes one pass over the ends or the arms. How many segments, boxes and trains there are, and whether two
/// have one name, isn't asked here: of several boxes of one name ends name the first.
pub fn joined(alloc: Global, draft: EndsDraft) -> Result<Draft, EndRefusal>
    requires { IsCountable draft }
    // What is answered breaks none of the rules, and is the draft that the ends say.
    ensures unbroken { OnOk result (IsUnbroken draft) }
    ensures draft { IfOk result (λ d. d ≡ draft_of draft) }
    // A refusal is by the first rule that is broken, at the first place.
    ensures refused { IfErr result (IsRefusal draft) }
    // What breaks no rule is refused for want of memory alone.
    ensures only_memory { IsUnbroken draft → IfErr result (λ e. e ≡ refusal.NoMemory) }
    // No other answer is right.
    ensures exact { (other : Result Draft EndRefusal) → IsRight draft other → UnlessMemory result (result ≡ other) }
{
    let table = unless_refused(alloc, &draft)?;
    let segments = segment_names(alloc, &draft)?;
    let boxes = boxes_from(alloc, &draft, &table)?;
    Ok(Draft {
        segments,
        boxes,
        trains: draft.trains,
    })
}
