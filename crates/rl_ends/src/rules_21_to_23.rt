//! Rules 21 to 23: each end is the text of an end, its name is a box, and the box has the arm.
ghost use Rattle.std.specs.Prelude.{◌≡◌, ◌+◌, ◌*◌, ◌/◌, ◌%◌, ◌<◌, length, map, slice_get, Some, IfOk, OnOk, IfErr};
ghost use Rattle.rl_base.specs.Numbers.{IsU32};
ghost use Rattle.rl_base.specs.declared.place.Place.TheVariants.{SegEnd};
ghost use Rattle.rl_ends.specs.EndsDrafts.{texts_of, box_names, named_arms};
ghost use Rattle.rl_ends.specs.EndRules.{end_breaks};
ghost use Rattle.rl_ends.specs.EndRefusals.{IsKept, RefusesBy};
ghost use Rattle.rl_ends.specs.Tables.{HasNumbers, IsCountable};

use crate::end_text::name_and_arm;
use crate::ends_draft::EndsDraft;
use crate::number_table::NumberTable;
use crate::refusal::EndRefusal;
use rl_base::{Arm, BoxId, Place, Sequence, arm_count};
use rl_model::SegmentEnd;
use std::alloc::Global;

/// The arms that ends name, in the order of the ends: ends 2s and 2s + 1 are those of segment s.
pub(crate) type NamedArms = Sequence<SegmentEnd>;

/// The text of end `k`.
fn text_of_end(draft: &EndsDraft, k: usize) -> &[u8]
    requires { k < 2 * length draft.now.segments }
    ensures { slice_get (texts_of draft.now.segments) k ≡ Some result.now }
{
    let segment = draft.segments.at(k / 2);
    if k % 2 == 0 {
        segment.first.bytes()
    } else {
        segment.second.bytes()
    }
}

/// The place of end `k`.
pub(crate) fn place_of_end(k: usize) -> Place
    requires { IsU32 (k / 2) }
    ensures { result ≡ SegEnd (k / 2) (k % 2) }
{
    Place::SegEnd((k / 2) as u32, (k % 2) as u32)
}

fn is_no_end(draft: &EndsDraft, k: usize) -> bool
    requires { k < 2 * length draft.now.segments }
    ensures { result ≡ end_breaks draft.now 21 k }
{
    name_and_arm(text_of_end(draft, k)).is_none()
}

/// Refuses the first text that isn't that of an end.
pub(crate) fn check_texts(draft: &EndsDraft) -> Result<(), EndRefusal>
    requires { IsU32 (length draft.now.segments) }
    ensures kept { OnOk result (IsKept draft.now 21) }
    ensures refused { IfErr result (RefusesBy draft.now 21) }
{
    for k in 0..2 * draft.segments.len() {
        if is_no_end(draft, k) {
            return Err(EndRefusal::EndText(place_of_end(k)));
        }
    }
    Ok(())
}

/// The arm that end `k` names.
fn arm_of_end(draft: &EndsDraft, boxes: &NumberTable, k: usize) -> Option<SegmentEnd>
    requires countable { IsU32 (length draft.now.boxes) }
    requires within { k < 2 * length draft.now.segments }
    requires numbers { HasNumbers boxes.now.numbers.entries (box_names draft.now) }
    ensures { slice_get (named_arms draft.now) k ≡ Some result }
{
    let (name, arm) = name_and_arm(text_of_end(draft, k))?;
    let b = boxes.number(name)?;
    Some(SegmentEnd {
        at: BoxId(b as u32),
        arm: Arm(arm),
    })
}

/// The arms that the ends name, or the first end whose name is no box.
pub(crate) fn arms_named(
    alloc: Global,
    draft: &EndsDraft,
    boxes: &NumberTable,
) -> Result<NamedArms, EndRefusal>
    requires countable { IsCountable draft.now }
    requires numbers { HasNumbers boxes.now.numbers.entries (box_names draft.now) }
    requires texts { IsKept draft.now 21 }
    ensures arms { IfOk result (λ arms. map Some arms ≡ named_arms draft.now) }
    ensures kept { OnOk result (IsKept draft.now 22) }
    ensures refused { IfErr result (RefusesBy draft.now 22) }
{
    let mut arms = Sequence::new(alloc);
    for k in 0..2 * draft.segments.len() {
        match arm_of_end(draft, boxes, k) {
            Some(arm) => arms.push(arm)?,
            None => return Err(EndRefusal::NoBox(place_of_end(k))),
        }
    }
    Ok(arms)
}

fn lacks_arm(draft: &EndsDraft, arms: &NamedArms, k: usize) -> bool
    requires within { k < length arms.now }
    requires arms { map Some arms.now ≡ named_arms draft.now }
    ensures { result ≡ end_breaks draft.now 23 k }
{
    let end = *arms.at(k);
    let kind = draft.boxes.at(end.at.0 as usize).kind;
    !(end.arm.0 < arm_count(kind))
}

/// Refuses the first end whose box has no such arm.
pub(crate) fn check_arms(draft: &EndsDraft, arms: &NamedArms) -> Result<(), EndRefusal>
    requires countable { IsU32 (length draft.now.segments) }
    requires arms { map Some arms.now ≡ named_arms draft.now }
    ensures kept { OnOk result (IsKept draft.now 23) }
    ensures refused { IfErr result (RefusesBy draft.now 23) }
{
    for k in 0..arms.len() {
        if lacks_arm(draft, arms, k) {
            return Err(EndRefusal::NoArm(place_of_end(k)));
        }
    }
    Ok(())
}
