//! Rules 7 to 9: each box has its kind's number of arms, each arm names a segment, and no two arms of a box name one.
ghost use Rattle.std.specs.Prelude.{◌≡◌, ◌<◌, ◌≤◌, length, None};
ghost use Rattle.rl_base.specs.declared.limits.TheConstants.{MAX_BOXES};
ghost use Rattle.rl_base.specs.declared.place.Place.TheVariants as place;
ghost use Rattle.rl_drafts.specs.Refusals.{breaks};
ghost use Rattle.rl_drafts.specs.Search.{among_arms, among_arms_of, among_boxes, arms_at};
ghost use Rattle.rl_net.specs.Sizes.{HasFewItems, HasFewArms};

use crate::named_draft::NamedDraft;
use crate::names::is_named_twice;
use rl_base::{Draft, Place, arm_count};

fn has_wrong_arm_count(draft: &Draft, i: usize) -> bool
    requires { i < length draft.now.boxes }
    ensures { result ≡ breaks draft.now 7 (place.BoxArms i) }
{
    let x = draft.boxes.at(i);
    x.arms.len() != arm_count(x.kind) as usize
}

/// The first box that has not its kind's number of arms.
pub(crate) fn first_arm_count(draft: &Draft) -> Option<Place>
    requires { HasFewItems draft.now }
    ensures place { result ≡ among_boxes draft.now 7 place.BoxArms }
    ensures few { result ≡ None → HasFewArms draft.now }
{
    for i in 0..draft.boxes.len() {
        if has_wrong_arm_count(draft, i) {
            return Some(Place::BoxArms(i as u32));
        }
    }
    None
}

fn is_no_segment(index: &NamedDraft<'_>, i: usize, j: usize) -> bool
    requires box_in { i < length index.now.boxes }
    requires arm_in { j < arms_at index.now i }
    ensures { result ≡ breaks index.now 8 (place.BoxArm i j) }
{
    let arm = index.draft().boxes.at(i).arms.at(j);
    index.segment_number(arm.bytes()).is_none()
}

/// The first arm of box `i` whose name is no segment.
fn first_strange_arm(index: &NamedDraft<'_>, i: usize) -> Option<Place>
    requires few { length index.now.boxes ≤ MAX_BOXES }
    requires box_in { i < length index.now.boxes }
    requires arms { arms_at index.now i ≤ 4 }
    ensures { result ≡ among_arms_of index.now 8 i }
{
    for j in 0..index.draft().boxes.at(i).arms.len() {
        if is_no_segment(index, i, j) {
            return Some(Place::BoxArm(i as u32, j as u32));
        }
    }
    None
}

/// The first arm whose name is no segment.
pub(crate) fn first_no_segment(index: &NamedDraft<'_>) -> Option<Place>
    requires items { HasFewItems index.now }
    requires arms { HasFewArms index.now }
    ensures { result ≡ among_arms index.now 8 }
{
    for i in 0..index.draft().boxes.len() {
        if let Some(place) = first_strange_arm(index, i) {
            return Some(place);
        }
    }
    None
}

fn is_repeated(draft: &Draft, i: usize, j: usize) -> bool
    requires box_in { i < length draft.now.boxes }
    requires arm_in { j < arms_at draft.now i }
    ensures { result ≡ breaks draft.now 9 (place.BoxArm i j) }
{
    is_named_twice(draft.boxes.at(i).arms.as_slice(), j)
}

/// The first arm of box `i` that has the segment of an earlier arm.
fn first_repeated_arm(draft: &Draft, i: usize) -> Option<Place>
    requires few { length draft.now.boxes ≤ MAX_BOXES }
    requires box_in { i < length draft.now.boxes }
    requires arms { arms_at draft.now i ≤ 4 }
    ensures { result ≡ among_arms_of draft.now 9 i }
{
    for j in 0..draft.boxes.at(i).arms.len() {
        if is_repeated(draft, i, j) {
            return Some(Place::BoxArm(i as u32, j as u32));
        }
    }
    None
}

/// The first arm that has the segment of an earlier arm of its box.
pub(crate) fn first_same_box(draft: &Draft) -> Option<Place>
    requires items { HasFewItems draft.now }
    requires arms { HasFewArms draft.now }
    ensures { result ≡ among_arms draft.now 9 }
{
    for i in 0..draft.boxes.len() {
        if let Some(place) = first_repeated_arm(draft, i) {
            return Some(place);
        }
    }
    None
}
