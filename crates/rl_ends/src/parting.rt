ghost use Rattle.std.specs.Prelude.{◌≡◌, ◌<◌, ℕ, List, length, map, slice_get, Some, IfOk};
ghost use Rattle.rl_model.specs.declared.network.SegmentEnd.{SegmentEnd};
ghost use Rattle.rl_drafts.specs.Drafts.{ends_of};
ghost use Rattle.rl_ends.specs.Parted.{IsWhole, text_of_end, parted_segment, parted_box, parted};
ghost use Rattle.rl_ends.specs.EndsDrafts.{draft_of};
ghost use Rattle.rl_ends.specs.EndRules.{IsUnbroken};
ghost use Rattle.rl_ends.specs.SegmentEnds.{numbers_of, KeepsPairs};

use crate::end_text::EndText;
use crate::ends_draft::{EndsBox, EndsBoxes, EndsDraft, EndsSegment, EndsSegments};
use crate::number_table::NumberTable;
use crate::segment_ends::{BoxArm, SegmentEnds};
use rl_base::{Arm, Draft, DraftBoxes, DraftTrain, DraftTrains, Name, Names, NoMemory, Sequence};
use std::alloc::Global;

/// The text that names an arm of a box of the draft.
fn end_text(alloc: Global, draft: &Draft, end: BoxArm) -> Result<EndText, NoMemory>
    requires box_in { end.0 < length draft.now.boxes }
    requires arm_in { end.1 < 4 }
    ensures { (e : SegmentEnd) → end ≡ numbers_of e → IfOk result (λ t. t ≡ text_of_end draft.now e) }
{
    EndText::naming(alloc, draft.boxes.at(end.0).name.bytes(), Arm(end.1 as u32))
}

/// Segment `s` with its two ends.
fn segment_from(
    alloc: Global,
    draft: &Draft,
    ends: &SegmentEnds,
    s: usize,
) -> Result<EndsSegment, NoMemory>
    requires whole { IsWhole draft.now }
    requires size { length ends.now.pairs.items ≡ length draft.now.segments }
    requires ends { KeepsPairs draft.now.segments ends.now.pairs.items (ends_of draft.now) }
    requires within { s < length draft.now.segments }
    ensures { (name : List ℕ) → slice_get draft.now.segments s ≡ Some name
        → IfOk result (λ g. g ≡ parted_segment draft.now name) }
{
    let pair = ends.at(s);
    Ok(EndsSegment {
        name: Name::of(alloc, draft.segments.at(s).bytes())?,
        first: end_text(alloc, draft, pair.low())?,
        second: end_text(alloc, draft, pair.high())?,
    })
}

fn segments_from(alloc: Global, draft: &Draft, ends: &SegmentEnds) -> Result<EndsSegments, NoMemory>
    requires whole { IsWhole draft.now }
    requires size { length ends.now.pairs.items ≡ length draft.now.segments }
    requires ends { KeepsPairs draft.now.segments ends.now.pairs.items (ends_of draft.now) }
    ensures { IfOk result (λ gs. gs ≡ map (parted_segment draft.now) draft.now.segments) }
{
    let mut segments = Sequence::new(alloc);
    for s in 0..draft.segments.len() {
        segments.push(segment_from(alloc, draft, ends, s)?)?;
    }
    Ok(segments)
}

fn boxes_from(alloc: Global, boxes: &DraftBoxes) -> Result<EndsBoxes, NoMemory>
    ensures { IfOk result (λ xs. xs ≡ map parted_box boxes.now) }
{
    let mut parted = Sequence::new(alloc);
    for x in boxes.as_slice() {
        parted.push(EndsBox {
            name: Name::of(alloc, x.name.bytes())?,
            kind: x.kind,
            at: x.at,
        })?;
    }
    Ok(parted)
}

fn route_from(alloc: Global, route: &Names) -> Result<Names, NoMemory>
    ensures { IfOk result (λ names. names ≡ route.now) }
{
    let mut names = Sequence::new(alloc);
    for name in route.as_slice() {
        names.push(Name::of(alloc, name.bytes())?)?;
    }
    Ok(names)
}

fn trains_from(alloc: Global, trains: &DraftTrains) -> Result<DraftTrains, NoMemory>
    ensures { IfOk result (λ ts. ts ≡ trains.now) }
{
    let mut copies = Sequence::new(alloc);
    for t in trains.as_slice() {
        copies.push(DraftTrain {
            name: Name::of(alloc, t.name.bytes())?,
            route: route_from(alloc, &t.route)?,
        })?;
    }
    Ok(copies)
}

/// The segments with ends that say a draft, the end at the box with the lower number first. Joined again they give the
/// draft, and they break none of the rules 21 to 25. It takes one pass over the arms.
pub fn parted(alloc: Global, draft: &Draft) -> Result<EndsDraft, NoMemory>
    requires { IsWhole draft.now }
    ensures parted { IfOk result (λ d. d ≡ parted draft.now) }
    ensures unbroken { IfOk result IsUnbroken }
    ensures back { IfOk result (λ d. draft_of d ≡ draft.now) }
{
    let numbers = NumberTable::of(alloc, draft.segments.as_slice())?;
    let ends = SegmentEnds::of(alloc, draft, &numbers)?;
    Ok(EndsDraft {
        segments: segments_from(alloc, draft, &ends)?,
        boxes: boxes_from(alloc, &draft.boxes)?,
        trains: trains_from(alloc, &draft.trains)?,
    })
}
