ghost use Rattle.std.specs.Prelude.{◌≡◌, ◌≤◌, List, map, drop, length, IfOk};
ghost use Rattle.rl_base.specs.declared.limits.TheConstants.{MAX_BOXES, MAX_ROUTE, MAX_SEGMENTS};
ghost use Rattle.rl_drafts.specs.Drafts.{segment_number, box_number, every_other, segment_of, box_of, train_of, network_of, ends_of};
ghost use Rattle.rl_base.specs.declared.draft.Draft.{Draft};
ghost use Rattle.rl_net.specs.Ends.{ends_kept, Keeps};
ghost use Rattle.rl_net.specs.Sizes.{HasFewItems};

use crate::named_draft::NamedDraft;
use crate::rule_10_ends::{EndTable, Ends};
use rl_base::{BoxId, Draft, DraftBox, DraftTrain, Name, Names, NoMemory, SegId, Sequence, Side};
use rl_model::{
    BoxIds, NetworkPlan, SegIds, Segment, Segments, SwitchBox, SwitchBoxes, Train, Trains,
};
use std::alloc::Global;

/// The number of the segment of that name, 0 where there is none.
fn segment_id(index: &NamedDraft<'_>, name: &[u8]) -> SegId
    requires { length index.now.segments ≤ MAX_SEGMENTS }
    ensures { result ≡ segment_number index.now name.now }
{
    SegId(index.segment_number(name).unwrap_or(0) as u32)
}

/// The number of the box of that name, 0 where there is none.
fn box_id(index: &NamedDraft<'_>, name: &[u8]) -> BoxId
    requires { length index.now.boxes ≤ MAX_BOXES }
    ensures { result ≡ box_number index.now name.now }
{
    BoxId(index.box_number(name).unwrap_or(0) as u32)
}

/// The numbers of the segments of these names.
fn segment_ids(alloc: Global, index: &NamedDraft<'_>, names: &Names) -> Result<SegIds, NoMemory>
    requires { length index.now.segments ≤ MAX_SEGMENTS }
    ensures { IfOk result (λ ids. ids ≡ map (segment_number index.now) names.now) }
{
    let mut ids = Sequence::new(alloc);
    for name in names.as_slice() {
        ids.push(segment_id(index, name.bytes()))?;
    }
    Ok(ids)
}

/// The numbers of the segments that a route names.
fn route_segments(alloc: Global, index: &NamedDraft<'_>, route: &Names) -> Result<SegIds, NoMemory>
    requires segments { length index.now.segments ≤ MAX_SEGMENTS }
    requires places { length route.now ≤ MAX_ROUTE }
    ensures { IfOk result (λ ids. ids ≡ map (segment_number index.now) (every_other route.now)) }
{
    let mut ids = Sequence::new(alloc);
    let mut k = 0;
    while k < route.len() {
        ids.push(segment_id(index, route.at(k).bytes()))?;
        k += 2;
    }
    Ok(ids)
}

/// The numbers of the boxes that a route names.
fn route_boxes(alloc: Global, index: &NamedDraft<'_>, route: &Names) -> Result<BoxIds, NoMemory>
    requires boxes { length index.now.boxes ≤ MAX_BOXES }
    requires places { length route.now ≤ MAX_ROUTE }
    ensures { IfOk result (λ ids. ids ≡ map (box_number index.now) (every_other (drop 1 route.now))) }
{
    let mut ids = Sequence::new(alloc);
    let mut k = 1;
    while k < route.len() {
        ids.push(box_id(index, route.at(k).bytes()))?;
        k += 2;
    }
    Ok(ids)
}

fn segment_from(alloc: Global, name: &Name, ends: Ends) -> Result<Segment, NoMemory>
    ensures { (d : Draft) → ends ≡ ends_kept (ends_of d name.now) → IfOk result (λ g. g ≡ segment_of d name.now) }
{
    Ok(Segment {
        name: Name::of(alloc, name.bytes())?,
        low: ends.low(),
        high: ends.high(),
    })
}

fn box_from(alloc: Global, index: &NamedDraft<'_>, x: &DraftBox) -> Result<SwitchBox, NoMemory>
    requires { HasFewItems index.now }
    ensures { IfOk result (λ y. y ≡ box_of index.now x.now) }
{
    Ok(SwitchBox {
        name: Name::of(alloc, x.name.bytes())?,
        kind: x.kind,
        side: x.at.unwrap_or(Side::Left),
        arms: segment_ids(alloc, index, &x.arms)?,
    })
}

fn train_from(alloc: Global, index: &NamedDraft<'_>, t: &DraftTrain) -> Result<Train, NoMemory>
    requires items { HasFewItems index.now }
    requires places { length t.now.route ≤ MAX_ROUTE }
    ensures { IfOk result (λ r. r ≡ train_of index.now t.now) }
{
    Ok(Train {
        name: Name::of(alloc, t.name.bytes())?,
        segments: route_segments(alloc, index, &t.route)?,
        boxes: route_boxes(alloc, index, &t.route)?,
    })
}

fn segments_from(alloc: Global, draft: &Draft, ends: &EndTable) -> Result<Segments, NoMemory>
    requires few { length draft.now.segments ≤ MAX_SEGMENTS }
    requires ends { Keeps draft.now.segments ends.now.ends (ends_of draft.now) }
    ensures { IfOk result (λ gs. gs ≡ map (segment_of draft.now) draft.now.segments) }
{
    let mut segments = Sequence::new(alloc);
    for i in 0..draft.segments.len() {
        segments.push(segment_from(alloc, draft.segments.at(i), ends.at(i))?)?;
    }
    Ok(segments)
}

fn boxes_from(alloc: Global, index: &NamedDraft<'_>) -> Result<SwitchBoxes, NoMemory>
    requires { HasFewItems index.now }
    ensures { IfOk result (λ xs. xs ≡ map (box_of index.now) index.now.boxes) }
{
    let mut boxes = Sequence::new(alloc);
    for x in index.draft().boxes.as_slice() {
        boxes.push(box_from(alloc, index, x)?)?;
    }
    Ok(boxes)
}

fn trains_from(alloc: Global, index: &NamedDraft<'_>) -> Result<Trains, NoMemory>
    requires { HasFewItems index.now }
    ensures { IfOk result (λ ts. ts ≡ map (train_of index.now) index.now.trains) }
{
    let mut trains = Sequence::new(alloc);
    let draft = index.draft();
    for i in 0..draft.trains.len() {
        trains.push(train_from(alloc, index, draft.trains.at(i))?)?;
    }
    Ok(trains)
}

/// The network of a draft: each name becomes the number of its place.
pub(crate) fn network_from(
    alloc: Global,
    index: &NamedDraft<'_>,
    ends: &EndTable,
) -> Result<NetworkPlan, NoMemory>
    requires items { HasFewItems index.now }
    requires ends { Keeps index.now.segments ends.now.ends (ends_of index.now) }
    ensures { IfOk result (λ plan. plan ≡ network_of index.now) }
{
    Ok(NetworkPlan {
        segments: segments_from(alloc, index.draft(), ends)?,
        boxes: boxes_from(alloc, index)?,
        trains: trains_from(alloc, index)?,
    })
}
