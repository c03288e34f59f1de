//! Rule 6: no name stands twice among the segments, among the boxes or among the trains.
ghost use Rattle.std.specs.Prelude.{◌≡◌, ◌≤◌, None, length, IfOk, OnOk, IfErr};
ghost use Rattle.rl_base.specs.declared.limits.TheConstants.{MAX_BOXES, MAX_SEGMENTS, MAX_TRAINS};
ghost use Rattle.rl_base.specs.declared.place.Place.TheVariants as place;
ghost use Rattle.rl_drafts.specs.Drafts.{box_names, train_names};
ghost use Rattle.rl_drafts.specs.Search.{first_twice, among_segments, among_boxes, among_trains, refuse};
ghost use Rattle.rl_net.specs.NameTables.{AreTablesOf, AreUnlike};
ghost use Rattle.rl_net.specs.NetRefusals.{IsFound};
ghost use Rattle.rl_net.specs.Sizes.{HasFewItems};

use crate::name_table::{NameFault, NameTable};
use crate::named_draft::NameTables;
use crate::refusal::NetRefusal;
use rl_base::{Draft, Place};
use std::alloc::Global;

/// The names of the segments.
fn segment_names(alloc: Global, draft: &Draft) -> Result<NameTable, NetRefusal>
    requires { length draft.now.segments ≤ MAX_SEGMENTS }
    ensures names { IfOk result (λ table. table ≡ draft.now.segments) }
    ensures unlike { OnOk result (AreUnlike draft.now.segments) }
    ensures unbroken { OnOk result (among_segments draft.now 6 ≡ None) }
    ensures refused { IfErr result (λ e. IsFound e (refuse 6 (among_segments draft.now 6) None)) }
{
    match NameTable::of(alloc, draft.segments.as_slice()) {
        Ok(table) => Ok(table),
        Err(NameFault::Twice(i)) => Err(NetRefusal::Twice(Place::Segment(i as u32))),
        Err(NameFault::NoMemory) => Err(NetRefusal::NoMemory),
    }
}

/// The names of the boxes.
fn names_of_boxes(alloc: Global, draft: &Draft) -> Result<NameTable, NetRefusal>
    requires { length draft.now.boxes ≤ MAX_BOXES }
    ensures names { IfOk result (λ table. table ≡ box_names draft.now) }
    ensures unbroken { OnOk result (among_boxes draft.now 6 place.BoxName ≡ None) }
    ensures refused { IfErr result (λ e. IsFound e (refuse 6 (among_boxes draft.now 6 place.BoxName) None)) }
{
    match NameTable::of(alloc, draft.boxes.as_slice()) {
        Ok(table) => Ok(table),
        Err(NameFault::Twice(i)) => Err(NetRefusal::Twice(Place::BoxName(i as u32))),
        Err(NameFault::NoMemory) => Err(NetRefusal::NoMemory),
    }
}

/// The names of the trains.
fn names_of_trains(alloc: Global, draft: &Draft) -> Result<NameTable, NetRefusal>
    requires { length draft.now.trains ≤ MAX_TRAINS }
    ensures names { IfOk result (λ table. table ≡ train_names draft.now) }
    ensures unbroken { OnOk result (among_trains draft.now 6 place.TrainName ≡ None) }
    ensures refused { IfErr result (λ e. IsFound e (refuse 6 (among_trains draft.now 6 place.TrainName) None)) }
{
    match NameTable::of(alloc, draft.trains.as_slice()) {
        Ok(table) => Ok(table),
        Err(NameFault::Twice(i)) => Err(NetRefusal::Twice(Place::TrainName(i as u32))),
        Err(NameFault::NoMemory) => Err(NetRefusal::NoMemory),
    }
}

/// The tables of the names, in which none stands twice, or the first that does.
pub(crate) fn names_of(alloc: Global, draft: &Draft) -> Result<NameTables, NetRefusal>
    requires { HasFewItems draft.now }
    ensures tables { IfOk result (AreTablesOf draft.now) }
    ensures unbroken { OnOk result (first_twice draft.now ≡ None) }
    ensures refused { IfErr result (λ e. IsFound e (refuse 6 (first_twice draft.now) None)) }
{
    Ok(NameTables {
        segments: segment_names(alloc, draft)?,
        boxes: names_of_boxes(alloc, draft)?,
        trains: names_of_trains(alloc, draft)?,
    })
}
