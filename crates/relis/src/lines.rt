ghost use Rattle.std.specs.Prelude.{◌≡◌, ◌++◌, OnOk, IfOk, decimal};
ghost use Rattle.rl_model.specs.Network.{IsNetwork};
ghost use Rattle.relis.specs.Lines.{place_text, item_text, nested_text, usage_line, read_fault_line, refused_line, not_safe_line, status_line, accepted_line, safe_line};

use crate::status::Status;
use rl_base::{NoMemory, Place};
use rl_net::Network;
use rl_text::Out;
use std::alloc::Global;

/// Appends the place of a key of an item.
fn put_item(out: &mut Out, list: &[u8], i: u32, key: &[u8]) -> Result<(), NoMemory>
    ensures { OnOk result (out.new ≡ out.old ++ item_text list.now i key.now) }
{
    out.text(list)?;
    out.text(b"[")?;
    out.number(u64::from(i))?;
    out.text(b"]")?;
    out.text(key)
}

/// Appends the place of an item of a list in an item.
fn put_nested(out: &mut Out, list: &[u8], i: u32, key: &[u8], j: u32) -> Result<(), NoMemory>
    ensures { OnOk result (out.new ≡ out.old ++ nested_text list.now i key.now j) }
{
    put_item(out, list, i, key)?;
    out.text(b"[")?;
    out.number(u64::from(j))?;
    out.text(b"]")
}

/// Appends the text and the number.
pub fn put_count(out: &mut Out, text: &[u8], count: u64) -> Result<(), NoMemory>
    ensures { OnOk result (out.new ≡ out.old ++ text.now ++ decimal count) }
{
    out.text(text)?;
    out.number(count)
}

fn put_place(out: &mut Out, place: Place) -> Result<(), NoMemory>
    ensures { OnOk result (out.new ≡ out.old ++ place_text place) }
{
    match place {
        Place::None => out.text(b"none"),
        Place::Top => out.text(b"top"),
        Place::Format => out.text(b"format"),
        Place::Segments => out.text(b"segments"),
        Place::Segment(i) => put_item(out, b"segments", i, b""),
        Place::Segs => out.text(b"segment"),
        Place::SegItem(i) => put_item(out, b"segment", i, b""),
        Place::SegName(i) => put_item(out, b"segment", i, b".name"),
        Place::SegEnds(i) => put_item(out, b"segment", i, b".ends"),
        Place::SegEnd(i, j) => put_nested(out, b"segment", i, b".ends", j),
        Place::Boxes => out.text(b"box"),
        Place::BoxItem(i) => put_item(out, b"box", i, b""),
        Place::BoxName(i) => put_item(out, b"box", i, b".name"),
        Place::BoxKind(i) => put_item(out, b"box", i, b".kind"),
        Place::BoxArms(i) => put_item(out, b"box", i, b".arms"),
        Place::BoxArm(i, j) => put_nested(out, b"box", i, b".arms", j),
        Place::BoxSide(i) => put_item(out, b"box", i, b".at"),
        Place::Trains => out.text(b"train"),
        Place::TrainItem(i) => put_item(out, b"train", i, b""),
        Place::TrainName(i) => put_item(out, b"train", i, b".name"),
        Place::TrainRoute(i) => put_item(out, b"train", i, b".route"),
        Place::RouteItem(i, j) => put_nested(out, b"train", i, b".route", j),
        Place::ScheduleLine(n) => put_count(out, b"schedule:", u64::from(n)),
        Place::ReportLine(n) => put_count(out, b"report:", u64::from(n)),
        Place::FateLine(n) => put_count(out, b"fates:", u64::from(n)),
        Place::Word(n) => put_count(out, b"word:", u64::from(n)),
    }
}

/// A text of these bytes.
fn text_of(alloc: Global, bytes: &[u8]) -> Result<Out, NoMemory>
    ensures { IfOk result (λ out. out ≡ bytes.now) }
{
    let mut out = Out::new(alloc);
    out.text(bytes)?;
    Ok(out)
}

fn usage(alloc: Global) -> Result<Out, NoMemory>
    ensures { IfOk result (λ out. out ≡ usage_line) }
{
    text_of(alloc, b"usage: relis COMMAND WORDS\n")
}

fn read_fault(alloc: Global) -> Result<Out, NoMemory>
    ensures { IfOk result (λ out. out ≡ read_fault_line) }
{
    text_of(alloc, b"read fault\n")
}

fn refused(alloc: Global, number: u32, place: Place) -> Result<Out, NoMemory>
    ensures { IfOk result (λ out. out ≡ refused_line number place) }
{
    let mut out = Out::new(alloc);
    out.text(b"refused")?;
    out.count(number)?;
    out.text(b" ")?;
    put_place(&mut out, place)?;
    out.text(b"\n")?;
    Ok(out)
}

fn not_safe(alloc: Global, line: u32, guard: u32) -> Result<Out, NoMemory>
    ensures { IfOk result (λ out. out ≡ not_safe_line line guard) }
{
    let mut out = Out::new(alloc);
    put_count(&mut out, b"not safe ", u64::from(line))?;
    put_count(&mut out, b" ", u64::from(guard))?;
    out.text(b"\n")?;
    Ok(out)
}

/// The line of a status, which is empty where a command's own text is put, or nothing.
pub fn status_line(alloc: Global, status: Status) -> Result<Out, NoMemory>
    ensures { IfOk result (λ out. out ≡ status_line status) }
{
    match status {
        Status::Usage => usage(alloc),
        Status::ReadFault => read_fault(alloc),
        Status::Refused { number, place } => refused(alloc, number, place),
        Status::NotSafe { line, guard } => not_safe(alloc, line, guard),
        Status::Done | Status::WriteFault | Status::NoMemory => Ok(Out::new(alloc)),
    }
}

/// What `check` prints of an accepted network.
pub fn accepted(alloc: Global, net: &Network) -> Result<Out, NoMemory>
    ensures { IfOk result (λ out. out ≡ accepted_line net.now) }
{
    let segments = net.segments();
    let layout = net.layout();
    let mut out = Out::new(alloc);
    put_count(&mut out, b"accepted segments ", u64::from(segments))?;
    put_count(&mut out, b" boxes ", u64::from(layout.boxes))?;
    put_count(&mut out, b" trains ", u64::from(layout.trains))?;
    put_count(&mut out, b" nodes ", u64::from(layout.nodes()))?;
    out.text(b"\n")?;
    Ok(out)
}

/// What `audit` prints of a right report.
pub fn safe(alloc: Global, moves: u32) -> Result<Out, NoMemory>
    ensures { IfOk result (λ out. out ≡ safe_line moves) }
{
    let mut out = Out::new(alloc);
    put_count(&mut out, b"safe moves ", u64::from(moves))?;
    out.text(b"\n")?;
    Ok(out)
}
