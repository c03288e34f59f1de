ghost use Rattle.std.specs.Prelude.{◌≡◌, ◌<◌, ◌≤◌, ◌∷◌, [], ◌++◌, IfOk, OnOk, decimal};
ghost use Rattle.rl_make.specs.Ring.{upper, lower, middle, line, entry, exit, joint, station_before, station_after, segments_of};
ghost use Rattle.rl_make.specs.Ring.{point_box, joint_box, boxes_of};

use rl_base::{DraftBox, DraftBoxes, Kind, Name, Names, NoMemory, Side};
use rl_text::Out;
use std::alloc::Global;

/// A letter with a number after it.
pub(crate) fn name(alloc: Global, letter: &[u8], i: u32) -> Result<Name, NoMemory>
    ensures { IfOk result (λ name. name ≡ letter.now ++ decimal i) }
{
    let mut text = Out::new(alloc);
    text.text(letter)?;
    text.number(u64::from(i))?;
    Name::of(alloc, text.bytes())
}

pub(crate) fn upper(alloc: Global, i: u32) -> Result<Name, NoMemory>
    ensures { IfOk result (λ name. name ≡ upper i) }
{
    name(alloc, b"U", i)
}

pub(crate) fn lower(alloc: Global, i: u32) -> Result<Name, NoMemory>
    ensures { IfOk result (λ name. name ≡ lower i) }
{
    name(alloc, b"D", i)
}

pub(crate) fn middle(alloc: Global, i: u32) -> Result<Name, NoMemory>
    ensures { IfOk result (λ name. name ≡ middle i) }
{
    name(alloc, b"M", i)
}

pub(crate) fn line(alloc: Global, i: u32) -> Result<Name, NoMemory>
    ensures { IfOk result (λ name. name ≡ line i) }
{
    name(alloc, b"L", i)
}

pub(crate) fn entry(alloc: Global, i: u32) -> Result<Name, NoMemory>
    ensures { IfOk result (λ name. name ≡ entry i) }
{
    name(alloc, b"P", i)
}

pub(crate) fn exit(alloc: Global, i: u32) -> Result<Name, NoMemory>
    ensures { IfOk result (λ name. name ≡ exit i) }
{
    name(alloc, b"Q", i)
}

pub(crate) fn joint(alloc: Global, i: u32) -> Result<Name, NoMemory>
    ensures { IfOk result (λ name. name ≡ joint i) }
{
    name(alloc, b"J", i)
}

/// The station before another in the ring.
fn station_before(n: u32, i: u32) -> u32
    requires { i < n }
    ensures value { result ≡ station_before n i }
    ensures within { result < n }
{
    if i == 0 { n - 1 } else { i - 1 }
}

/// The station after another in the ring.
pub(crate) fn station_after(n: u32, i: u32) -> u32
    requires { i < n }
    ensures value { result ≡ station_after n i }
    ensures within { result < n }
{
    if i + 1 == n { 0 } else { i + 1 }
}

pub(crate) fn push_segments(alloc: Global, segments: &mut Names, i: u32) -> Result<(), NoMemory>
    ensures { OnOk result (segments.new ≡ segments.old ++ segments_of i) }
{
    segments.push(upper(alloc, i)?)?;
    segments.push(lower(alloc, i)?)?;
    segments.push(middle(alloc, i)?)?;
    segments.push(line(alloc, i)?)
}

fn point_box(
    alloc: Global,
    name: Name,
    stem: Name,
    left: Name,
    right: Name,
) -> Result<DraftBox, NoMemory>
    ensures { IfOk result (λ b. b ≡ point_box name stem left right) }
{
    let mut arms = Names::new(alloc);
    arms.push(stem)?;
    arms.push(left)?;
    arms.push(right)?;
    Ok(DraftBox {
        name,
        kind: Kind::Point,
        arms,
        at: Some(Side::Left),
    })
}

fn joint_box(alloc: Global, name: Name, one: Name, other: Name) -> Result<DraftBox, NoMemory>
    ensures { IfOk result (λ b. b ≡ joint_box name one other) }
{
    let mut arms = Names::new(alloc);
    arms.push(one)?;
    arms.push(other)?;
    Ok(DraftBox {
        name,
        kind: Kind::Joint,
        arms,
        at: None,
    })
}

fn entry_box(alloc: Global, n: u32, i: u32) -> Result<DraftBox, NoMemory>
    requires { i < n }
    ensures { IfOk result (λ b. b ≡ point_box (entry i) (line (station_before n i)) (upper i) (lower i)) }
{
    point_box(
        alloc,
        entry(alloc, i)?,
        line(alloc, station_before(n, i))?,
        upper(alloc, i)?,
        lower(alloc, i)?,
    )
}

fn exit_box(alloc: Global, i: u32) -> Result<DraftBox, NoMemory>
    ensures { IfOk result (λ b. b ≡ point_box (exit i) (middle i) (upper i) (lower i)) }
{
    point_box(
        alloc,
        exit(alloc, i)?,
        middle(alloc, i)?,
        upper(alloc, i)?,
        lower(alloc, i)?,
    )
}

pub(crate) fn push_boxes(
    alloc: Global,
    n: u32,
    boxes: &mut DraftBoxes,
    i: u32,
) -> Result<(), NoMemory>
    requires { i < n }
    ensures { OnOk result (boxes.new ≡ boxes.old ++ boxes_of n i) }
{
    boxes.push(entry_box(alloc, n, i)?)?;
    boxes.push(exit_box(alloc, i)?)?;
    boxes.push(joint_box(alloc, joint(alloc, i)?, middle(alloc, i)?, line(alloc, i)?)?)
}
