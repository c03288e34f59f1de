//! Names, the arms that kinds of boxes join, and lists: what no clause can say, that the clauses mean what the railway
//! and its texts mean, and that a call with memory to spare succeeds.
use rl_base::{Arm, Kind, Name, NoMemory, Sequence, Side, Text, joins, name_ok};
use std::alloc::Global;
use std::process::Abort;

/// Texts that are names, one a line.
const NAMES: &str = "\
a
abcdefghijklmnop
AZ
az
09
_
-
";

/// Texts that are none, the empty one first.
const OTHERS: &str = "
abcdefghijklmnopq
a b
@
[
`
{
/
:
";

#[test]
fn tells_names(rt: HostRuntime) {
    for text in NAMES.lines() {
        assert!(rt; name_ok(text.as_bytes()), "{text}");
    }
    for text in OTHERS.lines() {
        assert!(rt; !name_ok(text.as_bytes()), "{text}");
    }
}

/// The pairs of arms that a box of the kind joins where it stands at the side, each behind a space.
fn joined(alloc: Global, kind: Kind, side: Side) -> Result<String, NoMemory> {
    let mut text = String::new(alloc);
    for x in 0..4 {
        for y in 0..4 {
            if joins(kind, Arm(x), Arm(y), side) {
                let pair = format!(in alloc; " {x}{y}")?;
                text.push_str(pair.as_str())?;
            }
        }
    }
    Ok(text)
}

fn assert_joined(
    rt: &impl Abort,
    alloc: Global,
    kind: Kind,
    side: Side,
    want: &str,
) -> Result<(), NoMemory> {
    let pairs = joined(alloc, kind, side)?;
    assert_eq!(rt; pairs.as_str(), want, "{kind:?} at {side:?}");
    Ok(())
}

#[test]
fn tells_joined_arms(rt: HostRuntime) -> Result<(), NoMemory> {
    let alloc = rt.alloc();
    for side in [Side::Left, Side::Right] {
        assert_joined(&rt, alloc, Kind::Buffer, side, "")?;
        assert_joined(&rt, alloc, Kind::Joint, side, " 01 10")?;
        assert_joined(&rt, alloc, Kind::Crossing, side, " 01 10 23 32")?;
    }
    assert_joined(&rt, alloc, Kind::Point, Side::Left, " 01 10")?;
    assert_joined(&rt, alloc, Kind::Point, Side::Right, " 02 20")
}

#[test]
fn lists_hold_what_was_put_in(rt: HostRuntime) -> Result<(), NoMemory> {
    let mut list = Sequence::new(rt.alloc());
    list.push(7)?;
    list.push(8)?;
    assert_eq!(rt; list.len(), 2);
    assert_eq!(rt; *list.at(0), 7);
    assert_eq!(rt; *list.at(1), 8);
    Ok(())
}

#[test]
fn copies_are_what_was_copied(rt: HostRuntime) -> Result<(), NoMemory> {
    assert_eq!(rt; Name::of(rt.alloc(), b"up-1")?.bytes(), b"up-1".as_slice());
    assert_eq!(rt; Text::of(rt.alloc(), "up")?.as_str(), "up");
    Ok(())
}
