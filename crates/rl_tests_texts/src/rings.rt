//! Networks made by order.
ghost use Rattle.std.specs.Prelude.{◌≤◌};

use crate::short::short_of;
use rl_base::limits::MAX_MAKE;
use rl_make::make_draft;
use rl_text::Out;
use std::alloc::Global;
use std::process::Abort;
use std::str;
use std::test::Fail;

/// The ring of one station, and the beginning of that of three.
const ONE: &str =
    " U0 D0 M0 L0/point@left P0 L0 U0 D0/point@left Q0 M0 U0 D0/joint J0 M0 L0/train T0 ";

const THREE: &str = " U0 D0 M0 L0 U1 D1 M1 L1 U2 D2 M2 L2\
/point@left P0 L2 U0 D0/point@left Q0 M0 U0 D0/joint J0 M0 L0\
/point@left P1 L0 U1 D1/point@left Q1 M1 U1 D1/joint J1 M1 L1\
/point@left P2 L1 U2 D2/point@left Q2 M2 U2 D2/joint J2 M2 L2/train T0 ";

/// The beginning of the second route of three.
const SECOND: &str = "/train T1 D1 Q1 M1 J1 L1 P2 D2 Q2 M2 J2 L2 P0 D0 ";

/// The ring of so many stations, in short.
fn ring(alloc: Global, stations: u32) -> Result<Out, Fail>
    requires some { 1 ≤ stations }
    requires few { stations ≤ MAX_MAKE }
{
    let draft = make_draft(alloc, stations).ok().ok_or("a ring")?;
    Ok(short_of(alloc, &draft)?)
}

/// Asserts that the ring begins so, and how many parts it has: its segments, its boxes and its trains; and how many it
/// is cut into by its trains.
fn assert_parts(
    rt: &impl Abort,
    out: &Out,
    begin: &str,
    parts: usize,
    trains: usize,
) -> Result<(), Fail> {
    let text = str::from_utf8(out.bytes())?;
    assert!(rt; text.starts_with(begin), "{text}");
    assert_eq!(rt; text.split('/').count(), parts);
    assert_eq!(rt; text.split("/train").count(), trains);
    Ok(())
}

#[test]
fn makes_rings(rt: HostRuntime) -> Result<(), Fail> {
    let alloc = rt.alloc();
    assert_parts(&rt, &ring(alloc, 1)?, ONE, 5, 2)?;
    assert_parts(&rt, &ring(alloc, 3)?, THREE, 13, 4)?;
    assert_parts(&rt, &ring(alloc, 32)?, " U0 D0 M0 L0 U1 D1 ", 129, 33)
}

/// Each train makes 60 steps over 20 stations, so that its route has 121 names. T1 is the second of three trains.
#[test]
fn makes_routes(rt: HostRuntime) -> Result<(), Fail> {
    let out = ring(rt.alloc(), 3)?;
    let text = str::from_utf8(out.bytes())?;
    let (_, rest) = text.split_once(SECOND).ok_or("no second train")?;
    let (route, _) = rest.split_once('/').ok_or("no third train")?;
    // The thirteen names at the beginning are gone.
    assert_eq!(rt; route.split(' ').count(), 108);
    Ok(())
}
