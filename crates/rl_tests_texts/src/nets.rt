//! What `check` answers to drafts, and how a network numbers what it names.
use crate::short::{named_draft, network_of};
use rl_base::{Arm, BoxId, NoMemory, SegId, Side, TrainId};
use rl_net::{NetRefusal, Network, check};
use rl_text::read_number;
use std::alloc::Global;
use std::process::Abort;
use std::test::Fail;

/// Drafts in short, and what `check` answers.
const CASES: &str = "\
A B/buffer W A/joint J A B/buffer E B = accepted 2 3 0
A B/buffer W A/joint J A B/buffer E B/train T A J B = accepted 2 3 1
A B/buffer W A/joint J A B/buffer E B/train T A J B J A/train U B = accepted 2 3 2
S L R/buffer W S/point@left P S L R/buffer E L/buffer F R/train T S P R = accepted 3 4 1
A B C D/crossing X A B C D/buffer E A/buffer F B/buffer G C/buffer H D/train T A X B/train U D X C = accepted 4 5 2
A B A/buffer W A/joint J A B/buffer E B = Twice(Segment(2))
A B/buffer W A/joint J A B/buffer E B/joint J A B = Twice(BoxName(3))
A B/buffer W A/joint J A B/buffer E B/joint X A/train T A/train T B = Twice(TrainName(1))
A B/buffer W A/joint J A B/buffer E B/joint X A = ArmCount(BoxArms(3))
A B/buffer W A/joint J A B/buffer E C = NoSegment(BoxArm(2, 0))
A B/buffer W A/joint J A A/buffer E B = SameBox(BoxArm(1, 1))
A B/buffer W A/joint J A B/train T A J B = Ends(Segment(1))
A B/buffer W A/joint J A B/buffer E B/buffer F B/train T A J B = Ends(Segment(1))
A B C/buffer W A/joint J A B/buffer E B = Ends(Segment(2))
A B/buffer W A/joint J A B/buffer@left E B = At(BoxSide(2))
S L R/buffer W S/point P S L R/buffer E L/buffer F R = At(BoxSide(1))
A B/buffer W A/joint J A B/buffer E B/train T = RouteShape(TrainRoute(0))
A B/buffer W A/joint J A B/buffer E B/train T A/train U B J = RouteShape(TrainRoute(1))
A B/buffer W A/joint J A B/buffer E B/train T A B B = RouteName(RouteItem(0, 1))
A B/buffer W A/joint J A B/buffer E B/train T A J W = RouteName(RouteItem(0, 2))
S L R/buffer W S/point@left P S L R/buffer E L/buffer F R/train T L P R = RouteFit(RouteItem(0, 1))
A B/buffer W A/joint J A B/buffer E B/train T A J B E A = RouteFit(RouteItem(0, 3))
A B C D/crossing X A B C D/buffer E A/buffer F B/buffer G C/buffer H D/train T A X C = RouteFit(RouteItem(0, 1))
A B/buffer W A/joint J A B/buffer E B/train T A J B/train U A = StartShared(RouteItem(1, 0))
";

/// Drafts in short, each in three parts, the second of which is repeated so many times, and what `check` answers.
const LARGE_CASES: &str = "\
||0| = accepted 0 0 0
| A|256| = Twice(Segment(1))
| A|257|/buffer W A = Count(Segments)
A|/buffer W A|128| = Twice(BoxName(1))
A|/buffer W A|129|/train T A = Count(Boxes)
A|/train T A|32| = Twice(TrainName(1))
A|/train T A|33| = Count(Trains)
A B/buffer W A/joint J A B/buffer E B/train U B/train T A| J B J A|32| = accepted 2 3 2
A B/buffer W A/joint J A B/buffer E B/train U B/train T A| J B J A|32| J B = Count(TrainRoute(1))
";

/// How many segments, boxes and trains the network has.
fn counts_of(alloc: Global, net: &Network) -> Result<String, NoMemory> {
    let (segments, boxes, trains) = (net.segments(), net.boxes(), net.trains());
    Ok(format!(in alloc; "accepted {segments} {boxes} {trains}")?)
}

/// An answer of `check` in the words of the tables.
fn shown(alloc: Global, answer: Result<Network, NetRefusal>) -> Result<String, NoMemory> {
    match answer {
        Ok(net) => counts_of(alloc, &net),
        Err(refusal) => Ok(format!(in alloc; "{refusal:?}")?),
    }
}

/// What `check` answers to the draft in short.
fn answer(rt: &impl Abort, alloc: Global, text: &str) -> Result<String, NoMemory> {
    let draft = named_draft(rt, alloc, text)?;
    shown(alloc, check(alloc, draft))
}

/// The first part, the second so often as the third says, and the last.
fn repeated(alloc: Global, parts: &str) -> Result<String, Fail> {
    let (before, rest) = parts.split_once('|').ok_or("one part")?;
    let (piece, rest) = rest.split_once('|').ok_or("two parts")?;
    let (count, after) = rest.split_once('|').ok_or("three parts")?;
    let mut text = String::from_str(alloc, before)?;
    for _ in 0..read_number(count.as_bytes()).ok_or("no number")? {
        text.push_str(piece)?;
    }
    text.push_str(after)?;
    Ok(text)
}

/// Asserts that `check` answers so.
fn expect_answer(rt: &impl Abort, alloc: Global, text: &str, want: &str) -> Result<(), NoMemory> {
    let got = answer(rt, alloc, text)?;
    assert_eq!(rt; got.as_str(), want, "{text}");
    Ok(())
}

fn expect_line(rt: &impl Abort, alloc: Global, line: &str) -> Result<(), NoMemory> {
    let (text, want) = line.split_once(" = ").unwrap_or((line, ""));
    expect_answer(rt, alloc, text, want)
}

#[test]
fn accepts_or_names_the_first_refusal(rt: HostRuntime) -> Result<(), Fail> {
    for line in CASES.lines() {
        expect_line(&rt, rt.alloc(), line)?;
    }
    Ok(())
}

#[test]
fn counts_before_all_else(rt: HostRuntime) -> Result<(), Fail> {
    for case in LARGE_CASES.lines() {
        let (parts, want) = case.split_once(" = ").ok_or("no answer")?;
        let text = repeated(rt.alloc(), parts)?;
        expect_answer(&rt, rt.alloc(), text.as_str(), want)?;
    }
    Ok(())
}

/// A fork, and a train that turns right.
const FORK: &str = "S L R/buffer W S/point@left P S L R/buffer E L/buffer F R/train T S P R";

/// Whether the first train of a fork turns right, from the stem in segment 0 to the branch in segment 2.
fn turns_right(net: &Network) -> bool {
    let (stem, right, p, t) = (SegId(0), SegId(2), BoxId(1), TrainId(0));
    if net.segments() < 3 || net.boxes() < 4 || net.trains() < 1 || net.steps(t) < 1 {
        return false;
    }
    net.ends(right) == ((p, Arm(2)), (BoxId(3), Arm(0)))
        && net.start_side(p) == Side::Left
        && net.side_for(p, stem, right) == Some(Side::Right)
        && net.route_seg(t, 1) == right
        && net.route_box(t, 0) == p
}

/// Whether the network finds those names alone that are of the kind that is asked for.
fn finds_segments(net: &Network) -> bool {
    net.find_seg(b"R") == Some(SegId(2)) && net.find_seg(b"P").is_none()
}

fn finds_boxes(net: &Network) -> bool {
    net.find_box(b"P") == Some(BoxId(1)) && net.find_box(b"").is_none()
}

fn finds_trains(net: &Network) -> bool {
    net.find_train(b"T") == Some(TrainId(0)) && net.find_train(b"TT").is_none()
}

#[test]
fn numbers_by_place(rt: HostRuntime) -> Result<(), Fail> {
    let net = network_of(&rt, rt.alloc(), FORK)?;
    assert!(rt; turns_right(&net));
    assert!(rt; finds_segments(&net) && finds_boxes(&net) && finds_trains(&net));
    Ok(())
}
