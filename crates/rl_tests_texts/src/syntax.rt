//! Network texts as drafts: what is read, what is written, and the first refusal.
use crate::short::{named_draft, put_text, short_of};
use rl_base::{Draft, Place};
use rl_syntax::{SyntaxRefusal, read_draft, write_draft};
use rl_text::Out;
use std::alloc::Global;
use std::process::Abort;
use std::test::Fail;

const THREE_BOXES: &str = r#"format = 1
segments = ["A", "B"]

[[box]]
name = "W"
kind = "buffer"
arms = ["A"]

[[box]]
name = "J1"
kind = "joint"
arms = ["A", "B"]

[[box]]
name = "E"
kind = "buffer"
arms = ["B"]

[[train]]
name = "T1"
route = ["A", "J1", "B"]
"#;

fn refusal_of(alloc: Global, text: &[u8]) -> Option<SyntaxRefusal> {
    match read_draft(alloc, text) {
        Ok(_) => None,
        Err(refusal) => Some(refusal),
    }
}

const ALL_KINDS: &str = r#"format = 1
segments = ["A", "B_1", "C-2"]
box = [
  { name = "W", kind = "buffer", arms = ["A"] },
  { name = "J", kind = "joint", arms = ["B_1", "C-2"] },
  { name = "P", kind = "point", arms = ["A", "B_1", "C-2"], at = "right" },
  { name = "X", kind = "crossing", arms = [], at = "left" },
]
train = [{ name = "T", route = ["A", "P", "B_1"] }, { name = "U", route = [] }]
"#;

fn assert_short(rt: &impl Abort, alloc: Global, draft: &Draft, short: &str) -> Result<(), Fail> {
    let found = short_of(alloc, draft)?;
    assert_eq!(rt; found.bytes(), short.as_bytes());
    Ok(())
}

/// Asserts that the text is read as the draft in short, behind a space.
fn assert_read(rt: &impl Abort, alloc: Global, text: &[u8], short: &str) -> Result<(), Fail> {
    let draft = read_draft(alloc, text)?;
    assert_short(rt, alloc, &draft, short)
}

#[test]
fn reads_networks(rt: HostRuntime) -> Result<(), Fail> {
    let alloc = rt.alloc();
    let short = " A B/buffer W A/joint J1 A B/buffer E B/train T1 A J1 B";
    assert_read(&rt, alloc, THREE_BOXES.as_bytes(), short)?;
    let short = " A B_1 C-2/buffer W A/joint J B_1 C-2/point@right P A B_1 C-2/crossing@left X\
/train T A P B_1/train U";
    assert_read(&rt, alloc, ALL_KINDS.as_bytes(), short)?;
    assert_read(&rt, alloc, b"format = 1", "")
}

/// Drafts in short: nothing, boxes of each kind, and networks: a track, a train on it, a fork, a crossing, two
/// trains head on, two that wish for one point, a ring, and a tram terminus.
const DRAFTS: &str = "
A B_1 C-2/buffer W A/joint J B_1 C-2/point@right P A B_1 C-2/crossing@left X/train T A P B_1/train U
A B/buffer W A/joint J1 A B/buffer E B
A B/buffer W A/joint J1 A B/buffer E B/train T1 A J1 B
S L R/buffer W S/point@left P S L R/buffer EL L/buffer ER R/train T1 S P R
A B C D/crossing X A B C D/buffer WA A/buffer EB B/buffer WC C/buffer ED D/train T1 A X B/train T2 C X D
A B C/buffer W A/joint J1 A B/joint J2 B C/buffer E C/train T1 A J1 B/train T2 C J2 B
S L R LL/buffer W S/point@left P S L R/joint JL L LL/buffer ELL LL/buffer ER R/train T1 S P R/train T2 LL JL L
A B/joint J1 A B/joint J2 A B/train T1 A J2 B
plat1 plat2 west mid up down east plat3 plat4/buffer E1 plat1/buffer E2 plat2/point@left P1 west plat1 plat2/\
joint J west mid/point@left P2 mid up down/point@left P3 east up down/point@left P4 east plat3 plat4/\
buffer E3 plat3/buffer E4 plat4/\
train Tram1 plat1 P1 west J mid P2 up P3 east P4 plat3/train Tram2 plat2 P1 west P1 plat2/\
train Tram3 plat3 P4 east P3 down P2 mid J west P1 plat1/train Tram4 plat4
";

/// The text that is written of the draft in short.
fn written(rt: &impl Abort, alloc: Global, short: &str) -> Result<Out, Fail> {
    let draft = named_draft(rt, alloc, short)?;
    Ok(write_draft(alloc, &draft).ok().ok_or("written")?)
}

/// Asserts that the text that is written of the draft in short is read as this draft.
fn assert_written(rt: &impl Abort, alloc: Global, short: &str) -> Result<(), Fail> {
    let text = written(rt, alloc, short)?;
    let want = format!(in alloc; " {short}")?;
    assert_read(rt, alloc, text.bytes(), want.trim_end())
}

#[test]
fn writes_what_it_reads(rt: HostRuntime) -> Result<(), Fail> {
    for short in DRAFTS.lines() {
        assert_written(&rt, rt.alloc(), short)?;
    }
    Ok(())
}

/// Texts, and their first refusals. A stroke is the end of a line.
const REFUSALS: &str = r#"format = 1 => accepted
 => Key(Format)
format = 2 => Key(Format)
format = "1" => Key(Format)
format = 1.0 => Key(Format)
format =  => NotToml
format = 1|format = 1 => NotToml
colour = 1 => Key(Top)
format = 1|segments = "A" => Key(Segments)
format = 1|segments = ["A", 2] => Key(Segment(1))
format = 1|segments = ["A B"] => BadName(Segment(0))
format = 1|box = {} => Key(Boxes)
format = 1|box = [1] => Key(BoxItem(0))
format = 1|box = [{ colour = 1 }] => Key(BoxItem(0))
format = 1|box = [{}] => Key(BoxName(0))
format = 1|box = [{ name = "W", kind = "switch", arms = 1 }] => Key(BoxKind(0))
format = 1|box = [{ name = "", kind = "point" }] => Key(BoxArms(0))
format = 1|box = [{ name = "W", kind = "point", arms = ["A", 1], at = 3 }] => Key(BoxArm(0, 1))
format = 1|box = [{ name = "W", kind = "point", arms = ["?"], at = "up" }] => Key(BoxSide(0))
format = 1|train = 1 => Key(Trains)
format = 1|train = [{ kind = 1 }] => Key(TrainItem(0))
format = 1|train = [{ name = 1 }] => Key(TrainName(0))
format = 1|train = [{ name = "T" }] => Key(TrainRoute(0))
format = 1|segments = ["?"]|train = [{ name = "T", route = [true] }] => Key(RouteItem(0, 0))
format = 1|box = [{ name = "W", kind = "joint", arms = ["A", "abcdefghijklmnopq"] }] => BadName(BoxArm(0, 1))
format = 1|train = [{ name = "T", route = [] }, { name = "T", route = ["A", ""] }] => BadName(RouteItem(1, 1))
"#;

/// What the reading of the text answers, in the words of the table.
fn answer_of(alloc: Global, text: &[u8]) -> Result<String, Fail> {
    Ok(match refusal_of(alloc, text) {
        Some(refusal) => format!(in alloc; "{refusal:?}")?,
        None => format!(in alloc; "accepted")?,
    })
}

fn assert_refusal(rt: &impl Abort, alloc: Global, short: &str, want: &str) -> Result<(), Fail> {
    let mut text = Vec::new(alloc);
    put_text(&mut text, short)?;
    let answer = answer_of(alloc, text.as_slice())?;
    assert_eq!(rt; answer.as_str(), want, "{short}");
    Ok(())
}

#[test]
fn answers_the_first_refusal(rt: HostRuntime) -> Result<(), Fail> {
    for case in REFUSALS.lines() {
        let (short, want) = case.split_once(" => ").ok_or("no answer")?;
        assert_refusal(&rt, rt.alloc(), short, want)?;
    }
    Ok(())
}

#[test]
fn bears_any_bytes(rt: HostRuntime) -> Result<(), Fail> {
    let alloc = rt.alloc();
    assert_eq!(rt; refusal_of(alloc, b"\xff"), Some(SyntaxRefusal::NotToml));
    let longest = vec![in alloc; b'\n'; 65_536]?;
    assert_eq!(rt;
        refusal_of(alloc, &longest),
        Some(SyntaxRefusal::Key(Place::Format))
    );
    let too_long = vec![in alloc; b'\xff'; 65_537]?;
    assert_eq!(rt; refusal_of(alloc, &too_long), Some(SyntaxRefusal::TooLong));
    Ok(())
}

/// So many brackets, one in the other.
fn nested(alloc: Global, depth: u32) -> Result<Vec<u8>, Fail> {
    let mut text = Vec::new(alloc);
    put_text(&mut text, "format = ")?;
    for _ in 0..depth {
        text.push(b'[')?;
    }
    Ok(text)
}

/// So many keys, one after the other.
fn many_keys(alloc: Global, keys: u32) -> Result<String, Fail> {
    let mut text = String::from_str(alloc, "format = 1\n")?;
    for i in 0..keys {
        let line = format!(in alloc; "{i}=1\n")?;
        text.push_str(line.as_str())?;
    }
    Ok(text)
}

#[test]
fn bears_deep_and_wide_texts(rt: HostRuntime) -> Result<(), Fail> {
    let alloc = rt.alloc();
    let deep = nested(alloc, 10_000)?;
    let refusal = refusal_of(alloc, deep.as_slice());
    assert_eq!(rt; refusal, Some(SyntaxRefusal::NotToml));
    let wide = many_keys(alloc, 9_000)?;
    let refusal = refusal_of(alloc, wide.as_bytes());
    assert_eq!(rt; refusal, Some(SyntaxRefusal::Key(Place::Top)));
    Ok(())
}
