//! The words that nodes share: their packing, their parts and their owners.
ghost use Rattle.std.specs.Prelude.{◌≡◌, ◌<◌};

use rl_base::{
    Arm, BoxId, Layout, NoMemory, NodeKind, NodeNo, Side, TrainId, Verb, WordKind, WordNo,
};
use rl_text::read_number;
use rl_words::{
    Letter, LockWord, MailWord, Path, ResvWord, RunWord, SenseWord, owner, payload_of, stamp_of,
    word_of,
};
use std::alloc::Global;
use std::process::Abort;
use std::test::Fail;

fn path(train: u32, x: u32, y: u32) -> Path
    ensures train { result.train.0 ≡ train }
    ensures x { result.x.0 ≡ x }
    ensures y { result.y.0 ≡ y }
{
    Path {
        train: TrainId(train),
        x: Arm(x),
        y: Arm(y),
    }
}

const RESERVE: Letter = Letter {
    to: BoxId(1),
    verb: Verb::Reserve,
    x: Arm(1),
    y: Arm(0),
};

const LOCK: Letter = Letter {
    to: BoxId(1),
    verb: Verb::Lock,
    x: Arm(0),
    y: Arm(1),
};

const TWO_ARMS: ResvWord = ResvWord {
    arm0: Some(TrainId(0)),
    arm1: Some(TrainId(2)),
    arm2: None,
    arm3: None,
};

const FOUR_ARMS: ResvWord = ResvWord {
    arm0: Some(TrainId(31)),
    arm1: Some(TrainId(31)),
    arm2: Some(TrainId(31)),
    arm3: Some(TrainId(31)),
};

#[test]
fn packs_words(rt: HostRuntime) {
    assert_eq!(rt; TWO_ARMS.pack(), 193);
    assert_eq!(rt; FOUR_ARMS.pack(), 8521760);
    assert_eq!(rt; LockWord::Free(Side::Right).pack(), 8);
    assert_eq!(rt; LockWord::Locked(path(0, 0, 1)).pack(), 2052);
    assert_eq!(rt; LockWord::Asked(path(3, 0, 2)).pack(), 4145);
    assert_eq!(rt; MailWord::Ask(RESERVE).pack(), 4105);
    assert_eq!(rt; MailWord::No(RESERVE, TrainId(1)).pack(), 69644);
    assert_eq!(rt; MailWord::Ask(LOCK).pack(), 18441);
    assert_eq!(rt; RunWord::Clear(1).pack(), 4);
    assert_eq!(rt; RunWord::Clear(64).pack(), 256);
    assert_eq!(rt; SenseWord::Tail(63).pack(), 254);
}

// There is no train 32, no tag 5, no path from an arm to itself, and nothing in an empty word.
#[test]
fn unpacks_words(rt: HostRuntime) {
    assert_eq!(rt; ResvWord::unpack(193), Some(TWO_ARMS));
    assert_eq!(rt; ResvWord::unpack(33), None);
    let asked = LockWord::Asked(path(3, 0, 2));
    assert_eq!(rt; LockWord::unpack(4145), Some(asked));
    assert_eq!(rt; LockWord::unpack(5), None);
    assert_eq!(rt; LockWord::unpack(4), None);
    let refused = MailWord::No(RESERVE, TrainId(1));
    assert_eq!(rt; MailWord::unpack(69644), Some(refused));
    assert_eq!(rt; MailWord::unpack(16), None);
    assert_eq!(rt; RunWord::unpack(5), Some(RunWord::Go(1)));
    assert_eq!(rt; RunWord::unpack(257), None);
    assert_eq!(rt; SenseWord::unpack(256), Some(SenseWord::Quiet(64)));
    assert_eq!(rt; SenseWord::unpack(3), None);
}

/// The two arms, and a third one for train 5.
fn three_arms() -> ResvWord {
    TWO_ARMS.with_arm(Arm(2), Some(TrainId(5)))
}

#[test]
fn changes_an_arm(rt: HostRuntime) {
    let word = three_arms();
    assert_eq!(rt; word.arm(Arm(1)), Some(TrainId(2)));
    assert_eq!(rt; word.arm(Arm(2)), Some(TrainId(5)));
    assert_eq!(rt; word.arm(Arm(3)), None);
}

#[test]
fn splits_a_word(rt: HostRuntime) {
    let word = word_of(7, 193);
    assert_eq!(rt; word, 30_064_771_265);
    assert_eq!(rt; stamp_of(word), 7);
    assert_eq!(rt; payload_of(word), 193);
}

// Trains 0 and 1, their tracks 2 and 3, boxes 4 to 6, machines 7 to 9.
const LAYOUT: Layout = Layout {
    boxes: 3,
    trains: 2,
};

/// Words at payloads, and their owners.
const OWNERS: &str = "\
0 at 0 = none
2 at 193 = 5
2 at 33 = none
4 at 8 = 4
4 at 4145 = 7
4 at 2050 = 7
4 at 2051 = 4
4 at 2052 = 4
7 at 0 = 0
8 at 4105 = 5
8 at 4106 = 5
8 at 4107 = 1
8 at 69644 = 1
8 at 4121 = none
9 at 4 = 0
9 at 5 = 2
9 at 6 = 2
12 at 4 = 3
12 at 5 = 3
12 at 6 = 1
";

/// The number of the owner, in the words of the table.
fn shown_owner(alloc: Global, word: u32, payload: u32) -> Result<String, NoMemory>
    requires { word < 13 }
{
    Ok(match owner(&LAYOUT, WordNo(word), payload) {
        Some(node) => format!(in alloc; "{}", node.0)?,
        None => format!(in alloc; "none")?,
    })
}

fn number_of(text: &str) -> Result<u32, Fail> {
    let number = read_number(text.as_bytes()).ok_or("no number")?;
    Ok(u32::try_from(number).ok().ok_or("a large number")?)
}

fn assert_owner(rt: &impl Abort, alloc: Global, case: &str) -> Result<(), Fail> {
    let (at, want) = case.split_once(" = ").ok_or("no owner")?;
    let (word, payload) = at.split_once(" at ").ok_or("no payload")?;
    let word = number_of(word)?;
    assert!(rt; word < 13);
    let found = shown_owner(alloc, word, number_of(payload)?)?;
    assert_eq!(rt; found.as_str(), want, "{case}");
    Ok(())
}

#[test]
fn names_the_owner(rt: HostRuntime) -> Result<(), Fail> {
    for case in OWNERS.lines() {
        assert_owner(&rt, rt.alloc(), case)?;
    }
    Ok(())
}

#[test]
fn numbers_words_and_nodes(rt: HostRuntime) {
    assert_eq!(rt; LAYOUT.word(WordKind::Lock(BoxId(2))), WordNo(6));
    assert_eq!(rt; LAYOUT.word(WordKind::Run(TrainId(1))), WordNo(10));
    assert_eq!(rt; LAYOUT.word_kind(WordNo(11)), WordKind::Sense(TrainId(0)));
    assert_eq!(rt; LAYOUT.node(NodeKind::Machine(BoxId(0))), NodeNo(7));
    assert_eq!(rt; LAYOUT.node_kind(NodeNo(3)), NodeKind::Track(TrainId(1)));
}
