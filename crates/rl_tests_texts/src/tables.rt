//! The tables of networks, and the words at the start.
ghost use Rattle.rl_tables.specs.Tables.{AreTablesOf};

use crate::short::network_of;
use rl_base::{NoMemory, WordNo};
use rl_net::Network;
use rl_tables::{Line, compile, tables_text};
use rl_text::Out;
use std::alloc::Global;
use std::process::Abort;
use std::test::Fail;

/// A straight line and a train on it, and the text of its tables.
const STRAIGHT: &str = "A B/buffer W A/joint J A B/buffer E B/train T A J B";

const STRAIGHT_TABLES: &str = "\
relis tables 1
box 0 W buffer left
arm 0 A T
box 1 J joint left
arm 0 A T
arm 1 B *
box 2 E buffer left
arm 0 B *
train 0 T 1
step 0 J 0 1 E 0 W 0
end
";

/// A point that stands at right, and three trains, one of which goes over it there and back.
const FORK: &str =
    "S L R/buffer X R/point@right P S L R/buffer Y L/buffer W S/train T S/train U L P S P R/train V R";

const FORK_TABLES: &str = "\
relis tables 1
box 0 X buffer left
arm 0 R V
box 1 P point right
arm 0 S T
arm 1 L U
arm 2 R V
box 2 Y buffer left
arm 0 L U
box 3 W buffer left
arm 0 S T
train 0 T 0
train 1 U 2
step 0 P 1 0 W 0 Y 0
step 1 P 0 2 X 0 W 0
train 2 V 0
end
";

/// What each word says at the start, each number before a space.
fn words_of(alloc: Global, line: &Line) -> Result<Out, NoMemory> {
    let mut out = Out::new(alloc);
    for w in 0..line.layout().words() {
        out.number(line.start_word(WordNo(w)))?;
        out.text(" ".as_bytes())?;
    }
    Ok(out)
}

fn assert_words(rt: &impl Abort, alloc: Global, line: &Line, words: &str) -> Result<(), Fail> {
    let starts = words_of(alloc, line)?;
    assert_eq!(rt; starts.bytes(), words.as_bytes());
    Ok(())
}

fn assert_text(
    rt: &impl Abort,
    alloc: Global,
    net: &Network,
    line: &Line,
    tables: &str,
) -> Result<(), Fail>
    requires { AreTablesOf net.now line.now }
{
    let text = tables_text(alloc, net, line)?;
    assert_eq!(rt; text.bytes(), tables.as_bytes());
    Ok(())
}

/// Asserts that the network has these tables and starts so.
fn assert_tables(
    rt: &impl Abort,
    alloc: Global,
    net: &Network,
    tables: &str,
    words: &str,
) -> Result<(), Fail> {
    let line = compile(alloc, net)?;
    assert_text(rt, alloc, net, &line, tables)?;
    assert_words(rt, alloc, &line, words)
}

#[test]
fn reads_tables(rt: HostRuntime) -> Result<(), Fail> {
    let alloc = rt.alloc();
    let net = network_of(&rt, alloc, STRAIGHT)?;
    assert_tables(&rt, alloc, &net, STRAIGHT_TABLES, "0 1 1 0 0 0 0 0 0 0 ")?;
    let net = network_of(&rt, alloc, FORK)?;
    let words = "0 3 12417 2 1 0 8 0 0 0 0 0 0 0 0 0 0 0 ";
    assert_tables(&rt, alloc, &net, FORK_TABLES, words)
}
