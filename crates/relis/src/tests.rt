//! The worked examples of the program, and each answer once.
mod auditing;
mod driving;
mod failing;
mod made;
mod making;
mod running;
mod texts;

use super::*;
use made::made_text;
use rl_base::{Args, Text};
use rl_outside::{MemFiles, MemSink};
use std::alloc::Global;
use std::process::Abort;
use std::test::Fail;

/// A line of two segments, W, A, J1, B, E, and no train.
const TRACK: &str = r#"format = 1
segments = ["A", "B"]
[[box]]
name = "W"
kind = "buffer"
arms = ["A"]
[[box]]
name = "J1"
kind = "joint"
arms = ["A", "B"]
[[box]]
name = "E"
kind = "buffer"
arms = ["B"]
"#;

/// The same with a train from A to B.
const STRAIGHT: &str = r#"format = 1
segments = ["A", "B"]
[[box]]
name = "W"
kind = "buffer"
arms = ["A"]
[[box]]
name = "J1"
kind = "joint"
arms = ["A", "B"]
[[box]]
name = "E"
kind = "buffer"
arms = ["B"]
[[train]]
name = "T1"
route = ["A", "J1", "B"]
"#;

/// Three segments in a line, and a train that goes over two of them: its first step looks ahead.
const THREE: &str = r#"format = 1
segments = ["A", "B", "C"]
box = [
  { name = "W", kind = "buffer", arms = ["A"] },
  { name = "J1", kind = "joint", arms = ["A", "B"] },
  { name = "J2", kind = "joint", arms = ["B", "C"] },
  { name = "E", kind = "buffer", arms = ["C"] },
]
train = [{ name = "T1", route = ["A", "J1", "B", "J2", "C"] }]
"#;

/// A point P between the stem S and the branches L and R. The train wants to go right.
const FORK: &str = r#"format = 1
segments = ["S", "L", "R"]
[[box]]
name = "W"
kind = "buffer"
arms = ["S"]
[[box]]
name = "P"
kind = "point"
arms = ["S", "L", "R"]
at = "left"
[[box]]
name = "EL"
kind = "buffer"
arms = ["L"]
[[box]]
name = "ER"
kind = "buffer"
arms = ["R"]
[[train]]
name = "T1"
route = ["S", "P", "R"]
"#;

/// Two tracks that cross, with a train on each.
const CROSSING: &str = r#"format = 1
segments = ["A", "B", "C", "D"]
box = [
  { name = "X", kind = "crossing", arms = ["A", "B", "C", "D"] },
  { name = "WA", kind = "buffer", arms = ["A"] },
  { name = "EB", kind = "buffer", arms = ["B"] },
  { name = "WC", kind = "buffer", arms = ["C"] },
  { name = "ED", kind = "buffer", arms = ["D"] },
]
train = [{ name = "T1", route = ["A", "X", "B"] }, { name = "T2", route = ["C", "X", "D"] }]
"#;

/// Two trains that want the segment between them.
const HEAD_ON: &str = r#"format = 1
segments = ["A", "B", "C"]
box = [
  { name = "W", kind = "buffer", arms = ["A"] },
  { name = "J1", kind = "joint", arms = ["A", "B"] },
  { name = "J2", kind = "joint", arms = ["B", "C"] },
  { name = "E", kind = "buffer", arms = ["C"] },
]
train = [{ name = "T1", route = ["A", "J1", "B"] }, { name = "T2", route = ["C", "J2", "B"] }]
"#;

/// A point P that T1 wants to pass to the right, while T2 wants its left branch.
const TWO_WISHES: &str = r#"format = 1
segments = ["S", "L", "R", "LL"]
box = [
  { name = "W", kind = "buffer", arms = ["S"] },
  { name = "P", kind = "point", arms = ["S", "L", "R"], at = "left" },
  { name = "JL", kind = "joint", arms = ["L", "LL"] },
  { name = "ELL", kind = "buffer", arms = ["LL"] },
  { name = "ER", kind = "buffer", arms = ["R"] },
]
train = [{ name = "T1", route = ["S", "P", "R"] }, { name = "T2", route = ["LL", "JL", "L"] }]
"#;

/// Two segments between the same two joints.
const RING: &str = r#"format = 1
segments = ["A", "B"]
box = [
  { name = "J1", kind = "joint", arms = ["A", "B"] },
  { name = "J2", kind = "joint", arms = ["A", "B"] },
]
train = [{ name = "T1", route = ["A", "J2", "B"] }]
"#;

/// Two tracks in a line, a train on the first, and one on the second, where the first wants to go.
const OCCUPIED: &str = r#"format = 1
segments = ["A", "B"]
box = [
  { name = "W", kind = "buffer", arms = ["A"] },
  { name = "J1", kind = "joint", arms = ["A", "B"] },
  { name = "E", kind = "buffer", arms = ["B"] },
]
train = [{ name = "T1", route = ["A", "J1", "B"] }, { name = "T2", route = ["B"] }]
"#;

/// A tram terminus: two platforms at each end, a passing loop between them, and four trams.
const TERMINUS: &str = r#"format = 1
segments = ["plat1", "plat2", "west", "mid", "up", "down", "east", "plat3", "plat4"]
box = [
  { name = "E1", kind = "buffer", arms = ["plat1"] },
  { name = "E2", kind = "buffer", arms = ["plat2"] },
  { name = "P1", kind = "point", arms = ["west", "plat1", "plat2"], at = "left" },
  { name = "J", kind = "joint", arms = ["west", "mid"] },
  { name = "P2", kind = "point", arms = ["mid", "up", "down"], at = "left" },
  { name = "P3", kind = "point", arms = ["east", "up", "down"], at = "left" },
  { name = "P4", kind = "point", arms = ["east", "plat3", "plat4"], at = "left" },
  { name = "E3", kind = "buffer", arms = ["plat3"] },
  { name = "E4", kind = "buffer", arms = ["plat4"] },
]
train = [
  { name = "Tram1", route = ["plat1", "P1", "west", "J", "mid", "P2", "up", "P3", "east", "P4", "plat3"] },
  { name = "Tram2", route = ["plat2", "P1", "west", "P1", "plat2"] },
  { name = "Tram3", route = ["plat3", "P4", "east", "P3", "down", "P2", "mid", "J", "west", "P1", "plat1"] },
  { name = "Tram4", route = ["plat4"] },
]
"#;

/// The text of `drive STRAIGHT 200`, worked out by hand.
const ONE_STEP: &str = r#"relis report 1
tries 100
reserve T1 B J1
reserve T1 B E
lock T1 J1 A B
enter T1 J1 A B
leave T1 A
unlock T1 J1
release T1 A J1
release T1 A W
train T1 arrived 1 0
end
"#;

/// The text of a drive of two attempts where a train stands in the way, worked out by hand.
const TWICE_REFUSED: &str = r#"relis report 1
tries 2
refuse T1 B J1 T2
refuse T1 B J1 T2
train T1 spent 0 2
train T2 arrived 0 0
end
"#;

/// The text of this name: a network, a report or a schedule.
fn named(name: &str) -> &'static str {
    match name.as_bytes() {
        b"track" => TRACK,
        b"straight" => STRAIGHT,
        b"three" => THREE,
        b"occupied" => OCCUPIED,
        b"fork" => FORK,
        b"crossing" => CROSSING,
        b"head-on" => HEAD_ON,
        b"two-wishes" => TWO_WISHES,
        b"ring" => RING,
        b"terminus" => TERMINUS,
        b"one step" => ONE_STEP,
        b"twice refused" => TWICE_REFUSED,
        b"barred" => driving::BARRED,
        b"both refused" => driving::BOTH_REFUSED,
        b"reserved meanwhile" => driving::RESERVED_MEANWHILE,
        _ => "format = 1\n",
    }
}

/// The text, in which `~` is the end of a line.
fn text_of(alloc: Global, short: &str) -> Result<String, Fail> {
    let mut text = String::new(alloc);
    for (i, line) in short.split('~').enumerate() {
        if 0 < i {
            text.push_str("\n")?;
        }
        text.push_str(line)?;
    }
    Ok(text)
}

/// The text with the first `old` in it replaced.
fn changed(alloc: Global, text: &str, old: &str, new: &str) -> Result<String, Fail> {
    let (front, back) = text.split_once(old).ok_or("the text isn't there")?;
    Ok(format!(in alloc; "{front}{new}{back}")?)
}

/// The text with a change in it, as the tables of the tests have it: what is replaced, and by what.
fn with_change(alloc: Global, text: &str, change: &str) -> Result<String, Fail> {
    let (old, new) = change.split_once(" => ").ok_or("no change")?;
    let old = text_of(alloc, old)?;
    let new = text_of(alloc, new)?;
    changed(alloc, text, old.as_str(), new.as_str())
}

/// The text that a table names, or one with a change in it, after a stroke.
fn named_text(alloc: Global, short: &str) -> Result<String, Fail> {
    match short.split_once(" | ") {
        Some((name, change)) => with_change(alloc, named(name), change),
        None => Ok(named(short).to_string(alloc)?),
    }
}

/// The text of a file as a table has it: the text itself after `= `, one that is made after `made `, or one that has a
/// name.
fn file_text(alloc: Global, short: &str) -> Result<String, Fail> {
    match short.split_once(' ') {
        Some(("=", text)) => text_of(alloc, text),
        Some(("made", order)) => made_text(alloc, order),
        _ => named_text(alloc, short),
    }
}

/// A sink that takes the whole text in one put.
fn wide_sink(alloc: Global) -> Result<MemSink, Fail> {
    Ok(MemSink::new(alloc, 100_000, 100_000, &[])?)
}

/// The words of a line. `''` is the empty word.
fn args_of(alloc: Global, line: &str) -> Result<Args, Fail> {
    let mut args = Args::new(alloc);
    for word in line.split(' ') {
        if word == "''" {
            args.push(Text::of(alloc, "")?)?;
        } else if !word.is_empty() {
            args.push(Text::of(alloc, word)?)?;
        }
    }
    Ok(args)
}

/// Files with these bytes under their names.
fn files_of(alloc: Global, named: &[(&str, &[u8])]) -> Result<MemFiles, Fail> {
    let mut files = MemFiles::new(alloc, &[])?;
    for (name, bytes) in named {
        files.add(name, bytes)?;
    }
    Ok(files)
}

/// The status and the text of these words.
fn ended(alloc: Global, args: &Args, files: &mut MemFiles) -> Result<(Status, Vec<u8>), Fail> {
    let mut out = wide_sink(alloc)?;
    let status = relis_plain(alloc, args, files, &mut out);
    Ok((status, Vec::from_slice(alloc, out.bytes())?))
}

/// The status and the text of the command line, where files with these bytes lie under their names.
fn answer_with(
    alloc: Global,
    named: &[(&str, &[u8])],
    line: &str,
) -> Result<(Status, Vec<u8>), Fail> {
    let args = args_of(alloc, line)?;
    let mut files = files_of(alloc, named)?;
    ended(alloc, &args, &mut files)
}

/// The number with which the program ends that prints the text.
fn number_for(text: &str) -> u8 {
    if text.starts_with("usage") {
        1
    } else if text.starts_with("read fault") {
        2
    } else if text.starts_with("refused") {
        3
    } else if text.starts_with("not safe") {
        7
    } else {
        0
    }
}

/// Asserts that the command line writes this text, and ends with its number, where these bytes lie under the names
/// `NET` and `OTHER`.
fn assert_answer(
    rt: &impl Abort,
    alloc: Global,
    line: &str,
    net: &[u8],
    other: &[u8],
    text: &str,
) -> Result<(), Fail> {
    let files = [("NET", net), ("OTHER", other)];
    let (status, written) = answer_with(alloc, files.as_slice(), line)?;
    assert_eq!(rt; written.as_slice(), text.as_bytes(), "at {line}");
    assert_eq!(rt; status.number(), number_for(text), "at {line}");
    Ok(())
}

/// The commands that read a network. A second file, which isn't there, isn't read where the network is refused.
const COMMANDS: &str = "\
check NET
tables NET
drive NET 5
drive NET -s NONE
audit NET NONE
";

/// Asserts the answer to the command line, or to each command that reads a network.
fn assert_answers(
    rt: &impl Abort,
    alloc: Global,
    line: &str,
    net: &[u8],
    other: &[u8],
    text: &str,
) -> Result<(), Fail> {
    if line != "each command" {
        return assert_answer(rt, alloc, line, net, other, text);
    }
    for line in COMMANDS.lines() {
        assert_answer(rt, alloc, line, net, other, text)?;
    }
    Ok(())
}

/// Asserts a row of a table: the command line, behind it each after an arrow the text under `NET` and the one under
/// `OTHER`, if there is one, and on the lines after it what is written.
fn assert_row(rt: &impl Abort, alloc: Global, row: &str) -> Result<(), Fail> {
    let (head, text) = row.split_once('\n').ok_or("no answer")?;
    let (line, files) = head.split_once(" <- ").ok_or("no network")?;
    let (net, other) = files.split_once(" <- ").unwrap_or((files, "= "));
    let net = file_text(alloc, net)?;
    let other = file_text(alloc, other)?;
    let text = format!(in alloc; "{text}\n")?;
    assert_answers(
        rt,
        alloc,
        line,
        net.as_bytes(),
        other.as_bytes(),
        text.as_str(),
    )
}

/// Asserts each row of a table. An empty line parts them.
fn assert_rows(rt: &impl Abort, alloc: Global, rows: &str) -> Result<(), Fail> {
    for row in rows.split("\n\n") {
        assert_row(rt, alloc, row.trim_end())?;
    }
    Ok(())
}
