//! Running on threads: what no clause can say, that the workers of a run work beside each other, and that what is
//! printed is what they did.

ghost use Rattle.std.specs.Prelude.{◌≤◌, ◌<◌, IfSome};
ghost use Rattle.rl_base.specs.Layout.{word_count};
ghost use Rattle.rl_tables.specs.Starts.{layout_of};

use super::*;
use crate::judge::judge;
use rl_base::{NodeNo, TrainId, WordNo};
use rl_core::{Core, Mind, move_of, replay};
use rl_model::Move;
use rl_net::Network;
use rl_outside::Gate;
use rl_record::{Event, Events};
use rl_report::read_report;
use rl_tables::{Line, compile};
use std::process::Abort;
use std::sync::Wait;
use std::sync::atomic::{AtomicBool, AtomicU32, AtomicU64, Ordering};
use std::thread::Threads;

/// Two lines that have nothing in common, each with a train: nodes 0 to 7 and 8 to 15 are groups of neighbours.
const TWO_LINES: &str = r#"format = 1
segments = ["A", "B", "C", "D"]
box = [
  { name = "W1", kind = "buffer", arms = ["A"] },
  { name = "J1", kind = "joint", arms = ["A", "B"] },
  { name = "E1", kind = "buffer", arms = ["B"] },
  { name = "W2", kind = "buffer", arms = ["C"] },
  { name = "J2", kind = "joint", arms = ["C", "D"] },
  { name = "E2", kind = "buffer", arms = ["D"] },
]
train = [{ name = "T1", route = ["A", "J1", "B"] }, { name = "T2", route = ["C", "J2", "D"] }]
"#;

/// How many nodes they have, and for how many events of each the gate has room.
const NODES: usize = 16;

const ROOM: usize = 64;

/// How often a node looks whether the other has come.
const LOOKS: u32 = 100_000_000;

/// The status and the text of the command line, with any command, where files with these bytes lie under their names.
fn answer_of_all<R: Threads + Wait + Sync, G: Gate>(
    rt: &R,
    alloc: Global,
    named: &[(&str, &[u8])],
    line: &str,
    gate: &G,
) -> Result<(Status, Vec<u8>), Fail> {
    let args = args_of(alloc, line)?;
    let mut files = files_of(alloc, named)?;
    let mut out = wide_sink(alloc)?;
    let status = relis(rt, alloc, &args, &mut files, &mut out, gate);
    Ok((status, Vec::from_slice(alloc, out.bytes())?))
}

/// Runs of which one text alone is right: of trains that rest at the start, of one whose moves are each a cause of the
/// next; and one with no attempt, which is no command.
const RUNS: &str = r#"run NET <- empty
relis report 1
tries 100
end

run NET <- straight | ["A", "J1", "B"] => ["A"]
relis report 1
tries 100
train T1 arrived 0 0
end

run NET <- straight
relis report 1
tries 100
reserve T1 B J1
reserve T1 B E
lock T1 J1 A B
enter T1 J1 A B
leave T1 A
unlock T1 J1
release T1 A J1
release T1 A W
train T1 arrived 1 0
end

run NET --round 1 --workers 3 <- straight
relis report 1
tries 100
reserve T1 B J1
reserve T1 B E
lock T1 J1 A B
enter T1 J1 A B
leave T1 A
unlock T1 J1
release T1 A J1
release T1 A W
train T1 arrived 1 0
end

run NET <- three
relis report 1
tries 100
reserve T1 B J1
reserve T1 B J2
reserve T1 C J2
reserve T1 C E
lock T1 J1 A B
enter T1 J1 A B
leave T1 A
unlock T1 J1
release T1 A J1
release T1 A W
lock T1 J2 B C
enter T1 J2 B C
leave T1 B
unlock T1 J2
release T1 B J2
release T1 B J1
train T1 arrived 2 0
end

run NET --round 1 --workers 2 --tries 1 <- three
relis report 1
tries 1
reserve T1 B J1
reserve T1 B J2
reserve T1 C J2
reserve T1 C E
lock T1 J1 A B
enter T1 J1 A B
leave T1 A
unlock T1 J1
release T1 A J1
release T1 A W
release T1 C E
release T1 C J2
train T1 spent 1 0
end

run NET --tries 0 <- straight
usage: relis COMMAND WORDS"#;

/// Asserts a row of the runs, and that the audit of what is printed finds it safe.
fn assert_run<R: Abort + Threads + Wait + Sync>(
    rt: &R,
    alloc: Global,
    row: &str,
) -> Result<(), Fail> {
    let (head, text) = row.split_once('\n').ok_or("no answer")?;
    let (line, short) = head.split_once(" <- ").ok_or("no network")?;
    let net = file_text(alloc, short)?;
    let text = format!(in alloc; "{text}\n")?;
    let files = [("NET", net.as_bytes())];
    let (status, written) = answer_of_all(rt, alloc, files.as_slice(), line, &OpenGate)?;
    assert_eq!(rt; written.as_slice(), text.as_bytes(), "at {head}");
    assert_eq!(rt; status.number(), number_for(text.as_str()), "at {head}");
    if status == Status::Done {
        let files = [("NET", net.as_bytes()), ("REPORT", written.as_slice())];
        let (status, _) = answer_with(alloc, files.as_slice(), "audit NET REPORT")?;
        assert_eq!(rt; status, Status::Done, "at {head}");
    }
    Ok(())
}

#[test]
fn runs(rt: HostRuntime) -> Result<(), Fail> {
    for row in RUNS.split("\n\n") {
        assert_run(&rt, rt.alloc(), row)?;
    }
    Ok(())
}

/// The lines of a text that begin so.
fn count_lines(text: &str, start: &str) -> usize {
    text.lines().filter(|line| line.starts_with(start)).count()
}

/// A run of the terminus, in whatever order: no train is underway, and the audit finds as many moves as it has lines.
#[test]
fn audits_a_run(rt: HostRuntime) -> Result<(), Fail> {
    let alloc = rt.alloc();
    let files = [("NET", TERMINUS.as_bytes())];
    let (status, report) = answer_of_all(&rt, alloc, files.as_slice(), "run NET", &OpenGate)?;
    assert_eq!(rt; status, Status::Done);
    let text = std::str::from_utf8(report.as_slice())?;
    assert_eq!(rt; count_lines(text, "train "), 4);
    assert!(rt; !text.contains(" underway "));
    let lines = count_lines(text, "");
    assert!(rt; 7 <= lines);
    let moves = lines - 7;
    let files = [("NET", TERMINUS.as_bytes()), ("REPORT", report.as_slice())];
    let (status, written) = answer_with(alloc, files.as_slice(), "audit NET REPORT")?;
    let safe = format!(in alloc; "safe moves {moves}\n")?;
    assert_eq!(rt; status, Status::Done);
    assert_eq!(rt; written.as_slice(), safe.as_bytes());
    Ok(())
}

/// The report of a run of the terminus by two workers, with so many turns a round. With few tries it is short: two of the
/// trams are in each other's way.
fn terminus_run<R: Threads + Wait + Sync>(
    rt: &R,
    alloc: Global,
    round: u32,
) -> Result<Vec<u8>, Fail> {
    let files = [("NET", TERMINUS.as_bytes())];
    let line = format!(in alloc; "run NET --workers 2 --tries 5 --round {round}")?;
    let (status, report) = answer_of_all(rt, alloc, files.as_slice(), line.as_str(), &OpenGate)?;
    if status != Status::Done {
        return Err(Fail::from("the run is not done"));
    }
    Ok(report)
}

/// Whether the audit calls the report of the terminus safe.
fn is_safe(alloc: Global, report: &[u8]) -> Result<bool, Fail> {
    let files = [("NET", TERMINUS.as_bytes()), ("REPORT", report)];
    let (status, _) = answer_with(alloc, files.as_slice(), "audit NET REPORT")?;
    Ok(status == Status::Done)
}

fn has_four_trains(report: &[u8]) -> Result<bool, Fail> {
    let text = std::str::from_utf8(report)?;
    Ok(count_lines(text, "train ") == 4)
}

/// How many runs of the terminus, with 1, 2 and so on up to so many turns a round, are safe and tell of four trains.
fn count_safe_runs<R: Threads + Wait + Sync>(
    rt: &R,
    alloc: Global,
    runs: u32,
) -> Result<u32, Fail> {
    let mut safe: u32 = 0;
    for run in 0..runs {
        let report = terminus_run(rt, alloc, run + 1)?;
        if is_safe(alloc, report.as_slice())? && has_four_trains(report.as_slice())? {
            safe = safe.saturating_add(1);
        }
    }
    Ok(safe)
}

/// Fifty runs, each cut into rounds of another length, so that two workers meet each other in other places.
#[test]
fn audits_many_runs(rt: HostRuntime) -> Result<(), Fail> {
    let safe = count_safe_runs(&rt, rt.alloc(), 50)?;
    assert_eq!(rt; safe, 50);
    Ok(())
}

/// The place of an event, which one worker alone writes.
#[derive(Drop)]
struct Slot {
    stamp: AtomicU32,
    word: AtomicU32,
    was: AtomicU64,
    now: AtomicU64,
}

/// Lets node 0 and node 8 wait for each other in their first passes, and keeps every event that it is told of.
#[derive(Drop)]
struct Meeting {
    first: AtomicBool,
    second: AtomicBool,
    failed: AtomicBool,
    counts: Vec<AtomicU64>,
    slots: Vec<Slot>,
}

impl Meeting {
    fn new(alloc: Global) -> Result<Meeting, Fail> {
        let mut counts = Vec::new(alloc);
        for _ in 0..NODES {
            counts.push(AtomicU64::new(0))?;
        }
        let mut slots = Vec::new(alloc);
        for _ in 0..NODES * ROOM {
            slots.push(Slot {
                stamp: AtomicU32::new(0),
                word: AtomicU32::new(0),
                was: AtomicU64::new(0),
                now: AtomicU64::new(0),
            })?;
        }
        Ok(Meeting {
            first: AtomicBool::new(false),
            second: AtomicBool::new(false),
            failed: AtomicBool::new(false),
            counts,
            slots,
        })
    }

    /// In its first pass a node sets its flag, and then looks for the other's.
    fn meet(&self, mine: &AtomicBool, other: &AtomicBool) {
        if mine.swap(true, Ordering::SeqCst) {
            return;
        }
        for _ in 0..LOOKS {
            if other.load(Ordering::SeqCst) {
                return;
            }
        }
        self.failed.store(true, Ordering::SeqCst);
    }

    fn fail(&self) {
        self.failed.store(true, Ordering::SeqCst);
    }

    /// The place of the event of that number of a node.
    fn slot(&self, node: u32, count: u64) -> Option<&Slot> {
        if (node as usize) < NODES && count < ROOM as u64 {
            self.slots.get(node as usize * ROOM + count as usize)
        } else {
            None
        }
    }

    /// The events of a node, behind the others.
    fn add_events(&self, node: u32, events: &mut Vec<Event>) -> Result<(), Fail> {
        let count = self
            .counts
            .get(node as usize)
            .ok_or("no such node")?
            .load(Ordering::SeqCst);
        for i in 0..count {
            let slot = self.slot(node, i).ok_or("no such event")?;
            events.push(Event {
                node: NodeNo(node),
                stamp: slot.stamp.load(Ordering::SeqCst),
                word: WordNo(slot.word.load(Ordering::SeqCst)),
                was: slot.was.load(Ordering::SeqCst),
                now: slot.now.load(Ordering::SeqCst),
            })?;
        }
        Ok(())
    }

    /// All events, by their stamps and nodes.
    fn events(&self, alloc: Global) -> Result<Events, Fail> {
        let mut events = Vec::new(alloc);
        for node in 0..NODES as u32 {
            self.add_events(node, &mut events)?;
        }
        events.sort_unstable_by_key(|e| (e.stamp, e.node));
        Ok(Events::from_vec(events))
    }
}

impl Gate for Meeting {
    fn pass(&self, node: NodeNo) {
        if node.0 == 0 {
            self.meet(&self.first, &self.second);
        }
        if node.0 == 8 {
            self.meet(&self.second, &self.first);
        }
    }

    fn moved(&self, node: NodeNo, stamp: u32, word: WordNo, was: u64, now: u64) {
        let Some(kept) = self.counts.get(node.0 as usize) else {
            self.fail();
            return;
        };
        let count = kept.load(Ordering::SeqCst);
        match self.slot(node.0, count) {
            Some(slot) => {
                slot.stamp.store(stamp, Ordering::SeqCst);
                slot.word.store(word.0, Ordering::SeqCst);
                slot.was.store(was, Ordering::SeqCst);
                slot.now.store(now, Ordering::SeqCst);
                kept.store(count.saturating_add(1), Ordering::SeqCst);
            }
            None => self.fail(),
        }
    }
}

/// The moves of these events.
fn moves_of(alloc: Global, line: &Line, events: &[Event]) -> Result<Vec<Move>, Fail> {
    let mut moves = Vec::new(alloc);
    for e in events {
        if e.word.0 >= line.layout().words() {
            return Err(Fail::from("no such word"));
        }
        if let Some(m) = move_of(line, e) {
            moves.push(m)?;
        }
    }
    Ok(moves)
}

/// There are two trains, and both are at rest in the core.
fn both_rest(line: &Line, core: &Core<'_>) -> bool {
    let trains = line.layout().trains;
    for t in 0..trains {
        let Some(Mind::Train(mind)) = core.minds().get(t as usize) else {
            return false;
        };
        if !mind.at_rest(line.train_table(TrainId(t))) {
            return false;
        }
    }
    trains == 2
}

/// The report of the two lines, run by two workers before the gate.
fn watched<R: Threads + Wait + Sync>(
    rt: &R,
    alloc: Global,
    gate: &Meeting,
) -> Result<Vec<u8>, Fail> {
    let files = [("NET", TWO_LINES.as_bytes())];
    let line = "run NET --workers 2";
    let (status, report) = answer_of_all(rt, alloc, files.as_slice(), line, gate)?;
    if status != Status::Done {
        return Err(Fail::from("the run is not done"));
    }
    Ok(report)
}

/// Whether both groups met, and no event was lost.
fn has_met(gate: &Meeting) -> bool {
    !gate.failed.load(Ordering::SeqCst)
        && gate.first.load(Ordering::SeqCst)
        && gate.second.load(Ordering::SeqCst)
}

fn says_both_arrived(report: &[u8]) -> Result<bool, Fail> {
    let text = std::str::from_utf8(report)?;
    Ok(text.ends_with("train T1 arrived 1 0\ntrain T2 arrived 1 0\nend\n"))
}

fn two_lines(alloc: Global) -> Result<Network, Fail> {
    match judge(alloc, TWO_LINES.as_bytes()) {
        Ok(net) => Ok(net),
        Err(_) => Err(Fail::from("it is no network")),
    }
}

/// Whether the events are a run to a core in which both trains are at rest.
fn lead_to_rest(alloc: Global, line: &Line, events: &Events) -> Result<bool, Fail> {
    if events.len() > NODES * ROOM {
        return Err(Fail::from("there are too many events"));
    }
    let core = replay(alloc, line, 100, events)?;
    Ok(both_rest(line, &core))
}

/// Whether the moves of the report are those of the events.
fn are_moves(
    alloc: Global,
    net: &Network,
    line: &Line,
    events: &Events,
    report: &[u8],
) -> Result<bool, Fail> {
    let printed = read_report(alloc, net, report)?;
    let moves = moves_of(alloc, line, events.as_slice())?;
    Ok(printed.moves.as_slice() == moves.as_slice())
}

/// Two workers run two lines: each is there while the other is.
#[test]
fn meets_between_two_workers(rt: HostRuntime) -> Result<(), Fail> {
    let gate = Meeting::new(rt.alloc())?;
    let report = watched(&rt, rt.alloc(), &gate)?;
    let met = has_met(&gate);
    assert!(rt; met);
    let arrived = says_both_arrived(report.as_slice())?;
    assert!(rt; arrived);
    Ok(())
}

/// The moves that are printed are those of the events that two workers were seen to make, and these are a run.
#[test]
fn prints_what_two_workers_did(rt: HostRuntime) -> Result<(), Fail> {
    let alloc = rt.alloc();
    let gate = Meeting::new(alloc)?;
    let report = watched(&rt, alloc, &gate)?;
    let met = has_met(&gate);
    assert!(rt; met);
    let events = gate.events(alloc)?;
    let net = two_lines(alloc)?;
    let line = compile(alloc, &net)?;
    let rest = lead_to_rest(alloc, &line, &events)?;
    assert!(rt; rest);
    let same = are_moves(alloc, &net, &line, &events, report.as_slice())?;
    assert!(rt; same);
    Ok(())
}
