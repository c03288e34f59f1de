//! The audit of reports: verdicts, each guard, and texts that are no reports.
mod beginnings;
mod limits;

use crate::short::{network_of, put_text};
use rl_audit::{ReportRefusal, Verdict, audit};
use rl_base::NoMemory;
use rl_net::Network;
use rl_report::read_report;
use std::alloc::Global;
use std::process::Abort;
use std::test::Fail;

/// A straight line with one train.
const LINE: &str = "A B/buffer W A/joint J1 A B/buffer E B/train T1 A J1 B";

/// The same with a second train, which stands at the end of the line.
const LINE_OF_TWO: &str = "A B/buffer W A/joint J1 A B/buffer E B/train T1 A J1 B/train T2 B";

/// A fork with a point, over which two trains want to pass.
const FORK_OF_TWO: &str =
    "S L R/buffer W S/point@left P S L R/buffer EL L/buffer ER R/train T1 S P R/train T2 L P S";

/// Reports of the line, each with its verdict: the number of its moves where it is safe, and else the line and the
/// guard. A stroke is the end of a line.
const VERDICTS: &str = "\
8 = reserve T1 B J1|reserve T1 B E|lock T1 J1 A B|enter T1 J1 A B|leave T1 A|unlock T1 J1|release T1 A J1|\
release T1 A W|train T1 arrived 1 0|
11 25 = reserve T1 B J1|reserve T1 B E|lock T1 J1 A B|enter T1 J1 A B|leave T1 A|unlock T1 J1|release T1 A J1|\
release T1 A W|train T1 arrived 1 1|
11 26 = reserve T1 B J1|reserve T1 B E|lock T1 J1 A B|enter T1 J1 A B|leave T1 A|unlock T1 J1|release T1 A J1|\
release T1 A W|train T1 spent 1 0|
5 18 = reserve T1 B J1|lock T1 J1 A B|enter T1 J1 A B|leave T1 A|train T1 arrived 1 0|
5 19 = reserve T1 B J1|reserve T1 B E|enter T1 J1 A B|lock T1 J1 A B|leave T1 A|train T1 arrived 1 0|
3 25 = train T1 underway 0 1000000|
";

/// The same of the line with two trains.
const VERDICTS_OF_TWO: &str = "\
2 = refuse T1 B J1 T2|refuse T1 B J1 T2|train T1 underway 0 2|train T2 arrived 0 0|
3 23 = refuse T1 B J1 T1|refuse T1 B J1 T2|train T1 underway 0 2|train T2 arrived 0 0|
";

/// The same of the fork: a report with each of the ten moves.
const VERDICTS_OF_FORK: &str = "\
12 = reserve T1 R P|reserve T1 R ER|lock T1 P S R|throw P|settle P right|bar T2 P T1|refuse T2 S P T1|\
enter T1 P S R|leave T1 S|unlock T1 P|release T1 S P|release T1 S W|train T1 arrived 1 0|train T2 underway 0 2|
";

/// For each guard, moves on the fork at whose last it is the first that fails.
const GUARDS: &str = "\
3 1 = reserve T1 R W|
3 2 = reserve T1 L P|
3 3 = release T1 S ER|
3 4 = release T1 R P|
3 5 = release T1 S P|
3 6 = lock T1 P S S|
5 7 = reserve T1 R P|lock T1 P S R|lock T2 P L S|
3 8 = lock T1 P S R|
4 9 = reserve T2 R P|lock T2 P L R|
3 10 = unlock T1 P|
9 11 = reserve T1 R P|reserve T1 R ER|lock T1 P S R|throw P|settle P right|enter T1 P S R|unlock T1 P|
3 12 = throw P|
7 13 = reserve T1 R P|lock T1 P S R|throw P|settle P right|throw P|
3 14 = settle P left|
6 15 = reserve T1 R P|lock T1 P S R|throw P|settle P left|
3 16 = enter T1 P S L|
9 17 = reserve T1 R P|reserve T1 R ER|lock T1 P S R|throw P|settle P right|enter T1 P S R|enter T1 P S R|
3 18 = enter T1 P S R|
5 19 = reserve T1 R P|reserve T1 R ER|enter T1 P S R|
6 20 = reserve T1 R P|reserve T1 R ER|lock T1 P S R|enter T1 P S R|
3 21 = leave T1 S|
3 22 = refuse T1 L W T2|
3 23 = refuse T1 R P T2|
3 24 = bar T2 P T1|
";

/// Texts that are no reports of the line, each with the number of its first fault.
const FAULTS: &str = "\
1 = 
1 = |
1 = relis report 1
1 =  relis report 1|tries 100|train T1 underway 0 0|end|
1 = relis  report 1|tries 100|train T1 underway 0 0|end|
1 = relis report 2|tries 100|train T1 underway 0 0|end|
1 = relis report 1\r|tries 100|train T1 underway 0 0|end|
2 = relis report 1|
2 = relis report 1|tries 0|train T1 underway 0 0|end|
2 = relis report 1|tries 1001|train T1 underway 0 0|end|
2 = relis report 1|tries 0100|train T1 underway 0 0|end|
2 = relis report 1|tries 100 |train T1 underway 0 0|end|
2 = relis report 1|tries|train T1 underway 0 0|end|
3 = relis report 1|tries 100|leave T1  A|train T1 underway 0 0|end|
3 = relis report 1|tries 100|leave T1 A |train T1 underway 0 0|end|
3 = relis report 1|tries 100|leave T1 A\r|train T1 underway 0 0|end|
3 = relis report 1|tries 100|leave T1 A\0|train T1 underway 0 0|end|
3 = relis report 1|tries 100|leave T1 J1|train T1 underway 0 0|end|
3 = relis report 1|tries 100|leave T9 A|train T1 underway 0 0|end|
3 = relis report 1|tries 100|leave A A|train T1 underway 0 0|end|
3 = relis report 1|tries 100|Leave T1 A|train T1 underway 0 0|end|
3 = relis report 1|tries 100|leave T1|train T1 underway 0 0|end|
3 = relis report 1|tries 100|leave T1 A B|train T1 underway 0 0|end|
3 = relis report 1|tries 100|settle J1 up|train T1 underway 0 0|end|
3 = relis report 1|tries 100|turn T1|train T1 underway 0 0|end|
3 = relis report 1|tries 100||train T1 underway 0 0|end|
3 = relis report 1|tries 100|end|
3 = relis report 1|tries 100|train T1 underway 00 0|end|
3 = relis report 1|tries 100|train T1 underway 0 1000001|end|
3 = relis report 1|tries 100|train T1 underway 0 -1|end|
3 = relis report 1|tries 100|train T1 gone 0 0|end|
3 = relis report 1|tries 100|train J1 underway 0 0|end|
3 = relis report 1|tries 100|train T1 underway 0|end|
4 = relis report 1|tries 100|train T1 underway 0 0|train T1 underway 0 0|end|
4 = relis report 1|tries 100|train T1 underway 0 0|leave T1 A|end|
4 = relis report 1|tries 100|train T1 underway 0 0|end |
4 = relis report 1|tries 100|train T1 underway 0 0|End|
4 = relis report 1|tries 100|train T1 underway 0 0|end
5 = relis report 1|tries 100|train T1 underway 0 0|end|end|
5 = relis report 1|tries 100|train T1 underway 0 0|end||
5 = relis report 1|tries 100|train T1 underway 0 0|end|x
5 = relis report 1|tries 100|train T1 underway 0 0|end|\0
";

/// The same of the line with two trains: their lines out of order, one missing, and one too many.
const FAULTS_OF_TWO: &str = "\
3 = relis report 1|tries 100|train T2 underway 0 0|train T1 underway 0 0|end|
3 = relis report 1|tries 100|train T2 underway 0 0|end|
4 = relis report 1|tries 100|train T1 underway 0 0|end|
4 = relis report 1|tries 100|train T1 underway 0 0|train T1 underway 0 0|end|
5 = relis report 1|tries 100|train T1 underway 0 0|train T2 underway 0 0|train T2 underway 0 0|end|
";

/// A report of 100 attempts with these lines of moves and outcomes.
fn report_of(alloc: Global, lines: &str, outcomes: &str) -> Result<Vec<u8>, NoMemory> {
    let mut text = Vec::new(alloc);
    put_text(&mut text, "relis report 1|tries 100|")?;
    put_text(&mut text, lines)?;
    put_text(&mut text, outcomes)?;
    put_text(&mut text, "end|")?;
    Ok(text)
}

/// What the audit of the text answers, in the words of the tables.
fn answer_of(alloc: Global, net: &Network, text: &[u8]) -> Result<String, NoMemory> {
    shown(alloc, audit(alloc, net, text))
}

fn shown(alloc: Global, answer: Result<Verdict, ReportRefusal>) -> Result<String, NoMemory> {
    Ok(match answer {
        Ok(Verdict::Safe(moves)) => format!(in alloc; "{moves}")?,
        Ok(Verdict::Bad { line, guard }) => format!(in alloc; "{line} {guard}")?,
        Err(ReportRefusal::Line(line)) => format!(in alloc; "{line}")?,
        Err(_) => format!(in alloc; "none")?,
    })
}

fn is_read(alloc: Global, net: &Network, text: &[u8]) -> bool {
    read_report(alloc, net, text).is_ok()
}

/// Asserts what the audit answers to the text, and whether the text is read as a report.
fn assert_answer(
    rt: &impl Abort,
    alloc: Global,
    net: &Network,
    text: &[u8],
    want: &str,
    read: bool,
) -> Result<(), Fail> {
    let answer = answer_of(alloc, net, text)?;
    assert_eq!(rt; answer.as_str(), want);
    assert_eq!(rt; is_read(alloc, net, text), read, "{want}");
    Ok(())
}

/// Asserts the verdict of a line of a table.
fn assert_verdict(
    rt: &impl Abort,
    alloc: Global,
    net: &Network,
    case: &str,
    outcomes: &str,
) -> Result<(), Fail> {
    let (want, lines) = case.split_once(" = ").ok_or("no report")?;
    let text = report_of(alloc, lines, outcomes)?;
    assert_answer(rt, alloc, net, text.as_slice(), want, true)
}

fn assert_verdicts(
    rt: &impl Abort,
    alloc: Global,
    net: &Network,
    table: &str,
    outcomes: &str,
) -> Result<(), Fail> {
    for case in table.lines() {
        assert_verdict(rt, alloc, net, case, outcomes)?;
    }
    Ok(())
}

/// Asserts each verdict of a table of reports of the network in short.
fn judge(
    rt: &impl Abort,
    alloc: Global,
    short: &str,
    table: &str,
    outcomes: &str,
) -> Result<(), Fail> {
    let net = network_of(rt, alloc, short)?;
    assert_verdicts(rt, alloc, &net, table, outcomes)
}

#[test]
fn judges_reports(rt: HostRuntime) -> Result<(), Fail> {
    let alloc = rt.alloc();
    judge(&rt, alloc, LINE, VERDICTS, "")?;
    judge(&rt, alloc, LINE_OF_TWO, VERDICTS_OF_TWO, "")?;
    judge(&rt, alloc, FORK_OF_TWO, VERDICTS_OF_FORK, "")
}

#[test]
fn names_each_guard(rt: HostRuntime) -> Result<(), Fail> {
    let outcomes = "train T1 underway 0 0|train T2 underway 0 0|";
    judge(&rt, rt.alloc(), FORK_OF_TWO, GUARDS, outcomes)
}

/// Asserts the first fault of the text of a line of a table.
fn assert_fault(rt: &impl Abort, alloc: Global, net: &Network, case: &str) -> Result<(), Fail> {
    let (want, short) = case.split_once(" = ").ok_or("no text")?;
    let mut text = Vec::new(alloc);
    put_text(&mut text, short)?;
    assert_answer(rt, alloc, net, text.as_slice(), want, false)
}

fn assert_faults(rt: &impl Abort, alloc: Global, net: &Network, table: &str) -> Result<(), Fail> {
    for case in table.lines() {
        assert_fault(rt, alloc, net, case)?;
    }
    Ok(())
}

/// Asserts each first fault of a table of texts for the network in short.
fn refuse(rt: &impl Abort, alloc: Global, short: &str, table: &str) -> Result<(), Fail> {
    let net = network_of(rt, alloc, short)?;
    assert_faults(rt, alloc, &net, table)
}

#[test]
fn names_the_first_fault(rt: HostRuntime) -> Result<(), Fail> {
    let alloc = rt.alloc();
    refuse(&rt, alloc, LINE, FAULTS)?;
    refuse(&rt, alloc, LINE_OF_TWO, FAULTS_OF_TWO)
}
