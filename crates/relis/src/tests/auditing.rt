//! The audit of reports.
use super::*;

/// What is said of the report of the one step with one thing changed, of it as it is, of none at all, and of a refusal
/// that names the train itself as the one in its way.
const AUDITS: &str = "\
audit NET OTHER <- straight <- one step | lock T1 J1 A B~enter T1 J1 A B~ => enter T1 J1 A B~lock T1 J1 A B~
not safe 5 19

audit NET OTHER <- straight <- one step | reserve T1 B J1~reserve T1 B E~ => reserve T1 B J1~
not safe 5 18

audit NET OTHER <- straight <- one step | arrived 1 0 => arrived 1 1
not safe 11 25

audit NET OTHER <- straight <- one step | arrived 1 0 => spent 1 0
not safe 11 26

audit NET OTHER <- straight <- one step | arrived 1 0~end~ => arrived 1 0~
refused 19 report:12

audit NET OTHER <- straight <- one step | end~ => end
refused 19 report:12

audit NET OTHER <- straight <- one step | end~ => end ~
refused 19 report:12

audit NET OTHER <- straight <- one step | reserve T1 B J1 => reserve T9 B J1
refused 19 report:3

audit NET OTHER <- straight <- one step
safe moves 8

audit NET OTHER <- straight
refused 19 report:1

audit NET OTHER <- occupied <- twice refused | refuse T1 B J1 T2~refuse => refuse T1 B J1 T1~refuse
not safe 3 23
";

#[test]
fn audits_reports(rt: HostRuntime) -> Result<(), Fail> {
    assert_rows(&rt, rt.alloc(), AUDITS)
}

/// Asserts that what is printed of a drive is safe, with as many moves as it has lines of moves. The others are its
/// first two, its last, and one of each train.
fn assert_safe_drive(rt: &impl Abort, alloc: Global, net: &str, others: usize) -> Result<(), Fail> {
    let files = [("NET", net.as_bytes())];
    let (_, report) = answer_with(alloc, files.as_slice(), "drive NET 600 --tries 3")?;
    let lines = report.iter().filter(|b| **b == b'\n').count();
    let moves = lines.checked_sub(others).ok_or("too few lines")?;
    let text = format!(in alloc; "safe moves {moves}\n")?;
    let (line, net) = ("audit NET OTHER", net.as_bytes());
    assert_answer(rt, alloc, line, net, report.as_slice(), text.as_str())
}

#[test]
fn audits_drives(rt: HostRuntime) -> Result<(), Fail> {
    let alloc = rt.alloc();
    assert_safe_drive(&rt, alloc, STRAIGHT, 4)?;
    assert_safe_drive(&rt, alloc, CROSSING, 5)?;
    assert_safe_drive(&rt, alloc, HEAD_ON, 5)?;
    assert_safe_drive(&rt, alloc, TERMINUS, 7)
}
