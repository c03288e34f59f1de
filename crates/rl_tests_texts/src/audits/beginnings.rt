//! Reports that break off.
use super::*;

/// The line at which the text breaks off: it has one more than it has LFs.
fn open_line(text: &[u8]) -> usize {
    text.split(|b| *b == b'\n').count()
}

fn is_audited_to(alloc: Global, net: &Network, text: &[u8], line: usize) -> bool {
    match audit(alloc, net, text) {
        Err(ReportRefusal::Line(n)) => n as usize == line,
        _ => false,
    }
}

fn is_read_to(alloc: Global, net: &Network, text: &[u8], line: usize) -> bool {
    match read_report(alloc, net, text) {
        Err(ReportRefusal::Line(n)) => n as usize == line,
        _ => false,
    }
}

/// Asserts that each beginning of the text, the empty one too, is refused by both readers at the line at which it breaks
/// off.
fn assert_beginnings(rt: &impl Abort, alloc: Global, net: &Network, text: &[u8]) {
    for end in 0..text.len() {
        let beginning = &text[..end];
        let line = open_line(beginning);
        assert!(rt;
            is_audited_to(alloc, net, beginning, line),
            "after {end} bytes"
        );
        assert!(rt;
            is_read_to(alloc, net, beginning, line),
            "after {end} bytes"
        );
    }
}

fn assert_report(rt: &impl Abort, alloc: Global, net: &Network, case: &str) -> Result<(), Fail> {
    let (_, lines) = case.split_once(" = ").ok_or("no report")?;
    let text = report_of(alloc, lines, "")?;
    assert_beginnings(rt, alloc, net, text.as_slice());
    Ok(())
}

fn assert_reports(rt: &impl Abort, alloc: Global, net: &Network, table: &str) -> Result<(), Fail> {
    for case in table.lines() {
        assert_report(rt, alloc, net, case)?;
    }
    Ok(())
}

/// The reports of the tables of verdicts: they have each of the ten moves, and in some of them a guard fails.
fn assert_table(rt: &impl Abort, alloc: Global, short: &str, table: &str) -> Result<(), Fail> {
    let net = network_of(rt, alloc, short)?;
    assert_reports(rt, alloc, &net, table)
}

#[test]
fn names_the_line_that_breaks_off(rt: HostRuntime) -> Result<(), Fail> {
    let alloc = rt.alloc();
    assert_table(&rt, alloc, LINE, VERDICTS)?;
    assert_table(&rt, alloc, LINE_OF_TWO, VERDICTS_OF_TWO)?;
    assert_table(&rt, alloc, FORK_OF_TWO, VERDICTS_OF_FORK)
}
