//! A report with as many moves as it may have, and one with more.
use super::*;

/// The text, so often as it is asked for.
fn repeated(alloc: Global, part: &[u8], times: u32) -> Result<Vec<u8>, NoMemory> {
    let mut text = Vec::new(alloc);
    for _ in 0..times {
        text.extend_from_slice(part)?;
    }
    Ok(text)
}

/// A million moves, by which the train of the line reserves B and releases it in turn.
fn million(alloc: Global) -> Result<Vec<u8>, NoMemory> {
    let thousand = repeated(alloc, "reserve T1 B J1\nrelease T1 B J1\n".as_bytes(), 500)?;
    repeated(alloc, thousand.as_slice(), 1000)
}

/// These moves between the lines before and after them.
fn around(alloc: Global, before: &str, moves: &[u8], after: &str) -> Result<Vec<u8>, NoMemory> {
    let mut text = Vec::new(alloc);
    put_text(&mut text, before)?;
    text.extend_from_slice(moves)?;
    put_text(&mut text, after)?;
    Ok(text)
}

fn is_safe(alloc: Global, net: &Network, text: &[u8]) -> bool {
    matches!(audit(alloc, net, text), Ok(Verdict::Safe(1_000_000)))
}

fn is_long(alloc: Global, net: &Network, text: &[u8]) -> bool {
    matches!(audit(alloc, net, text), Err(ReportRefusal::Long))
}

fn assert_safe(rt: &impl Abort, alloc: Global, net: &Network, moves: &[u8]) -> Result<(), Fail> {
    let before = "relis report 1|tries 100|";
    let text = around(alloc, before, moves, "train T1 underway 0 0|end|")?;
    assert!(rt; is_safe(alloc, net, text.as_slice()));
    Ok(())
}

/// One move more is refused, and that is looked for before the fault in the first line.
fn assert_long(rt: &impl Abort, alloc: Global, net: &Network, moves: &[u8]) -> Result<(), Fail> {
    let before = "relis report 2|tries 100|";
    let text = around(alloc, before, moves, "leave T1 A|")?;
    assert!(rt; is_long(alloc, net, text.as_slice()));
    Ok(())
}

#[test]
fn counts_a_million_moves(rt: HostRuntime) -> Result<(), Fail> {
    let net = network_of(&rt, rt.alloc(), LINE)?;
    let moves = million(rt.alloc())?;
    assert_safe(&rt, rt.alloc(), &net, moves.as_slice())?;
    assert_long(&rt, rt.alloc(), &net, moves.as_slice())
}
