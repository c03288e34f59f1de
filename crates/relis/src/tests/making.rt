//! Networks made by order, and their summaries.
use super::*;
use rl_text::read_number;
use std::str;

const ONE_STATION: &str = "\
make 1 segments 4 boxes 3 trains 1
rounds 3900 moves 480 refused 0 arrived 1 spent 0 underway 0
";

#[test]
fn makes_one_station(rt: HostRuntime) -> Result<(), Fail> {
    assert_answer(&rt, rt.alloc(), "make 1", b"", b"", ONE_STATION)
}

/// Of the largest ring the fates add up to its trains.
#[test]
fn makes_all_stations(rt: HostRuntime) -> Result<(), Fail> {
    let (status, written) = answer_with(rt.alloc(), &[], "make 32")?;
    assert_eq!(rt; status, Status::Done);
    let text = str::from_utf8(written.as_slice())?;
    let (first, second) = text.split_once('\n').ok_or("one line")?;
    assert_eq!(rt; first, "make 32 segments 128 boxes 96 trains 32");
    assert!(rt; second.starts_with("rounds 3900 moves "));
    let (_, fates) = second.split_once(" arrived ").ok_or("no trains arrived")?;
    let (arrived, fates) = fates.split_once(" spent ").ok_or("no trains spent")?;
    let (spent, underway) = fates.split_once(" underway ").ok_or("no trains underway")?;
    let mut trains: u64 = 0;
    for count in [arrived, spent, underway.strip_suffix("\n").ok_or("no end")?] {
        let count = read_number(count.as_bytes()).ok_or("no number")?;
        trains = trains.saturating_add(count);
    }
    assert_eq!(rt; trains, 32);
    Ok(())
}
