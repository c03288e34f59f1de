//! Command lines, and the orders that they give.
use rl_base::{Args, NoMemory, Text};
use rl_cli::{CliFault, Order, parse};
use std::alloc::{AllocError, Global};
use std::process::Abort;
use std::test::Fail;

/// The words of a line, parted by single spaces. `''` is the empty word.
fn words_of(alloc: Global, line: &str) -> Result<Args, NoMemory> {
    let mut words = Args::new(alloc);
    for word in line.split(' ') {
        if word == "''" {
            words.push(Text::of(alloc, "")?)?;
        } else if !word.is_empty() {
            words.push(Text::of(alloc, word)?)?;
        }
    }
    Ok(words)
}

/// An order in words, each field in its turn.
fn shown(alloc: Global, answer: Result<Order, CliFault>) -> Result<String, AllocError> {
    let order = match answer {
        Ok(order) => order,
        Err(CliFault::Usage) => return String::from_str(alloc, "usage"),
        Err(CliFault::NoMemory) => return String::from_str(alloc, "no memory"),
    };
    match order {
        Order::Check { net } => format!(in alloc; "check {}", net.as_str()),
        Order::Tables { net } => format!(in alloc; "tables {}", net.as_str()),
        Order::Rounds { net, rounds, tries } => {
            format!(in alloc; "rounds {} {rounds} {tries}", net.as_str())
        }
        Order::Drive {
            net,
            schedule,
            tries,
        } => format!(in alloc; "drive {} {} {tries}", net.as_str(), schedule.as_str()),
        Order::Run {
            net,
            tries,
            workers,
            round,
        } => format!(in alloc; "run {} {tries} {workers:?} {round}", net.as_str()),
        Order::Audit { net, report } => {
            format!(in alloc; "audit {} {}", net.as_str(), report.as_str())
        }
        Order::Make { n } => format!(in alloc; "make {n}"),
    }
}

/// Words, and the order that they give.
const WRITTEN: &str = "\
check N1 = check N1
check check = check check
check Bahnhof-Süd = check Bahnhof-Süd
tables N1 = tables N1
drive N1 0 = rounds N1 0 100
drive N1 1000000 = rounds N1 1000000 100
drive 7 5 --tries 1 = rounds 7 5 1
drive N1 5 --tries 1000 = rounds N1 5 1000
drive N1 -s H8 = drive N1 H8 100
drive N1 -s 8 = drive N1 8 100
drive N1 -s H8 --tries 7 = drive N1 H8 7
drive N1 --tries 7 -s H8 = drive N1 H8 7
run N1 = run N1 100 None 1024
run N1 --tries 7 = run N1 7 None 1024
run N1 --workers 1 = run N1 100 Some(1) 1024
run N1 --workers 320 = run N1 100 Some(320) 1024
run N1 --round 1 = run N1 100 None 1
run N1 --round 4096 = run N1 100 None 4096
run N1 --round 64 --tries 7 = run N1 7 None 64
run N1 --tries 7 --workers 4 --round 64 = run N1 7 Some(4) 64
run N1 --tries 7 --round 64 --workers 4 = run N1 7 Some(4) 64
run N1 --workers 4 --tries 7 --round 64 = run N1 7 Some(4) 64
run N1 --workers 4 --round 64 --tries 7 = run N1 7 Some(4) 64
run N1 --round 64 --tries 7 --workers 4 = run N1 7 Some(4) 64
run N1 --round 64 --workers 4 --tries 7 = run N1 7 Some(4) 64
run N1 --tries 4 --workers 4 --round 4 = run N1 4 Some(4) 4
audit N1 R = audit N1 R
make 1 = make 1
make 32 = make 32
";

/// Other names, and help or a version.
const OTHER_NAMES: &str = "
''
go N1
Check N1
check\tN1
-h
--help
help
help check
-V
--version
version
check -h
check --help
check N1 --help
run N1 --version
";

/// Files that are missing, empty, too many, or look like an option.
const POSITIONALS: &str = "\
check
check ''
check -
check -N1
check N1 N1
check N1 ''
check -- N1
check N1 --
check N1 --tries 5
tables
tables N1 -s H8
audit N1
audit N1 R X
audit N1 ''
audit -N1 R
audit N1 R --tries 5
";

/// Neither a number nor a schedule, both, or not where it belongs.
const ROUNDS: &str = "\
drive N1
drive N1 --tries 7
drive N1 5 -s H8
drive N1 -s H8 5
drive N1 5 6
drive -s H8 N1
drive -s H8
";

/// Options of another spelling, without a word, twice, or of another command.
const OPTIONS: &str = "\
drive N1 -s
drive N1 -s ''
drive N1 -s -H8
drive N1 -sH8
drive N1 -s=H8
drive N1 -s H8 -s H8
drive N1 --schedule H8
drive N1 5 --tries
drive N1 5 --tries=7
drive N1 5 --try 7
drive N1 5 --tries 7 --tries 7
drive N1 5 -- --tries 7
drive N1 --tries 7 5
drive --tries 7 N1 5
drive N1 -s H8 --workers 3
run --workers 4 N1
run N1 4
run N1 -s H8
run N1 --workers 4 --tries 7 --workers 4
run N1 --workers 4 --round
";

/// Numbers of another spelling, or beyond their limits.
const NUMBERS: &str = "\
drive N1 ''
drive N1 five
drive N1 -5
drive N1 +5
drive N1 05
drive N1 1000001
drive N1 4294967301
drive N1 18446744073709551616
drive N1 5 --tries 0
drive N1 5 --tries 1001
drive N1 5 --tries -1
run N1 --tries 0
run N1 --workers 0
run N1 --workers 321
run N1 --round 4097
make 0
make 33
";

/// What the words of the line give, in the words of the tables.
fn answer_of(alloc: Global, line: &str) -> Result<String, Fail> {
    let words = words_of(alloc, line)?;
    Ok(shown(alloc, parse(alloc, &words))?)
}

fn assert_order(rt: &impl Abort, alloc: Global, line: &str, want: &str) -> Result<(), Fail> {
    let answer = answer_of(alloc, line)?;
    assert_eq!(rt; answer.as_str(), want, "at {line:?}");
    Ok(())
}

/// Asserts that no line of the table gives an order.
fn assert_usage(rt: &impl Abort, alloc: Global, table: &str) -> Result<(), Fail> {
    for line in table.lines() {
        assert_order(rt, alloc, line, "usage")?;
    }
    Ok(())
}

#[test]
fn reads_command_lines(rt: HostRuntime) -> Result<(), Fail> {
    for case in WRITTEN.lines() {
        let (line, want) = case.split_once(" = ").ok_or("no order")?;
        assert_order(&rt, rt.alloc(), line, want)?;
    }
    Ok(())
}

#[test]
fn refuses_other_words(rt: HostRuntime) -> Result<(), Fail> {
    let alloc = rt.alloc();
    assert_usage(&rt, alloc, OTHER_NAMES)?;
    assert_usage(&rt, alloc, POSITIONALS)?;
    assert_usage(&rt, alloc, ROUNDS)?;
    assert_usage(&rt, alloc, OPTIONS)?;
    assert_usage(&rt, alloc, NUMBERS)
}
