//! Words that are no command, and what fails.
use super::*;

/// Lines of words that are no command which `relis_plain` makes.
const OTHER_WORDS: &str = "
go NET
drive NET
drive NET 5 -s SCHEDULE
drive NET 5 --tries 0
drive NET 01
drive NET +1
drive NET 1000001
drive '' 5
drive -NET 5
drive NET 5 6
check
check -NET
check NET 5
tables -NET
tables NET 5
run NET
run NET --tries 0
audit NET
make 0
make 33
";

#[test]
fn refuses_words(rt: HostRuntime) -> Result<(), Fail> {
    let text = "usage: relis COMMAND WORDS\n";
    for line in OTHER_WORDS.lines() {
        assert_answer(&rt, rt.alloc(), line, STRAIGHT.as_bytes(), b"", text)?;
    }
    Ok(())
}

/// Asserts that the second file, `OTHER`, can't be read: the fetches of these numbers fail, and there is a file of this
/// name beside the network.
fn assert_second_fault(
    rt: &impl Abort,
    alloc: Global,
    line: &str,
    fails: &[u32],
    other: &str,
) -> Result<(), Fail> {
    let args = args_of(alloc, line)?;
    let mut files = MemFiles::new(alloc, fails)?;
    files.add("NET", STRAIGHT.as_bytes())?;
    files.add(other, ONE_STEP.as_bytes())?;
    let mut out = wide_sink(alloc)?;
    let status = relis_plain(alloc, &args, &mut files, &mut out);
    assert_eq!(rt; status.number(), 2);
    assert_eq!(rt; out.bytes(), b"read fault\n".as_slice());
    assert!(rt; files.failed("NET") == 0 && files.failed("OTHER") == 1);
    Ok(())
}

/// The second file can't be read, or isn't there.
#[test]
fn says_that_the_second_file_failed(rt: HostRuntime) -> Result<(), Fail> {
    let alloc = rt.alloc();
    for line in ["audit NET OTHER", "drive NET -s OTHER"] {
        assert_second_fault(&rt, alloc, line, &[1], "OTHER")?;
        assert_second_fault(&rt, alloc, line, &[], "ANOTHER")?;
    }
    Ok(())
}

/// Asserts that the network can't be read.
fn assert_fault(rt: &impl Abort, alloc: Global, line: &str) -> Result<(), Fail> {
    let args = args_of(alloc, line)?;
    let mut files = MemFiles::new(alloc, &[0])?;
    files.add("NET", STRAIGHT.as_bytes())?;
    let mut out = wide_sink(alloc)?;
    let status = relis_plain(alloc, &args, &mut files, &mut out);
    assert_eq!(rt; status.number(), 2);
    assert_eq!(rt; out.bytes(), b"read fault\n".as_slice());
    assert_eq!(rt; files.failed("NET"), 1);
    Ok(())
}

#[test]
fn says_that_the_network_failed(rt: HostRuntime) -> Result<(), Fail> {
    assert_fault(&rt, rt.alloc(), "drive NET 200")?;
    assert_fault(&rt, rt.alloc(), "check NET")
}

/// A put that fails in the middle.
#[test]
fn says_that_the_sink_failed(rt: HostRuntime) -> Result<(), Fail> {
    let alloc = rt.alloc();
    let args = args_of(alloc, "drive NET 200")?;
    let mut files = MemFiles::new(alloc, &[])?;
    files.add("NET", STRAIGHT.as_bytes())?;
    let mut out = MemSink::new(alloc, 100_000, 16, &[1])?;
    let status = relis(&rt, alloc, &args, &mut files, &mut out, &OpenGate);
    assert_eq!(rt; status, Status::WriteFault);
    assert_eq!(rt; out.bytes(), b"relis report 1\nt".as_slice());
    Ok(())
}
