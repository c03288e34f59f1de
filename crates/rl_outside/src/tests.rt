//! What the outside does where no command comes: a file put again, a sink that runs full, files of a folder, a file
//! with no end.
use super::*;
use crate::dir_files::read_whole;
use std::io::{Cursor, Read};
use std::process::Abort;
use std::test::Fail;
use std::{fs, io};

/// Fetches each name within its limit, in this order, and compares the answers.
fn fetch_in_order<F: Files>(
    rt: &(impl Abort + AllocGlobal),
    files: &mut F,
    table: &[(&str, usize, Result<&[u8], Fetch>)],
) {
    for (name, limit, want) in table {
        let got = files.fetch(rt.alloc(), name, *limit);
        let got = match &got {
            Ok(bytes) => Ok(bytes.as_slice()),
            Err(why) => Err(*why),
        };
        assert_eq!(rt; got, *want, "{name} within {limit}");
    }
}

#[test]
fn files_of_the_folder_are_fetched(rt: HostRuntime) -> Result<(), Fail> {
    let text = "0123456789".repeat(rt.alloc(), 500)?;
    fs::write(&rt, "long", text.as_str())?;
    fs::write(&rt, "empty", "")?;
    fs::create_dir(&rt, "folder")?;
    let mut files = DirFiles::new(&rt, rt.alloc());
    fetch_in_order(
        &rt,
        &mut files,
        &[
            ("long", 5000, Ok(text.as_bytes())),
            ("long", 4999, Err(Fetch::TooLong)),
            ("empty", 0, Ok(b"")),
            ("long", 0, Err(Fetch::TooLong)),
            ("absent", 5000, Err(Fetch::Failed)),
            ("folder", 5000, Err(Fetch::Failed)),
        ],
    );
    Ok(())
}

#[test]
fn files_in_memory_are_replaced(rt: HostRuntime) -> Result<(), Fail> {
    let mut files = MemFiles::new(rt.alloc(), &[])?;
    files.add("a", b"one")?;
    files.add("a", b"three")?;
    let table: [(&str, usize, Result<&[u8], Fetch>); 3] = [
        ("a", 5, Ok(b"three")),
        ("c", 5, Err(Fetch::Failed)),
        ("c", 5, Err(Fetch::Failed)),
    ];
    fetch_in_order(&rt, &mut files, &table);
    assert!(rt; files.failed("a") == 0 && files.failed("c") == 2);
    Ok(())
}

/// Puts three pieces where there is room for four bytes.
fn assert_runs_full<K: Sink>(rt: &impl Abort, sink: &mut K) {
    let table: [(&[u8], Result<usize, SinkFault>); 3] = [
        (b"abc", Ok(3)),
        (b"de", Ok(1)),
        (b"e", Err(SinkFault)),
    ];
    for (piece, want) in table {
        assert_eq!(rt; sink.put(piece), want, "{piece:?}");
    }
}

#[test]
fn a_sink_takes_what_it_can(rt: HostRuntime) -> Result<(), Fail> {
    assert_runs_full(&rt, &mut WriterSink::over(Cursor::new([0u8; 4])));
    let mut sink = MemSink::new(rt.alloc(), 4, 16, &[])?;
    assert_runs_full(&rt, &mut sink);
    assert_eq!(rt; sink.bytes(), b"abcd".as_slice());
    Ok(())
}

#[test]
fn a_text_is_put_in_pieces(rt: HostRuntime) -> Result<(), Fail> {
    let mut sink = MemSink::new(rt.alloc(), 8, 3, &[])?;
    assert_eq!(rt; put_all(&mut sink, b""), Ok(()));
    assert_eq!(rt; put_all(&mut sink, b"end\nend\n"), Ok(()));
    assert_eq!(rt; sink.bytes(), b"end\nend\n".as_slice());
    Ok(())
}

/// A file with no end, which counts the bytes that it gave.
struct Endless {
    given: usize,
}

impl Read for Endless {
    fn read(&mut self, buf: &mut [u8]) -> io::Result<usize> {
        self.given = self.given.saturating_add(buf.len());
        Ok(buf.len())
    }
}

#[test]
fn a_file_is_read_one_byte_past_the_limit(rt: HostRuntime) {
    let mut file = Endless { given: 0 };
    let answer = read_whole(&mut file, rt.alloc(), 5000);
    assert_eq!(rt; answer.err(), Some(Fetch::TooLong));
    assert_eq!(rt; file.given, 5001);
    let Endless { given: _ } = file;
}
