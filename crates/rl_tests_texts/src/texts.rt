//! Lines, words and numbers of texts, and texts that grow.
ghost use Rattle.std.specs.Prelude.{◌≤◌, length};
ghost use Rattle.rl_text.specs.Lines.{longest_text};

use crate::short::put_text;
use rl_base::NoMemory;
use rl_text::{Out, Tokens, read_number, word_at};
use std::alloc::Global;
use std::process::Abort;
use std::test::Fail;

/// Texts, in which a stroke is the end of a line, and their lines: the number, a colon, the bytes, and `$` where an
/// end stood.
const LINES: &str = "\
a = 1:a
 =\u{20}
a| = 1:a$
|| = 1:$2:$
turn x||round 3 = 1:turn x$2:$3:round 3
a\r| b| = 1:a\r$2: b$
";

/// Each line as its number, a colon, its bytes, and `$` where an LF ended it.
fn shown_lines(alloc: Global, text: &[u8]) -> Result<Out, NoMemory>
    requires { length text.now ≤ longest_text }
{
    let mut out = Out::new(alloc);
    let mut tokens = Tokens::new(text);
    while let Some(line) = tokens.line() {
        out.number(u64::from(line.number))?;
        out.text(":".as_bytes())?;
        out.text(line.text)?;
        if line.whole {
            out.text("$".as_bytes())?;
        }
    }
    Ok(out)
}

fn assert_lines(rt: &impl Abort, alloc: Global, short: &str, want: &str) -> Result<(), NoMemory> {
    let mut text = Vec::new(alloc);
    put_text(&mut text, short)?;
    assert!(rt; text.len() < 100);
    let out = shown_lines(alloc, text.as_slice())?;
    assert_eq!(rt; out.bytes(), want.as_bytes(), "{short:?}");
    Ok(())
}

#[test]
fn gives_lines(rt: HostRuntime) -> Result<(), Fail> {
    for case in LINES.lines() {
        let (short, want) = case.split_once(" = ").ok_or("no lines")?;
        assert_lines(&rt, rt.alloc(), short, want)?;
    }
    Ok(())
}

/// Lines, and their words, each with a semicolon behind it. A word may be empty.
const WORDS: &str = "\
turn box:b 12 = turn;box:b;12;
 = ;
 a  b  = ;a;;b;;
a\tb = a\tb;
";

/// The words of the line, each with a semicolon behind it.
fn shown_words(alloc: Global, line: &[u8]) -> Result<Out, NoMemory> {
    let mut out = Out::new(alloc);
    for i in 0..10 {
        if let Some(word) = word_at(line, i) {
            out.text(word)?;
            out.text(";".as_bytes())?;
        }
    }
    Ok(out)
}

#[test]
fn gives_words(rt: HostRuntime) -> Result<(), Fail> {
    for case in WORDS.lines() {
        let (line, want) = case.split_once(" = ").ok_or("no words")?;
        let out = shown_words(rt.alloc(), line.as_bytes())?;
        assert_eq!(rt; out.bytes(), want.as_bytes(), "{line:?}");
    }
    Ok(())
}

/// Texts, and the numbers that they are.
const NUMBERS: &str = "\
0 = 0
7 = 7
1000000 = 1000000
18446744073709551615 = 18446744073709551615
18446744073709551616 = none
99999999999999999999999 = none
00 = none
01 = none
 = none
+1 = none
-1 = none
 1 = none
1  = none
1a = none
\u{661} = none
";

fn shown_number(alloc: Global, text: &[u8]) -> Result<String, NoMemory> {
    Ok(match read_number(text) {
        Some(number) => format!(in alloc; "{number}")?,
        None => format!(in alloc; "none")?,
    })
}

#[test]
fn reads_numbers(rt: HostRuntime) -> Result<(), Fail> {
    for case in NUMBERS.lines() {
        let (text, want) = case.split_once(" = ").ok_or("no number")?;
        let number = shown_number(rt.alloc(), text.as_bytes())?;
        assert_eq!(rt; number.as_str(), want, "{text:?}");
    }
    Ok(())
}

#[test]
fn appends_texts_and_numbers(rt: HostRuntime) -> Result<(), Fail> {
    let mut out = Out::new(rt.alloc());
    out.text("tries ".as_bytes())?;
    out.number(0)?;
    out.text("".as_bytes())?;
    out.text("\n".as_bytes())?;
    out.number(u64::MAX)?;
    assert_eq!(rt; out.bytes(), "tries 0\n18446744073709551615".as_bytes());
    Ok(())
}

#[test]
fn appends_lines_and_words(rt: HostRuntime) -> Result<(), Fail> {
    let mut out = Out::new(rt.alloc());
    out.line("end".as_bytes(), &[])?;
    out.line("reserve".as_bytes(), &["T1".as_bytes(), "B".as_bytes()])?;
    out.text("step".as_bytes())?;
    out.count(0)?;
    out.word("J1".as_bytes())?;
    assert_eq!(rt; out.bytes(), "end\nreserve T1 B\nstep 0 J1".as_bytes());
    Ok(())
}
