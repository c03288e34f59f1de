ghost use Rattle.std.specs.Prelude.{◌≡◌, IfOk, OnErr, IfErr};
ghost use Rattle.std.specs.IoError.{error_kind};
ghost use Rattle.std.specs.Process.{exit_status};
ghost use Rattle.std.specs.Vec.Iter.{into_iter_items};
ghost use Rattle.rl_cli.specs.Orders.{order_of};
ghost use Rattle.relis.specs.Calls.{IsCall, outside};
ghost use Rattle.relis.specs.Exits.{words_after_name, EndsCall, number_without_words};

use crate::status::Status;
use crate::top::relis;
use rl_base::{Args, NoMemory, Text};
use rl_outside::{Files, Gate, Sink};
use std::alloc::Global;
use std::io::ErrorKind;
use std::process::ExitCode;
use std::sync::Wait;
use std::thread::Threads;
use std::{env, io};

/// The number with which the program ends where the system doesn't give the words.
const NO_WORDS: u8 = 5;

/// The words of a command line without the program's own name, which is the first.
fn words_after_name(alloc: Global, given: env::Args) -> Result<Args, NoMemory>
    ensures { IfOk result (λ words. words ≡ words_after_name (into_iter_items given)) }
{
    let mut given = given;
    let _name = given.next();
    let mut words = Args::new(alloc);
    for word in given {
        words.push(Text::of(alloc, word.as_str())?)?;
    }
    Ok(words)
}

/// The number with which the program ends where the system gave an error in place of the words.
fn number_without_words(error: &io::Error) -> u8
    ensures { result ≡ number_without_words (error_kind error.now) }
{
    match error.kind() {
        ErrorKind::OutOfMemory => Status::NoMemory.number(),
        _ => NO_WORDS,
    }
}

/// The status of a call with the words that the system gave.
fn status_of<R: Threads + Wait + Sync, F: Files, K: Sink, G: Gate>(
    rt: &R,
    alloc: Global,
    given: env::Args,
    files: &mut F,
    out: &mut K,
    gate: &G,
) -> Status
    ensures { IsCall (order_of (words_after_name (into_iter_items given)))
        (outside (F.held files.old) (F.faults files.old) (K.written out.old) (K.faults out.old))
        (outside (F.held files.new) (F.faults files.new) (K.written out.new) (K.faults out.new))
        result }
{
    match words_after_name(alloc, given) {
        Ok(words) => relis(rt, alloc, &words, files, out, gate),
        Err(_) => Status::NoMemory,
    }
}

/// Does what the words ask for that the system gave, if it gave them, and says how the program ends.
pub fn exit_of<R: Threads + Wait + Sync, F: Files, K: Sink, G: Gate>(
    rt: &R,
    alloc: Global,
    given: io::Result<env::Args>,
    files: &mut F,
    out: &mut K,
    gate: &G,
) -> ExitCode
    // The number is that of the status of a call with the words after the program's own name.
    ensures call { IfOk given (λ all. EndsCall (order_of (words_after_name (into_iter_items all)))
        (outside (F.held files.old) (F.faults files.old) (K.written out.old) (K.faults out.old))
        (outside (F.held files.new) (F.faults files.new) (K.written out.new) (K.faults out.new))
        (exit_status result)) }

    // Where there are no words nothing is fetched and nothing is put.
    ensures no_words { IfErr given (λ error. exit_status result ≡ number_without_words (error_kind error)) }
    ensures files_stay { OnErr given (files.new ≡ files.old) }
    ensures sink_stays { OnErr given (out.new ≡ out.old) }
{
    match given {
        Ok(all) => ExitCode::from(status_of(rt, alloc, all, files, out, gate).number()),
        Err(error) => ExitCode::from(number_without_words(&error)),
    }
}
