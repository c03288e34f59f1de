ghost use Rattle.std.specs.Prelude.{◌≡◌, ℕ, ◌≤◌, ◌<◌, ◌+◌, List, [], ◌++◌, ◌≢◌, None, length, vec_len, true, false, IfOk, OnOk, OnErr, Err, IfSome, IsErrOf};
ghost use Rattle.std.specs.Io.KnownBytes.{Consumes, IsAtEnd};
ghost use Rattle.rl_outside.specs.Causes.{CountsFetch, times_in, failed_after, read_by};

use crate::failed::{FailedNames, noted};
use crate::files::{Fetch, Files};
use std::alloc::Global;
use std::io::Read;
use std::marker::Model;
use std::{fs, io};

/// How many bytes one read asks for at most.
const PIECE: usize = 4096;

/// The files of the folder in which the program stands. It tells no bytes. Contracts see it as the names
/// of the fetches that failed, oldest first.
pub struct DirFiles<'a, R> {
    rt: &'a R,
    alloc: Global,
    failed: FailedNames,
}

impl<'a, R> Model for DirFiles<'a, R> {
    ghost use Rattle.std.specs.Prelude.{ℕ, List};

    ghost Value = { List (List ℕ) };

    ghost view = { λ d. d.failed };
}

impl<R> Drop for DirFiles<'_, R> {
    fn drop(self) {
        let DirFiles {
            rt: _,
            alloc: _,
            failed: _,
        } = self;
    }
}

impl<'a, R: std::rt::Files> DirFiles<'a, R> {
    /// No fetch has failed yet.
    pub fn new(rt: &'a R, alloc: Global) -> DirFiles<'a, R>
        ensures { result ≡ [] }
    {
        DirFiles {
            rt,
            alloc,
            failed: FailedNames::new(alloc),
        }
    }
}

/// What the answer to a read is, where at most `room` bytes may still come.
fn came(answer: io::Result<usize>, room: usize) -> Result<usize, Fetch>
    ensures { result ≡ read_by room answer }
{
    match answer {
        Ok(n) if n <= room => Ok(n),
        Ok(_) => Err(Fetch::TooLong),
        Err(_) => Err(Fetch::Failed),
    }
}

/// Reads once, at most one byte past the limit, and appends what came. Answers whether anything did.
fn read_piece<F: Read>(file: &mut F, bytes: &mut Vec<u8>, limit: usize) -> Result<bool, Fetch>
    requires { vec_len bytes.old ≤ limit }
    ensures within { OnOk result (vec_len bytes.new ≤ limit) }
    ensures read { OnOk result ((piece : List ℕ) × (bytes.new.items ≡ bytes.old.items ++ piece)
        × Consumes (F.remaining file.old) (F.remaining file.new) piece) }
    ensures more { result ≡ Ok true → vec_len bytes.old < vec_len bytes.new }
    ensures end { result ≡ Ok false → IsAtEnd (F.remaining file.new) }
    ensures too_long { IsErrOf result Fetch.TooLong → ((piece : List ℕ) × (limit < vec_len bytes.old + length piece)
        × Consumes (F.remaining file.old) (F.remaining file.new) piece) }
{
    let room = limit - bytes.len();
    let wanted = room.saturating_add(1).min(PIECE);
    let mut buffer = [0u8; PIECE];
    let n = came(file.read(&mut buffer[..wanted]), room)?;
    bytes.extend_from_slice(&buffer[..n])?;
    Ok(n > 0)
}

/// Reads a file to its end, where that comes within the limit.
pub fn read_whole<F: Read>(file: &mut F, alloc: Global, limit: usize) -> Result<Vec<u8>, Fetch>
    ensures within { IfOk result (λ bytes. length bytes.items ≤ limit) }
    ensures whole { IfOk result (λ bytes. IfSome (F.remaining file.old) (λ there. bytes.items ≡ there)) }
    ensures too_long { IsErrOf result Fetch.TooLong → IfSome (F.remaining file.old) (λ there. limit < length there) }
{
    let mut bytes = Vec::new(alloc);
    loop {
        if !read_piece(file, &mut bytes, limit)? {
            return Ok(bytes);
        }
    }
}

/// Reads the file that was opened to its end. One that std could not open is a failed fetch.
fn read_opened<F: Read + Drop>(
    opened: io::Result<F>,
    alloc: Global,
    limit: usize,
) -> Result<Vec<u8>, Fetch>
    ensures unopened { OnErr opened (result ≡ Err Fetch.Failed) }
    ensures within { IfOk result (λ bytes. length bytes.items ≤ limit) }
    ensures whole { IfOk opened (λ file. IfOk result (λ bytes.
        IfSome (F.remaining file) (λ there. bytes.items ≡ there))) }
    ensures too_long { IfOk opened (λ file. IsErrOf result Fetch.TooLong →
        IfSome (F.remaining file) (λ there. limit < length there)) }
{
    match opened {
        Ok(mut file) => read_whole(&mut file, alloc, limit),
        Err(_) => Err(Fetch::Failed),
    }
}

impl<R: std::rt::Files> Files for DirFiles<'_, R> {
    ghost held = { λ _ _. None };

    ghost faults = { times_in };

    /// Reads the file of this name to its end. Fails where std can't open or read it.
    fn fetch(&mut self, alloc: Global, name: &str, limit: usize) -> Result<Vec<u8>, Fetch>
        ensures within { IfOk result (λ bytes. length bytes.items ≤ limit) }
        ensures after { self.new ≡ failed_after result self.old name.now }
        ensures cause { CountsFetch result (times_in self.old name.now) (times_in self.new name.now) }
        ensures others { (n : List ℕ) → n ≢ name.now → times_in self.new n ≡ times_in self.old n }
    {
        let answer = read_opened(fs::open(self.rt, name), alloc, limit);
        noted(self.alloc, &mut self.failed, name, answer)
    }
}
