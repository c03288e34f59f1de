ghost use Rattle.std.specs.Prelude.{◌≡◌, ◌≢◌, ℕ, List, [], Some, Ok, Err, position, IfOk, IfErr, OnOk, OnErr};
ghost use Rattle.std.specs.Option.{option_copied};
ghost use Rattle.std.specs.Str.{bytes_eq};
ghost use Rattle.rl_outside.specs.Causes.{CountsFetch, times_in, failed_after};
ghost use Rattle.rl_outside.specs.Numbering.{number_after};
ghost use Rattle.rl_outside.specs.MemFiles.{bytes_under, answer_of, read_within};

use crate::failed::{FailedNames, noted, times_in};
use crate::files::{Fetch, Files};
use rl_base::{NoMemory, Sequence, Text};
use std::alloc::Global;
use std::marker::Model;

/// A file under its name.
#[derive(Debug, Drop)]
struct StoredFile {
    name: Text,
    bytes: Sequence<u8>,
}

/// Files that are kept in memory, for tests. They can be told at which fetches to fail, and they keep the
/// names whose fetch failed.
#[derive(Debug, Drop)]
pub struct MemFiles {
    alloc: Global,
    files: Vec<StoredFile>,
    fails: Vec<u32>,
    next: u32,
    failed: FailedNames,
}

impl Model for MemFiles {
    ghost use Rattle.rl_outside.specs.MemFiles.{MemFilesState};

    ghost Value = { MemFilesState };

    ghost view = { λ m. record {
      files = m.files.items;
      fails = m.fails.items;
      next = m.next;
      failed = m.failed;
    } };
}

/// The place of the file with this name.
fn place_of(files: &[StoredFile], name: &str) -> Option<usize>
    ensures { result ≡ position (λ f. bytes_eq f.name name.now) files.now }
{
    files.iter().position(|f| f.name.as_str() == name)
}

/// Puts the bytes under the name, in place of those that were there.
fn store(
    alloc: Global,
    files: &mut Vec<StoredFile>,
    name: &str,
    bytes: &[u8],
) -> Result<(), NoMemory>
    ensures there { OnOk result (bytes_under files.new.items name.now ≡ Some bytes.now) }
    ensures others { (n : List ℕ) → n ≢ name.now → bytes_under files.new.items n ≡ bytes_under files.old.items n }
    ensures refused { OnErr result (files.new.items ≡ files.old.items) }
{
    let bytes = Sequence::from_vec(Vec::from_slice(alloc, bytes)?);
    match place_of(files, name) {
        Some(i) => {
            files[i].bytes = bytes;
            Ok(())
        }
        None => {
            let name = Text::of(alloc, name)?;
            files.push(StoredFile { name, bytes })?;
            Ok(())
        }
    }
}

/// Lends the bytes under the name.
fn bytes_of<'a>(files: &'a [StoredFile], name: &str) -> Option<&'a Sequence<u8>>
    ensures { option_copied result ≡ bytes_under files.now name.now }
{
    match files.iter().find(|f| f.name.as_str() == name) {
        None => None,
        Some(file) => Some(&file.bytes),
    }
}

/// Copies the bytes under the name, where there are at most `limit`.
fn read_within(
    alloc: Global,
    files: &[StoredFile],
    name: &str,
    limit: usize,
) -> Result<Vec<u8>, Fetch>
    ensures ok { IfOk result (λ bytes. read_within limit (bytes_under files.now name.now) ≡ Ok bytes.items) }
    ensures err { IfErr result (λ e. e ≢ Fetch.NoMemory →
        read_within limit (bytes_under files.now name.now) ≡ Err e) }
{
    match bytes_of(files, name) {
        None => Err(Fetch::Failed),
        Some(bytes) if bytes.len() > limit => Err(Fetch::TooLong),
        Some(bytes) => Ok(Vec::from_slice(alloc, bytes.as_slice())?),
    }
}

impl MemFiles {
    /// No files yet. Those fetches whose number, counted from 0, is in `fails` fail.
    pub fn new(alloc: Global, fails: &[u32]) -> Result<MemFiles, NoMemory>
        ensures { IfOk result (λ files. files ≡
            record { files = []; fails = fails.now; next = 0; failed = [] }) }
    {
        Ok(MemFiles {
            alloc,
            files: Vec::new(alloc),
            fails: Vec::from_slice(alloc, fails)?,
            next: 0,
            failed: FailedNames::new(alloc),
        })
    }

    /// Puts the bytes under the name, in place of those that were there. A refused call changes nothing.
    pub fn add(&mut self, name: &str, bytes: &[u8]) -> Result<(), NoMemory>
        ensures there { OnOk result (bytes_under self.new.files name.now ≡ Some bytes.now) }
        ensures others { (n : List ℕ) → n ≢ name.now →
            bytes_under self.new.files n ≡ bytes_under self.old.files n }
        ensures rest { self.new ≡ record self.old { files = self.new.files } }
        ensures refused { OnErr result (self.new ≡ self.old) }
    {
        store(self.alloc, &mut self.files, name, bytes)
    }

    /// How many fetches of the name have failed.
    pub fn failed(&self, name: &str) -> usize
        ensures { result ≡ times_in self.now.failed name.now }
    {
        times_in(&self.failed, name)
    }

    /// How the next fetch ends, noted or not.
    fn answer(&self, alloc: Global, name: &str, limit: usize) -> Result<Vec<u8>, Fetch>
        ensures ok { IfOk result (λ bytes. answer_of self.now name.now limit ≡ Ok bytes.items) }
        ensures err { IfErr result (λ e. e ≢ Fetch.NoMemory → answer_of self.now name.now limit ≡ Err e) }
    {
        if self.fails.contains(&self.next) {
            return Err(Fetch::Failed);
        }
        read_within(alloc, &self.files, name, limit)
    }
}

impl Files for MemFiles {
    ghost held = { λ m. bytes_under m.files };

    ghost faults = { λ m. times_in m.failed };

    /// Each fetch is counted, whatever it answers. A failing number comes before all else, then a name
    /// that isn't there, then bytes that are too many. Where a failed name can't be noted for want of
    /// memory, the answer is `NoMemory` and the names stay.
    fn fetch(&mut self, alloc: Global, name: &str, limit: usize) -> Result<Vec<u8>, Fetch>
        ensures ok { IfOk result (λ bytes. answer_of self.old name.now limit ≡ Ok bytes.items) }
        ensures err { IfErr result (λ e. e ≢ Fetch.NoMemory → answer_of self.old name.now limit ≡ Err e) }

        // What follows for the counts.
        ensures cause { CountsFetch result (times_in self.old.failed name.now) (times_in self.new.failed name.now) }
        ensures others { (n : List ℕ) → n ≢ name.now → times_in self.new.failed n ≡ times_in self.old.failed n }
        ensures after { self.new ≡ record self.old {
          next = number_after self.old.next;
          failed = failed_after result self.old.failed name.now;
        } }
    {
        let answer = self.answer(alloc, name, limit);
        self.next = self.next.saturating_add(1);
        noted(alloc, &mut self.failed, name, answer)
    }
}
