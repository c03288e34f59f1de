ghost use Rattle.std.specs.Prelude.{◌≡◌, ◌<◌, ◌≤◌, [], Some, length, min, take, IfOk, OnErr, if◌then◌else◌};
ghost use Rattle.std.specs.Result.{OkIff};
ghost use Rattle.std.proofs.Math.Nat.{min-le_right};
ghost use Rattle.rl_base.specs.Numbers.{greatest_u64};
ghost use Rattle.rl_outside.specs.MemSink.{size_of_put, after_put, after_fault, faults_of};

use crate::sink::{Sink, SinkFault};
use rl_base::NoMemory;
use std::alloc::Global;
use std::marker::Model;

/// A sink that keeps what it takes in memory, for tests. It can be told to take little at a time, to run
/// full, and at which puts to fail.
#[derive(Debug, Drop)]
pub struct MemSink {
    bytes: Vec<u8>,
    room: usize,
    piece: usize,
    fails: Vec<u32>,
    puts: u32,
    faults: u64,
}

impl Model for MemSink {
    ghost use Rattle.std.specs.Prelude.{◌≤◌, length, vec_capacity};
    ghost use Rattle.rl_outside.specs.MemSink.{MemSinkState};

    ghost Value = { MemSinkState };

    ghost view = { λ s. record {
      bytes = s.bytes.items;
      room = s.room;
      piece = s.piece;
      fails = s.fails.items;
      puts = s.puts;
      faults = s.faults;
    } };

    // The memory for all the room is there, so that a put takes none.
    ghost invariant = { λ s. (length s.bytes.items ≤ s.room) × (s.room ≤ vec_capacity s.bytes) };
}

impl MemSink {
    /// A sink with nothing in it. It takes the memory for `room` bytes at once. One put takes at most
    /// `piece` bytes, and those whose number, counted from 0, is in `fails` fail.
    pub fn new(alloc: Global, room: usize, piece: usize, fails: &[u32]) -> Result<MemSink, NoMemory>
        requires { 1 ≤ piece }
        ensures { IfOk result (λ sink. sink ≡
            record { bytes = []; room = room; piece = piece; fails = fails.now; puts = 0; faults = 0 }) }
    {
        Ok(MemSink {
            bytes: Vec::with_capacity(alloc, room)?,
            room,
            piece,
            fails: Vec::from_slice(alloc, fails)?,
            puts: 0,
            faults: 0,
        })
    }

    /// Lends the bytes taken so far.
    pub fn bytes(&self) -> &[u8]
        ensures { result.now ≡ self.now.bytes }
    {
        self.bytes.as_slice()
    }

    /// How many bytes the next put takes, of a piece of this length.
    fn size_of_put(&self, len: usize) -> usize
        ensures { result ≡ size_of_put self.now len }
    {
        if self.fails.contains(&self.puts) {
            0
        } else {
            len.min(self.piece).min(self.room - self.bytes.len())
        }
    }
}

impl Sink for MemSink {
    ghost written = { λ sink. Some sink.bytes };

    ghost faults = { faults_of };

    ghost bounded = { λ sink. min-le_right sink.faults greatest_u64 };

    /// Takes the least of the piece's length, what one put takes at most, and the room left. Fails where
    /// that is 0 or the put's number is a failing one. Takes no memory.
    fn put(&mut self, piece: &[u8]) -> Result<usize, SinkFault>
        requires { 0 < length piece.now }
        ensures exact { let size = size_of_put self.old (length piece.now) in OkIff result (0 < size) size }
        ensures after_ok { IfOk result (λ n. self.new ≡ after_put self.old (take n piece.now)) }
        ensures after_err { OnErr result (self.new ≡ after_fault self.old) }
    {
        let n = self.size_of_put(piece.len());
        self.puts = self.puts.saturating_add(1);
        if n == 0 {
            self.faults = self.faults.saturating_add(1);
            return Err(SinkFault);
        }
        self.bytes.extend_from_slice(&piece[..n]).unwrap();
        Ok(n)
    }
}
