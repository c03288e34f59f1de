ghost use Rattle.std.specs.Prelude.{◌≡◌, ◌+◌, ◌-◌, ◌<◌, ◌≤◌, min, length, IfOk, OnOk, OnErr};
ghost use Rattle.std.specs.Io.KnownBytes.{WriteAppends};
ghost use Rattle.std.proofs.Math.Nat.{min-le_right};
ghost use Rattle.rl_base.specs.Numbers.{greatest_u64};
ghost use Rattle.rl_outside.specs.Sink.{taken_by};

use crate::sink::{Sink, SinkFault};
use std::io;
use std::io::{Printer, Write};
use std::marker::Model;

/// A writer of std as a sink, which tells what the writer is known to hold.
#[derive(Drop)]
pub struct WriterSink<W> {
    to: W,
    faults: u64,
}

/// The standard output. It tells no bytes.
pub type StdSink<'a, R> = WriterSink<Printer<'a, R>>;

impl<W> Model for WriterSink<W> {
    ghost use Rattle.rl_outside.specs.Sink.{SinkState};

    ghost Value = { SinkState W };

    ghost view = { λ s. record { to = s.to; faults = s.faults } };
}

impl<W> WriterSink<W> {
    /// No put has failed yet.
    pub fn over(to: W) -> WriterSink<W>
        ensures { result ≡ record { to = to; faults = 0 } }
    {
        WriterSink { to, faults: 0 }
    }
}

impl<'a, R: Print> StdSink<'a, R> {
    /// No put has failed yet.
    pub fn new(rt: &'a R) -> StdSink<'a, R>
        ensures { result.faults ≡ 0 }
    {
        WriterSink::over(io::writer(rt))
    }
}

/// What the answer to a write is to a sink.
fn taken(answer: io::Result<usize>) -> Result<usize, SinkFault>
    ensures { result ≡ taken_by answer }
{
    match answer {
        Ok(n) if n > 0 => Ok(n),
        _ => Err(SinkFault),
    }
}

impl<W: Write> Sink for WriterSink<W> {
    ghost written = { λ s. W.contents s.to };

    ghost faults = { λ s. min s.faults greatest_u64 };

    ghost bounded = { λ s. min-le_right s.faults greatest_u64 };

    /// Writes once. A write that takes no byte counts as a fault.
    fn put(&mut self, piece: &[u8]) -> Result<usize, SinkFault>
        ensures within { IfOk result (λ n. (0 < n) × (n ≤ length piece.now)) }
        ensures bytes { WriteAppends (W.contents self.old.to) (W.contents self.new.to) result piece.now }
        ensures after_ok { OnOk result (self.new.faults ≡ self.old.faults) }
        ensures after_err { OnErr result (self.new.faults ≡ min (self.old.faults + 1) greatest_u64) }
    {
        let answer = taken(self.to.write(piece));
        if answer.is_err() {
            self.faults = self.faults.saturating_add(1);
        }
        answer
    }
}
