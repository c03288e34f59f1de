ghost use Rattle.std.specs.Prelude.{◌≡◌, ℕ, ◌≤◌, ◌<◌, ◌-◌, List, [], Option, length, IfOk, OnOk, OnErr, IsOk};
ghost use Rattle.std.specs.Io.KnownBytes.{Appends, WriteAppends};
ghost use Rattle.rl_base.specs.Numbers.{greatest_u64};
ghost use Rattle.rl_outside.specs.Causes.{RoseOrFull};
ghost use Rattle.rl_outside.specs.Sink.{AppendsPart};

/// The sink took no byte, and its count of faults has risen.
#[derive(Clone, Copy, Debug, PartialEq, Eq)]
pub struct SinkFault;

/// Where text goes. `written` tells the bytes taken so far, or leaves them untold, and `faults` counts
/// the faults, up to the greatest u64.
pub trait Sink {
    ghost written: { Self → Option (List ℕ) };

    ghost faults: { Self → ℕ };

    /// Takes the first bytes of the piece, at least one, and answers how many. After a fault none was
    /// taken, and the caller may put again.
    fn put(&mut self, piece: &[u8]) -> Result<usize, SinkFault>
        requires { 0 < length piece.now }
        ensures at_least_one { IfOk result (λ n. 0 < n) }
        ensures within { IfOk result (λ n. n ≤ length piece.now) }
        ensures bytes { WriteAppends (written self.old) (written self.new) result piece.now }

        // The count rises at a fault, and at nothing else.
        ensures kept { OnOk result (faults self.new ≡ faults self.old) }
        ensures cause { OnErr result (RoseOrFull (faults self.old) (faults self.new)) }
        ensures later { faults self.old ≤ faults self.new };

    ghost bounded: { (s : Self) → faults s ≤ greatest_u64 };
}

/// Puts the whole text, piece by piece. Where a put fails, the bytes before it were taken and nothing
/// more is put. An empty text makes no put. Takes no memory of its own.
pub fn put_all<K: Sink>(out: &mut K, text: &[u8]) -> Result<(), SinkFault>
    ensures whole { OnOk result (Appends (K.written out.old) (K.written out.new) text.now) }
    ensures part { OnErr result (AppendsPart (K.written out.old) (K.written out.new) text.now) }
    ensures kept { OnOk result (K.faults out.new ≡ K.faults out.old) }
    ensures cause { OnErr result (RoseOrFull (K.faults out.old) (K.faults out.new)) }
    ensures later { K.faults out.old ≤ K.faults out.new }
    ensures empty { text.now ≡ [] → IsOk result }
    ensures no_put { text.now ≡ [] → out.new ≡ out.old }
{
    let mut done = 0;
    while done < text.len() {
        done += out.put(&text[done..])?;
    }
    Ok(())
}
