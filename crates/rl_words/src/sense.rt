ghost use Rattle.std.specs.Prelude.{◌≡◌, ◌≢◌, ◌+◌, ◌*◌, ◌<◌, ◌≤◌, IfSome, IfNone};
ghost use Rattle.rl_words.specs.declared.sense.SenseWord.{SenseWord};
ghost use Rattle.rl_words.specs.Sense.{FitsSense, packed_sense};
ghost use Rattle.rl_words.specs.Readings.{read_sense};

use crate::field::{field, with_bits};
use rl_base::limits::MAX_STEPS;

/// The word by which its track tells a train how far it has come with its step `k`: the track has seen nothing
/// yet, has seen the head past the box, or has seen the tail past it.
#[derive(Clone, Copy, Debug, PartialEq, Eq)]
pub enum SenseWord {
    Quiet(u32),
    Head(u32),
    Tail(u32),
}

/// The word of a payload, and `None` where the payload is no packing.
fn sense_of(payload: u32) -> Option<SenseWord>
    ensures some { IfSome result (λ v. FitsSense v × (packed_sense v ≡ payload)) }
    ensures none { IfNone result ((v : SenseWord) → FitsSense v → packed_sense v ≢ payload) }
    ensures back { (v : SenseWord) → FitsSense v → packed_sense v ≡ payload → result ≡ Some v }
{
    let k = payload >> 2;
    match field(payload, 0, 2) {
        0 if k <= MAX_STEPS as u32 => Some(SenseWord::Quiet(k)),
        1 if k < MAX_STEPS as u32 => Some(SenseWord::Head(k)),
        2 if k < MAX_STEPS as u32 => Some(SenseWord::Tail(k)),
        _ => None,
    }
}

impl SenseWord {
    /// The tag is in bits 0 and 1, the step in bits 2 to 8.
    pub fn pack(&self) -> u32
        requires { FitsSense self.now }
        ensures { result ≡ packed_sense self.now }
    {
        match *self {
            SenseWord::Quiet(k) => with_bits(0, 2, k),
            SenseWord::Head(k) => with_bits(1, 2, k),
            SenseWord::Tail(k) => with_bits(2, 2, k),
        }
    }

    /// The word of a payload, and `None` where the payload is no packing.
    pub fn unpack(payload: u32) -> Option<SenseWord>
        ensures some { IfSome result (λ v. FitsSense v × (packed_sense v ≡ payload)) }
        ensures none { IfNone result ((v : SenseWord) → FitsSense v → packed_sense v ≢ payload) }
        ensures back { (v : SenseWord) → FitsSense v → packed_sense v ≡ payload → result ≡ Some v }
        ensures read { result ≡ read_sense payload }
    {
        sense_of(payload)
    }
}
