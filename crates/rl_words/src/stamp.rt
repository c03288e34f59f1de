ghost use Rattle.std.specs.Prelude.{◌≡◌};
ghost use Rattle.rl_words.specs.Stamps.{stamp_in, payload_in, stamped};

/// The stamp of a word, in bits 32 to 63.
pub fn stamp_of(word: u64) -> u32
    ensures { result ≡ stamp_in word }
{
    (word >> 32) as u32
}

/// The payload of a word, in bits 0 to 31.
pub fn payload_of(word: u64) -> u32
    ensures { result ≡ payload_in word }
{
    (word & 0xffff_ffff) as u32
}

/// The word of a stamp and a payload.
pub fn word_of(stamp: u32, payload: u32) -> u64
    ensures word { result ≡ stamped stamp payload }
    ensures stamp { stamp_in result ≡ stamp }
    ensures payload { payload_in result ≡ payload }
{
    u64::from(stamp) << 32 | u64::from(payload)
}
