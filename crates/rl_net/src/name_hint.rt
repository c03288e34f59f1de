ghost use Rattle.std.specs.Prelude.{◌<◌};

/// Where a table of names is likely to hold a name: a number made from its bytes, one after another.
/// A look-up with the name's own hint is fast, and it answers the same with every other one.
#[derive(Clone, Copy, Debug)]
pub struct NameHint(u32);

/// How many places a hint tells apart.
pub(crate) const HINT_PLACES: u32 = 1024;

impl NameHint {
    /// The hint of the name that has no byte.
    pub const EMPTY: NameHint = NameHint(0x811c_9dc5);

    /// The hint of the name with the byte after it.
    pub fn and(self, byte: u8) -> NameHint {
        NameHint((self.0 ^ u32::from(byte)).wrapping_mul(0x0100_0193))
    }

    /// The hint of the name.
    pub fn of(name: &[u8]) -> NameHint {
        let mut hint = NameHint::EMPTY;
        for byte in name {
            hint = hint.and(*byte);
        }
        hint
    }

    /// Which of the places is meant.
    pub(crate) fn place(self) -> usize
        ensures { result < HINT_PLACES }
    {
        (self.0 % HINT_PLACES) as usize
    }
}
