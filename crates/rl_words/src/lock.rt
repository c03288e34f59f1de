ghost use Rattle.std.specs.Prelude.{◌≡◌, ◌≢◌, ◌+◌, ◌*◌, ◌%◌, ◌<◌, ◌≤◌, IfSome, IfNone};
ghost use Rattle.rl_words.specs.declared.lock.LockWord.{LockWord};
ghost use Rattle.rl_words.specs.declared.lock.Path.{Path};
ghost use Rattle.rl_words.specs.Lock.{FitsPath, FitsLock, side_code, packed_path, packed_lock};
ghost use Rattle.rl_words.specs.Readings.{read_lock};

use crate::field::{field, with_bits};
use rl_base::{Arm, Side, TrainId};

/// The way of a train through a box, from arm `x` to arm `y`.
#[derive(Clone, Copy, Debug, PartialEq, Eq)]
pub struct Path {
    pub train: TrainId,
    pub x: Arm,
    pub y: Arm,
}

/// The word of a box that says how it stands: free, with its points at a side, or locked for a path. The lock is
/// asked for until the machine moves the points, moving until they stand right, moved until the box has seen
/// that, and then locked.
#[derive(Clone, Copy, Debug, PartialEq, Eq)]
pub enum LockWord {
    Free(Side),
    Asked(Path),
    Moving(Path),
    Moved(Path),
    Locked(Path),
}

/// A tag below 8 in bits 0 to 2, with the path above it: the train in bits 4 to 8, `x` in bits 9 and 10, `y` in
/// bits 11 and 12.
fn pack_path(tag: u32, path: &Path) -> u32
    requires tag { tag < 8 }
    requires path { FitsPath path.now }
    ensures { result ≡ tag + packed_path path.now }
{
    let word = with_bits(tag, 4, path.train.0);
    let word = with_bits(word, 9, path.x.0);
    with_bits(word, 11, path.y.0)
}

/// The path above the tag of a payload, and `None` where there is none.
fn path_of(payload: u32) -> Option<Path>
    ensures some { IfSome result (λ p. FitsPath p × (payload % 8 + packed_path p ≡ payload)) }
    ensures none { IfNone result ((p : Path) → FitsPath p → payload % 8 + packed_path p ≢ payload) }
{
    let train = TrainId(field(payload, 4, 5));
    let x = Arm(field(payload, 9, 2));
    let y = Arm(field(payload, 11, 2));
    if field(payload, 3, 1) == 0 && field(payload, 13, 19) == 0 && x.0 != y.0 {
        Some(Path { train, x, y })
    } else {
        None
    }
}

/// The word of a payload, and `None` where the payload is no packing.
fn lock_of(payload: u32) -> Option<LockWord>
    ensures some { IfSome result (λ v. FitsLock v × (packed_lock v ≡ payload)) }
    ensures none { IfNone result ((v : LockWord) → FitsLock v → packed_lock v ≢ payload) }
    ensures back { (v : LockWord) → FitsLock v → packed_lock v ≡ payload → result ≡ Some v }
{
    let tag = field(payload, 0, 3);
    if tag == 0 {
        return match field(payload, 3, 29) {
            0 => Some(LockWord::Free(Side::Left)),
            1 => Some(LockWord::Free(Side::Right)),
            _ => None,
        };
    }
    let path = path_of(payload)?;
    match tag {
        1 => Some(LockWord::Asked(path)),
        2 => Some(LockWord::Moving(path)),
        3 => Some(LockWord::Moved(path)),
        4 => Some(LockWord::Locked(path)),
        _ => None,
    }
}

impl LockWord {
    /// The tag is in bits 0 to 2. The side of a free box is in bit 3, 0 for left and 1 for right. Of a path the
    /// train is in bits 4 to 8, `x` in bits 9 and 10, and `y` in bits 11 and 12.
    pub fn pack(&self) -> u32
        requires { FitsLock self.now }
        ensures { result ≡ packed_lock self.now }
    {
        match *self {
            LockWord::Free(Side::Left) => 0,
            LockWord::Free(Side::Right) => with_bits(0, 3, 1),
            LockWord::Asked(path) => pack_path(1, &path),
            LockWord::Moving(path) => pack_path(2, &path),
            LockWord::Moved(path) => pack_path(3, &path),
            LockWord::Locked(path) => pack_path(4, &path),
        }
    }

    /// The word of a payload, and `None` where the payload is no packing.
    pub fn unpack(payload: u32) -> Option<LockWord>
        ensures some { IfSome result (λ v. FitsLock v × (packed_lock v ≡ payload)) }
        ensures none { IfNone result ((v : LockWord) → FitsLock v → packed_lock v ≢ payload) }
        ensures back { (v : LockWord) → FitsLock v → packed_lock v ≡ payload → result ≡ Some v }
        ensures read { result ≡ read_lock payload }
    {
        lock_of(payload)
    }
}
