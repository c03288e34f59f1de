ghost use Rattle.std.specs.Prelude.{◌≡◌, ℕ};
ghost use Rattle.rl_base.specs.Kind.{arms_of, are_arms, arms_join, joining_side, kind_word, side_word};

use crate::ids::Arm;

/// The kind of a switch box.
#[derive(Clone, Copy, Debug, PartialEq, Eq, Hash)]
pub enum Kind {
    /// The end of a track, with one arm and no passage.
    Buffer,
    /// Two arms that are always connected.
    Joint,
    /// A switch: arm 0 is the stem, arm 1 the left branch and arm 2 the right one.
    Point,
    /// Two tracks that cross: arms 0 and 1 are one, arms 2 and 3 the other, and nothing moves.
    Crossing,
}

/// The side at which a point stands. A box of another kind counts as standing at left for ever.
#[derive(Clone, Copy, Debug, PartialEq, Eq, Hash)]
pub enum Side {
    Left,
    Right,
}

/// How many arms a box of this kind has.
pub fn arm_count(kind: Kind) -> u32
    ensures { result ≡ arms_of kind }
{
    match kind {
        Kind::Buffer => 1,
        Kind::Joint => 2,
        Kind::Point => 3,
        Kind::Crossing => 4,
    }
}

fn is_pair(x: u32, y: u32, first: u32, second: u32) -> bool
    ensures { result ≡ are_arms x y first second }
{
    (x == first && y == second) || (x == second && y == first)
}

/// Whether a box of this kind connects the two arms, in either order, where it stands at this side.
pub fn joins(kind: Kind, x: Arm, y: Arm, side: Side) -> bool
    ensures { result ≡ arms_join kind x.0 y.0 side }
{
    match kind {
        Kind::Buffer => false,
        Kind::Joint => is_pair(x.0, y.0, 0, 1),
        Kind::Point => match side {
            Side::Left => is_pair(x.0, y.0, 0, 1),
            Side::Right => is_pair(x.0, y.0, 0, 2),
        },
        Kind::Crossing => is_pair(x.0, y.0, 0, 1) || is_pair(x.0, y.0, 2, 3),
    }
}

/// The side at which a point connects the two arms. Left where another kind connects them, and `None`
/// where no side does.
pub fn side_of(kind: Kind, x: Arm, y: Arm) -> Option<Side>
    ensures { result ≡ joining_side kind x.0 y.0 }
{
    if joins(kind, x, y, Side::Left) {
        Some(Side::Left)
    } else if joins(kind, x, y, Side::Right) {
        Some(Side::Right)
    } else {
        None
    }
}

/// The word for the kind, in a network text and in what is printed.
pub fn kind_word<'a>(kind: Kind) -> &'a [u8]
    ensures { result.now ≡ kind_word kind }
{
    match kind {
        Kind::Buffer => b"buffer",
        Kind::Joint => b"joint",
        Kind::Point => b"point",
        Kind::Crossing => b"crossing",
    }
}

/// The word for the side, in a network text and in what is printed.
pub fn side_word<'a>(side: Side) -> &'a [u8]
    ensures { result.now ≡ side_word side }
{
    match side {
        Side::Left => b"left",
        Side::Right => b"right",
    }
}
