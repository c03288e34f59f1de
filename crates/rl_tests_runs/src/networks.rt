use rl_net::{Network, check};
use rl_syntax::read_draft;
use std::alloc::Global;
use std::test::Fail;

/// Two segments in a line, and a train that goes from the first to the second. Its nodes are train 0, track 1, the
/// boxes W 2, J1 3 and E 4, and their machines 5 to 7. Of its words 1 to 3 are the reservations, 4 to 6 the locks,
/// 7 the mail, 8 the run and 9 the sense word.
pub(crate) const STRAIGHT: &str = r#"format = 1
segments = ["A", "B"]
box = [
  { name = "W", kind = "buffer", arms = ["A"] },
  { name = "J1", kind = "joint", arms = ["A", "B"] },
  { name = "E", kind = "buffer", arms = ["B"] },
]
train = [{ name = "T1", route = ["A", "J1", "B"] }]
"#;

/// The same with a second train, which stands on the second segment.
pub(crate) const OCCUPIED: &str = r#"format = 1
segments = ["A", "B"]
box = [
  { name = "W", kind = "buffer", arms = ["A"] },
  { name = "J1", kind = "joint", arms = ["A", "B"] },
  { name = "E", kind = "buffer", arms = ["B"] },
]
train = [{ name = "T1", route = ["A", "J1", "B"] }, { name = "T2", route = ["B"] }]
"#;

/// Two lines that have nothing in common, each with a train.
pub(crate) const TWO_LINES: &str = r#"format = 1
segments = ["A", "B", "C", "D"]
box = [
  { name = "W1", kind = "buffer", arms = ["A"] },
  { name = "J1", kind = "joint", arms = ["A", "B"] },
  { name = "E1", kind = "buffer", arms = ["B"] },
  { name = "W2", kind = "buffer", arms = ["C"] },
  { name = "J2", kind = "joint", arms = ["C", "D"] },
  { name = "E2", kind = "buffer", arms = ["D"] },
]
train = [{ name = "T1", route = ["A", "J1", "B"] }, { name = "T2", route = ["C", "J2", "D"] }]
"#;

/// A point that stands at left, and a train that goes right.
pub(crate) const FORK: &str = r#"format = 1
segments = ["S", "L", "R"]
box = [
  { name = "W", kind = "buffer", arms = ["S"] },
  { name = "P", kind = "point", arms = ["S", "L", "R"], at = "left" },
  { name = "EL", kind = "buffer", arms = ["L"] },
  { name = "ER", kind = "buffer", arms = ["R"] },
]
train = [{ name = "T1", route = ["S", "P", "R"] }]
"#;

/// Two tracks that cross, with a train on each.
pub(crate) const CROSSING: &str = r#"format = 1
segments = ["A", "B", "C", "D"]
box = [
  { name = "X", kind = "crossing", arms = ["A", "B", "C", "D"] },
  { name = "WA", kind = "buffer", arms = ["A"] },
  { name = "EB", kind = "buffer", arms = ["B"] },
  { name = "WC", kind = "buffer", arms = ["C"] },
  { name = "ED", kind = "buffer", arms = ["D"] },
]
train = [{ name = "T1", route = ["A", "X", "B"] }, { name = "T2", route = ["C", "X", "D"] }]
"#;

/// The network of the text.
pub(crate) fn network(alloc: Global, text: &str) -> Result<Network, Fail> {
    Ok(check(alloc, read_draft(alloc, text.as_bytes())?)?)
}
