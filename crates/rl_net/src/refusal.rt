ghost use Rattle.std.specs.Prelude.{◌≡◌};
ghost use Rattle.rl_net.specs.NetRefusals.{refusal_number, refusal_place};
ghost use Rattle.rl_net.specs.declared.refusal.NetRefusal.TheVariants as refusal;

use rl_base::{NoMemory, Place};
use thiserror::Error;

/// Why a draft is no network: the rule that it breaks and where, or want of memory. Each rule has a
/// number, and stands in the order of the numbers.
#[derive(Debug, Drop, Error)]
pub enum NetRefusal {
    /// 5. More than `MAX_SEGMENTS` segments, `MAX_BOXES` boxes, `MAX_TRAINS` trains, or `MAX_ROUTE` names in a route.
    #[error("too many segments, boxes, trains or names in a route")]
    Count(Place),
    /// 6. A name that an earlier item of the same list has.
    #[error("a name stands twice")]
    Twice(Place),
    /// 7. A box that has not its kind's number of arms.
    #[error("a box has the wrong number of arms")]
    ArmCount(Place),
    /// 8. An arm whose name is no segment.
    #[error("an arm names no segment")]
    NoSegment(Place),
    /// 9. An arm that has the segment of an earlier arm of its box.
    #[error("two arms of a box name one segment")]
    SameBox(Place),
    /// 10. A segment that is named at a number of arms other than two.
    #[error("a segment has not two ends")]
    Ends(Place),
    /// 11. A point without a side at which it stands, or another box with one.
    #[error("a point without its side, or another box with one")]
    At(Place),
    /// 12. A route that has an even number of names.
    #[error("a route doesn't go from segment to segment")]
    RouteShape(Place),
    /// 13. A route place that should name a segment or a box and doesn't.
    #[error("a route names something that isn't there")]
    RouteName(Place),
    /// 14. A step of a route that its box connects at no side.
    #[error("a route takes a way that no box connects")]
    RouteFit(Place),
    /// 15. A route that begins on the segment on which an earlier one does.
    #[error("two trains start on one segment")]
    StartShared(Place),
    /// Memory ran out. It may stand in the place of every other answer.
    #[error("out of memory")]
    NoMemory,
}

impl From<NoMemory> for NetRefusal {
    ghost from_gives = { λ _ e. e ≡ refusal.NoMemory };

    fn from(_error: NoMemory) -> NetRefusal {
        NetRefusal::NoMemory
    }
}

impl NetRefusal {
    /// The number of the rule that is broken, 0 where memory ran out.
    pub fn number(&self) -> u32
        ensures { result ≡ refusal_number self.now }
    {
        match self {
            NetRefusal::Count(_) => 5,
            NetRefusal::Twice(_) => 6,
            NetRefusal::ArmCount(_) => 7,
            NetRefusal::NoSegment(_) => 8,
            NetRefusal::SameBox(_) => 9,
            NetRefusal::Ends(_) => 10,
            NetRefusal::At(_) => 11,
            NetRefusal::RouteShape(_) => 12,
            NetRefusal::RouteName(_) => 13,
            NetRefusal::RouteFit(_) => 14,
            NetRefusal::StartShared(_) => 15,
            NetRefusal::NoMemory => 0,
        }
    }

    /// The place at which it is broken, `None` where memory ran out.
    pub fn place(&self) -> Place
        ensures { result ≡ refusal_place self.now }
    {
        match self {
            NetRefusal::Count(place)
            | NetRefusal::Twice(place)
            | NetRefusal::ArmCount(place)
            | NetRefusal::NoSegment(place)
            | NetRefusal::SameBox(place)
            | NetRefusal::Ends(place)
            | NetRefusal::At(place)
            | NetRefusal::RouteShape(place)
            | NetRefusal::RouteName(place)
            | NetRefusal::RouteFit(place)
            | NetRefusal::StartShared(place) => *place,
            NetRefusal::NoMemory => Place::None,
        }
    }
}
