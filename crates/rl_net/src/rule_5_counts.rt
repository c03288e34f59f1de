//! Rule 5: not too many segments, boxes, trains or names in a route.
ghost use Rattle.std.specs.Prelude.{◌≡◌, ◌<◌, ◌≤◌, length, None, IfNone};
ghost use Rattle.rl_base.specs.declared.place.Place.TheVariants as place;
ghost use Rattle.rl_drafts.specs.Refusals.{breaks};
ghost use Rattle.rl_drafts.specs.Search.{among_trains, first_count};
ghost use Rattle.rl_net.specs.Sizes.{HasFewItems};

use rl_base::limits::{MAX_BOXES, MAX_ROUTE, MAX_SEGMENTS, MAX_TRAINS};
use rl_base::{Draft, Place};

fn is_route_too_long(draft: &Draft, i: usize) -> bool
    requires { i < length draft.now.trains }
    ensures { result ≡ breaks draft.now 5 (place.TrainRoute i) }
{
    draft.trains.at(i).route.len() > MAX_ROUTE
}

/// The first route that is too long.
fn first_long_route(draft: &Draft) -> Option<Place>
    requires { length draft.now.trains ≤ MAX_TRAINS }
    ensures { result ≡ among_trains draft.now 5 place.TrainRoute }
{
    for i in 0..draft.trains.len() {
        if is_route_too_long(draft, i) {
            return Some(Place::TrainRoute(i as u32));
        }
    }
    None
}

/// The first place that has too many segments, boxes, trains or route places.
pub(crate) fn first_count(draft: &Draft) -> Option<Place>
    ensures place { result ≡ first_count draft.now }
    ensures few { result ≡ None → HasFewItems draft.now }
{
    if draft.segments.len() > MAX_SEGMENTS {
        Some(Place::Segments)
    } else if draft.boxes.len() > MAX_BOXES {
        Some(Place::Boxes)
    } else if draft.trains.len() > MAX_TRAINS {
        Some(Place::Trains)
    } else {
        first_long_route(draft)
    }
}
