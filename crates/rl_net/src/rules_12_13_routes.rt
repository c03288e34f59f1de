//! Rules 12 and 13: a route has an odd number of names, which are in turn those of segments and of boxes.
ghost use Rattle.std.specs.Prelude.{◌≡◌, ◌<◌, ◌≤◌, length};
ghost use Rattle.rl_base.specs.declared.limits.TheConstants.{MAX_ROUTE, MAX_TRAINS};
ghost use Rattle.rl_base.specs.declared.place.Place.TheVariants as place;
ghost use Rattle.rl_drafts.specs.Refusals.{breaks};
ghost use Rattle.rl_drafts.specs.Search.{among_places_of, among_route_places, among_trains, route_length};
ghost use Rattle.rl_net.specs.Sizes.{HasFewItems};

use crate::named_draft::NamedDraft;
use rl_base::{Draft, Place};

fn is_even_route(draft: &Draft, i: usize) -> bool
    requires { i < length draft.now.trains }
    ensures { result ≡ breaks draft.now 12 (place.TrainRoute i) }
{
    draft.trains.at(i).route.len() % 2 == 0
}

/// The first route that has an even number of names.
pub(crate) fn first_route_shape(draft: &Draft) -> Option<Place>
    requires { HasFewItems draft.now }
    ensures { result ≡ among_trains draft.now 12 place.TrainRoute }
{
    for i in 0..draft.trains.len() {
        if is_even_route(draft, i) {
            return Some(Place::TrainRoute(i as u32));
        }
    }
    None
}

fn is_wrong_name(index: &NamedDraft<'_>, i: usize, j: usize) -> bool
    requires train_in { i < length index.now.trains }
    requires place_in { j < route_length index.now i }
    ensures { result ≡ breaks index.now 13 (place.RouteItem i j) }
{
    let name = index.draft().trains.at(i).route.at(j).bytes();
    if j % 2 == 0 {
        index.segment_number(name).is_none()
    } else {
        index.box_number(name).is_none()
    }
}

/// The first place of route `i` that should name a segment or a box and doesn't.
fn first_wrong_name(index: &NamedDraft<'_>, i: usize) -> Option<Place>
    requires few { length index.now.trains ≤ MAX_TRAINS }
    requires train_in { i < length index.now.trains }
    requires places { route_length index.now i ≤ MAX_ROUTE }
    ensures { result ≡ among_places_of index.now 13 i }
{
    for j in 0..index.draft().trains.at(i).route.len() {
        if is_wrong_name(index, i, j) {
            return Some(Place::RouteItem(i as u32, j as u32));
        }
    }
    None
}

/// The first route place that should name a segment or a box and doesn't.
pub(crate) fn first_route_name(index: &NamedDraft<'_>) -> Option<Place>
    requires { HasFewItems index.now }
    ensures { result ≡ among_route_places index.now 13 }
{
    for i in 0..index.draft().trains.len() {
        if let Some(place) = first_wrong_name(index, i) {
            return Some(place);
        }
    }
    None
}
