//! Rule 15: no two trains start on one segment.
ghost use Rattle.std.specs.Prelude.{◌≡◌, ◌<◌, ◌≤◌, false, length, slice_get, bytes_eq};
ghost use Rattle.rl_base.specs.declared.limits.TheConstants.{MAX_TRAINS};
ghost use Rattle.std.specs.Option.{option_map_or};
ghost use Rattle.std.specs.List.{list_any};
ghost use Rattle.rl_base.specs.declared.place.Place.TheVariants as place;
ghost use Rattle.rl_drafts.specs.Refusals.{is_start, starts_below};
ghost use Rattle.rl_drafts.specs.Search.{among_places_of, among_route_places};
ghost use Rattle.rl_net.specs.Sizes.{HasFewItems};

use rl_base::{Draft, DraftTrain, Place};

fn starts_at(t: &DraftTrain, name: &[u8]) -> bool
    ensures { result ≡ option_map_or (λ n. bytes_eq n name.now) (slice_get t.now.route 0) false }
{
    !t.route.is_empty() && t.route.at(0).bytes() == name
}

fn is_start_among(trains: &[DraftTrain], name: &[u8]) -> bool
    ensures { result ≡ list_any (λ t. option_map_or (λ n. bytes_eq n name.now) (slice_get t.route 0) false) trains.now }
{
    trains.iter().any(|t| starts_at(t, name))
}

/// Whether a train before train `i` starts at the segment of that name.
fn is_start_of_earlier(draft: &Draft, i: usize, name: &[u8]) -> bool
    requires { i < length draft.now.trains }
    ensures { result ≡ is_start (starts_below draft.now i) name.now }
{
    is_start_among(&draft.trains.as_slice()[..i], name)
}

/// The first place of route `i`, if an earlier train has the same.
fn shared_start(draft: &Draft, i: usize) -> Option<Place>
    requires few { length draft.now.trains ≤ MAX_TRAINS }
    requires train_in { i < length draft.now.trains }
    ensures { result ≡ among_places_of draft.now 15 i }
{
    let route = &draft.trains.at(i).route;
    if !route.is_empty() && is_start_of_earlier(draft, i, route.at(0).bytes()) {
        Some(Place::RouteItem(i as u32, 0))
    } else {
        None
    }
}

/// The first route that begins as an earlier one does.
pub(crate) fn first_start_shared(draft: &Draft) -> Option<Place>
    requires { HasFewItems draft.now }
    ensures { result ≡ among_route_places draft.now 15 }
{
    for i in 0..draft.trains.len() {
        if let Some(place) = shared_start(draft, i) {
            return Some(place);
        }
    }
    None
}
