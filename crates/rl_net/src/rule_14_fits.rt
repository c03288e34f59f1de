//! Rule 14: each box of a route connects the segments before and after it.
ghost use Rattle.std.specs.Prelude.{◌≡◌, ◌+◌, ◌-◌, ◌<◌, ◌≤◌, length, slice_get, option_map, option_and_then, IfSome};
ghost use Rattle.rl_base.specs.declared.limits.TheConstants.{MAX_ROUTE, MAX_TRAINS};
ghost use Rattle.rl_base.specs.declared.place.Place.TheVariants as place;
ghost use Rattle.rl_drafts.specs.Drafts.{number_in};
ghost use Rattle.rl_drafts.specs.Refusals.{breaks, connects_names, fits_at};
ghost use Rattle.rl_drafts.specs.Search.{among_places_of, among_route_places, route_length};
ghost use Rattle.rl_net.specs.Sizes.{HasFewItems, HasFewArms};

use crate::named_draft::NamedDraft;
use crate::names::number_among;
use rl_base::{Arm, DraftBox, Names, Place, Side, joins};

/// The arm of the box that has the segment at place `k` of the route.
fn arm_for(x: &DraftBox, route: &Names, k: usize) -> Option<Arm>
    requires { length x.now.arms ≤ 4 }
    ensures { option_map (λ a. a.0) result ≡ option_and_then (number_in x.now.arms) (slice_get route.now k) }
{
    if k >= route.len() {
        return None;
    }
    match number_among(&x.arms, route.at(k).bytes()) {
        Some(a) => Some(Arm(a as u32)),
        None => None,
    }
}

/// Whether at some side the box connects the segments before and after place `j` of the route.
fn connects_at(x: &DraftBox, route: &Names, j: usize) -> bool
    requires arms { length x.now.arms ≤ 4 }
    requires places { length route.now ≤ MAX_ROUTE }
    requires place_in { j < length route.now }
    requires box_place { 0 < j }
    ensures { result ≡ connects_names x.now (slice_get route.now (j - 1)) (slice_get route.now (j + 1)) }
{
    match (arm_for(x, route, j - 1), arm_for(x, route, j + 1)) {
        (Some(a), Some(c)) => {
            joins(x.kind, a, c, Side::Left) || joins(x.kind, a, c, Side::Right)
        }
        _ => false,
    }
}

/// Whether the box at place `j` of the route connects the segments before and after it.
fn fits(index: &NamedDraft<'_>, route: &Names, j: usize) -> bool
    requires arms { HasFewArms index.now }
    requires places { length route.now ≤ MAX_ROUTE }
    requires place_in { j < length route.now }
    requires box_place { 0 < j }
    ensures { result ≡ fits_at index.now route.now j }
{
    match index.box_number(route.at(j).bytes()) {
        Some(b) => connects_at(index.draft().boxes.at(b), route, j),
        None => false,
    }
}

fn is_unfit(index: &NamedDraft<'_>, i: usize, j: usize) -> bool
    requires arms { HasFewArms index.now }
    requires train_in { i < length index.now.trains }
    requires places { route_length index.now i ≤ MAX_ROUTE }
    requires place_in { j < route_length index.now i }
    ensures { result ≡ breaks index.now 14 (place.RouteItem i j) }
{
    j % 2 == 1 && !fits(index, &index.draft().trains.at(i).route, j)
}

/// The first place of route `i` whose box connects no such segments.
fn first_unfit_place(index: &NamedDraft<'_>, i: usize) -> Option<Place>
    requires arms { HasFewArms index.now }
    requires few { length index.now.trains ≤ MAX_TRAINS }
    requires train_in { i < length index.now.trains }
    requires places { route_length index.now i ≤ MAX_ROUTE }
    ensures { result ≡ among_places_of index.now 14 i }
{
    for j in 0..index.draft().trains.at(i).route.len() {
        if is_unfit(index, i, j) {
            return Some(Place::RouteItem(i as u32, j as u32));
        }
    }
    None
}

/// The first route place whose box connects no such segments.
pub(crate) fn first_route_fit(index: &NamedDraft<'_>) -> Option<Place>
    requires items { HasFewItems index.now }
    requires arms { HasFewArms index.now }
    ensures { result ≡ among_route_places index.now 14 }
{
    for i in 0..index.draft().trains.len() {
        if let Some(place) = first_unfit_place(index, i) {
            return Some(place);
        }
    }
    None
}
