//! Rule 11: a point says at which side it stands, and no other box does.
ghost use Rattle.std.specs.Prelude.{◌≡◌, ◌<◌, length};
ghost use Rattle.rl_base.specs.declared.place.Place.TheVariants as place;
ghost use Rattle.rl_drafts.specs.Refusals.{breaks};
ghost use Rattle.rl_drafts.specs.Search.{among_boxes};
ghost use Rattle.rl_net.specs.Sizes.{HasFewItems};

use rl_base::{Draft, Kind, Place};

fn has_wrong_side(draft: &Draft, i: usize) -> bool
    requires { i < length draft.now.boxes }
    ensures { result ≡ breaks draft.now 11 (place.BoxSide i) }
{
    let x = draft.boxes.at(i);
    match x.kind {
        Kind::Point => x.at.is_none(),
        Kind::Buffer | Kind::Joint | Kind::Crossing => x.at.is_some(),
    }
}

/// The first point without a side, or other box with one.
pub(crate) fn first_at(draft: &Draft) -> Option<Place>
    requires { HasFewItems draft.now }
    ensures { result ≡ among_boxes draft.now 11 place.BoxSide }
{
    for i in 0..draft.boxes.len() {
        if has_wrong_side(draft, i) {
            return Some(Place::BoxSide(i as u32));
        }
    }
    None
}
