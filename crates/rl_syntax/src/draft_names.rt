ghost use Rattle.std.specs.Prelude.{◌≡◌, [], ◌∷◌, All};
ghost use Rattle.std.specs.Result.{result_err};
ghost use Rattle.rl_syntax.specs.Condition.{first, of_list};
ghost use Rattle.rl_syntax.specs.Countable.{IsCountable, HasCountableArms, HasCountableRoute, HasCountableLists};
ghost use Rattle.rl_syntax.specs.NameConditions.{no_name, no_names, of_box, of_train, name_conditions};

use crate::names::NameList;
use rl_base::{Draft, DraftBox, DraftTrain, Name, Place, name_ok};

/// Whether a text is a name. An `Err` here and below is the place of the first that is none.
fn test_name(place: Place, text: &Name) -> Result<(), Place>
    ensures { result_err result ≡ first (no_name place text.now ∷ []) }
{
    if name_ok(text.bytes()) {
        Ok(())
    } else {
        Err(place)
    }
}

/// Whether the texts of a list are names.
#[tactic(auto, unfolding(crate::specs::NameConditions::no_names), using(crate::proofs::Conditions::steps))]
fn test_names(list: NameList, texts: &[Name]) -> Result<(), Place>
    requires { IsCountable texts.now }
    ensures { result_err result ≡ first (no_names list texts.now) }
{
    for (j, text) in texts.iter().enumerate() {
        test_name(list.place_of(j as u32), text)?;
    }
    Ok(())
}

#[tactic(auto, unfolding(crate::specs::NameConditions::of_box))]
fn test_box(i: u32, draft: &DraftBox) -> Result<(), Place>
    requires { HasCountableArms draft.now }
    ensures { result_err result ≡ first (of_box i draft.now) }
{
    test_name(Place::BoxName(i), &draft.name)?;
    test_names(NameList::Arms(i), draft.arms.as_slice())
}

#[tactic(auto, unfolding(crate::specs::NameConditions::of_train))]
fn test_train(i: u32, draft: &DraftTrain) -> Result<(), Place>
    requires { HasCountableRoute draft.now }
    ensures { result_err result ≡ first (of_train i draft.now) }
{
    test_name(Place::TrainName(i), &draft.name)?;
    test_names(NameList::Route(i), draft.route.as_slice())
}

#[tactic(auto, using(crate::proofs::Conditions::steps))]
fn test_boxes(boxes: &[DraftBox]) -> Result<(), Place>
    requires countable { IsCountable boxes.now }
    requires arms { All HasCountableArms boxes.now }
    ensures { result_err result ≡ first (of_list of_box 0 boxes.now) }
{
    for (i, draft) in boxes.iter().enumerate() {
        test_box(i as u32, draft)?;
    }
    Ok(())
}

#[tactic(auto, using(crate::proofs::Conditions::steps))]
fn test_trains(trains: &[DraftTrain]) -> Result<(), Place>
    requires countable { IsCountable trains.now }
    requires routes { All HasCountableRoute trains.now }
    ensures { result_err result ≡ first (of_list of_train 0 trains.now) }
{
    for (i, draft) in trains.iter().enumerate() {
        test_train(i as u32, draft)?;
    }
    Ok(())
}

/// Whether each text of the draft that should be a name is one.
#[tactic(auto, unfolding(crate::specs::NameConditions::name_conditions), using(crate::proofs::Conditions::steps))]
pub(crate) fn test_draft(draft: &Draft) -> Result<(), Place>
    requires { HasCountableLists draft.now }
    ensures { result_err result ≡ first (name_conditions draft.now) }
{
    test_names(NameList::Segments, draft.segments.as_slice())?;
    test_boxes(draft.boxes.as_slice())?;
    test_trains(draft.trains.as_slice())
}
