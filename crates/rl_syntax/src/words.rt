ghost use Rattle.std.specs.Prelude.{◌≡◌};
ghost use Rattle.rl_syntax.specs.Words.{kind_named, side_named};

use rl_base::{Kind, Side, kind_word, side_word};

#[tactic(auto, unfolding(crate::specs::Words::kind_named))]
pub(crate) fn kind_named(text: &str) -> Option<Kind>
    ensures { result ≡ kind_named text.now }
{
    let kinds = [Kind::Buffer, Kind::Joint, Kind::Point, Kind::Crossing];
    kinds
        .iter()
        .copied()
        .find(|kind| kind_word(*kind) == text.as_bytes())
}

#[tactic(auto, unfolding(crate::specs::Words::side_named))]
pub(crate) fn side_named(text: &str) -> Option<Side>
    ensures { result ≡ side_named text.now }
{
    let sides = [Side::Left, Side::Right];
    sides
        .iter()
        .copied()
        .find(|side| side_word(*side) == text.as_bytes())
}
