ghost use Rattle.std.specs.Prelude.{◌≡◌, ◌∷◌, ◌++◌, codes, IfSome, Ok};
ghost use Rattle.rl_schedule.specs.Given.{item_at, line_of};
ghost use Rattle.rl_schedule.specs.Orders.{role_word};
ghost use Rattle.rl_schedule.specs.Readings.{nodes_of};
ghost use Rattle.rl_schedule.specs.Turns.{HasNode};

use crate::nodes::{Near, node_named};
use crate::roles::Role;
use crate::schedules::Item;
use rl_net::Network;
use rl_text::TextLine;

/// What follows the front, where the text begins with it.
#[inline(always)]
fn behind<'a>(text: &'a [u8], front: &[u8]) -> Option<&'a [u8]>
    ensures { IfSome result (λ rest. text.now ≡ front.now ++ rest.now) }
{
    text.strip_prefix(front)
}

/// The role that a word begins with, and what follows its colon.
#[inline(always)]
fn role_and_name(word: &[u8]) -> Option<(Role, &[u8])>
    ensures { IfSome result (λ r. word.now ≡ role_word r.0 ++ 58 ∷ r.1.now) }
{
    if let Some(name) = behind(word, b"box:") {
        Some((Role::SwitchBox, name))
    } else if let Some(name) = behind(word, b"machine:") {
        Some((Role::Machine, name))
    } else if let Some(name) = behind(word, b"train:") {
        Some((Role::Train, name))
    } else {
        let name = behind(word, b"track:")?;
        Some((Role::Track, name))
    }
}

/// The item of a line `turn KIND:NAME` with a name that is there. Of every other line it says nothing.
#[inline(always)]
pub(crate) fn plain_turn(net: &Network, near: &mut Near, line: &TextLine<'_>) -> Option<Item>
    ensures item { IfSome result (λ item. item_at net.now line.now.number (line_of line.now) ≡ Ok item) }
    ensures within { IfSome result (HasNode (nodes_of net.now)) }
{
    // What acceptance gave, for the proof: names are names.
    let _layout = net.layout();
    if !line.whole {
        return None;
    }
    let word = behind(line.text, b"turn ")?;
    let (role, name) = role_and_name(word)?;
    let node = node_named(net, near, role, name)?;
    Some(Item::Turn { node, count: 1 })
}
