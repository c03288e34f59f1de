ghost use Rattle.std.specs.Prelude.{◌≡◌, ◌∷◌, ◌==◌, option_map};
ghost use Rattle.std.specs.List.{position_or_len};
ghost use Rattle.rl_text.specs.Words.{words_of};
ghost use Rattle.rl_schedule.specs.Given.{line_of, named, ordered, words_in};
ghost use Rattle.rl_schedule.specs.Orders.{count_of, node_of, order_of, role_of, turns_order};
ghost use Rattle.rl_schedule.specs.Orders.{order_of_two, order_of_three, order_of_words};

use crate::roles::Role;
use rl_base::limits::MAX_TURNS;
use rl_base::name_ok;
use rl_text::{TextLine, read_number};

/// A node as a line names it: what it is, and the name of its train or box.
#[derive(Clone, Copy, Debug)]
pub(crate) struct GivenNode<'a> {
    pub role: Role,
    pub name: &'a [u8],
}

/// What a line orders.
#[derive(Clone, Copy, Debug)]
pub(crate) enum Given<'a> {
    /// So many turns of the node.
    Turns { node: GivenNode<'a>, count: u32 },
    /// So many rounds.
    Rounds { count: u32 },
}

/// The first place of the byte, or the length where it stands nowhere.
#[inline(always)]
fn place_of(byte: u8, text: &[u8]) -> usize
    ensures { result ≡ position_or_len (λ b. b == byte) text.now }
{
    for (i, b) in text.iter().enumerate() {
        if *b == byte {
            return i;
        }
    }
    text.len()
}

/// The first word of a text, and what follows the space after it.
#[inline(always)]
fn first_word(text: &[u8]) -> (&[u8], Option<&[u8]>)
    ensures { words_of text.now ≡ result.0.now ∷ words_in result.1 }
{
    let end = place_of(b' ', text);
    if end < text.len() {
        (&text[..end], Some(&text[end + 1..]))
    } else {
        (text, None)
    }
}

/// What a node is, by the word for it.
fn role_of(word: &[u8]) -> Option<Role>
    ensures { result ≡ role_of word.now }
{
    match word {
        b"train" => Some(Role::Train),
        b"track" => Some(Role::Track),
        b"box" => Some(Role::SwitchBox),
        _ if word == b"machine".as_slice() => Some(Role::Machine),
        _ => None,
    }
}

/// The node that the word names.
fn node_of(word: &[u8]) -> Option<GivenNode<'_>>
    ensures { option_map named result ≡ node_of word.now }
{
    let colon = place_of(b':', word);
    if colon >= word.len() {
        return None;
    }
    let name = &word[colon + 1..];
    if !name_ok(name) {
        return None;
    }
    let role = role_of(&word[..colon])?;
    Some(GivenNode { role, name })
}

/// The count that the word writes.
fn count_of(word: &[u8]) -> Option<u32>
    ensures { result ≡ count_of word.now }
{
    let count = read_number(word)?;
    if 1 <= count && count <= MAX_TURNS {
        Some(count as u32)
    } else {
        None
    }
}

/// So many turns of the node that the word names.
fn turns_of(node: &[u8], count: u32) -> Option<Given<'_>>
    ensures { option_map ordered result ≡ turns_order node.now (Some count) }
{
    let node = node_of(node)?;
    Some(Given::Turns { node, count })
}

/// The order that two words give.
fn order_of_two<'a>(first: &[u8], second: &'a [u8]) -> Option<Given<'a>>
    ensures { option_map ordered result ≡ order_of_two first.now second.now }
{
    match first {
        b"turn" => turns_of(second, 1),
        b"round" => {
            let count = count_of(second)?;
            Some(Given::Rounds { count })
        }
        _ => None,
    }
}

/// The order that three words give.
fn order_of_three<'a>(first: &[u8], second: &'a [u8], third: &[u8]) -> Option<Given<'a>>
    ensures { option_map ordered result ≡ order_of_three first.now second.now third.now }
{
    if first == b"turn".as_slice() {
        let count = count_of(third)?;
        turns_of(second, count)
    } else {
        None
    }
}

/// The order that the words of a line give.
fn order_of_words(text: &[u8]) -> Option<Given<'_>>
    ensures { option_map ordered result ≡ order_of_words (words_of text.now) }
{
    let (first, behind) = first_word(text);
    let (second, behind) = first_word(behind?);
    match behind {
        None => order_of_two(first, second),
        Some(text) => {
            let (third, behind) = first_word(text);
            match behind {
                None => order_of_three(first, second, third),
                Some(_) => None,
            }
        }
    }
}

/// The order that a line gives, if it gives one.
pub(crate) fn order_of<'a>(line: &TextLine<'a>) -> Option<Given<'a>>
    ensures { option_map ordered result ≡ order_of (line_of line.now) }
{
    if line.whole {
        order_of_words(line.text)
    } else {
        None
    }
}
