//! Texts at the limits, made by a word and a number.
use super::*;
use rl_text::read_number;

/// The track with one train, which goes to and fro so many steps.
fn to_and_fro(alloc: Global, steps: u32) -> Result<String, Fail> {
    let mut text = TRACK.to_string(alloc)?;
    text.push_str("\n[[train]]\nname = \"T\"\nroute = [\"A\"")?;
    for k in 0..steps {
        text.push_str(if k % 2 == 0 {
            ", \"J1\", \"B\""
        } else {
            ", \"J1\", \"A\""
        })?;
    }
    text.push_str("]\n")?;
    Ok(text)
}

/// The track with so many trains, all on one segment.
fn crowded(alloc: Global, trains: u32) -> Result<String, Fail> {
    let mut text = TRACK.to_string(alloc)?;
    for t in 0..trains {
        let train = format!(in alloc; "\n[[train]]\nname = \"T{t}\"\nroute = [\"A\"]\n")?;
        text.push_str(train.as_str())?;
    }
    Ok(text)
}

/// The line of one train, and signs of comments up to so many bytes.
fn padded(alloc: Global, length: usize) -> Result<String, Fail> {
    let mut text = STRAIGHT.to_string(alloc)?;
    for _ in STRAIGHT.len()..length {
        text.push_str("#")?;
    }
    Ok(text)
}

/// The text that is made by the word and the number.
pub(super) fn made_text(alloc: Global, order: &str) -> Result<String, Fail> {
    let (word, number) = order.split_once(' ').ok_or("no number")?;
    let number = read_number(number.as_bytes()).ok_or("no number")?;
    let number = u32::try_from(number).ok().ok_or("a large number")?;
    match word.as_bytes() {
        b"steps" => to_and_fro(alloc, number),
        b"crowd" => crowded(alloc, number),
        _ => padded(alloc, number as usize),
    }
}
