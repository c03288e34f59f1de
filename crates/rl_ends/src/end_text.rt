ghost use Rattle.std.specs.Prelude.{◌≡◌, ◌<◌, ◌==◌, nat_le, ◌&&◌, IfOk, MatchOption};
ghost use Rattle.rl_ends.specs.EndNames.{end_of, end_text};

use rl_base::{Arm, NoMemory, name_ok};
use std::alloc::Global;
use std::marker::Model;

/// The text of an end, as bytes: where it is right, a box name, a dot and the number of an arm, as `J1.0`. It may
/// hold any bytes.
#[derive(Debug, Drop)]
pub struct EndText {
    bytes: Vec<u8>,
}

impl Model for EndText {
    ghost use Rattle.std.specs.Prelude.{ℕ, List};

    ghost Value = { List ℕ };

    ghost view = { λ t. t.bytes.items };
}

impl EndText {
    /// Copies a text.
    pub fn of(alloc: Global, text: &[u8]) -> Result<EndText, NoMemory>
        ensures { IfOk result (λ t. t ≡ text.now) }
    {
        Ok(EndText {
            bytes: Vec::from_slice(alloc, text)?,
        })
    }

    /// The text that names this arm of the box of that name.
    pub fn naming(alloc: Global, name: &[u8], arm: Arm) -> Result<EndText, NoMemory>
        requires { arm.0 < 4 }
        ensures { IfOk result (λ t. t ≡ end_text name.now arm.0) }
    {
        let mut bytes = Vec::from_slice(alloc, name)?;
        bytes.push(b'.')?;
        bytes.push(b'0' + arm.0 as u8)?;
        Ok(EndText { bytes })
    }

    /// Lends the text.
    pub fn bytes(&self) -> &[u8]
        ensures { result.now ≡ self.now }
    {
        self.bytes.as_slice()
    }
}

/// Whether these two bytes are a dot and a digit from 0 to 3.
fn are_dot_and_digit(dot: u8, digit: u8) -> bool
    ensures { result ≡ (dot == 46 && nat_le 48 digit && nat_le digit 51) }
{
    dot == b'.' && b'0' <= digit && digit <= b'3'
}

/// The name of a box and the number of an arm that the text of an end says.
pub(crate) fn name_and_arm(text: &[u8]) -> Option<(&[u8], u32)>
    ensures { MatchOption result (end_of text.now ≡ None)
        (λ e. end_of text.now ≡ Some (record { name = e.0.now; arm = e.1 })) }
{
    if text.len() < 2 {
        return None;
    }
    let (name, rest) = text.split_at(text.len() - 2);
    let digit = rest[1];
    if are_dot_and_digit(rest[0], digit) && name_ok(name) {
        Some((name, u32::from(digit - b'0')))
    } else {
        None
    }
}
