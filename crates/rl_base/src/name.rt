ghost use Rattle.std.specs.Prelude.{◌≡◌, ℕ, List, IfOk};
ghost use Rattle.std.specs.List.{list_all};
ghost use Rattle.rl_base.specs.Name.{is_name, is_name_byte};

use crate::limits::MAX_NAME;
use crate::memory::NoMemory;
use crate::sequence::Sequence;
use std::alloc::Global;
use std::marker::Model;

/// The name of a segment, a box or a train, as bytes. A draft may hold any bytes; a network holds only
/// names of 1 to 16 letters, digits, `_` and `-`.
#[derive(Debug, Drop)]
pub struct Name {
    bytes: Vec<u8>,
}

impl Model for Name {
    ghost Value = { List ℕ };

    ghost view = { λ n. n.bytes.items };
}

pub type Names = Sequence<Name>;

impl Name {
    /// Copies a text.
    pub fn of(alloc: Global, text: &[u8]) -> Result<Name, NoMemory>
        ensures { IfOk result (λ name. name ≡ text.now) }
    {
        Ok(Name {
            bytes: Vec::from_slice(alloc, text)?,
        })
    }

    /// Lends the text.
    pub fn bytes(&self) -> &[u8]
        ensures { result.now ≡ self.now }
    {
        self.bytes.as_slice()
    }
}

fn is_byte_of_name(b: u8) -> bool
    ensures { result ≡ is_name_byte b }
{
    b.is_ascii_alphanumeric() || b == b'_' || b == b'-'
}

fn are_bytes_of_name(text: &[u8]) -> bool
    ensures { result ≡ list_all is_name_byte text.now }
{
    text.iter().all(|b| is_byte_of_name(*b))
}

/// Whether the text is a name: 1 to 16 bytes of `A-Z a-z 0-9 _ -`.
pub fn name_ok(text: &[u8]) -> bool
    ensures { result ≡ is_name text.now }
{
    1 <= text.len() && text.len() <= MAX_NAME && are_bytes_of_name(text)
}
