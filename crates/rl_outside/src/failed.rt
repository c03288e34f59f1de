ghost use Rattle.std.specs.Prelude.{◌≡◌, ◌≢◌, ◌+◌, ℕ, List, [], ◌∷◌, ◌++◌, OnOk, OnErr, ◌⊎◌, Err};
ghost use Rattle.rl_outside.specs.Causes.{CountsFetch, times_in, failed_after};

use crate::files::Fetch;
use rl_base::{NoMemory, Sequence, Text};
use std::alloc::Global;

/// The names of the fetches that failed, oldest first. A name stands there once for each of its faults.
pub type FailedNames = Sequence<Text>;

/// Notes that a fetch of the name failed.
fn note(alloc: Global, names: &mut FailedNames, name: &str) -> Result<(), NoMemory>
    ensures ok { OnOk result (names.new ≡ names.old ++ name.now ∷ []) }
    ensures err { OnErr result (names.new ≡ names.old) }
    ensures counted { OnOk result (times_in names.new name.now ≡ times_in names.old name.now + 1) }
    ensures others { (n : List ℕ) → n ≢ name.now → times_in names.new n ≡ times_in names.old n }
{
    let name = Text::of(alloc, name)?;
    names.push(name)?;
    Ok(())
}

/// The answer to a fetch of the name, after its fault was noted, if it is one. It stands, unless there is no
/// memory for the note.
pub fn noted<T: Drop>(
    alloc: Global,
    names: &mut FailedNames,
    name: &str,
    answer: Result<T, Fetch>,
) -> Result<T, Fetch>
    ensures stands { (result ≡ answer) ⊎ (result ≡ Err Fetch.NoMemory) }
    ensures after { names.new ≡ failed_after result names.old name.now }
    ensures cause { CountsFetch result (times_in names.old name.now) (times_in names.new name.now) }
    ensures others { (n : List ℕ) → n ≢ name.now → times_in names.new n ≡ times_in names.old n }
{
    if let Err(Fetch::Failed) = answer {
        note(alloc, names, name)?;
    }
    answer
}

/// How often the name stands in the list.
pub fn times_in(names: &FailedNames, name: &str) -> usize
    ensures { result ≡ times_in names.now name.now }
{
    names
        .as_slice()
        .iter()
        .filter(|n| n.as_str() == name)
        .count()
}
