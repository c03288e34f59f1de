ghost use Rattle.std.specs.Prelude.{◌≡◌, ◌≢◌, ℕ, ◌≤◌, ◌<◌, List, Option, length, IfOk, IfSome, IsErrOf};
ghost use Rattle.rl_outside.specs.Causes.{CountsFetch};
ghost use Rattle.rl_outside.specs.declared.files.Fetch.TheVariants.{NoMemory as no_memory};

use rl_base::NoMemory;
use std::alloc::{AllocError, Global};

/// Why a fetch gives no bytes.
#[derive(Clone, Copy, Debug, PartialEq, Eq)]
pub enum Fetch {
    /// The file isn't there, or can't be read. The count of faults of its name has risen.
    Failed,
    /// The file is longer than the limit that the caller gave.
    TooLong,
    NoMemory,
}

impl From<AllocError> for Fetch {
    ghost from_gives = { λ _ fetch. fetch ≡ no_memory };

    fn from(_error: AllocError) -> Fetch {
        Fetch::NoMemory
    }
}

impl From<NoMemory> for Fetch {
    ghost from_gives = { λ _ fetch. fetch ≡ no_memory };

    fn from(_error: NoMemory) -> Fetch {
        Fetch::NoMemory
    }
}

/// Where files come from. `held` tells the bytes under a name, or leaves them untold, and `faults` counts
/// the faults of each name. Contracts see a name as its bytes.
pub trait Files {
    ghost held: { Self → List ℕ → Option (List ℕ) };

    ghost faults: { Self → List ℕ → ℕ };

    /// Fetches the whole file under the name, of at most `limit` bytes. The bytes are the caller's own.
    fn fetch(&mut self, alloc: Global, name: &str, limit: usize) -> Result<Vec<u8>, Fetch>
        ensures within { IfOk result (λ bytes. length bytes.items ≤ limit) }
        ensures told { IfOk result (λ bytes. IfSome (held self.old name.now) (λ there. bytes.items ≡ there)) }
        ensures too_long { IsErrOf result Fetch.TooLong →
            IfSome (held self.old name.now) (λ there. limit < length there) }

        // The name's count rises where the fetch failed, and at nothing else. The counts of other names stay.
        ensures cause { CountsFetch result (faults self.old name.now) (faults self.new name.now) }
        ensures others { (n : List ℕ) → n ≢ name.now → faults self.new n ≡ faults self.old n }
        ensures later { (n : List ℕ) → faults self.old n ≤ faults self.new n }

        // No answer changes a file.
        ensures files_stay { (n : List ℕ) → held self.new n ≡ held self.old n };
}
