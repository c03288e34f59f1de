ghost use Rattle.std.specs.Prelude.{[], ◌∷◌, ℕ, List, IfOk, IfErr};
ghost use Rattle.relis.specs.Reading.{FetchesOf, WasRead, WasNotRead, WasAccepted, WasNotAccepted};

use crate::judge::judge;
use crate::status::Status;
use rl_base::Place;
use rl_base::limits::MAX_NETWORK_BYTES;
use rl_net::Network;
use rl_outside::{Fetch, Files};
use std::alloc::Global;

/// What a text is called that is too long.
#[derive(Clone, Copy, Debug, PartialEq, Eq)]
pub struct TooLong {
    pub number: u32,
    pub place: Place,
}

/// Reads a whole file of at most `limit` bytes.
pub fn read_file<F: Files>(
    alloc: Global,
    files: &mut F,
    name: &str,
    limit: usize,
    too_long: TooLong,
) -> Result<Vec<u8>, Status>
    ensures read { IfOk result (λ bytes.
        WasRead (F.held files.old) (F.faults files.old) (F.faults files.new) name.now bytes.items) }
    ensures unread { IfErr result (WasNotRead (F.held files.old) (F.faults files.old) (F.faults files.new)
        name.now limit too_long.number too_long.place) }
    ensures fetches { FetchesOf (name.now ∷ [])
        (F.held files.old) (F.held files.new) (F.faults files.old) (F.faults files.new) }
{
    match files.fetch(alloc, name, limit) {
        Ok(bytes) => Ok(bytes),
        Err(Fetch::Failed) => Err(Status::ReadFault),
        Err(Fetch::TooLong) => Err(Status::Refused {
            number: too_long.number,
            place: too_long.place,
        }),
        Err(Fetch::NoMemory) => Err(Status::NoMemory),
    }
}

/// Reads a network.
pub fn read_network<F: Files>(alloc: Global, files: &mut F, name: &str) -> Result<Network, Status>
    ensures accepted { IfOk result
        (WasAccepted (F.held files.old) (F.faults files.old) (F.faults files.new) name.now) }
    ensures refused { IfErr result
        (WasNotAccepted (F.held files.old) (F.faults files.old) (F.faults files.new) name.now) }
    ensures fetches { FetchesOf (name.now ∷ [])
        (F.held files.old) (F.held files.new) (F.faults files.old) (F.faults files.new) }
{
    let too_long = TooLong {
        number: 1,
        place: Place::None,
    };
    let bytes = read_file(alloc, files, name, MAX_NETWORK_BYTES, too_long)?;
    judge(alloc, bytes.as_slice())
}
