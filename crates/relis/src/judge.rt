ghost use Rattle.std.specs.Prelude.{◌≡◌, ℕ, List, IfOk, IfErr, Ok, Err};
ghost use Rattle.rl_base.specs.declared.draft.Draft.{Draft};
ghost use Rattle.rl_net.specs.NetRefusals.{IsRefusal};
ghost use Rattle.rl_syntax.specs.Answer.{UnlessMemory};
ghost use Rattle.rl_syntax.specs.Meaning.{Means};
ghost use Rattle.relis.specs.Networks.{IsAcceptedAs, IsRefusalOf};

use crate::status::Status;
use rl_base::Place;
use rl_net::{NetRefusal, Network, check};
use rl_syntax::{SyntaxRefusal, read_draft};
use std::alloc::Global;

/// The status of a text that is refused.
pub fn refused(number: u32, place: Place) -> Status
    ensures { result ≡ Status.Refused number place }
{
    Status::Refused { number, place }
}

/// The status of a refusal of the reading.
fn of_syntax(refusal: SyntaxRefusal) -> Status
    ensures { (text : List ℕ) → UnlessMemory (Err refusal) (Means text (Err refusal)) → IsRefusalOf text result }
{
    match refusal {
        SyntaxRefusal::NoMemory => Status::NoMemory,
        _ => refused(refusal.number(), refusal.place()),
    }
}

/// The status of a refusal of the draft.
fn of_network(refusal: &NetRefusal) -> Status
    ensures { (text : List ℕ) (d : Draft) → Means text (Ok d) → IsRefusal d refusal.now → IsRefusalOf text result }
{
    match refusal {
        NetRefusal::NoMemory => Status::NoMemory,
        _ => refused(refusal.number(), refusal.place()),
    }
}

/// The network of a text, or the status of its first refusal.
pub fn judge(alloc: Global, text: &[u8]) -> Result<Network, Status>
    ensures accepted { IfOk result (IsAcceptedAs text.now) }
    ensures refused { IfErr result (IsRefusalOf text.now) }
{
    let draft = match read_draft(alloc, text) {
        Ok(draft) => draft,
        Err(refusal) => return Err(of_syntax(refusal)),
    };
    match check(alloc, draft) {
        Ok(net) => Ok(net),
        Err(refusal) => Err(of_network(&refusal)),
    }
}
