ghost use Rattle.std.specs.Prelude.{◌≡◌, ◌≤◌, OnOk, IfOk, length};
ghost use Rattle.rl_base.specs.declared.limits.TheConstants.{MAX_MOVES};
ghost use Rattle.rl_model.specs.Reports.{IsReportOf};
ghost use Rattle.rl_jam.specs.Jams.{AreJams};
ghost use Rattle.rl_jam.specs.Finding.{with_jam};

use crate::refusals::last_refusals;
use crate::rings::jam_from;
use crate::waits::{Jam, Jams};
use rl_base::{NoMemory, TrainId};
use rl_model::Report;
use rl_net::Network;
use std::alloc::Global;

/// Appends the jam, if there is one.
fn push_jam(jams: &mut Jams, jam: Option<Jam>) -> Result<(), NoMemory>
    ensures { OnOk result (jams.new ≡ with_jam jams.old jam) }
{
    match jam {
        Some(jam) => jams.push(jam),
        None => Ok(()),
    }
}

/// All jams of the report, in the order of their first trains. It goes over the moves once, and takes memory for a row a
/// train and for the jams.
pub fn find_jams(alloc: Global, net: &Network, report: &Report) -> Result<Jams, NoMemory>
    requires of { IsReportOf net.now report.now }
    requires few { length report.now.moves ≤ MAX_MOVES }
    ensures { IfOk result (AreJams report.now) }
{
    let last = last_refusals(alloc, net, report.moves.as_slice())?;
    let mut jams = Jams::new(alloc);
    for t in 0..net.trains() {
        let jam = jam_from(alloc, report, last.as_slice(), TrainId(t))?;
        push_jam(&mut jams, jam)?;
    }
    Ok(jams)
}
