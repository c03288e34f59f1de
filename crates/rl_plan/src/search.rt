ghost use Rattle.std.specs.Prelude.{ℕ, IfOk, true, false};
ghost use Rattle.rl_model.specs.Network.{IsSegmentOf};
ghost use Rattle.rl_plan.specs.Searching.{AreLevels, IsSearched};

use crate::marking::mark_round;
use rl_base::{NoMemory, SegId};
use rl_net::Network;
use std::alloc::Global;

/// Level 0 for the end, and none for every other segment.
fn first_levels(alloc: Global, net: &Network, to: SegId) -> Result<Vec<Option<u32>>, NoMemory>
    requires { IsSegmentOf net.now to }
    ensures { IfOk result (λ levels. IsSearched net.now to.0 0 true levels.items) }
{
    let mut levels = vec![in alloc; None; net.segments() as usize]?;
    levels[to.0 as usize] = Some(0);
    Ok(levels)
}

/// Searches on, level by level, until no segment gets a level any more.
fn search(net: &Network, to: SegId, levels: &mut [Option<u32>])
    requires { IsSearched net.now to.0 0 true levels.old }
    ensures { (n : ℕ) × IsSearched net.now to.0 n false levels.new }
{
    // What acceptance gave, for the proof.
    net.accepted();
    let mut n = 0;
    let mut more = true;
    while more {
        more = mark_round(net, levels, n);
        n += 1;
    }
}

/// The levels of all segments.
pub(crate) fn levels_to(
    alloc: Global,
    net: &Network,
    to: SegId,
) -> Result<Vec<Option<u32>>, NoMemory>
    requires { IsSegmentOf net.now to }
    ensures { IfOk result (λ levels. AreLevels net.now to levels.items) }
{
    let mut levels = first_levels(alloc, net, to)?;
    search(net, to, levels.as_mut_slice());
    Ok(levels)
}
