ghost use Rattle.std.specs.Prelude.{◌≡◌, IfOk, replicate};
ghost use Rattle.rl_base.specs.Layout.{node_count};
ghost use Rattle.rl_tables.specs.Kept.{IsLine};
ghost use Rattle.rl_tables.specs.Starts.{layout_of};
ghost use Rattle.rl_core.specs.Starts.{AreStartMinds};

use rl_base::{NoMemory, NodeNo};
use rl_steps::{Mind, start_mind};
use rl_tables::Line;
use std::alloc::Global;

/// The minds of all nodes at the start.
pub(crate) fn start_minds(alloc: Global, line: &Line, tries: u32) -> Result<Vec<Mind>, NoMemory>
    ensures minds { IfOk result (λ minds. AreStartMinds line.now tries (node_count (layout_of line.now)) minds.items) }
    ensures line { IsLine line.now }
{
    let count = line.layout().nodes();
    let mut minds = Vec::with_capacity(alloc, count as usize)?;
    for n in 0..count {
        minds.push(start_mind(line, tries, NodeNo(n)))?;
    }
    Ok(minds)
}

/// A zero for each node, for clocks and scan places.
pub(crate) fn zeros(alloc: Global, line: &Line) -> Result<Vec<u32>, NoMemory>
    ensures { IfOk result (λ xs. xs.items ≡ replicate (node_count (layout_of line.now)) 0) }
{
    Ok(vec![in alloc; 0u32; line.layout().nodes() as usize]?)
}
