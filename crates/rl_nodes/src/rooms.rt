ghost use Rattle.std.specs.Prelude.{All, OnOk, OnErr};
ghost use Rattle.rl_nodes.specs.Nodes.{IsReady, AreToppedUp};
ghost use Rattle.rl_nodes.specs.Rooms.{IsRefusedAtOne};

use crate::nodes::RunNode;
use rl_base::NoMemory;

/// Takes room for the events of `n` more turns of each node, in order, up to the first for which memory is refused.
pub fn top_up_all(nodes: &mut [RunNode<'_>], n: u32) -> Result<(), NoMemory>
    ensures ready { OnOk result (All (IsReady n) nodes.new) }
    ensures kept { AreToppedUp nodes.old nodes.new }
    ensures refused { OnErr result (IsRefusedAtOne n nodes.old nodes.new) }
{
    for node in nodes.iter_mut() {
        node.top_up(n)?;
    }
    Ok(())
}
