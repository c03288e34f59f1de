ghost use Rattle.std.specs.Prelude.{ℕ, IfOk};
ghost use Rattle.rl_rule.specs.declared.rails.Rails.{Rails};
ghost use Rattle.rl_nodes.specs.Nodes.{AreNodesOf};
ghost use Rattle.rl_nodes.specs.Parts.{AreParts};
ghost use Rattle.rl_nodes.specs.Parting.{IsPartOfNode, ArePartsOf};

use crate::nodes::{Nodes, RunNode};
use crate::parts::{Part, Parts};
use rl_base::NoMemory;
use std::alloc::Global;

/// The part of one node.
fn part_of(node: RunNode<'_>) -> Part
    ensures { IsPartOfNode node.entry result }
{
    let RunNode {
        rails: _,
        line: _,
        seat,
        mind,
        scan: _,
        log,
        turns: _,
    } = node;
    Part {
        seat,
        mind,
        record: log,
    }
}

/// The part of each node, in order.
fn parts_of(alloc: Global, nodes: Nodes<'_>) -> Result<Parts, NoMemory>
    ensures { IfOk result (ArePartsOf nodes.entry) }
{
    let mut parts = Parts::new(alloc);
    for node in nodes.into_vec() {
        parts.push(part_of(node))?;
    }
    Ok(parts)
}

/// The seat, the mind and the record of each node, in order. The rails are free then.
pub fn part(alloc: Global, nodes: Nodes<'_>) -> Result<Parts, NoMemory>
    ensures parts { IfOk result (ArePartsOf nodes.entry) }
    ensures all { (rails : Rails) (limit : ℕ) → AreNodesOf rails limit nodes.entry → IfOk result (AreParts rails) }
{
    parts_of(alloc, nodes)
}
