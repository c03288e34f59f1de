ghost use Rattle.std.specs.Prelude.{◌≡◌, ℕ, List, length, slice_get, Some, true};
ghost use Rattle.rl_rule.specs.declared.rails.Rails.{Rails};
ghost use Rattle.rl_rule.specs.Seats.{rails_line};
ghost use Rattle.rl_runner.specs.Turns.{EachTurned};
ghost use Rattle.rl_nodes.specs.declared.parts.Part.{Part};
ghost use Rattle.rl_nodes.specs.Nodes.{Node, number, turns_of, rests, is_at_rest, IsHome, AreNodesOf, AreToppedUp};
ghost use Rattle.rl_nodes.specs.Parting.{ArePartsOf};

/// After rounds the nodes are still all nodes of their rails, in order.
pub fn kept_nodes()
    ensures { (rails : Rails) (limit round : ℕ) (old new : List Node) → length new ≡ length old
        → EachTurned number turns_of IsHome round old new → AreNodesOf rails limit old → AreNodesOf rails limit new }
{}

/// With more room the nodes are still all nodes of their rails, in order.
pub fn topped_up_nodes()
    ensures { (rails : Rails) (limit : ℕ) (old new : List Node) → length new ≡ length old → AreToppedUp old new
        → AreNodesOf rails limit old → AreNodesOf rails limit new }
{}

/// The part of a node at rest has a mind at rest.
pub fn parts_at_rest()
    ensures { (rails : Rails) (limit i : ℕ) (nodes : List Node) (parts : List Part) (node : Node) (part : Part)
        → AreNodesOf rails limit nodes → ArePartsOf nodes parts → slice_get nodes i ≡ Some node
        → slice_get parts i ≡ Some part → rests node ≡ true → is_at_rest (rails_line rails) i part.mind ≡ true }
{}
