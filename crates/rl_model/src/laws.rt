ghost use Rattle.std.specs.Prelude.{◌≡◌, ℕ, List};
ghost use Rattle.rl_model.specs.declared.network.NetworkPlan.{NetworkPlan};
ghost use Rattle.rl_model.specs.declared.moves.Move.{Move};
ghost use Rattle.rl_model.specs.World.{World};
ghost use Rattle.rl_model.specs.Network.{IsNetwork};
ghost use Rattle.rl_model.specs.Moves.{guards, AllHold, after};
ghost use Rattle.rl_model.specs.World.{start};
ghost use Rattle.rl_model.specs.Reports.{made_in};
ghost use Rattle.rl_model.specs.Safety.{IsKept, IsSafe, Guarded, IsSafeRun, world_after};

/// Every guarded list of moves from the start of a network is a safe run, whatever the moves and their order.
pub fn safe_runs()
    ensures start { (net : NetworkPlan) → IsNetwork net → IsKept net (start net) }
    ensures kept { (net : NetworkPlan) (w : World) (m : Move) → IsKept net w → AllHold (guards net w m)
        → IsKept net (after w m) }
    ensures safe { (net : NetworkPlan) (w : World) → IsKept net w → IsSafe net w }
    ensures runs { (net : NetworkPlan) (moves : List Move) → IsNetwork net → Guarded net moves → IsSafeRun net moves }
{}

/// The Leave moves of a train are the steps that it has made in the world that the moves leave.
pub fn counted_leaves()
    ensures { (net : NetworkPlan) (moves : List Move) (t : ℕ) → made_in moves t ≡ (world_after net moves).made t }
{}
