ghost use Rattle.std.specs.Prelude.{◌≡◌, [], ◌∷◌, true};
ghost use Rattle.rl_model.specs.declared.moves.Move.TheVariants as moves;
ghost use Rattle.rl_drafts.specs.Drafts.{network_of};
ghost use Rattle.rl_drafts.specs.Examples.{one_train, seg, switch_box, train, eight_moves};
ghost use Rattle.rl_protocol.specs.Minds.{at_rest};
ghost use Rattle.rl_protocol.specs.Runs.{state_after, IsStepRun, moves_of};
ghost use Rattle.rl_protocol.specs.Worlds.{IsRailway};
ghost use Rattle.rl_protocol.specs.Examples.{one_train_line, four_steps, whole_step};

/// A run of one train on the line of two segments, worked out by hand.
pub fn run_of_one_train()
    ensures railway { IsRailway (network_of one_train) one_train_line }
    ensures begun { IsStepRun one_train_line 100 four_steps }
    ensures first_move { moves_of one_train_line four_steps ≡ moves.Reserve (train 0) (seg 1) (switch_box 1) ∷ [] }
    ensures run { IsStepRun one_train_line 100 whole_step }
    ensures moves { moves_of one_train_line whole_step ≡ eight_moves }
    ensures rests { at_rest one_train_line 0 ((state_after one_train_line 100 whole_step).trains 0) ≡ true }
{}
