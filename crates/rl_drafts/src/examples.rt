ghost use Rattle.std.specs.Prelude.{◌≡◌, ℕ, true, false, [], ◌∷◌, replicate, codes, flat_map, Some, None};
ghost use Rattle.rl_base.specs.declared.kind.Side.TheVariants.{Left, Right};
ghost use Rattle.rl_base.specs.declared.place.Place.TheVariants as place;
ghost use Rattle.rl_model.specs.Network.{connects, IsNetwork};
ghost use Rattle.rl_model.specs.World.{start, points_connect};
ghost use Rattle.rl_model.specs.declared.moves.Points.TheVariants as points;
ghost use Rattle.rl_model.specs.Moves.{guards, FirstFails};
ghost use Rattle.rl_model.specs.Safety.{IsSafeRun, world_after};
ghost use Rattle.rl_model.specs.Reports.{made_in, refused_in};
ghost use Rattle.rl_model.specs.ReportText.{report_text, move_line};
ghost use Rattle.rl_drafts.specs.Drafts.{network_of};
ghost use Rattle.rl_drafts.specs.Search.{first_refusal};
ghost use Rattle.rl_drafts.specs.Examples.{one_train, line, line_with, joint_arms, east, fork, draft_box, draft_train, refused, first_lock, eight_moves, ten_moves, ten_lines, one_step_report, one_step_text};
ghost use Rattle.rl_base.specs.declared.kind.Kind.TheVariants.{Buffer};

/// The refusals at small drafts, worked out by hand.
pub fn refusals_of_examples()
    ensures line { first_refusal one_train ≡ None }
    ensures fork { first_refusal (fork (Some Left) (codes "S" ∷ codes "P" ∷ codes "R" ∷ [])) ≡ None }
    ensures both_branches { first_refusal (fork (Some Left) (codes "L" ∷ codes "P" ∷ codes "R" ∷ []))
        ≡ refused 14 (place.RouteItem 0 1) }
    ensures no_side { first_refusal (fork None (codes "S" ∷ codes "P" ∷ codes "R" ∷ []))
        ≡ refused 11 (place.BoxSide 1) }
    ensures shared_start { first_refusal
        (line (draft_train (codes "T1") (codes "A" ∷ []) ∷ draft_train (codes "T2") (codes "A" ∷ []) ∷ []))
        ≡ refused 15 (place.RouteItem 1 0) }
    ensures open_end { first_refusal (line_with joint_arms [] []) ≡ refused 10 (place.Segment 1) }
    ensures three_ends { first_refusal
        (line_with joint_arms (east ∷ draft_box (codes "F") Buffer (codes "B" ∷ []) None ∷ []) [])
        ≡ refused 10 (place.Segment 1) }
    ensures same_box { first_refusal (line_with (codes "A" ∷ codes "A" ∷ []) (east ∷ []) [])
        ≡ refused 9 (place.BoxArm 1 1) }
    ensures many_trains { first_refusal (line (replicate 33 (draft_train (codes "T1") (codes "A" ∷ []))))
        ≡ refused 5 place.Trains }
{}

/// The start, a guard that fails, a safe run and its report on the line of two segments, worked out by hand.
pub fn run_of_examples()
    ensures stands { (start (network_of one_train)).occupies 0 0 ≡ true }
    ensures stands_there_alone { (start (network_of one_train)).occupies 0 1 ≡ false }
    ensures holds_near { (start (network_of one_train)).holds 0 0 1 ≡ true }
    ensures holds_no_other { (start (network_of one_train)).holds 0 1 1 ≡ false }
    ensures not_held { FirstFails 8 (guards (network_of one_train) (start (network_of one_train)) first_lock) }
    ensures left { connects (network_of (fork (Some Left) [])) 1 0 1 Left ≡ true }
    ensures not_right { connects (network_of (fork (Some Left) [])) 1 0 1 Right ≡ false }
    ensures never { connects (network_of (fork (Some Left) [])) 1 1 2 Right ≡ false }
    ensures moving { points_connect (network_of (fork (Some Left) [])) 1 0 1 points.Moving ≡ false }
    ensures network { IsNetwork (network_of one_train) }
    ensures safe { IsSafeRun (network_of one_train) eight_moves }
    ensures left_behind { (world_after (network_of one_train) eight_moves).occupies 0 0 ≡ false }
    ensures arrived { (world_after (network_of one_train) eight_moves).occupies 0 1 ≡ true }
    ensures made { made_in eight_moves 0 ≡ 1 }
    ensures refused { refused_in eight_moves 0 ≡ 0 }
    ensures lines { flat_map (move_line (network_of (fork (Some Left) []))) ten_moves ≡ ten_lines }
    ensures text { report_text (network_of one_train) one_step_report ≡ one_step_text }
{}
