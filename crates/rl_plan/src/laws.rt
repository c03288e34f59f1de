ghost use Rattle.std.specs.Prelude.{◌≡◌, ◌≤◌, ℕ, List, Some, slice_get};
ghost use Rattle.rl_base.specs.declared.draft.Draft.{Draft};
ghost use Rattle.rl_base.specs.declared.draft.DraftTrain.{DraftTrain};
ghost use Rattle.rl_base.specs.declared.ids.SegId.{SegId};
ghost use Rattle.rl_base.specs.declared.limits.TheConstants.{MAX_STEPS};
ghost use Rattle.rl_base.specs.Draft.{HasNames};
ghost use Rattle.rl_model.specs.Network.{IsSegmentOf};
ghost use Rattle.rl_drafts.specs.Drafts.{network_of};
ghost use Rattle.rl_drafts.specs.Refusals.{IsAccepted};
ghost use Rattle.rl_plan.specs.declared.plan.Plan.{Plan};
ghost use Rattle.rl_plan.specs.Plans.{Passes};
ghost use Rattle.rl_plan.specs.Routes.{route_names, with_trains, KeepsRules};

/// A train can be given the route of a plan: in the draft of the network, whatever trains it then has, a route that
/// goes along a plan of at most `MAX_STEPS` steps that `check_plan` says true of breaks no rule on routes.
pub fn plans_are_routes()
    ensures { (d : Draft) (start end : SegId) (plan : Plan) (n i : ℕ) (trains : List DraftTrain)
        → HasNames d → IsAccepted d → IsSegmentOf (network_of d) start
        → Passes (network_of d) start end plan → plan.steps ≡ Some n → n ≤ MAX_STEPS
        → ((t : DraftTrain) → slice_get trains i ≡ Some t → t.route ≡ route_names (network_of d) start.0 plan.route)
        → KeepsRules (with_trains d trains) i }
{}
