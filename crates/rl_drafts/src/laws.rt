ghost use Rattle.std.specs.Prelude.{◌≡◌, Some, None};
ghost use Rattle.rl_base.specs.declared.draft.Draft.{Draft};
ghost use Rattle.rl_base.specs.Draft.{HasNames};
ghost use Rattle.rl_drafts.specs.Drafts.{network_of};
ghost use Rattle.rl_model.specs.Network.{IsNetwork};
ghost use Rattle.rl_drafts.specs.Refusals.{IsFirstRefusal, IsAccepted};
ghost use Rattle.rl_drafts.specs.Search.{Refusal, first_refusal};

/// The first refusal is the rule with the least number that a draft breaks, at the first place in the
/// order of places; a draft without one breaks no rule. The other way round, a refusal that is the first
/// is the one that the search gives.
pub fn first_refusals()
    ensures first { (d : Draft) (r : Refusal) → first_refusal d ≡ Some r → IsFirstRefusal d r.number r.place }
    ensures found { (d : Draft) (r : Refusal) → IsFirstRefusal d r.number r.place → first_refusal d ≡ Some r }
    ensures accepted { (d : Draft) → first_refusal d ≡ None → IsAccepted d }
    ensures none { (d : Draft) → IsAccepted d → first_refusal d ≡ None }
{}

/// What an accepted draft gives is a network.
pub fn accepted_networks()
    ensures network { (d : Draft) → HasNames d → first_refusal d ≡ None → IsNetwork (network_of d) }
{}
