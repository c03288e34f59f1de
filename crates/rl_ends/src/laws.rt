ghost use Rattle.std.specs.Prelude.{◌≡◌, ℕ, List, Some, None};
ghost use Rattle.rl_base.specs.Draft.{HasNames};
ghost use Rattle.rl_drafts.specs.Search.{Refusal};
ghost use Rattle.rl_ends.specs.EndNames.{EndName, end_of, SaysEnd};
ghost use Rattle.rl_ends.specs.EndRules.{breaks, IsUnbroken, IsFirstOf};
ghost use Rattle.rl_ends.specs.EndsDrafts.{draft_of};
ghost use Rattle.rl_ends.specs.EndsNames.{HasEndNames};
ghost use Rattle.rl_ends.specs.Search.{first_refusal};
ghost use Rattle.rl_ends.specs.declared.ends_draft.EndsDraft.{EndsDraft};

/// The text of an end says a box and an arm exactly where it is the box's name, a dot and the arm's digit, and it says
/// no other.
pub fn end_names()
    ensures reads { (text : List ℕ) (e : EndName) → end_of text ≡ Some e → SaysEnd text e }
    ensures says { (text : List ℕ) (e : EndName) → SaysEnd text e → end_of text ≡ Some e }
{}

/// A search of the first refusal finds the rule with the lowest number that is broken, at the first place; what it finds
/// nothing in breaks no rule. The other way round, a refusal that is the first is the one that is found.
pub fn first_refusals()
    ensures first { (d : EndsDraft) (r : Refusal) → first_refusal d ≡ Some r → IsFirstOf (breaks d) r.number r.place }
    ensures found { (d : EndsDraft) (r : Refusal) → IsFirstOf (breaks d) r.number r.place → first_refusal d ≡ Some r }
    ensures unbroken { (d : EndsDraft) → first_refusal d ≡ None → IsUnbroken d }
    ensures none { (d : EndsDraft) → IsUnbroken d → first_refusal d ≡ None }
{}

/// Where segments with ends break no rule and their names are names, so are those of the draft that they say.
pub fn joined_names()
    ensures names { (d : EndsDraft) → IsUnbroken d → HasEndNames d → HasNames (draft_of d) }
{}
