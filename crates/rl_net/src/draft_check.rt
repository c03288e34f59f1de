ghost use Rattle.std.specs.Prelude.{◌≡◌, ◌≢◌, Some, None, Result, IfOk, OnOk, IfErr};
ghost use Rattle.rl_base.specs.Draft.{HasNames};
ghost use Rattle.rl_model.specs.declared.network.NetworkPlan.{NetworkPlan};
ghost use Rattle.rl_drafts.specs.Drafts.{network_of, ends_of};
ghost use Rattle.rl_drafts.specs.Refusals.{IsAccepted};
ghost use Rattle.rl_drafts.specs.Search.{later_refusal, first_refusal};
ghost use Rattle.rl_net.specs.declared.refusal.NetRefusal.{NetRefusal};
ghost use Rattle.rl_net.specs.declared.refusal.NetRefusal.TheVariants.{NoMemory};
ghost use Rattle.rl_net.specs.Ends.{Keeps};
ghost use Rattle.rl_net.specs.NetRefusals.{IsFound, IsRefusal, IsRight, UnlessMemory};
ghost use Rattle.rl_net.specs.Sizes.{HasFewItems, HasFewArms};

use crate::draft_network::network_from;
use crate::named_draft::NamedDraft;
use crate::network::Network;
use crate::refusal::NetRefusal;
use crate::rule_5_counts::first_count;
use crate::rule_6_twice::names_of;
use crate::rule_10_ends::{EndTable, first_ends};
use crate::rule_11_sides::first_at;
use crate::rule_14_fits::first_route_fit;
use crate::rule_15_starts::first_start_shared;
use crate::rules_7_to_9_arms::{first_arm_count, first_no_segment, first_same_box};
use crate::rules_12_13_routes::{first_route_name, first_route_shape};
use rl_base::Draft;
use rl_drafts::{accepted_networks, first_refusals};
use std::alloc::Global;

/// The ends of the segments, or the first refusal by rules 7 to 15. It takes no memory.
fn ends_unless_refused(index: &NamedDraft<'_>) -> Result<EndTable, NetRefusal>
    requires { HasFewItems index.now }
    ensures accepted { OnOk result (later_refusal index.now ≡ None) }
    ensures arms { OnOk result (HasFewArms index.now) }
    ensures ends { IfOk result (λ table. Keeps index.now.segments table.ends (ends_of index.now)) }
    ensures refused { IfErr result (λ e. IsFound e (later_refusal index.now)) }
    ensures memory { IfErr result (λ e. e ≢ NoMemory) }
{
    let draft = index.draft();
    if let Some(place) = first_arm_count(draft) {
        return Err(NetRefusal::ArmCount(place));
    }
    if let Some(place) = first_no_segment(index) {
        return Err(NetRefusal::NoSegment(place));
    }
    if let Some(place) = first_same_box(draft) {
        return Err(NetRefusal::SameBox(place));
    }
    let ends = EndTable::of(index);
    if let Some(place) = first_ends(draft, &ends) {
        return Err(NetRefusal::Ends(place));
    }
    if let Some(place) = first_at(draft) {
        return Err(NetRefusal::At(place));
    }
    if let Some(place) = first_route_shape(draft) {
        return Err(NetRefusal::RouteShape(place));
    }
    if let Some(place) = first_route_name(index) {
        return Err(NetRefusal::RouteName(place));
    }
    if let Some(place) = first_route_fit(index) {
        return Err(NetRefusal::RouteFit(place));
    }
    if let Some(place) = first_start_shared(draft) {
        return Err(NetRefusal::StartShared(place));
    }
    Ok(ends)
}

/// The network of a draft, or the first refusal that a search of the rules and places finds.
fn searched(alloc: Global, draft: &Draft) -> Result<Network, NetRefusal>
    requires names { HasNames draft.now }
    ensures none { OnOk result (first_refusal draft.now ≡ None) }
    ensures network { IfOk result (λ net. net ≡ network_of draft.now) }
    ensures found { IfErr result (λ e. IsFound e (first_refusal draft.now)) }
{
    if let Some(place) = first_count(draft) {
        return Err(NetRefusal::Count(place));
    }
    let names = names_of(alloc, draft)?;
    let index = NamedDraft::of(draft, &names);
    let ends = ends_unless_refused(&index)?;
    let plan = network_from(alloc, &index, &ends)?;
    accepted_networks();
    Ok(Network::from_plan(plan, names))
}

/// The network of a draft, with segments, boxes and trains numbered by their places, or its first refusal:
/// of the rules that the draft breaks the one with the lowest number, and the first place at which it is
/// broken. Segments come before boxes and boxes before trains, and a box or a train with all of its arms or
/// route before the next. The draft is consumed in either case. Apart from `NoMemory` the answer depends on
/// nothing but the draft. A draft of any size may be given: the counts are looked at first, and what follows
/// takes time linear in what they allow.
pub fn check(alloc: Global, draft: Draft) -> Result<Network, NetRefusal>
    requires names { HasNames draft }
    // An accepted draft breaks no rule, and the network is the draft's.
    ensures accepted { OnOk result (IsAccepted draft) }
    ensures network { IfOk result (λ net. net ≡ network_of draft) }
    // A refused one breaks the rule at the place, none with a lower number, and this one at no earlier place.
    ensures refused { IfErr result (IsRefusal draft) }
    // A draft that breaks no rule is refused for want of memory alone.
    ensures only_memory { IsAccepted draft → IfErr result (λ e. e ≡ NoMemory) }
    // No other answer is right.
    ensures exact { (other : Result NetworkPlan NetRefusal) → IsRight draft other
        → UnlessMemory result (result ≡ other) }
{
    first_refusals();
    searched(alloc, &draft)
}
