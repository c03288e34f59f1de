//! Rules 24 and 25: no arm is named twice, and each is named.
ghost use Rattle.std.specs.Prelude.{◌≡◌, ◌+◌, ◌*◌, ◌<◌, ℕ, [], length, map, replicate, slice_get, slice_set, Some, None, IfOk, OnOk, IfErr, MatchBool};
ghost use Rattle.rl_base.specs.Numbers.{IsU32};
ghost use Rattle.rl_base.specs.declared.place.Place.TheVariants.{BoxItem};
ghost use Rattle.rl_ends.specs.EndsDrafts.{named_arms};
ghost use Rattle.rl_ends.specs.EndRules.{breaks};
ghost use Rattle.rl_ends.specs.EndRefusals.{IsKept, RefusesBy};
ghost use Rattle.rl_ends.specs.Tables.{Keeps, IsCountable};

use crate::ends_draft::EndsDraft;
use crate::refusal::EndRefusal;
use crate::rules_21_to_23::{NamedArms, place_of_end};
use rl_base::{NoMemory, Place, arm_count};
use rl_model::SegmentEnd;
use std::alloc::Global;

/// For each arm of each box the number of the end that names it, four places a box.
#[derive(Debug, Drop)]
pub(crate) struct ArmTable {
    ends: Vec<Option<usize>>,
}

impl ArmTable {
    fn empty(alloc: Global, boxes: usize) -> Result<ArmTable, NoMemory>
        requires { IsU32 boxes }
        ensures { IfOk result (λ t. t.ends.items ≡ replicate (4 * boxes) None) }
    {
        let ends = vec![in alloc; None; 4 * boxes]?;
        Ok(ArmTable { ends })
    }

    /// Notes end `k` at the arm that it names unless one is noted there, and says whether none was.
    fn put(&mut self, arm: SegmentEnd, k: usize) -> bool
        requires { 4 * arm.at.0 + arm.arm.0 < length self.old.ends.items }
        ensures { let place = 4 * arm.at.0 + arm.arm.0 in MatchBool result
            ((slice_get self.old.ends.items place ≡ Some None)
            × (self.new.ends.items ≡ slice_set self.old.ends.items place (Some k)))
            ((j : ℕ) × (slice_get self.old.ends.items place ≡ Some (Some j))) }
    {
        let place = 4 * arm.at.0 as usize + arm.arm.0 as usize;
        if self.ends[place].is_some() {
            return false;
        }
        self.ends[place] = Some(k);
        true
    }

    /// The table of the arms that the ends name, or the first end that names an arm that one before it names.
    pub(crate) fn of(
        alloc: Global,
        draft: &EndsDraft,
        arms: &NamedArms,
    ) -> Result<ArmTable, EndRefusal>
        requires countable { IsCountable draft.now }
        requires arms { map Some arms.now ≡ named_arms draft.now }
        ensures keeps { IfOk result (λ t. Keeps (length draft.now.boxes) (named_arms draft.now) t.ends.items) }
        ensures kept { OnOk result (IsKept draft.now 24) }
        ensures refused { IfErr result (RefusesBy draft.now 24) }
    {
        let mut table = ArmTable::empty(alloc, draft.boxes.len())?;
        for k in 0..arms.len() {
            if !table.put(*arms.at(k), k) {
                return Err(EndRefusal::ArmTwice(place_of_end(k)));
            }
        }
        Ok(table)
    }

    /// The number of the end that names arm `x` of box `b`.
    pub(crate) fn end_at(&self, b: u32, x: u32) -> Option<usize>
        requires { 4 * b + x < length self.now.ends.items }
        ensures { slice_get self.now.ends.items (4 * b + x) ≡ Some result }
    {
        self.ends[4 * b as usize + x as usize]
    }
}

fn has_free_arm(draft: &EndsDraft, table: &ArmTable, i: usize) -> bool
    requires countable { IsU32 (length draft.now.boxes) }
    requires keeps { Keeps (length draft.now.boxes) (named_arms draft.now) table.now.ends.items }
    requires within { i < length draft.now.boxes }
    ensures { result ≡ breaks draft.now 25 (BoxItem i) }
{
    let b = i as u32;
    for x in 0..arm_count(draft.boxes.at(i).kind) {
        if table.end_at(b, x).is_none() {
            return true;
        }
    }
    false
}

/// Refuses the first box with an arm that no end names.
pub(crate) fn check_free_arms(draft: &EndsDraft, table: &ArmTable) -> Result<(), EndRefusal>
    requires countable { IsU32 (length draft.now.boxes) }
    requires keeps { Keeps (length draft.now.boxes) (named_arms draft.now) table.now.ends.items }
    ensures kept { OnOk result (IsKept draft.now 25) }
    ensures refused { IfErr result (RefusesBy draft.now 25) }
{
    for i in 0..draft.boxes.len() {
        if has_free_arm(draft, table, i) {
            return Err(EndRefusal::ArmFree(Place::BoxItem(i as u32)));
        }
    }
    Ok(())
}
