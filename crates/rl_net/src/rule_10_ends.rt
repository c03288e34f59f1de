//! Rule 10: each segment is named at two arms. The ends of all segments are found in one pass over the arms.
ghost use Rattle.std.specs.Prelude.{◌≡◌, ◌≢◌, ℕ, ◌==◌, ◌<◌, ◌≤◌, List, [], ◌∷◌, ◌++◌, Some, length, slice_get, slice_index_or};
ghost use Rattle.rl_base.specs.declared.limits.TheConstants.{MAX_BOXES};
ghost use Rattle.rl_base.specs.declared.place.Place.TheVariants as place;
ghost use Rattle.rl_model.specs.declared.network.SegmentEnd.{SegmentEnd};
ghost use Rattle.rl_drafts.specs.Drafts.{end_at, ends_of, ends_in_box};
ghost use Rattle.rl_drafts.specs.Refusals.{breaks};
ghost use Rattle.rl_drafts.specs.Search.{among_segments};
ghost use Rattle.rl_net.specs.Ends.{ends_kept, Keeps};
ghost use Rattle.rl_net.specs.Sizes.{HasFewItems, HasFewArms};

use crate::named_draft::NamedDraft;
use rl_base::limits::MAX_SEGMENTS;
use rl_base::{Arm, BoxId, Draft, Names, Place};
use rl_model::SegmentEnd;

/// The first two ends of a segment, and whether there are more.
#[derive(Clone, Copy)]
pub(crate) struct Ends {
    low: Option<SegmentEnd>,
    high: Option<SegmentEnd>,
    more: bool,
}

const FIRST_ARM: SegmentEnd = SegmentEnd {
    at: BoxId(0),
    arm: Arm(0),
};

impl Ends {
    fn none() -> Ends
        ensures { result ≡ ends_kept [] }
    {
        Ends {
            low: None,
            high: None,
            more: false,
        }
    }

    /// The ends with one more.
    fn and(self, end: SegmentEnd) -> Ends
        ensures { (es : List SegmentEnd) → self ≡ ends_kept es → result ≡ ends_kept (es ++ end ∷ []) }
    {
        if self.low.is_none() {
            Ends {
                low: Some(end),
                ..self
            }
        } else if self.high.is_none() {
            Ends {
                high: Some(end),
                ..self
            }
        } else {
            Ends { more: true, ..self }
        }
    }

    fn are_two(&self) -> bool
        ensures { (es : List SegmentEnd) → self.now ≡ ends_kept es → result ≡ (length es == 2) }
    {
        self.high.is_some() && !self.more
    }

    /// The first end, arm 0 of box 0 where there is none.
    pub(crate) fn low(&self) -> SegmentEnd
        ensures { (es : List SegmentEnd) → self.now ≡ ends_kept es → result ≡ slice_index_or es 0 (end_at 0 0) }
    {
        self.low.unwrap_or(FIRST_ARM)
    }

    /// The second end, arm 0 of box 0 where there is none.
    pub(crate) fn high(&self) -> SegmentEnd
        ensures { (es : List SegmentEnd) → self.now ≡ ends_kept es → result ≡ slice_index_or es 1 (end_at 0 0) }
    {
        self.high.unwrap_or(FIRST_ARM)
    }
}

/// The ends of each segment, by its number.
#[derive(Drop)]
pub(crate) struct EndTable {
    ends: [Ends; MAX_SEGMENTS],
}

impl EndTable {
    /// Adds an end to those of segment `s`.
    fn add(&mut self, s: usize, end: SegmentEnd)
        requires { s < MAX_SEGMENTS }
        ensures changed { (es : List SegmentEnd)
            → slice_get self.old.ends s ≡ Some (ends_kept es)
            → slice_get self.new.ends s ≡ Some (ends_kept (es ++ end ∷ [])) }
        ensures others { (k : ℕ) → k ≢ s → slice_get self.new.ends k ≡ slice_get self.old.ends k }
    {
        self.ends[s] = self.ends[s].and(end);
    }

    /// Adds the ends at the arms of box `b`.
    fn add_box(&mut self, index: &NamedDraft<'_>, b: usize, arms: &Names)
        requires few_segments { length index.now.segments ≤ MAX_SEGMENTS }
        requires few_boxes { b ≤ MAX_BOXES }
        requires few_arms { length arms.now ≤ 4 }
        ensures { (ends : List ℕ → List SegmentEnd)
            → Keeps index.now.segments self.old.ends ends
            → Keeps index.now.segments self.new.ends (λ name. ends name ++ ends_in_box b 0 arms.now name) }
    {
        for i in 0..arms.len() {
            if let Some(s) = index.segment_number(arms.at(i).bytes()) {
                self.add(
                    s,
                    SegmentEnd {
                        at: BoxId(b as u32),
                        arm: Arm(i as u32),
                    },
                );
            }
        }
    }

    /// The ends of the segments of a draft.
    pub(crate) fn of(index: &NamedDraft<'_>) -> EndTable
        requires items { HasFewItems index.now }
        requires arms { HasFewArms index.now }
        ensures { Keeps index.now.segments result.ends (ends_of index.now) }
    {
        let mut table = EndTable {
            ends: [Ends::none(); MAX_SEGMENTS],
        };
        let draft = index.draft();
        for b in 0..draft.boxes.len() {
            table.add_box(index, b, &draft.boxes.at(b).arms);
        }
        table
    }

    /// The ends of segment `s`.
    pub(crate) fn at(&self, s: usize) -> Ends
        requires { s < MAX_SEGMENTS }
        ensures { slice_get self.now.ends s ≡ Some result }
    {
        self.ends[s]
    }
}

fn is_wrongly_ended(draft: &Draft, table: &EndTable, i: usize) -> bool
    requires items { HasFewItems draft.now }
    requires ends { Keeps draft.now.segments table.now.ends (ends_of draft.now) }
    requires segment_in { i < length draft.now.segments }
    ensures { result ≡ breaks draft.now 10 (place.Segment i) }
{
    !table.at(i).are_two()
}

/// The first segment that is named at a number of arms other than two.
pub(crate) fn first_ends(draft: &Draft, table: &EndTable) -> Option<Place>
    requires items { HasFewItems draft.now }
    requires ends { Keeps draft.now.segments table.now.ends (ends_of draft.now) }
    ensures { result ≡ among_segments draft.now 10 }
{
    for i in 0..draft.segments.len() {
        if is_wrongly_ended(draft, table, i) {
            return Some(Place::Segment(i as u32));
        }
    }
    None
}
