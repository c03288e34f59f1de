//! The two ends of each segment of a draft, found in one pass over the arms.
ghost use Rattle.std.specs.Prelude.{◌≡◌, ◌≢◌, ◌<◌, ◌++◌, ◌∷◌, [], ℕ, List, Some, length, replicate, slice_get, slice_index_or, IfOk};
ghost use Rattle.rl_model.specs.declared.network.SegmentEnd.{SegmentEnd};
ghost use Rattle.rl_drafts.specs.Drafts.{end_at, ends_of, ends_in_box, ends_from};
ghost use Rattle.rl_ends.specs.SegmentEnds.{pair_of, numbers_of, KeepsPairs, AreUnlike};
ghost use Rattle.rl_ends.specs.Tables.{HasNumbers};

use crate::number_table::NumberTable;
use rl_base::{Draft, Names, NoMemory};
use std::alloc::Global;

/// The number of a box, and of one of its arms.
pub(crate) type BoxArm = (usize, usize);

/// The first two arms that name a segment.
#[derive(Clone, Copy)]
pub(crate) struct Pair {
    low: Option<BoxArm>,
    high: Option<BoxArm>,
}

impl Pair {
    fn none() -> Pair
        ensures { result ≡ pair_of [] }
    {
        Pair {
            low: None,
            high: None,
        }
    }

    /// The pair with one arm more, arm `x` of box `b`.
    fn and(self, b: usize, x: usize) -> Pair
        ensures { (ends : List SegmentEnd) → self ≡ pair_of ends → result ≡ pair_of (ends ++ end_at b x ∷ []) }
    {
        if self.low.is_none() {
            Pair {
                low: Some((b, x)),
                ..self
            }
        } else if self.high.is_none() {
            Pair {
                high: Some((b, x)),
                ..self
            }
        } else {
            self
        }
    }

    /// The first arm, arm 0 of box 0 where there is none.
    pub(crate) fn low(&self) -> BoxArm
        ensures { (ends : List SegmentEnd) → self.now ≡ pair_of ends
            → result ≡ numbers_of (slice_index_or ends 0 (end_at 0 0)) }
    {
        self.low.unwrap_or((0, 0))
    }

    /// The second arm, arm 0 of box 0 where there is none.
    pub(crate) fn high(&self) -> BoxArm
        ensures { (ends : List SegmentEnd) → self.now ≡ pair_of ends
            → result ≡ numbers_of (slice_index_or ends 1 (end_at 0 0)) }
    {
        self.high.unwrap_or((0, 0))
    }
}

/// The first two arms that name each segment, by its number.
#[derive(Drop)]
pub(crate) struct SegmentEnds {
    pairs: Vec<Pair>,
}

impl SegmentEnds {
    /// Adds arm `x` of box `b` to those of segment `s`.
    fn add(&mut self, s: usize, b: usize, x: usize)
        requires { s < length self.old.pairs.items }
        ensures changed { (ends : List SegmentEnd)
            → slice_get self.old.pairs.items s ≡ Some (pair_of ends)
            → slice_get self.new.pairs.items s ≡ Some (pair_of (ends ++ end_at b x ∷ [])) }
        ensures others { (k : ℕ) → k ≢ s → slice_get self.new.pairs.items k ≡ slice_get self.old.pairs.items k }
        ensures length { length self.new.pairs.items ≡ length self.old.pairs.items }
    {
        let pair = self.pairs[s];
        self.pairs[s] = pair.and(b, x);
    }

    /// Adds the arms of box `b`.
    fn add_box(&mut self, draft: &Draft, numbers: &NumberTable, b: usize, arms: &Names)
        requires numbers { HasNumbers numbers.now.numbers.entries draft.now.segments }
        requires unlike { AreUnlike draft.now.segments }
        requires size { length self.old.pairs.items ≡ length draft.now.segments }
        ensures size { length self.new.pairs.items ≡ length draft.now.segments }
        ensures ends { (ends : List ℕ → List SegmentEnd)
            → KeepsPairs draft.now.segments self.old.pairs.items ends
            → KeepsPairs draft.now.segments self.new.pairs.items (λ name. ends name ++ ends_in_box b 0 arms.now name) }
    {
        for x in 0..arms.len() {
            if let Some(s) = numbers.number(arms.at(x).bytes()) {
                self.add(s, b, x);
            }
        }
    }

    fn empty(alloc: Global, segments: usize) -> Result<SegmentEnds, NoMemory>
        ensures { IfOk result (λ t. t.pairs.items ≡ replicate segments (pair_of [])) }
    {
        let pairs = vec![in alloc; Pair::none(); segments]?;
        Ok(SegmentEnds { pairs })
    }

    /// The first two arms that name each segment of a draft.
    pub(crate) fn of(
        alloc: Global,
        draft: &Draft,
        numbers: &NumberTable,
    ) -> Result<SegmentEnds, NoMemory>
        requires numbers { HasNumbers numbers.now.numbers.entries draft.now.segments }
        requires unlike { AreUnlike draft.now.segments }
        ensures size { IfOk result (λ t. length t.pairs.items ≡ length draft.now.segments) }
        ensures ends { IfOk result (λ t. KeepsPairs draft.now.segments t.pairs.items (ends_of draft.now)) }
    {
        let mut table = SegmentEnds::empty(alloc, draft.segments.len())?;
        for b in 0..draft.boxes.len() {
            table.add_box(draft, numbers, b, &draft.boxes.at(b).arms);
        }
        Ok(table)
    }

    /// The first two arms that name segment `s`.
    pub(crate) fn at(&self, s: usize) -> Pair
        requires { s < length self.now.pairs.items }
        ensures { slice_get self.now.pairs.items s ≡ Some result }
    {
        self.pairs[s]
    }
}
