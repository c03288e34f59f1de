use rl_base::{BoxId, SegId, Sequence};

/// A step of a plan: through box `b` to segment `s`.
#[derive(Clone, Copy, Debug, PartialEq, Eq)]
pub struct PlanStep {
    pub b: BoxId,
    pub s: SegId,
}

pub type PlanSteps = Sequence<PlanStep>;

/// For each segment in order the least number of steps from it to the end of a plan, none where no walk leads there.
pub type Levels = Sequence<Option<u32>>;

/// A plan from a segment to another: how many steps it takes, none where no walk leads there, the steps in order, and
/// the levels of all segments, which show that fewer steps don't lead there.
#[derive(Debug, Drop)]
pub struct Plan {
    pub steps: Option<u32>,
    pub route: PlanSteps,
    pub levels: Levels,
}
