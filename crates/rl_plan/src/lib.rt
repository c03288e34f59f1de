//! Plans: the least number of steps from a segment to another, with a certificate that a reader can trust without
//! the search.
//!
//! It gives upward: `least_plan`, the plan with the fewest steps, the same for the same network; `check_plan`, whether
//! a plan shows that no walk is shorter; `plan_text`, the text of a plan; `plans_are_routes`: a plan of a train's length
//! is a route that it may have. It knows a network and its names, and nothing of trains that move.
#![tactic(auto)]

mod certificate;
pub mod laws;
mod least;
mod marking;
mod neighbours;
pub mod plan;
mod route;
mod search;
mod text;

pub use certificate::check_plan;
pub use laws::plans_are_routes;
pub use least::least_plan;
pub use plan::{Levels, Plan, PlanStep, PlanSteps};
pub use text::plan_text;
