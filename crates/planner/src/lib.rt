// The planner's job on bytes: a list read and packed, and the report of it written.
#![tactic(auto)]

mod packed;
mod plan;
mod tables;

pub use packed::Packed;
pub use plan::{Planned, plan_text, print_plan, write_plan};
