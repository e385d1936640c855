// What the planner's program writes: the report of a pack, or of a slip in the list.
#![tactic(auto)]

mod coils;
mod phrases;
mod refusals;
mod report;
mod slips;
mod summary;

pub use report::Report;
pub use slips::SlipReport;
