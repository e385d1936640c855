// The join of free neighbours in one chamber, which the crate rectangle-pack only announces.
#![tactic(auto)]

mod coalesce;

pub use coalesce::join;
