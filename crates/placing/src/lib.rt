// One rectangle, and one group, placed among the free sections of a chamber.
#![tactic(auto)]

mod add_new_sections;
mod chamber;
mod place;
mod step;

pub use chamber::{has_place, place_in};
pub use step::Stop;
