// Pack: groups of rectangles into chambers.
#![tactic(auto)]

mod checks;
mod groups;
mod order;
mod packing;
mod placements;

pub use packing::pack;
