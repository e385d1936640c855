// Rectangles that are to be placed: their table, its checks, and their groups in the order of packing.
#![tactic(auto)]

mod checks;
mod groups;
mod rect_to_place;
mod sorting;

pub use checks::{first_bad_rect, first_repeated};
pub use groups::members_of;
pub use rect_to_place::RectToPlace;
pub use sorting::{Group, GroupKey, Lead, sort_groups};
