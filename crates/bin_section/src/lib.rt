// The ground floor: sides, volume, a section and its words, inside, overlap and the common box.
#![tactic(auto)]

mod bounds;
mod overlaps;
mod rect_to_insert;
mod section;
mod width_height_depth;

pub use bounds::inside;
pub use overlaps::write_common;
pub use rect_to_insert::RectToInsert;
pub use section::BinSection;
pub use width_height_depth::{WidthHeightDepth, side_ok};
