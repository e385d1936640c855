// Whether a box lies in its chamber with all its cells. The Rust's comment decides, not its code, which tests only the origin.
ghost use Rattle.std.specs.Prelude.{◌≡◌};
ghost use Rattle.bin_section.specs.Inside.{span_inside, inside_of};

use crate::section::BinSection;
use crate::width_height_depth::WidthHeightDepth;

#[tactic(auto, unfolding(crate::specs::Inside::inside_of))]
pub fn inside(section: BinSection, whd: WidthHeightDepth) -> bool
    ensures { result ≡ inside_of whd section }
{
    span_inside(section.x, section.whd.width, whd.width)
        & (span_inside(section.y, section.whd.height, whd.height)
            & span_inside(section.z, section.whd.depth, whd.depth))
}

// Along one axis. The sum is made in 64 bits: in 32 it could wrap.
#[tactic(auto, unfolding(crate::specs::Inside::span_inside))]
fn span_inside(origin: u32, side: u32, room: u32) -> bool
    ensures { result ≡ span_inside origin side room }
{
    (0 < side) & ((origin as u64) + (side as u64) <= room as u64)
}
