// A rectangle that is to be placed. No rotation is recorded.
ghost use Rattle.std.specs.Prelude.{◌≡◌};
ghost use Rattle.bin_section.specs.Sides.{rectangle};

use crate::width_height_depth::WidthHeightDepth;

#[derive(Clone, Copy, Debug, PartialEq, Eq)]
pub struct RectToInsert {
    pub whd: WidthHeightDepth,
}

impl RectToInsert {
    pub fn new(width: u32, height: u32, depth: u32) -> RectToInsert
        ensures { result ≡ rectangle width height depth }
    {
        RectToInsert {
            whd: WidthHeightDepth::new(width, height, depth),
        }
    }
}
