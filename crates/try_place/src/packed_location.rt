// Where a rectangle was placed. No rotation is recorded.
ghost use Rattle.std.specs.Prelude.{◌≡◌};
ghost use Rattle.try_place.specs.Location.{location_in, zero_location, location_box};

use bin_section::{BinSection, RectToInsert, WidthHeightDepth};

#[derive(Clone, Copy)]
pub struct PackedLocation {
    pub x: u32,
    pub y: u32,
    pub z: u32,
    pub whd: WidthHeightDepth,
}

impl PackedLocation {
    // The words of a location: x, y, z.
    pub const WORDS: usize = 3;

    // A rectangle in the corner of a section: at its origin.
    pub fn in_corner(section: BinSection, rectangle: RectToInsert) -> PackedLocation
        ensures { result ≡ location_in section rectangle }
    {
        PackedLocation {
            x: section.x,
            y: section.y,
            z: section.z,
            whd: rectangle.whd,
        }
    }

    pub fn zero() -> PackedLocation
        ensures { result ≡ zero_location }
    {
        PackedLocation {
            x: 0,
            y: 0,
            z: 0,
            whd: WidthHeightDepth::new(0, 0, 0),
        }
    }
}

// The box that stands there.
impl From<PackedLocation> for BinSection {
    ghost from_gives = { λ location s. s ≡ location_box location };

    fn from(location: PackedLocation) -> BinSection {
        BinSection::new(location.x, location.y, location.z, location.whd)
    }
}
