// The six ways to divide what remains of a section beside a rectangle in its corner.
ghost use Rattle.std.specs.Prelude.{◌≡◌};
ghost use Rattle.bin_section.specs.Sides.{sides_in};
ghost use Rattle.try_place.specs.Splits.{split_of, six_splits};
ghost use Rattle.try_place.specs.Leaning.{Fitting};

use bin_section::{BinSection, RectToInsert, WidthHeightDepth};

// One row of the table: the sides of the boxes right of, above and behind the rectangle.
fn split(
    s: BinSection,
    r: RectToInsert,
    right: [u32; 3],
    above: [u32; 3],
    behind: [u32; 3],
) -> [BinSection; 3]
    requires { Fitting s r }
    ensures { result ≡ split_of s r (sides_in right) (sides_in above) (sides_in behind) }
{
    [
        BinSection::new(s.x + r.whd.width, s.y, s.z, three(right)),
        BinSection::new(s.x, s.y + r.whd.height, s.z, three(above)),
        BinSection::new(s.x, s.y, s.z + r.whd.depth, three(behind)),
    ]
}

fn three(sides: [u32; 3]) -> WidthHeightDepth
    ensures { result ≡ sides_in sides }
{
    WidthHeightDepth::new(sides[0], sides[1], sides[2])
}

// The six, each right, above, behind. In the Rust the rows bear the names depth_largest_height_second_largest_width_smallest,
// depth_largest_width_.., height_largest_depth_.., height_largest_width_.., width_largest_depth_.., width_largest_height_...
#[tactic(auto, unfolding(crate::specs::Splits::six_splits))]
pub fn six_splits(s: BinSection, r: RectToInsert) -> [[BinSection; 3]; 6]
    requires { Fitting s r }
    ensures { result ≡ six_splits s r }
{
    let WidthHeightDepth {
        width: ww,
        height: hh,
        depth: dd,
    } = s.whd;
    let WidthHeightDepth {
        width: w,
        height: h,
        depth: d,
    } = r.whd;
    let rw = ww - w;
    let rh = hh - h;
    let rd = dd - d;
    [
        split(s, r, [rw, hh, dd], [w, rh, dd], [w, h, rd]),
        split(s, r, [rw, h, dd], [ww, rh, dd], [w, h, rd]),
        split(s, r, [rw, hh, dd], [w, rh, d], [w, hh, rd]),
        split(s, r, [rw, hh, d], [w, rh, d], [ww, hh, rd]),
        split(s, r, [rw, h, d], [ww, rh, dd], [ww, h, rd]),
        split(s, r, [rw, h, d], [ww, rh, d], [ww, hh, rd]),
    ]
}
