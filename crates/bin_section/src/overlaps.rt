// The overlap test: the common box of two boxes, or none. The Rust's comment decides, not its code: the same reply either way round.
ghost use Rattle.std.specs.Prelude.{◌≡◌, true, length};
ghost use Rattle.bin_section.specs.Overlap.{spans_meet, overlaps_of, common_side, common_box, common_of, common_words};

use crate::section::BinSection;
use crate::width_height_depth::WidthHeightDepth;

// The common box in six words: six zeros where there is none.
pub fn write_common(common: Option<BinSection>, words: &mut [u32])
    requires { length words.old ≡ 6 }
    ensures { words.new ≡ common_words common }
{
    words.copy_from_slice(&<[u32; 6]>::from(common.unwrap_or_default()));
}

impl BinSection {
    // Most boxes lie apart along the first axis, so it is looked at alone first.
    #[tactic(auto, unfolding(crate::specs::Overlap::common_of, crate::specs::Overlap::overlaps_of))]
    pub fn overlaps(self, other: BinSection) -> Option<BinSection>
        ensures { result ≡ common_of self other }
    {
        let meet = spans_meet(self.x, self.whd.width, other.x, other.whd.width)
            && (spans_meet(self.y, self.whd.height, other.y, other.whd.height)
                & spans_meet(self.z, self.whd.depth, other.z, other.whd.depth));
        if meet {
            Some(common_box(self, other))
        } else {
            None
        }
    }
}

// Along one axis: the later start comes before the earlier end. Ends are sums in 64 bits: in 32 they could wrap.
#[tactic(auto, unfolding(crate::specs::Overlap::spans_meet))]
fn spans_meet(start1: u32, side1: u32, start2: u32, side2: u32) -> bool
    ensures { result ≡ spans_meet start1 side1 start2 side2 }
{
    let end1 = (start1 as u64) + (side1 as u64);
    let end2 = (start2 as u64) + (side2 as u64);
    (start1 as u64).max(start2 as u64) < end1.min(end2)
}

// The common box of two boxes that share a cell.
#[tactic(auto, unfolding(crate::specs::Overlap::overlaps_of, crate::specs::Overlap::common_box))]
fn common_box(a: BinSection, b: BinSection) -> BinSection
    requires { overlaps_of a b ≡ true }
    ensures { result ≡ common_box a b }
{
    let width = common_side(a.x, a.whd.width, b.x, b.whd.width);
    let height = common_side(a.y, a.whd.height, b.y, b.whd.height);
    let depth = common_side(a.z, a.whd.depth, b.z, b.whd.depth);
    let whd = WidthHeightDepth::new(width, height, depth);
    BinSection::new(a.x.max(b.x), a.y.max(b.y), a.z.max(b.z), whd)
}

// Along one axis: from the later start to the earlier end. It is no longer than either side, so it is a word.
#[tactic(auto, unfolding(crate::specs::Overlap::spans_meet, crate::specs::Overlap::common_side))]
fn common_side(start1: u32, side1: u32, start2: u32, side2: u32) -> u32
    requires { spans_meet start1 side1 start2 side2 ≡ true }
    ensures { result ≡ common_side start1 side1 start2 side2 }
{
    let end1 = (start1 as u64) + (side1 as u64);
    let end2 = (start2 as u64) + (side2 as u64);
    (end1.min(end2) - (start1.max(start2) as u64)) as u32
}
