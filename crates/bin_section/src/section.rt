// A section: a box by its origin and its sides, and its six words.
ghost use Rattle.std.specs.Prelude.{◌≡◌};
ghost use Rattle.bin_section.specs.Section.{section, whole_section, zero_section, section_at, section_words};
ghost use Rattle.bin_section.specs.Layouts.{section_layout};

use crate::width_height_depth::WidthHeightDepth;
use words::Record;

#[derive(Clone, Copy, Default, Debug, PartialEq, Eq)]
pub struct BinSection {
    pub x: u32,
    pub y: u32,
    pub z: u32,
    pub whd: WidthHeightDepth,
}

impl BinSection {
    // The words of a section: x, y, z, width, height, depth.
    pub const WORDS: usize = 6;

    pub fn new(x: u32, y: u32, z: u32, whd: WidthHeightDepth) -> BinSection
        ensures { result ≡ section (x) (y) (z) whd }
    {
        BinSection { x, y, z, whd }
    }

    // A fresh section: the whole chamber at 0,0,0.
    pub fn whole(whd: WidthHeightDepth) -> BinSection
        ensures { result ≡ whole_section whd }
    {
        BinSection::new(0, 0, 0, whd)
    }

    pub fn zero() -> BinSection
        ensures { result ≡ zero_section }
    {
        BinSection::whole(WidthHeightDepth::new(0, 0, 0))
    }
}

// From its six words: x, y, z, width, height, depth.
impl From<[u32; 6]> for BinSection {
    ghost from_gives = { λ words s. s ≡ section_at words 0 };

    #[tactic(auto, unfolding(crate::specs::Section::section_at))]
    fn from([x, y, z, width, height, depth]: [u32; 6]) -> BinSection {
        BinSection::new(x, y, z, WidthHeightDepth::new(width, height, depth))
    }
}

impl From<BinSection> for [u32; 6] {
    ghost from_gives = { λ s words. words ≡ section_words s };

    fn from(s: BinSection) -> [u32; 6] {
        [s.x, s.y, s.z, s.whd.width, s.whd.height, s.whd.depth]
    }
}

impl Record<6> for BinSection {
    ghost record_at = { section_at };

    ghost record_words = { λ s. section_words s };

    ghost layout = { section_layout };

    ghost from_words = { λ w s e. e };

    ghost to_words = { λ s w e. e };
}
