// A chamber: its record of five words, and the capacities of the tables.
ghost use Rattle.std.specs.Prelude.{◌≡◌, ◌+◌, ◌*◌, ◌<◌, ◌≤◌, length, set};
ghost use Rattle.target_bin.specs.Chambers.{fresh_bin, chamber_at, chamber_count, bin_words};
ghost use Rattle.target_bin.specs.Store.{part_range};
ghost use Rattle.target_bin.specs.Layouts.{chamber_layout};

use bin_section::{BinSection, WidthHeightDepth};
use std::ops::Range;
use words::Record;

// The free sections themselves lie in the store: count says how many they are.
#[derive(Clone, Copy, Default, Debug, PartialEq, Eq)]
pub struct TargetBin {
    pub id: u32,
    pub whd: WidthHeightDepth,
    pub count: u32,
}

impl TargetBin {
    // The words of a record: id, width, height, depth, free count.
    pub const WORDS: usize = 5;
    // Chambers in a call.
    pub const MOST: usize = 16;
    // Free sections in a chamber.
    pub const SECTIONS: u32 = 128;
    // The words of the store a chamber.
    pub const STORE: usize = (TargetBin::SECTIONS as usize) * BinSection::WORDS;

    // A fresh chamber: one free section.
    pub fn new(id: u32, whd: WidthHeightDepth) -> TargetBin
        ensures { result ≡ fresh_bin id whd }
    {
        TargetBin { id, whd, count: 1 }
    }

    // How many chambers a table has.
    pub fn count_in(chambers: &[u32]) -> usize
        ensures { result ≡ chamber_count chambers.now }
    {
        chambers.len() / TargetBin::WORDS
    }

    // Where the words of chamber k stand in the store.
    pub fn part(k: usize) -> Range<usize>
        requires { (k + 1) * 768 < 18446744073709551616 }
        ensures { result ≡ part_range k }
    {
        let start = k * TargetBin::STORE;
        start..start + TargetBin::STORE
    }

    // Writes the free count of the chamber at index i, and no other word.
    pub fn write_count(chambers: &mut [u32], i: usize, count: u32)
        requires { i * 5 + 5 ≤ length chambers.old }
        ensures { chambers.new ≡ set chambers.old (i * 5 + 4) count }
    {
        let at = i * TargetBin::WORDS + 4;
        chambers[at] = count;
    }
}

// From its five words: id, width, height, depth, free count.
impl From<[u32; 5]> for TargetBin {
    ghost from_gives = { λ words b. b ≡ chamber_at words 0 };

    #[tactic(auto, unfolding(crate::specs::Chambers::chamber_at))]
    fn from([id, width, height, depth, count]: [u32; 5]) -> TargetBin {
        TargetBin {
            id,
            whd: WidthHeightDepth::new(width, height, depth),
            count,
        }
    }
}

impl From<TargetBin> for [u32; 5] {
    ghost from_gives = { λ b words. words ≡ bin_words b };

    fn from(b: TargetBin) -> [u32; 5] {
        [b.id, b.whd.width, b.whd.height, b.whd.depth, b.count]
    }
}

impl Record<5> for TargetBin {
    ghost record_at = { chamber_at };

    ghost record_words = { λ b. bin_words b };

    ghost layout = { chamber_layout };

    ghost from_words = { λ w b e. e };

    ghost to_words = { λ b w e. e };
}
