// Sides and volume.
ghost use Rattle.std.specs.Prelude.{◌≡◌, ◌≤◌, length};
ghost use Rattle.bin_section.specs.Sides.{sides, sides_in, volume_of, side_ok, sides_ok};
ghost use Rattle.bin_section.specs.Leaning.{Small};

#[derive(Clone, Copy, Default, Debug, PartialEq, Eq)]
pub struct WidthHeightDepth {
    pub width: u32,
    pub height: u32,
    pub depth: u32,
}

impl WidthHeightDepth {
    // "Sides 1 to 65,535."
    pub const MOST_SIDE: u32 = 65535;
    // The words of the sides: width, height, depth.
    pub const WORDS: usize = 3;

    pub fn new(width: u32, height: u32, depth: u32) -> WidthHeightDepth
        ensures { result ≡ sides width height depth }
    {
        WidthHeightDepth {
            width,
            height,
            depth,
        }
    }

    // The sides in three words.
    pub fn read(words: &[u32]) -> WidthHeightDepth
        requires { 3 ≤ length words.now }
        ensures { result ≡ sides_in words.now }
    {
        WidthHeightDepth::new(words[0], words[1], words[2])
    }

    // The volume, which fits 64 bits where no side is above 65,535. The Rust's volume_heuristic is this function.
    pub fn volume(self) -> u64
        requires { Small self }
        ensures { (result ≡ volume_of self) × (result ≤ 281462092005375) }
    {
        (self.width as u64) * (self.height as u64) * (self.depth as u64)
    }

    pub fn in_range(self) -> bool
        ensures { result ≡ sides_ok self }
    {
        side_ok(self.width) & (side_ok(self.height) & side_ok(self.depth))
    }
}

#[tactic(auto, unfolding(crate::specs::Sides::side_ok))]
pub fn side_ok(side: u32) -> bool
    ensures { result ≡ side_ok side }
{
    (0 < side) & (side <= WidthHeightDepth::MOST_SIDE)
}
