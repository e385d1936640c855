// The placement record: where a rectangle went, in the lent table.
#![tactic(auto)]

ghost use Rattle.std.specs.Prelude.{◌≡◌};
ghost use Rattle.placement.specs.Placements.{placement_at, placement_words};
ghost use Rattle.placement.specs.Layouts.{placement_layout};

use words::Record;

#[derive(Clone, Copy, Default, Debug, PartialEq, Eq)]
pub struct Placement {
    pub placed: u32,
    pub chamber: u32,
    pub x: u32,
    pub y: u32,
    pub z: u32,
}

impl Placement {
    // The words of a record: 1 if placed else 0, chamber id, x, y, z.
    pub const WORDS: usize = 5;
    // What the first word says of a placed rectangle.
    pub const PLACED: u32 = 1;
}

// From its five words: 1 if placed else 0, chamber id, x, y, z.
impl From<[u32; 5]> for Placement {
    ghost from_gives = { λ words p. p ≡ placement_at words 0 };

    #[tactic(auto, unfolding(crate::specs::Placements::placement_at))]
    fn from([placed, chamber, x, y, z]: [u32; 5]) -> Placement {
        Placement {
            placed,
            chamber,
            x,
            y,
            z,
        }
    }
}

impl From<Placement> for [u32; 5] {
    ghost from_gives = { λ p words. words ≡ placement_words p };

    fn from(p: Placement) -> [u32; 5] {
        [p.placed, p.chamber, p.x, p.y, p.z]
    }
}

impl Record<5> for Placement {
    ghost record_at = { placement_at };

    ghost record_words = { λ p. placement_words p };

    ghost layout = { placement_layout };

    ghost from_words = { λ w p e. e };

    ghost to_words = { λ p w e. e };
}
