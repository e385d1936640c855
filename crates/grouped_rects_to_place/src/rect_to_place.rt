// A rectangle of the lent table: its id, its group and its sides.
ghost use Rattle.std.specs.Prelude.{◌≡◌};
ghost use Rattle.grouped_rects_to_place.specs.Rect.{rect_at, rect_words};
ghost use Rattle.grouped_rects_to_place.specs.Layouts.{rect_layout};

use bin_section::WidthHeightDepth;
use words::Record;

// The group is 0 for none, as in the table.
#[derive(Clone, Copy, Default)]
pub struct RectToPlace {
    pub id: u32,
    pub group: u32,
    pub whd: WidthHeightDepth,
}

impl RectToPlace {
    pub const WORDS: usize = 5;
    // "At most 63 in a call."
    pub const MOST: usize = 63;
}

// From its five words: id, group, width, height, depth.
impl From<[u32; 5]> for RectToPlace {
    ghost from_gives = { λ words r. r ≡ rect_at words 0 };

    #[tactic(auto, unfolding(crate::specs::Rect::rect_at))]
    fn from([id, group, width, height, depth]: [u32; 5]) -> RectToPlace {
        let whd = WidthHeightDepth::new(width, height, depth);
        RectToPlace { id, group, whd }
    }
}

impl From<RectToPlace> for [u32; 5] {
    ghost from_gives = { λ r words. words ≡ rect_words r };

    fn from(r: RectToPlace) -> [u32; 5] {
        [r.id, r.group, r.whd.width, r.whd.height, r.whd.depth]
    }
}

impl Record<5> for RectToPlace {
    ghost record_at = { rect_at };

    ghost record_words = { λ r. rect_words r };

    ghost layout = { rect_layout };

    ghost from_words = { λ w r e. e };

    ghost to_words = { λ r w e. e };
}
