// Try one placement on lent words: a section, a rectangle's sides, and what the try writes.
ghost use Rattle.std.specs.Prelude.{◌≡◌, length};
ghost use Rattle.bin_section.specs.Section.{section_at};
ghost use Rattle.try_place.specs.Try.{try_of};
ghost use Rattle.cafunderi.specs.Try.{try_lengths_ok, rectangle_in, try_outcome, tried_outcome};

use bin_section::{BinSection, RectToInsert, WidthHeightDepth};
use replies::Reply;
use try_place::{Tried, try_placement};
use words::Record;

#[tactic(auto, unfolding(crate::specs::Try::try_lengths_ok))]
pub fn lengths_ok(section: &[u32], rectangle: &[u32], placed: &[u32]) -> bool
    ensures { result ≡ try_lengths_ok section.now rectangle.now placed.now }
{
    section.len() == BinSection::WORDS
        && (rectangle.len() == WidthHeightDepth::WORDS && placed.len() == Tried::WORDS)
}

// The try, past check 1.
#[tactic(auto, using(try_place::proofs::Refusing::no_detail))]
pub fn try_words(section: &[u32], rectangle: &[u32], placed: &mut [u32]) -> Reply
    requires { (length section.now ≡ 6) × (length rectangle.now ≡ 3) × (length placed.old ≡ 21) }
    ensures { try_outcome result placed.new ≡ tried_outcome (try_of (section_at section.now 0) (rectangle_in rectangle.now)) }
{
    let whd = WidthHeightDepth::read(rectangle);
    let tried = try_placement(BinSection::read(section, 0), RectToInsert { whd });
    let words: [u32; Tried::WORDS] = tried.into();
    placed.copy_from_slice(&words);
    tried.reply()
}
