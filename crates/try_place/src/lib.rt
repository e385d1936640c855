// Try one placement: a rectangle in the corner of a section, and what remains.
#![tactic(auto)]

ghost use Rattle.std.specs.Prelude.{◌≡◌};
ghost use Rattle.try_place.specs.Leaning.{Fitting};
ghost use Rattle.replies.specs.Replies.{reply};
ghost use Rattle.try_place.specs.Try.{span_ok, section_ok, chosen_three, try_answer, try_of, number_of, location_of};

mod choice;
mod fitting;
mod packed_location;
mod splits;
mod tried_words;

use bin_section::{BinSection, RectToInsert, WidthHeightDepth, side_ok};
use choice::choose;
pub use fitting::{BinSectionError, fit};
pub use packed_location::PackedLocation;
use replies::{Refusal, Reply};
use splits::six_splits;

// The answer with the three sections beside it, right, above, behind. A refusal has three zero sections, so it is no Result of both.
#[derive(Clone, Copy)]
pub struct Tried {
    pub answer: Result<PackedLocation, Refusal>,
    pub sections: [BinSection; 3],
}

impl Tried {
    // The words of a location and three sections.
    pub const WORDS: usize = PackedLocation::WORDS + 3 * BinSection::WORDS;

    // "A detail that isn't named is 0." No try answers a refusal that has another (`no_detail`, proofs/Refusing.antt).
    pub fn reply(&self) -> Reply
        ensures { result ≡ reply (number_of self.now.answer) 0 }
    {
        match self.answer {
            Ok(_) => Reply::new(Reply::DONE, 0),
            Err(refusal) => Reply::new(Reply::from(refusal).number, 0),
        }
    }

    // The location, zero where the try is refused.
    pub fn location(&self) -> PackedLocation
        ensures { result ≡ location_of self.now.answer }
    {
        let Ok(location) = self.answer else {
            return PackedLocation::zero();
        };
        location
    }
}

// The chosen three, of a section that fits. It stands apart from the tests, so that a refusal costs the tests alone.
pub fn chosen_three(section: BinSection, incoming: RectToInsert) -> [BinSection; 3]
    requires { Fitting section incoming }
    ensures { result ≡ chosen_three section incoming }
{
    let splits = six_splits(section, incoming);
    splits[choose(splits)]
}

fn in_range(s: BinSection) -> bool
    ensures { result ≡ section_ok s }
{
    span_ok(s.x, s.whd.width) & (span_ok(s.y, s.whd.height) & span_ok(s.z, s.whd.depth))
}

// Whether a side is 1 to 65,535 and ends at 65,535 at most. The sum is made in 64 bits: in 32 it could wrap.
#[tactic(auto, unfolding(crate::specs::Try::span_ok))]
fn span_ok(origin: u32, side: u32) -> bool
    ensures { result ≡ span_ok origin side }
{
    side_ok(side) & ((origin as u64) + (side as u64) <= WidthHeightDepth::MOST_SIDE as u64)
}

// The checks 3 and 4, then the fit.
#[tactic(auto, using(crate::proofs::Refusing::try_fit), unfolding(crate::specs::Try::range_checks, replies::specs::Replies::in_order))]
fn answer_to(section: BinSection, rectangle: RectToInsert) -> Result<PackedLocation, Refusal>
    ensures { result ≡ try_answer section rectangle }
{
    if !in_range(section) {
        return Err(Refusal::BadSection(0));
    }
    if !rectangle.whd.in_range() {
        return Err(Refusal::BadRectangle(0));
    }
    Ok(fit(section, rectangle)?)
}

// Try one placement, for any section and any rectangle: the Rust's try_place.
pub fn try_placement(section: BinSection, rectangle: RectToInsert) -> Tried
    ensures { result ≡ try_of section rectangle }
{
    let answer = answer_to(section, rectangle);
    let Ok(_) = answer else {
        return Tried {
            answer,
            sections: [BinSection::zero(); 3],
        };
    };
    Tried {
        answer,
        sections: chosen_three(section, rectangle),
    }
}
