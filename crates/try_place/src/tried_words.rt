// The words of what a try answers.
ghost use Rattle.std.specs.Prelude.{◌≡◌, ◌++◌, ◌*◌, ◌≤◌, length, drop};
ghost use Rattle.words.specs.Words.{joined};
ghost use Rattle.bin_section.specs.Section.{section_words};
ghost use Rattle.try_place.specs.Words.{tried_words};

use crate::{PackedLocation, Tried};
use bin_section::BinSection;
use words::{Record, put_words};

// The location, then right, above, behind.
impl From<Tried> for [u32; 21] {
    ghost from_gives = { λ tried words. words ≡ tried_words tried };

    fn from(tried: Tried) -> [u32; 21] {
        let location = tried.location();
        let mut words = [0; Tried::WORDS];
        put_words(&mut words, 0, &[location.x, location.y, location.z]);
        write_sections(&tried.sections, &mut words[PackedLocation::WORDS..]);
        words
    }
}

// The sections, one after the other.
#[tactic(auto, using(crate::proofs::Words::written_more), unfolding(words::specs::Words::joined))]
fn write_sections(sections: &[BinSection], words: &mut [u32])
    requires { length sections.now * 6 ≤ length words.old }
    ensures { words.new ≡ joined section_words sections.now ++ drop (length sections.now * 6) words.old }
{
    for (i, section) in sections.iter().enumerate() {
        section.write(words, i);
    }
}
