// The free sections tried from the last to the first.
ghost use Rattle.std.specs.Prelude.{◌+◌, ◌-◌, ◌*◌, ◌≤◌, ◌<◌, ◌≡◌, ◌++◌, length};
ghost use Rattle.lists.specs.Tab.{remove_at};
ghost use Rattle.sections.specs.Sections.{sections};
ghost use Rattle.bin_section.specs.Section.{section_at};
ghost use Rattle.try_place.specs.Try.{chosen_three};
ghost use Rattle.try_place.specs.Leaning.{Fitting};
ghost use Rattle.packing_rules.specs.Appended.{appended_of};
ghost use Rattle.placing.specs.Leaning.{TakenAt, RoomAfter, PlacedOne, Reaching};

use crate::add_new_sections::add_new_sections;
use bin_section::{BinSection, RectToInsert};
use sections::remove_section;
use try_place::{PackedLocation, chosen_three, fit};
use words::Record;

// Where a rectangle went, and the number of free sections afterwards.
#[derive(Clone, Copy)]
pub struct PlacedRect {
    pub location: PackedLocation,
    pub count: usize,
}

// The section at i fits: it is removed, later ones move down one, and the chosen three are appended. Answers the new count.
fn replace(words: &mut [u32], count: usize, i: usize, incoming: RectToInsert) -> usize
    requires { (count * 6 ≤ length words.old)
        × ((count - 1 + length (appended_of (chosen_three (section_at words.old i) incoming))) * 6 ≤ length words.old)
        × (i < count)
        × Fitting (section_at words.old i) incoming }
    ensures { sections words.new result
        ≡ remove_at i (sections words.old count) ++ appended_of (chosen_three (section_at words.old i) incoming) }
{
    let section = BinSection::read(words, i);
    let three = chosen_three(section, incoming);
    remove_section(words, count, i);
    add_new_sections(words, count - 1, three)
}

// "the free sections are tried from the last to the first": the index of the first that fits. It stands by itself, so that the compiled loop
// is short.
pub fn last_fitting(words: &[u32], count: usize, incoming: RectToInsert) -> Option<usize>
    requires { (count * 6 ≤ length words.now) × Reaching count words.now }
    ensures { TakenAt count incoming result words.now }
{
    for i in (0..count).rev() {
        if fit(BinSection::read(words, i), incoming).is_ok() {
            return Some(i);
        }
    }
    None
}

// "the first that fits is removed": the rectangle goes to its origin.
pub fn place_rect(words: &mut [u32], count: usize, incoming: RectToInsert) -> Option<PlacedRect>
    requires { RoomAfter count incoming words.old × Reaching count words.old }
    ensures { PlacedOne count incoming result words.old words.new }
{
    let i = last_fitting(words, count, incoming)?;
    let location = PackedLocation::in_corner(BinSection::read(words, i), incoming);
    let count = replace(words, count, i, incoming);
    Some(PlacedRect { location, count })
}
