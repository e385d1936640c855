// One placing step: the rectangles of a group placed one after the other on a copy of a chamber's free sections. Who made the copy keeps
// it or drops it.
ghost use Rattle.std.specs.Prelude.{◌≡◌, [], ◌∷◌, ◌++◌, ◌+◌, ◌*◌, ◌≤◌, length};
ghost use Rattle.sections.specs.Sections.{sections};
ghost use Rattle.grouped_rects_to_place.specs.Rect.{rect_at};
ghost use Rattle.grouped_rects_to_place.specs.Leaning.{HasRect};
ghost use Rattle.packing_rules.specs.Rules.{place_group};
ghost use Rattle.packing_rules.specs.Packing.{rects_at};
ghost use Rattle.placing.specs.Leaning.{RoomAfter, Reaching, PlacedOne, rect_in, GroupOf, RoomThrough};
ghost use Rattle.placing.specs.Step.{locations_in, trial_of};

use crate::place::{PlacedRect, place_rect};
use bin_section::{BinSection, RectToInsert};
use grouped_rects_to_place::RectToPlace;
use sections::append_section;
use try_place::PackedLocation;
use words::Record;

// Where a step stops: the rectangle at this place of the group fits no section; so many of the copy are free then.
#[derive(Clone, Copy, Debug, PartialEq, Eq)]
pub struct Stop {
    pub at: usize,
    pub count: usize,
}

// The rectangle at an index of the table, placed.
fn place_next(copy: &mut [u32], count: usize, rects: &[u32], i: usize) -> Option<PlacedRect>
    requires { RoomAfter count (rect_in rects.now i) copy.old × Reaching count copy.old × HasRect rects.now i }
    ensures { PlacedOne count (rect_in rects.now i) result copy.old copy.new }
{
    let whd = RectToPlace::read(rects, i).whd;
    place_rect(copy, count, RectToInsert { whd })
}

// Puts a location after the first n.
#[tactic(auto, using(crate::proofs::Stepping::locations_more))]
fn append_location(locations: &mut [u32], n: usize, location: PackedLocation)
    requires { n * 6 + 6 ≤ length locations.old }
    ensures { locations_in locations.new (n + 1) ≡ locations_in locations.old n ++ (location ∷ []) }
{
    append_section(locations, n, BinSection::from(location));
}

// "for each rectangle the free sections are tried": the group on the first `count` sections of the copy, in table order. The locations go to
// the front of `locations`. So many sections of the copy are free once all are in.
pub fn place_group(
    copy: &mut [u32],
    count: usize,
    rects: &[u32],
    group: &[usize],
    locations: &mut [u32],
) -> Result<usize, Stop>
    requires { RoomThrough count (rect_at rects.now) group.now copy.old
        × Reaching count copy.old
        × GroupOf rects.now group.now
        × (length group.now * 6 ≤ length locations.old) }
    ensures { trial_of result (length group.now) copy.new locations.new
        ≡ place_group (sections copy.old count) (rects_at (rect_at rects.now) group.now) }
{
    let mut left = count;
    for (i, &rect) in group.iter().enumerate() {
        let Some(placed) = place_next(copy, left, rects, rect) else {
            return Err(Stop { at: i, count: left });
        };
        append_location(locations, i, placed.location);
        left = placed.count;
    }
    Ok(left)
}
