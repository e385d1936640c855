// The placement table of a pack.
ghost use Rattle.std.specs.Prelude.{◌≡◌, ◌*◌, ◌≤◌, length, replicate};
ghost use Rattle.lists.specs.Tab.{put};
ghost use Rattle.placement.specs.Placements.{placement_width, placement_words};
ghost use Rattle.placement.specs.Leaning.{HasPlacement};
ghost use Rattle.packing_rules.specs.Seats.{seat};
ghost use Rattle.placing.specs.Step.{as_location};
ghost use Rattle.rectangle_pack.specs.Records.{placement_of};
ghost use Rattle.rectangle_pack.specs.Leaning.{SeatsFor, Seated};

use bin_section::BinSection;
use placement::Placement;
use words::Record;

// Writes the record of the rectangle at index i, which stands there in the chamber of this id.
fn write_placement(placements: &mut [u32], i: usize, id: u32, stands: BinSection)
    requires { HasPlacement placements.old i }
    ensures { placements.new ≡ put placements.old (i * placement_width) (placement_words (placement_of (seat id (as_location stands)))) }
{
    let record = Placement {
        placed: Placement::PLACED,
        chamber: id,
        x: stands.x,
        y: stands.y,
        z: stands.z,
    };
    record.write(placements, i);
}

// The locations become placements: the rectangles of a group take their seats in the chamber of this id.
pub fn seat_group(placements: &mut [u32], id: u32, group: &[usize], locations: &[u32])
    requires { SeatsFor group.now placements.old × (length group.now * 6 ≤ length locations.now) }
    ensures { Seated id group.now locations.now placements.old placements.new }
{
    for (i, &rect) in group.iter().enumerate() {
        write_placement(placements, rect, id, BinSection::read(locations, i));
    }
}

// "An unplaced record is five zeros."
pub fn clear_placements(placements: &mut [u32])
    ensures { placements.new ≡ replicate (length placements.old) 0 }
{
    placements.fill(0);
}
