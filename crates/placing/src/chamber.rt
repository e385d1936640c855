// One placing step in a chamber: its counted sections are copied, and the group is placed on the copy. The store stays as it is.
ghost use Rattle.std.specs.Prelude.{◌≡◌, ◌*◌, ◌≤◌, ◌<◌, [], length, get_or};
ghost use Rattle.target_bin.specs.Chambers.{chamber_count};
ghost use Rattle.target_bin.specs.Store.{free_of};
ghost use Rattle.grouped_rects_to_place.specs.Rect.{rect_at};
ghost use Rattle.grouped_rects_to_place.specs.Leaning.{HasRect};
ghost use Rattle.packing_rules.specs.Rules.{place_one};
ghost use Rattle.packing_rules.specs.Packing.{rects_at, trial_in};
ghost use Rattle.placing.specs.Leaning.{is_somewhere, rect_in, GroupOf, Ready};
ghost use Rattle.placing.specs.Step.{trial_of};

use crate::place::last_fitting;
use crate::step::{Stop, place_group};
use bin_section::RectToInsert;
use grouped_rects_to_place::RectToPlace;
use sections::copy_sections;
use target_bin::TargetBin;
use words::Record;

// Whether the chamber at k has a section that fits the rectangle at index i. It reads the store, and copies nothing.
pub fn has_place(chambers: &[u32], store: &[u32], k: usize, rects: &[u32], i: usize) -> bool
    requires { Ready chambers.now store.now 0 × (k < chamber_count chambers.now) × HasRect rects.now i }
    ensures { result ≡ is_somewhere (place_one (get_or (free_of chambers.now store.now) k []) (rect_in rects.now i)) }
{
    let bin = TargetBin::read(chambers, k);
    let whd = RectToPlace::read(rects, i).whd;
    last_fitting(
        &store[TargetBin::part(k)],
        bin.count as usize,
        RectToInsert { whd },
    )
    .is_some()
}

// "A group is tried in each chamber in turn": in the chamber at k.
pub fn place_in(
    chambers: &[u32],
    store: &[u32],
    k: usize,
    rects: &[u32],
    group: &[usize],
    copy: &mut [u32],
    locations: &mut [u32],
) -> Result<usize, Stop>
    requires { Ready chambers.now store.now (length group.now)
        × (k < chamber_count chambers.now)
        × GroupOf rects.now group.now
        × (length copy.old ≡ 768)
        × (length group.now * 6 ≤ length locations.old) }
    ensures { trial_of result (length group.now) copy.new locations.new
        ≡ trial_in (rects_at (rect_at rects.now) group.now) (free_of chambers.now store.now) k }
{
    let bin = TargetBin::read(chambers, k);
    let count = bin.count as usize;
    copy_sections(&store[TargetBin::part(k)], count, copy);
    place_group(copy, count, rects, group, locations)
}
