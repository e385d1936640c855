// "A group is tried in each chamber in turn": the first chamber where all of it fits keeps the copy on which it was placed.
ghost use Rattle.std.specs.Prelude.{◌≡◌, ◌≤◌, ◌<◌, length};
ghost use Rattle.lists.specs.Sort.{Each};
ghost use Rattle.sections.specs.Sections.{sections};
ghost use Rattle.target_bin.specs.Chambers.{chamber_count};
ghost use Rattle.target_bin.specs.Leaning.{Shaped};
ghost use Rattle.target_bin.specs.Store.{free_of};
ghost use Rattle.grouped_rects_to_place.specs.Rect.{rect_at};
ghost use Rattle.packing_rules.specs.Packing.{rects_at};
ghost use Rattle.placing.specs.Leaning.{Ready};
ghost use Rattle.rectangle_pack.specs.Leaning.{Wanted, FitHere, FirstFit, KeptIn, Grouped};

use placing::{has_place, place_in};
use sections::copy_sections;
use target_bin::TargetBin;

// Where a group goes: into the chamber at this index, which then has so many free sections.
#[derive(Clone, Copy)]
pub struct Fit {
    pub chamber: usize,
    pub count: usize,
}

// The group in the chamber at k. A chamber that has no place for the first of the group is not copied.
fn fit_in(
    chambers: &[u32],
    store: &[u32],
    k: usize,
    rects: &[u32],
    group: &[usize],
    copy: &mut [u32],
    locations: &mut [u32],
) -> Option<Fit>
    requires { Ready chambers.now store.now (length group.now)
        × (k < chamber_count chambers.now)
        × Wanted rects.now group.now copy.old locations.old }
    ensures { FitHere result k (rects_at (rect_at rects.now) group.now) (free_of chambers.now store.now)
        (length group.now) copy.new locations.new }
{
    if !has_place(chambers, store, k, rects, group[0]) {
        return None;
    }
    let count = place_in(chambers, store, k, rects, group, copy, locations).ok()?;
    Some(Fit { chamber: k, count })
}

// "The first chamber where all fit", in the order of the chambers. In each the copy is made anew.
fn first_fitting(
    chambers: &[u32],
    store: &[u32],
    order: &[usize],
    rects: &[u32],
    group: &[usize],
    copy: &mut [u32],
    locations: &mut [u32],
) -> Option<Fit>
    requires { Ready chambers.now store.now (length group.now)
        × Each (λ k. k < chamber_count chambers.now) order.now
        × Wanted rects.now group.now copy.old locations.old }
    ensures { FirstFit result order.now (rects_at (rect_at rects.now) group.now) (free_of chambers.now store.now)
        (length group.now) copy.new locations.new }
{
    for &k in order {
        if let Some(fit) = fit_in(chambers, store, k, rects, group, copy, locations) {
            return Some(fit);
        }
    }
    None
}

// The copy is kept: its first n sections are those of the chamber at k from now on.
fn keep(chambers: &mut [u32], store: &mut [u32], k: usize, copy: &[u32], n: usize)
    requires { Shaped chambers.old store.old × (k < chamber_count chambers.old) × (length copy.now ≡ 768) × (n ≤ 128) }
    ensures { KeptIn k (sections copy.now n) chambers.old store.old chambers.new store.new }
{
    copy_sections(copy, n, &mut store[TargetBin::part(k)]);
    TargetBin::write_count(chambers, k, n as u32);
}

// One group: "The first chamber where all fit is changed so; others aren't." Where none serves, the last copy is dropped.
pub fn pack_group(
    chambers: &mut [u32],
    store: &mut [u32],
    order: &[usize],
    rects: &[u32],
    group: &[usize],
    copy: &mut [u32],
    locations: &mut [u32],
) -> Option<Fit>
    requires { Ready chambers.old store.old (length group.now)
        × Each (λ k. k < chamber_count chambers.old) order.now
        × Wanted rects.now group.now copy.old locations.old }
    ensures { Grouped result order.now (rects_at (rect_at rects.now) group.now) (length group.now) locations.new
        chambers.old store.old chambers.new store.new }
{
    let fit = first_fitting(chambers, store, order, rects, group, copy, locations)?;
    keep(chambers, store, fit.chamber, copy, fit.count);
    Some(fit)
}
