// Groups: who belongs together, which rectangle is the first of a group, its members and the sum of their volumes.
ghost use Rattle.std.specs.Prelude.{◌≡◌, ◌<◌, ◌≤◌};
ghost use Rattle.grouped_rects_to_place.specs.Rect.{rect_at};
ghost use Rattle.grouped_rects_to_place.specs.Leaning.{HasRect, HasRects, GoodRects};
ghost use Rattle.grouped_rects_to_place.specs.Groups.{same_group, is_lead, group_volume, members};

use crate::rect_to_place::RectToPlace;
use arrayvec::ArrayVec;
use lists::lowest_index;
use words::Record;

// A rectangle with no group is a group of one.
#[tactic(auto, unfolding(crate::specs::Groups::same_group))]
pub fn same_group(rects: &[u32], i: usize, j: usize) -> bool
    requires { HasRect rects.now i × HasRect rects.now j }
    ensures { result ≡ same_group (rect_at rects.now) i j }
{
    let a = RectToPlace::read(rects, i);
    let b = RectToPlace::read(rects, j);
    i == j || 0 < a.group && a.group == b.group
}

// Whether no rectangle before it is of its group.
pub fn is_lead(rects: &[u32], i: usize) -> bool
    requires { HasRect rects.now i }
    ensures { result ≡ is_lead (rect_at rects.now) i }
{
    lowest_index(i, |j| same_group(rects, j, i)).is_none()
}

// The sum of the volumes of the group: at most 63 of them, so it fits 64 bits.
pub fn group_volume(rects: &[u32], n: usize, lead: usize) -> u64
    requires { GoodRects rects.now n × (lead < n) }
    ensures { result ≡ group_volume n (rect_at rects.now) lead }
{
    let mut sum = 0;
    for j in 0..n {
        if same_group(rects, lead, j) {
            sum += RectToPlace::read(rects, j).whd.volume();
        }
    }
    sum
}

// "Inside a group, table order": `out` has the indices of the group from now on, and no others.
pub fn members_of<const CAP: usize>(
    rects: &[u32],
    n: usize,
    lead: usize,
    out: &mut ArrayVec<usize, CAP>,
)
    requires { HasRects rects.now n × (lead < n) × (n ≤ CAP) }
    ensures { out.new.items ≡ members n (rect_at rects.now) lead }
{
    out.clear();
    for j in 0..n {
        if same_group(rects, lead, j) {
            out.push(j);
        }
    }
}
