// Checks 4 and 5: "rectangle side 0 or above 65,535", "a rectangle id stands at an earlier index too".
ghost use Rattle.std.specs.Prelude.{◌≡◌};
ghost use Rattle.lists.specs.Lowest.{lowest_index};
ghost use Rattle.grouped_rects_to_place.specs.Rect.{rect_at};
ghost use Rattle.grouped_rects_to_place.specs.Leaning.{HasRect, HasRects};
ghost use Rattle.grouped_rects_to_place.specs.Checks.{bad_rect, repeated_id};

use crate::rect_to_place::RectToPlace;
use lists::lowest_index;
use words::Record;

// Check 4: the lowest index whose rectangle has a bad side.
#[tactic(auto, unfolding(crate::specs::Checks::bad_rect))]
pub fn first_bad_rect(rects: &[u32], n: usize) -> Option<usize>
    requires { HasRects rects.now n }
    ensures { result ≡ lowest_index n (bad_rect (rect_at rects.now)) }
{
    lowest_index(n, |i| !RectToPlace::read(rects, i).whd.in_range())
}

// Check 5: the lowest index whose id stands at an earlier index too.
pub fn first_repeated(rects: &[u32], n: usize) -> Option<usize>
    requires { HasRects rects.now n }
    ensures { result ≡ lowest_index n (repeated_id (rect_at rects.now)) }
{
    lowest_index(n, |i| repeated(rects, i))
}

fn repeated(rects: &[u32], i: usize) -> bool
    requires { HasRect rects.now i }
    ensures { result ≡ repeated_id (rect_at rects.now) i }
{
    let id = RectToPlace::read(rects, i).id;
    lowest_index(i, |j| RectToPlace::read(rects, j).id == id).is_some()
}
