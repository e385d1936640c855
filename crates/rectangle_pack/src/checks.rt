// "Pack: 1 to 7": the checks before the packing.
ghost use Rattle.std.specs.Prelude.{◌≡◌, ◌*◌, ◌≤◌, length};
ghost use Rattle.lists.specs.Lowest.{lowest_index};
ghost use Rattle.replies.specs.Replies.{reply, job_reply, in_order};
ghost use Rattle.target_bin.specs.Chambers.{chamber_count};
ghost use Rattle.target_bin.specs.Leaning.{Counted};
ghost use Rattle.rectangle_pack.specs.Pack.{rect_lengths_ok, rect_checks, pack_checks};
ghost use Rattle.grouped_rects_to_place.specs.Rect.{rect_width, rect_count};
ghost use Rattle.packing_rules.specs.Packing.{no_room};

use grouped_rects_to_place::{RectToPlace, first_bad_rect, first_repeated};
use lists::lowest_index;
use placement::Placement;
use replies::Refusal;
use target_bin::{TargetBin, check_tables};
use words::Record;

// The rectangles' half of check 1.
#[tactic(auto, unfolding(crate::specs::Pack::rect_lengths_ok))]
fn rect_lengths_ok(rects: &[u32], placements: &[u32]) -> bool
    ensures { result ≡ rect_lengths_ok rects.now placements.now }
{
    let n = rects.len() / RectToPlace::WORDS;
    rects.len() % RectToPlace::WORDS == 0
        && (n <= RectToPlace::MOST && placements.len() == n * Placement::WORDS)
}

// Check 6: the first chamber with too little room.
#[tactic(auto, unfolding(packing_rules::specs::Packing::no_room, packing_rules::specs::Packing::most_sections))]
fn first_without_room(chambers: &[u32], n: usize) -> Option<usize>
    requires { Counted chambers.now × (n ≤ 63) }
    ensures { result ≡ lowest_index (chamber_count chambers.now) (no_room chambers.now n) }
{
    lowest_index(TargetBin::count_in(chambers), |k| {
        (TargetBin::SECTIONS as usize) < TargetBin::read(chambers, k).count as usize + 2 * n
    })
}

// Checks 4, 5 and 6 in their order.
fn check_rects(chambers: &[u32], rects: &[u32]) -> Result<(), Refusal>
    requires { Counted chambers.now × (chamber_count chambers.now ≤ 16) × (length rects.now ≡ rect_count rects.now * rect_width) × (rect_count rects.now ≤ 63) }
    ensures { job_reply result ≡ in_order (rect_checks chambers.now rects.now) (λ a. a) (reply 0 0) }
{
    let n = rects.len() / RectToPlace::WORDS;
    if let Some(i) = first_bad_rect(rects, n) {
        return Err(Refusal::BadRectangle(i as u32));
    }
    if let Some(i) = first_repeated(rects, n) {
        return Err(Refusal::SameId(i as u32));
    }
    if let Some(k) = first_without_room(chambers, n) {
        return Err(Refusal::NoRoom(k as u32));
    }
    Ok(())
}

// All of them.
pub fn check_pack(
    chambers: &[u32],
    store: &[u32],
    rects: &[u32],
    placements: &[u32],
) -> Result<(), Refusal>
    ensures { job_reply result ≡ in_order (pack_checks chambers.now store.now rects.now placements.now) (λ a. a) (reply 0 0) }
{
    if !rect_lengths_ok(rects, placements) {
        return Err(Refusal::BadLength);
    }
    check_tables(chambers, store)?;
    check_rects(chambers, rects)
}
