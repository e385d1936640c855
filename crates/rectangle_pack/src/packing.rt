// Pack, and its packing of the groups in their order: the Rust's pack_rects.
ghost use Rattle.std.specs.Prelude.{◌≡◌, ◌<◌, map};
ghost use Rattle.replies.specs.Replies.{job_reply};
ghost use Rattle.sections.specs.Leaning.{Cleared};
ghost use Rattle.target_bin.specs.Chambers.{chamber_at, chamber_count};
ghost use Rattle.target_bin.specs.Leaning.{Shaped, ChangedIn};
ghost use Rattle.grouped_rects_to_place.specs.Rect.{rect_at, rect_count};
ghost use Rattle.grouped_rects_to_place.specs.Leaning.{GoodRects, lead_with};
ghost use Rattle.placement.specs.Leaning.{HasPlacements};
ghost use Rattle.grouped_rects_to_place.specs.Groups.{group_order};
ghost use Rattle.packing_rules.specs.Order.{trial_order};
ghost use Rattle.rectangle_pack.specs.Pack.{pack_outcome, written, pack_of};
ghost use Rattle.packing_rules.specs.Packing.{packing};
ghost use Rattle.placing.specs.Leaning.{Ready};
ghost use Rattle.rectangle_pack.specs.Leaning.{Tidied, GroupsPacked, Passed};

use crate::checks::check_pack;
use crate::groups::pack_group;
use crate::order::sort_chambers;
use crate::placements::{clear_placements, seat_group};
use arrayvec::ArrayVec;
use bin_section::BinSection;
use grouped_rects_to_place::{Lead, RectToPlace, members_of, sort_groups};
use replies::Refusal;
use sections::clear_past;
use target_bin::TargetBin;
use words::Record;

// The words of the locations of a group, which has at most all rectangles of the call.
const LOCATION_WORDS: usize = RectToPlace::MOST * BinSection::WORDS;

// "words past each count are 0", of one chamber.
fn clear_tail(chambers: &[u32], store: &mut [u32], k: usize)
    requires { Shaped chambers.now store.old × (k < chamber_count chambers.now) }
    ensures { ChangedIn (Cleared (chamber_at chambers.now k).count) k store.old store.new }
{
    let bin = TargetBin::read(chambers, k);
    clear_past(&mut store[TargetBin::part(k)], bin.count as usize);
}

fn clear_tails(chambers: &[u32], store: &mut [u32])
    requires { Shaped chambers.now store.old }
    ensures { Tidied chambers.now store.old store.new }
{
    for k in 0..TargetBin::count_in(chambers) {
        clear_tail(chambers, store, k);
    }
}

// The groups in their order: the first that no chamber takes ends the packing. Its arrays are made once a call.
fn pack_groups(
    chambers: &mut [u32],
    store: &mut [u32],
    rects: &[u32],
    placements: &mut [u32],
    order: &[usize],
    leads: &[Lead],
) -> Result<(), Refusal>
    requires { Ready chambers.old store.old (rect_count rects.now)
        × GoodRects rects.now (rect_count rects.now)
        × HasPlacements placements.old (rect_count rects.now)
        × (order.now ≡ trial_order chambers.old)
        × (leads.now ≡ map (lead_with (rect_count rects.now) (rect_at rects.now)) (group_order (rect_count rects.now) (rect_at rects.now))) }
    ensures { GroupsPacked (rect_at rects.now) (rect_count rects.now) (job_reply result) chambers.old store.old placements.old
        chambers.new store.new placements.new }
{
    let n = rects.len() / RectToPlace::WORDS;
    let mut group: ArrayVec<usize, { RectToPlace::MOST }> = ArrayVec::new();
    let mut copy = [0u32; TargetBin::STORE];
    let mut locations = [0u32; LOCATION_WORDS];
    for lead in leads {
        members_of(rects, n, lead.first, &mut group);
        let members = group.as_slice();
        let Some(fit) = pack_group(
            chambers,
            store,
            order,
            rects,
            members,
            &mut copy,
            &mut locations,
        ) else {
            return Err(Refusal::NotEnoughBinSpace(lead.first as u32));
        };
        let bin = TargetBin::read(chambers, fit.chamber);
        seat_group(placements, bin.id, members, &locations);
    }
    Ok(())
}

// The packing itself, and then zeros past each count.
fn pack_checked(
    chambers: &mut [u32],
    store: &mut [u32],
    rects: &[u32],
    placements: &mut [u32],
) -> Result<(), Refusal>
    requires { Passed chambers.old store.old rects.now placements.old }
    ensures { pack_outcome (job_reply result) chambers.new store.new placements.new ≡ written chambers.old (packing chambers.old store.old rects.now) }
{
    clear_placements(placements);
    let n = rects.len() / RectToPlace::WORDS;
    let mut order = [0usize; TargetBin::MOST];
    let count = sort_chambers(chambers, &mut order);
    let leads = sort_groups(rects, n);
    let answer = pack_groups(chambers, store, rects, placements, &order[0..count], &leads);
    clear_tails(chambers, store);
    answer
}

// Pack: checks 1 to 6, then the groups.
pub fn pack(
    chambers: &mut [u32],
    store: &mut [u32],
    rects: &[u32],
    placements: &mut [u32],
) -> Result<(), Refusal>
    ensures { pack_outcome (job_reply result) chambers.new store.new placements.new ≡ pack_of chambers.old store.old rects.now placements.old }
{
    check_pack(chambers, store, rects, placements)?;
    pack_checked(chambers, store, rects, placements)
}
