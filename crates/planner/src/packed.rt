// A list packed: fresh chambers, then the pack.
ghost use Rattle.std.specs.Prelude.{ℕ, ◌≡◌, ◌<◌, ◌^◌, length, get_or};
ghost use Rattle.lists.specs.Tab.{tab};
ghost use Rattle.replies.specs.Replies.{job_reply};
ghost use Rattle.placement.specs.Placements.{placement_at};
ghost use Rattle.rectangle_pack.specs.Pack.{pack_outcome};
ghost use Rattle.planner.specs.Packed.{pack_fresh, packed_list};

use crate::tables::{read_placements, write_items};
use arrayvec::ArrayVec;
use grouped_rects_to_place::RectToPlace;
use placement::Placement;
use plan_list::PlanList;
use rectangle_pack::pack;
use replies::Refusal;
use target_bin::{TargetBin, fresh};

// A placement for each coil of a list, and what the pack answered.
#[derive(Drop)]
pub struct Packed {
    pub placements: ArrayVec<Placement, { RectToPlace::MOST }>,
    pub answer: Result<(), Refusal>,
}

impl Packed {
    // The words of the tables, for as many chambers and coils as there can be.
    const CHAMBERS: usize = TargetBin::MOST * TargetBin::WORDS;

    const STORE: usize = TargetBin::MOST * TargetBin::STORE;

    const COILS: usize = RectToPlace::MOST * RectToPlace::WORDS;

    const PLACEMENTS: usize = RectToPlace::MOST * Placement::WORDS;
}

#[tactic(auto, using(replies::proofs::Refusals::refusal_number), unfolding(crate::specs::Packed::packed_after, crate::specs::Packed::pack_fresh))]
fn pack_fresh(
    chambers: &mut [u32],
    store: &mut [u32],
    coils: &[u32],
    placements: &mut [u32],
) -> Result<(), Refusal>
    ensures { pack_outcome (job_reply result) chambers.new store.new placements.new ≡ pack_fresh chambers.old store.old coils.now placements.old }
{
    fresh(chambers, store)?;
    pack(chambers, store, coils, placements)
}

// Packs a list in tables of the lengths that it asks for.
pub fn pack_list(list: &PlanList) -> Packed
    ensures placed { result.placements.items ≡ tab (length list.now.coils.items) (placement_at (packed_list list.now).placements) }
    ensures answered { job_reply result.answer ≡ (packed_list list.now).reply }
    ensures small { (k : ℕ) → get_or (packed_list list.now).placements k 0 < 2 ^ 32 }
{
    let mut chambers = [0; Packed::CHAMBERS];
    let mut store = [0; Packed::STORE];
    let mut coils = [0; Packed::COILS];
    let mut placements = [0; Packed::PLACEMENTS];
    let bins = list.chambers.len();
    let n = list.coils.len();
    let chambers = &mut chambers[..bins * TargetBin::WORDS];
    let store = &mut store[..bins * TargetBin::STORE];
    let coils = &mut coils[..n * RectToPlace::WORDS];
    let placements = &mut placements[..n * Placement::WORDS];
    write_items(&list.chambers, chambers);
    write_items(&list.coils, coils);
    let answer = pack_fresh(chambers, store, coils, placements);
    Packed {
        placements: read_placements(placements, n),
        answer,
    }
}
