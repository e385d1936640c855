// A list's records in the words of a table, and the placements of a table.
ghost use Rattle.std.specs.Prelude.{ℕ, ◌≡◌, ◌*◌, ◌<◌, ◌≤◌, ◌^◌, length, get_or};
ghost use Rattle.lists.specs.Tab.{tab};
ghost use Rattle.words.specs.Words.{joined};
ghost use Rattle.placement.specs.Placements.{placement_at};
ghost use Rattle.placement.specs.Leaning.{HasPlacements};

use arrayvec::ArrayVec;
use grouped_rects_to_place::RectToPlace;
use placement::Placement;
use plan_list::OnLine;
use words::Record;

// Writes the record of each entry, in a table with room for as many.
pub fn write_items<T: Record<N>, const N: usize>(list: &[OnLine<T>], table: &mut [u32])
    requires { length table.old ≡ length list.now * N }
    ensures { table.new ≡ joined (λ e. T.record_words e.item) list.now }
{
    for (i, entry) in list.iter().enumerate() {
        entry.item.write(table, i);
    }
}

// The first n placements of a table.
#[tactic(auto, using(lists::proofs::Tabs::tab_suc), unfolding(lists::specs::Tab::tab))]
pub fn read_placements(table: &[u32], n: usize) -> ArrayVec<Placement, { RectToPlace::MOST }>
    requires { (n ≤ 63) × HasPlacements table.now n }
    ensures items { result.items ≡ tab n (placement_at table.now) }
    ensures small { (k : ℕ) → get_or table.now k 0 < 2 ^ 32 }
{
    let mut placements = ArrayVec::new();
    for i in 0..n {
        placements.push(Placement::read(table, i));
    }
    placements
}
