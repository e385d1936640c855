// The join of free neighbours. With 10 it hands on the common box.
ghost use Rattle.std.specs.Prelude.{◌≡◌, ◌≤◌, length};
ghost use Rattle.replies.specs.Replies.{reply, in_order};
ghost use Rattle.sections.specs.Common.{common_detailed_reply};
ghost use Rattle.sections.specs.Sections.{sections};
ghost use Rattle.neighbours.specs.Joining.{join_all};
ghost use Rattle.neighbours.specs.Leaning.{AllEnd};
ghost use Rattle.target_bin.specs.Store.{part_of};
ghost use Rattle.target_bin.specs.Outcome.{outcome, with_common};
ghost use Rattle.joins.specs.Join.{share_checks, join_common, join_of};

use bin_section::BinSection;
use neighbours::join_all;
use replies::Refusal;
use sections::{CommonRefusal, clear_past, first_common, first_shared};
use target_bin::{TargetBin, known_chamber};
use words::Record;

// "checks 1, 2, 3, 8", then 10. It answers the number of joins.
#[tactic(auto, using(replies::proofs::Refusals::handed_on, crate::proofs::Coalescing::ends, crate::proofs::Coalescing::join_unknown, target_bin::proofs::Parts::lent_rules))]
pub fn join(chambers: &mut [u32], store: &mut [u32], id: u32) -> Result<u32, CommonRefusal>
    ensures { with_common (common_detailed_reply result).common (outcome (common_detailed_reply result).reply chambers.new store.new) ≡ join_of chambers.old store.old id }
{
    let k = known_chamber(chambers, store, id)?;
    let bin = TargetBin::read(chambers, k);
    let joins = join_part(&mut store[TargetBin::part(k)], bin.count as usize)?;
    TargetBin::write_count(chambers, k, bin.count - joins);
    Ok(joins)
}

// Check 10, then the joins; words past the count become 0. With 10 the common box goes with the refusal.
#[tactic(auto, using(replies::proofs::Ladders::checks, replies::proofs::Ladders::index_below, crate::proofs::Coalescing::searched, crate::proofs::Coalescing::common_found, crate::proofs::Coalescing::part_left, crate::proofs::Coalescing::joins_left), unfolding(crate::specs::Join::share_checks, crate::specs::Join::join_common))]
fn join_part(part: &mut [u32], count: usize) -> Result<u32, CommonRefusal>
    requires { (length part.old ≡ 768) × (count ≤ 128) × AllEnd part.old count }
    ensures reply_value { (common_detailed_reply result).reply ≡ in_order (share_checks (sections part.old count)) (λ a. a) (reply 0 (join_all (sections part.old count)).joins) }
    ensures common_value { (common_detailed_reply result).common ≡ join_common (sections part.old count) (common_detailed_reply result).reply }
    ensures part_after { part.new ≡ in_order (share_checks (sections part.old count)) (λ _. part.old) (part_of (join_all (sections part.old count)).free) }
{
    if let Some(shared) = first_shared(part, count) {
        return Err(CommonRefusal {
            refusal: Refusal::Overlaps(shared as u32),
            common: first_common(part, shared, BinSection::read(part, shared)),
        });
    }
    let left = join_all(part, count);
    clear_past(part, left);
    Ok((count - left) as u32)
}
