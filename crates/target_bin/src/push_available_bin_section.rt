// A section put back among the free sections of one chamber.
ghost use Rattle.std.specs.Prelude.{◌≡◌, ◌*◌, ◌≤◌, length};
ghost use Rattle.lists.specs.Tab.{put};
ghost use Rattle.bin_section.specs.Section.{section_words};
ghost use Rattle.replies.specs.Replies.{reply, in_order};
ghost use Rattle.sections.specs.Common.{common_detailed_reply};
ghost use Rattle.target_bin.specs.Return.{push_checks, return_common};

use crate::chamber::TargetBin;
use bin_section::{BinSection, inside};
use replies::Refusal;
use sections::{CommonRefusal, append_section, first_sharing};
use words::Record;

// Checks 9, 10 and 11, then the append, which answers the index of the new section. With 10 the common box goes with the refusal. The Rust
// tests the origin alone, and overlap one way; its comments decide.
#[tactic(auto, using(replies::proofs::Ladders::checks, replies::proofs::Ladders::index_below), unfolding(crate::specs::Return::push_checks, crate::specs::Return::return_common))]
pub fn push_available_bin_section(
    part: &mut [u32],
    bin: TargetBin,
    section: BinSection,
) -> Result<u32, CommonRefusal>
    requires { (length part.old ≡ 768) × (bin.count ≤ 128) }
    ensures reply_value { (common_detailed_reply result).reply ≡ in_order (push_checks bin part.old section) (λ a. a) (reply 0 bin.count) }
    ensures common_value { (common_detailed_reply result).common ≡ return_common part.old section (common_detailed_reply result).reply }
    ensures part_after { part.new ≡ in_order (push_checks bin part.old section) (λ _. part.old) (put part.old (bin.count * 6) (section_words section)) }
{
    if !inside(section, bin.whd) {
        return Err(Refusal::NotContained.into());
    }
    let count = bin.count as usize;
    if let Some(shared) = first_sharing(part, count, section) {
        return Err(CommonRefusal {
            refusal: Refusal::Overlaps(shared as u32),
            common: BinSection::read(part, shared).overlaps(section),
        });
    }
    if bin.count == TargetBin::SECTIONS {
        return Err(Refusal::Full.into());
    }
    append_section(part, count, section);
    Ok(bin.count)
}
