// The return of a section.
ghost use Rattle.std.specs.Prelude.{◌≡◌};
ghost use Rattle.sections.specs.Common.{common_detailed_reply};
ghost use Rattle.target_bin.specs.Outcome.{outcome, with_common};
ghost use Rattle.target_bin.specs.Return.{return_of};

use crate::chamber::TargetBin;
use crate::checks::known_chamber;
use crate::push_available_bin_section::push_available_bin_section;
use bin_section::BinSection;
use sections::CommonRefusal;
use words::Record;

// "Return: 1, 2, 3, 8, 9, 10, 11." It answers the index of the new section.
#[tactic(auto, using(replies::proofs::Refusals::handed_on, crate::proofs::Returning::return_unknown))]
pub fn return_section(
    chambers: &mut [u32],
    store: &mut [u32],
    id: u32,
    section: BinSection,
) -> Result<u32, CommonRefusal>
    ensures { with_common (common_detailed_reply result).common (outcome (common_detailed_reply result).reply chambers.new store.new) ≡ return_of chambers.old store.old id section }
{
    let k = known_chamber(chambers, store, id)?;
    let bin = TargetBin::read(chambers, k);
    let index = push_available_bin_section(&mut store[TargetBin::part(k)], bin, section)?;
    TargetBin::write_count(chambers, k, bin.count + 1);
    Ok(index)
}
