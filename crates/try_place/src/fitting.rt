// Whether a rectangle fits in a section.
ghost use Rattle.std.specs.Prelude.{◌≡◌};
ghost use Rattle.try_place.specs.Try.{fit_of, refusal_of};

use crate::packed_location::PackedLocation;
use bin_section::{BinSection, RectToInsert};
use replies::Refusal;

// The Rust's BinSectionError.
#[derive(Clone, Copy, Debug, PartialEq, Eq)]
pub enum BinSectionError {
    PlacementWiderThanBinSection,
    PlacementTallerThanBinSection,
    PlacementDeeperThanBinSection,
}

impl From<BinSectionError> for Refusal {
    ghost from_gives = { λ error r. r ≡ refusal_of error };

    fn from(error: BinSectionError) -> Refusal {
        match error {
            BinSectionError::PlacementWiderThanBinSection => Refusal::TooWide,
            BinSectionError::PlacementTallerThanBinSection => Refusal::TooTall,
            BinSectionError::PlacementDeeperThanBinSection => Refusal::TooDeep,
        }
    }
}

// Where the rectangle goes in the section, or why it does not fit: the Rust's incoming_can_fit.
#[tactic(auto, using(std::proofs::lemmas::Bool::Decides::nat_tests), unfolding(crate::specs::Try::fit_of, crate::specs::Try::fit_checks, replies::specs::Replies::in_order))]
pub fn fit(section: BinSection, incoming: RectToInsert) -> Result<PackedLocation, BinSectionError>
    ensures { result ≡ fit_of section incoming }
{
    if section.whd.width < incoming.whd.width {
        return Err(BinSectionError::PlacementWiderThanBinSection);
    }
    if section.whd.height < incoming.whd.height {
        return Err(BinSectionError::PlacementTallerThanBinSection);
    }
    if section.whd.depth < incoming.whd.depth {
        return Err(BinSectionError::PlacementDeeperThanBinSection);
    }
    Ok(PackedLocation::in_corner(section, incoming))
}
