// The C face: the six jobs for programs in other languages. include/cafunderi.h declares them.
// A table is a pointer and a length in words. A job that takes its tables as the C face has them is called as it stands.
#![tactic(auto)]

ghost use Rattle.std.specs.Prelude.{◌≡◌};
ghost use Rattle.target_bin.specs.Outcome.{outcome};
ghost use Rattle.target_bin.specs.Fresh.{fresh_of};
ghost use Rattle.rectangle_pack.specs.Pack.{pack_outcome, pack_of};
ghost use Rattle.cafunderi.specs.Try.{try_outcome, try_face};
ghost use Rattle.cafunderi.specs.Common.{lent_after};
ghost use Rattle.cafunderi.specs.Join.{join_face};
ghost use Rattle.cafunderi.specs.Return.{return_face};
ghost use Rattle.cafunderi.specs.Audit.{audit_words, audit_face};

mod common_words;
mod try_words;

use audit::audit_answer;
use bin_section::{BinSection, WidthHeightDepth};
use common_words::hand_on;
use joins::join;
use rectangle_pack::pack;
use replies::{Refusal, Reply};
use sections::CommonReply;
use target_bin::{fresh, return_section};
use try_words::{lengths_ok, try_words};
use words::Record;

#[unsafe(no_mangle)]
pub extern "C" fn cafunderi_fresh(chambers: &mut [u32], store: &mut [u32]) -> Reply
    ensures { outcome result chambers.new store.new ≡ fresh_of chambers.old store.old }
{
    Reply::from(fresh(chambers, store))
}

#[unsafe(no_mangle)]
#[tactic(auto, unfolding(crate::specs::Try::try_face, crate::specs::Try::try_lengths_ok, replies::specs::Replies::in_order))]
pub extern "C" fn cafunderi_try(section: &[u32], rectangle: &[u32], placed: &mut [u32]) -> Reply
    ensures { try_outcome result placed.new ≡ try_face section.now rectangle.now placed.old }
{
    if !lengths_ok(section, rectangle, placed) {
        return Reply::from(Refusal::BadLength);
    }
    try_words(section, rectangle, placed)
}

#[unsafe(no_mangle)]
pub extern "C" fn cafunderi_pack(
    chambers: &mut [u32],
    store: &mut [u32],
    rectangles: &[u32],
    placements: &mut [u32],
) -> Reply
    ensures { pack_outcome result chambers.new store.new placements.new ≡ pack_of chambers.old store.old rectangles.now placements.old }
{
    Reply::from(pack(chambers, store, rectangles, placements))
}

// The section is the header's box, a word that is reserved here.
#[unsafe(no_mangle)]
#[tactic(auto, unfolding(crate::specs::Return::return_face, replies::specs::Replies::in_order))]
pub extern "C" fn cafunderi_return(
    chambers: &mut [u32],
    store: &mut [u32],
    id: u32,
    section: &[u32],
    common: &mut [u32],
) -> Reply
    ensures { lent_after result chambers.new store.new common.new ≡ return_face chambers.old store.old id section.now common.old }
{
    if section.len() != BinSection::WORDS || common.len() != BinSection::WORDS {
        return Reply::from(Refusal::BadLength);
    }
    let answer = return_section(chambers, store, id, BinSection::read(section, 0));
    hand_on(CommonReply::from(answer), common)
}

#[unsafe(no_mangle)]
#[tactic(auto, unfolding(crate::specs::Join::join_face, replies::specs::Replies::in_order))]
pub extern "C" fn cafunderi_join(
    chambers: &mut [u32],
    store: &mut [u32],
    id: u32,
    common: &mut [u32],
) -> Reply
    ensures { lent_after result chambers.new store.new common.new ≡ join_face chambers.old store.old id common.old }
{
    if common.len() != BinSection::WORDS {
        return Reply::from(Refusal::BadLength);
    }
    let answer = join(chambers, store, id);
    hand_on(CommonReply::from(answer), common)
}

// Reply and common box cross over, and no part of the lists: the detail says where the faulty box lies.
#[unsafe(no_mangle)]
#[tactic(auto, unfolding(crate::specs::Audit::audit_face, audit::specs::Audit::audit_of, replies::specs::Replies::in_order))]
pub extern "C" fn cafunderi_audit(
    sides: &[u32],
    placed: &[u32],
    free: &[u32],
    common: &mut [u32],
) -> Reply
    ensures { audit_words result common.new ≡ audit_face sides.now placed.now free.now common.old }
{
    if sides.len() != WidthHeightDepth::WORDS || common.len() != BinSection::WORDS {
        return Reply::from(Refusal::BadLength);
    }
    let whd = WidthHeightDepth::read(sides);
    let answer = audit_answer(whd, placed, free);
    hand_on(CommonReply::from(answer), common)
}
