// Fresh chambers.
ghost use Rattle.std.specs.Prelude.{◌≡◌, [], ◌∷◌, ◌+◌, ◌*◌, ◌≤◌, length};
ghost use Rattle.lists.specs.Tab.{put};
ghost use Rattle.bin_section.specs.Section.{whole_section};
ghost use Rattle.replies.specs.Replies.{job_reply};
ghost use Rattle.target_bin.specs.Chambers.{chamber_at, chamber_count, bin_words};
ghost use Rattle.target_bin.specs.Store.{part_of};
ghost use Rattle.target_bin.specs.Outcome.{outcome};
ghost use Rattle.target_bin.specs.Fresh.{freshened, fresh_table, fresh_store, fresh_of};

use crate::chamber::TargetBin;
use crate::checks::{first_bad_shape, lengths_ok};
use bin_section::{BinSection, WidthHeightDepth};
use replies::Refusal;
use sections::clear_past;
use words::Record;

// "Fresh: 1, 2 (old counts ignored)."
#[tactic(auto, using(replies::proofs::Ladders::checks, replies::proofs::Ladders::index_below, crate::proofs::Passing::lengths, crate::proofs::Checking::outcome_is), unfolding(crate::specs::Fresh::fresh_of))]
pub fn fresh(chambers: &mut [u32], store: &mut [u32]) -> Result<(), Refusal>
    ensures { outcome (job_reply result) chambers.new store.new ≡ fresh_of chambers.old store.old }
{
    if !lengths_ok(chambers, store) {
        return Err(Refusal::BadLength);
    }
    if let Some(i) = first_bad_shape(chambers) {
        return Err(Refusal::BadChamber(i as u32));
    }
    freshen_all(chambers, store);
    Ok(())
}

// By index: of parts that are lent one after the other (chunks_exact_mut) a proof knows no more than their lengths.
fn freshen_all(chambers: &mut [u32], store: &mut [u32])
    requires { (length chambers.old ≡ chamber_count chambers.old * 5) × (length store.old ≡ chamber_count chambers.old * 768) }
    ensures { (chambers.new ≡ fresh_table chambers.old) × (store.new ≡ fresh_store chambers.old) }
{
    for i in 0..TargetBin::count_in(chambers) {
        freshen(chambers, store, i);
    }
}

#[tactic(auto, using(crate::proofs::Freshening::freshen_rules))]
fn freshen(chambers: &mut [u32], store: &mut [u32], i: usize)
    requires { (i * 5 + 5 ≤ length chambers.old) × ((i + 1) * 768 ≤ length store.old) }
    ensures chambers_after { chambers.new ≡ put chambers.old (i * 5) (bin_words (freshened (chamber_at chambers.old i))) }
    ensures store_after { store.new ≡ put store.old (i * 768) (part_of (whole_section (chamber_at chambers.old i).whd ∷ [])) }
{
    let bin = TargetBin::read(chambers, i);
    TargetBin::new(bin.id, bin.whd).write(chambers, i);
    freshen_part(&mut store[TargetBin::part(i)], bin.whd);
}

// The whole chamber as the first section, and zeros.
#[tactic(auto, using(crate::proofs::Freshening::fresh_part))]
fn freshen_part(part: &mut [u32], whd: WidthHeightDepth)
    requires { length part.old ≡ 768 }
    ensures { part.new ≡ part_of (whole_section whd ∷ []) }
{
    BinSection::whole(whd).write(part, 0);
    clear_past(part, 1);
}
