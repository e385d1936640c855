// Checks 1 to 3, and the chamber of an id. Fresh makes 1 and 2 without the counts; pack, return and join make all three first.
ghost use Rattle.std.specs.Prelude.{◌≡◌, ◌+◌, ◌*◌, ◌≤◌, length, IfOk};
ghost use Rattle.lists.specs.Lowest.{lowest_index};
ghost use Rattle.replies.specs.Replies.{reply, job_reply, detailed_reply, in_order};
ghost use Rattle.target_bin.specs.Chambers.{chamber_at, chamber_count, chamber_of, has_id};
ghost use Rattle.target_bin.specs.Checks.{lengths_ok, id_ok, shape_ok, chamber_ok, bad_shape, bad_chamber, bad_sections, table_checks, known_checks};
ghost use Rattle.target_bin.specs.Leaning.{Counted, Known};

use crate::chamber::TargetBin;
use lists::lowest_index;
use replies::Refusal;
use sections::first_outside;
use words::Record;

// Check 1, without the placement table.
#[tactic(auto, unfolding(crate::specs::Checks::lengths_ok))]
pub fn lengths_ok(chambers: &[u32], store: &[u32]) -> bool
    ensures { result ≡ lengths_ok chambers.now store.now }
{
    let n = TargetBin::count_in(chambers);
    chambers.len() % TargetBin::WORDS == 0
        && (n <= TargetBin::MOST && store.len() == n * TargetBin::STORE)
}

// "ids strictly rising"
#[tactic(auto, unfolding(crate::specs::Checks::id_ok))]
fn id_ok(chambers: &[u32], i: usize) -> bool
    requires { i * 5 + 5 ≤ length chambers.now }
    ensures { result ≡ id_ok chambers.now i }
{
    i == 0 || TargetBin::read(chambers, i - 1).id < TargetBin::read(chambers, i).id
}

#[tactic(auto, unfolding(crate::specs::Checks::shape_ok))]
fn shape_ok(chambers: &[u32], i: usize) -> bool
    requires { i * 5 + 5 ≤ length chambers.now }
    ensures { result ≡ shape_ok chambers.now i }
{
    id_ok(chambers, i) && TargetBin::read(chambers, i).whd.in_range()
}

#[tactic(auto, unfolding(crate::specs::Checks::chamber_ok))]
fn chamber_ok(chambers: &[u32], i: usize) -> bool
    requires { i * 5 + 5 ≤ length chambers.now }
    ensures { result ≡ chamber_ok chambers.now i }
{
    shape_ok(chambers, i) && TargetBin::read(chambers, i).count <= TargetBin::SECTIONS
}

// The first chamber that check 2 fires at with "old counts ignored".
pub fn first_bad_shape(chambers: &[u32]) -> Option<usize>
    ensures { result ≡ lowest_index (chamber_count chambers.now) (bad_shape chambers.now) }
{
    lowest_index(TargetBin::count_in(chambers), |i| !shape_ok(chambers, i))
}

// The first chamber that check 2 fires at.
fn first_bad_chamber(chambers: &[u32]) -> Option<usize>
    ensures { result ≡ lowest_index (chamber_count chambers.now) (bad_chamber chambers.now) }
{
    lowest_index(TargetBin::count_in(chambers), |i| !chamber_ok(chambers, i))
}

// Whether a counted section of chamber i has a zero side or reaches past it.
#[tactic(auto, using(crate::proofs::Checking::bad_is))]
fn bad_sections(chambers: &[u32], store: &[u32], i: usize) -> bool
    requires { (i * 5 + 5 ≤ length chambers.now) × ((i + 1) * 768 ≤ length store.now) × ((chamber_at chambers.now i).count ≤ 128) }
    ensures { result ≡ bad_sections chambers.now store.now i }
{
    let bin = TargetBin::read(chambers, i);
    first_outside(&store[TargetBin::part(i)], bin.count as usize, bin.whd).is_some()
}

// Check 3: the first chamber with a faulty section.
fn first_bad_section(chambers: &[u32], store: &[u32]) -> Option<usize>
    requires { (length store.now ≡ chamber_count chambers.now * 768) × Counted chambers.now }
    ensures { result ≡ lowest_index (chamber_count chambers.now) (bad_sections chambers.now store.now) }
{
    lowest_index(
        TargetBin::count_in(chambers),
        |i| bad_sections(chambers, store, i),
    )
}

// Checks 1 to 3 in their order.
#[tactic(auto, using(replies::proofs::Ladders::checks, replies::proofs::Ladders::index_below, crate::proofs::Passing::lengths, crate::proofs::Passing::counted_by))]
pub fn check_tables(chambers: &[u32], store: &[u32]) -> Result<(), Refusal>
    ensures { job_reply result ≡ in_order (table_checks chambers.now store.now) (λ a. a) (reply 0 0) }
{
    if !lengths_ok(chambers, store) {
        return Err(Refusal::BadLength);
    }
    if let Some(i) = first_bad_chamber(chambers) {
        return Err(Refusal::BadChamber(i as u32));
    }
    if let Some(i) = first_bad_section(chambers, store) {
        return Err(Refusal::BadSection(i as u32));
    }
    Ok(())
}

// The chamber that has the id.
pub fn find_chamber(chambers: &[u32], id: u32) -> Option<usize>
    ensures { result ≡ lowest_index (chamber_count chambers.now) (has_id chambers.now id) }
{
    lowest_index(
        TargetBin::count_in(chambers),
        |i| TargetBin::read(chambers, i).id == id,
    )
}

// Checks 1, 2, 3 and 8, with which a job on one chamber begins: the index of the chamber that has the id.
#[tactic(auto, using(replies::proofs::Refusals::handed_on, crate::proofs::Knowing::known_refused, crate::proofs::Knowing::known_answer, crate::proofs::Knowing::known_lem))]
pub fn known_chamber(chambers: &[u32], store: &[u32], id: u32) -> Result<usize, Refusal>
    ensures reply_value { detailed_reply result ≡ in_order (known_checks chambers.now store.now id) (λ a. a) (reply 0 (chamber_of chambers.now id)) }
    ensures known { IfOk result (Known chambers.now store.now id) }
{
    check_tables(chambers, store)?;
    find_chamber(chambers, id).ok_or(Refusal::NoChamber)
}
