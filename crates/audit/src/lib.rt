// The audit of one chamber: whether its placed and free boxes lie inside and hold each unit cell exactly once.
#![tactic(auto)]

ghost use Rattle.std.specs.Prelude.{◌≡◌, ◌+◌, ◌*◌, ◌/◌, ◌%◌, ◌<◌, length, take, drop, ◌++◌};
ghost use Rattle.replies.specs.Replies.{job_reply};
ghost use Rattle.sections.specs.Common.{common_job_reply};
ghost use Rattle.audit.specs.Audit.{box_lists_ok, audit_reply, audit_answer, audited_with, audit_of};
ghost use Rattle.audit.specs.Place.{LiesAt, ShownAt};
ghost use Rattle.audit.specs.Leaning.{faulty_box};

mod checks;

use bin_section::{BinSection, WidthHeightDepth};
use checks::{Boxes, boxes_in};
use replies::Refusal;
use sections::CommonRefusal;

// "at most 1,024 boxes together"
pub const MOST_BOXES: usize = 1024;

// Of the two lists as the caller lends them: Boxes is seen as whole boxes, and knows no words that are left over and no place in memory.
#[tactic(auto, unfolding(crate::specs::Audit::box_lists_ok))]
fn lengths_ok(placed: &[u32], free: &[u32]) -> bool
    ensures { result ≡ box_lists_ok (length placed.now) (length free.now) }
{
    (placed.len() % BinSection::WORDS == 0)
        & ((free.len() % BinSection::WORDS == 0)
            & (boxes_in(placed) + boxes_in(free) <= MOST_BOXES))
}

// Whether a chamber is whole; else the first check that fires refuses it.
pub fn audit_reply(whd: WidthHeightDepth, placed: &[u32], free: &[u32]) -> Result<(), Refusal>
    ensures { job_reply result ≡ audit_reply whd placed.now free.now }
{
    if !lengths_ok(placed, free) {
        return Err(Refusal::BadLength);
    }
    if !whd.in_range() {
        return Err(Refusal::BadChamber(0));
    }
    let boxes = Boxes::new(placed, free);
    if let Some(out) = boxes.first_outside(whd) {
        return Err(Refusal::Outside(out as u32));
    }
    if let Some(shared) = boxes.first_shared() {
        return Err(Refusal::Shared(shared as u32));
    }
    if !boxes.fill(whd) {
        return Err(Refusal::Gap);
    }
    Ok(())
}

// The same, with the common box that a refusal hands on.
#[tactic(auto, using(crate::proofs::Replying::names_one), unfolding(crate::specs::Audit::audit_answer, crate::specs::Audit::audit_common))]
pub fn audit_answer(
    whd: WidthHeightDepth,
    placed: &[u32],
    free: &[u32],
) -> Result<(), CommonRefusal>
    ensures { common_job_reply result ≡ audit_answer whd placed.now free.now }
{
    let Err(refusal) = audit_reply(whd, placed, free) else {
        return Ok(());
    };
    let common = Boxes::new(placed, free).common_of(refusal);
    Err(CommonRefusal { refusal, common })
}

// The six words of box i where they lie: in the placed list, or past its boxes in the free list.
fn words_of_box<'a>(placed: &'a [u32], free: &'a [u32], i: usize) -> &'a [u32]
    requires { (length placed.now % 6 ≡ 0) × (i < length placed.now / 6 + length free.now / 6) }
    ensures { (result.now ≡ take 6 (drop (i * 6) (placed.now ++ free.now))) × LiesAt (length placed.now / 6) placed.entry.ref_ptr free.entry.ref_ptr i result.ref_ptr }
{
    let first = boxes_in(placed);
    if i < first {
        let at = i * BinSection::WORDS;
        let end = at + BinSection::WORDS;
        return &placed[at..end];
    }
    let at = (i - first) * BinSection::WORDS;
    let end = at + BinSection::WORDS;
    &free[at..end]
}

// The index of the faulty box that 16 and 17 name.
fn faulty_box(answer: Result<(), CommonRefusal>) -> Option<u32>
    ensures { result ≡ faulty_box (common_job_reply answer).reply }
{
    match answer.err()?.refusal {
        Refusal::Outside(i) | Refusal::Shared(i) => Some(i),
        _ => None,
    }
}

// What an audit answers, and the part of a list that it shows.
#[derive(Clone, Copy)]
pub struct Audited<'a> {
    pub answer: Result<(), CommonRefusal>,
    pub shown: &'a [u32],
}

// Audit a chamber. The part shows the faulty box of replies 16 and 17. Who needs the reply alone calls audit_reply, and who needs no part
// audit_answer.
pub fn audit<'a>(whd: WidthHeightDepth, placed: &'a [u32], free: &'a [u32]) -> Audited<'a>
    ensures answer_value { audited_with (common_job_reply result.answer) result.shown.now ≡ audit_of whd placed.now free.now }
    ensures shown_at { ShownAt (length placed.now / 6) placed.entry.ref_ptr free.entry.ref_ptr (common_job_reply result.answer).reply result.shown.ref_ptr }
{
    let answer = audit_answer(whd, placed, free);
    let Some(i) = faulty_box(answer) else {
        return Audited {
            answer,
            shown: &placed[..0],
        };
    };
    Audited {
        answer,
        shown: words_of_box(placed, free, i as usize),
    }
}
