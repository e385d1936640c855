// A pack: rectangles in, reply, detail and placements out.
ghost use Rattle.std.specs.Prelude.{◌≡◌, ◌+◌, ◌≤◌, length, OnSome};
ghost use Rattle.replies.specs.Replies.{job_reply};

use crate::Answer;
use crate::jobs::next_word;
use crate::tables::{MARK, Past, put_reply};
use grouped_rects_to_place::RectToPlace;
use placement::Placement;
use rectangle_pack::pack;
use replies::{Refusal, Reply};

// What stands in the placement table before a job.
const UNPLACED: u32 = 0xfeed_f00d;

pub fn answer(
    mut job: &[u32],
    chambers: &mut [u32],
    store: &mut [u32],
    answer: &mut Answer,
) -> Option<Past>
    ensures { OnSome result (length answer.old.items + 2 ≤ length answer.new.items) }
{
    let n = rect_count(next_word(&mut job)?);
    if job.len() != n * RectToPlace::WORDS {
        return None;
    }
    let mut placements = [UNPLACED; RectToPlace::MOST * Placement::WORDS];
    let seats = &mut placements[..n * Placement::WORDS];
    let packed = pack(chambers, store, job, seats);
    put_reply(answer, Reply::from(packed))?;
    answer.try_extend_from_slice(seats).ok()?;
    Some(Past {
        word: past_counts(packed),
        cleared: None,
    })
}

// How many rectangles there are: more than the most are none.
fn rect_count(word: u32) -> usize
    ensures { result ≤ 63 }
{
    let n = word as usize;
    if n <= RectToPlace::MOST { n } else { 0 }
}

// What has to stand in the store past the counts: a pack that answers 0 or 7 clears it, any other leaves it.
fn past_counts(packed: Result<(), Refusal>) -> u32
    ensures { ((job_reply packed).number ≡ 0 → result ≡ 0) × ((job_reply packed).number ≡ 7 → result ≡ 0) }
{
    match packed {
        Ok(()) | Err(Refusal::NotEnoughBinSpace(_)) => 0,
        Err(_) => MARK,
    }
}
