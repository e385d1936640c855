// A try: section and rectangle in, reply, detail, location and the three sections out.
ghost use Rattle.std.specs.Prelude.{◌≡◌, ◌+◌, length, OnSome};

use crate::Answer;
use crate::tables::put_reply;
use bin_section::{BinSection, RectToInsert};
use try_place::{Tried, try_placement};
use words::Record;

// The words of a job: section, sides of the rectangle.
const WORDS: usize = 9;

pub fn answer(job: &[u32], answer: &mut Answer) -> Option<()>
    ensures { OnSome result (length answer.new.items ≡ length answer.old.items + 23) }
{
    if job.len() != WORDS {
        return None;
    }
    let section = BinSection::read(job, 0);
    let rectangle = RectToInsert::new(job[6], job[7], job[8]);
    let tried = try_placement(section, rectangle);
    put_reply(answer, tried.reply())?;
    let words: [u32; Tried::WORDS] = tried.into();
    answer.try_extend_from_slice(&words).ok()
}
