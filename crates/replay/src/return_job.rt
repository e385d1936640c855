// A return: id and box in, reply, detail and common box out.
ghost use Rattle.std.specs.Prelude.{◌≡◌, ◌+◌, length, OnSome};

use crate::Answer;
use crate::tables::{MARK, Past, put_answered};
use bin_section::BinSection;
use sections::CommonReply;
use target_bin::return_section;
use words::Record;

pub fn answer(
    job: &[u32],
    chambers: &mut [u32],
    store: &mut [u32],
    answer: &mut Answer,
) -> Option<Past>
    ensures { OnSome result (length answer.new.items ≡ length answer.old.items + 8) }
{
    let (id, section) = job.split_first()?;
    if section.len() != BinSection::WORDS {
        return None;
    }
    let section = BinSection::read(section, 0);
    let answered = return_section(chambers, store, *id, section);
    put_answered(answer, CommonReply::from(answered))?;
    Some(Past {
        word: MARK,
        cleared: None,
    })
}
