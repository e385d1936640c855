// A join: id in, reply, detail and common box out.
ghost use Rattle.std.specs.Prelude.{◌≡◌, ◌+◌, length, OnSome};

use crate::Answer;
use crate::tables::{MARK, Past, put_answered};
use joins::join;
use sections::CommonReply;
use target_bin::find_chamber;

// What stands past the counts is cleared in the joined chamber alone.
pub fn answer(
    job: &[u32],
    chambers: &mut [u32],
    store: &mut [u32],
    answer: &mut Answer,
) -> Option<Past>
    ensures { OnSome result (length answer.new.items ≡ length answer.old.items + 8) }
{
    let [id] = job else {
        return None;
    };
    let answered = join(chambers, store, *id);
    let cleared = match answered {
        Ok(_) => find_chamber(chambers, *id),
        Err(_) => None,
    };
    put_answered(answer, CommonReply::from(answered))?;
    Some(Past {
        word: MARK,
        cleared,
    })
}
