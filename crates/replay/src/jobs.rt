// A job: its kind, and the frame of those on tables.
ghost use Rattle.std.specs.Prelude.{◌≡◌, ◌<◌, length, drop, OnSome, slice_get};

use crate::tables::{CHAMBER_WORDS, Past, STORE_WORDS, put_tables, take_tables};
use crate::{Answer, join_job, pack_job, return_job, try_job};
use target_bin::TargetBin;

// What is to be done: a job's first word says it.
#[derive(Clone, Copy)]
enum JobKind {
    Try,
    Return,
    Pack,
    Join,
}

impl JobKind {
    fn from_word(word: u32) -> Option<JobKind> {
        match word {
            1 => Some(JobKind::Try),
            2 => Some(JobKind::Return),
            3 => Some(JobKind::Pack),
            4 => Some(JobKind::Join),
            _ => None,
        }
    }
}

// Takes the next word of a job; none where there is no more.
pub fn next_word(job: &mut &[u32]) -> Option<u32>
    ensures word { result ≡ slice_get job.old.now 0 }
    ensures rest { OnSome result (job.new.now ≡ drop 1 job.old.now) }
{
    job.split_off_first().copied()
}

// Puts the answer to a job; none where the job is none.
pub fn answer_job(
    mut job: &[u32],
    chambers: &mut [u32; CHAMBER_WORDS],
    store: &mut [u32; STORE_WORDS],
    answer: &mut Answer,
) -> Option<()>
    ensures { OnSome result (0 < length answer.new.items) }
{
    answer.clear();
    match JobKind::from_word(next_word(&mut job)?)? {
        JobKind::Try => try_job::answer(job, answer),
        JobKind::Return => on_tables(job, chambers, store, answer, return_job::answer),
        JobKind::Pack => on_tables(job, chambers, store, answer, pack_job::answer),
        JobKind::Join => on_tables(job, chambers, store, answer, join_job::answer),
    }
}

// A job on tables: takes them, does what follows them, and puts what the tables are then.
fn on_tables<F: FnOnce(&[u32], &mut [u32], &mut [u32], &mut Answer) -> Option<Past>>(
    mut job: &[u32],
    chambers: &mut [u32; CHAMBER_WORDS],
    store: &mut [u32; STORE_WORDS],
    answer: &mut Answer,
    run: F,
) -> Option<()>
    requires { F.IsAlwaysCallable run }
    ensures { OnSome result (0 < length answer.new.items) }
{
    let c = next_word(&mut job)? as usize;
    if c > TargetBin::MOST {
        return None;
    }
    let chambers = &mut chambers[..c * TargetBin::WORDS];
    let store = &mut store[..c * TargetBin::STORE];
    take_tables(&mut job, chambers, store)?;
    let past = run(job, chambers, store, answer)?;
    put_tables(chambers, store, past, answer)
}
