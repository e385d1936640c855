// The tables of a return, a join and a pack: taken from the job, marked before it, put to the answer after it.
ghost use Rattle.std.specs.Prelude.{◌≡◌, ◌<◌, ◌≤◌, ◌+◌, ◌*◌, [], ◌∷◌, ◌++◌, length, take, OnSome};
ghost use Rattle.bin_section.specs.Overlap.{common_words};

use crate::Answer;
use bin_section::{BinSection, write_common};
use replies::Reply;
use sections::CommonReply;
use target_bin::TargetBin;
use words::Record;

// What stands in the store past the counts before a job.
pub const MARK: u32 = 0xdead_beef;

// The words of the most chambers, and of their store.
pub const CHAMBER_WORDS: usize = TargetBin::MOST * TargetBin::WORDS;

pub const STORE_WORDS: usize = TargetBin::MOST * TargetBin::STORE;

// What has to stand in the store past the counts after a job: 0 in the chamber that is cleared, one word in all others.
#[derive(Clone, Copy)]
pub struct Past {
    pub word: u32,
    pub cleared: Option<usize>,
}

impl Past {
    fn at(self, k: usize) -> u32 {
        if self.cleared == Some(k) {
            0
        } else {
            self.word
        }
    }
}

// Takes the chambers and their counted sections from the job; none where they are no tables.
pub fn take_tables(job: &mut &[u32], chambers: &mut [u32], store: &mut [u32]) -> Option<()>
    ensures { OnSome result (chambers.new ≡ take (length chambers.old) job.old.now) }
{
    chambers.copy_from_slice(job.split_off(..chambers.len())?);
    store.fill(MARK);
    for (bin, sections) in chambers
        .chunks_exact(TargetBin::WORDS)
        .zip(store.chunks_exact_mut(TargetBin::STORE))
    {
        let words = section_words(bin, 0);
        let counted = job.split_off(..words)?;
        sections.get_mut(..words)?.copy_from_slice(counted);
    }
    Some(())
}

// The words of the counted sections of the chamber at an index.
fn section_words(chambers: &[u32], k: usize) -> usize
    requires { k * 5 + 5 ≤ length chambers.now }
{
    (TargetBin::read(chambers, k).count as usize) * BinSection::WORDS
}

// Puts reply and detail.
pub fn put_reply(answer: &mut Answer, reply: Reply) -> Option<()>
    ensures { OnSome result (answer.new.items ≡ answer.old.items ++ reply.number ∷ reply.detail ∷ []) }
{
    answer
        .try_extend_from_slice(&[reply.number, reply.detail])
        .ok()
}

// Puts reply and detail, then the six words of the common box.
pub fn put_answered(answer: &mut Answer, answered: CommonReply) -> Option<()>
    ensures { OnSome result (answer.new.items ≡ answer.old.items ++ answered.reply.number ∷ answered.reply.detail ∷ common_words answered.common) }
{
    put_reply(answer, answered.reply)?;
    let mut words = [0; BinSection::WORDS];
    write_common(answered.common, &mut words);
    answer.try_extend_from_slice(&words).ok()
}

// Puts the tables and the number of stray words: those of the store past the counts that are not the wanted ones.
pub fn put_tables(chambers: &[u32], store: &[u32], wanted: Past, answer: &mut Answer) -> Option<()>
    requires { length chambers.now ≤ 80 }
    ensures { OnSome result (length answer.old.items < length answer.new.items) }
{
    answer.try_extend_from_slice(chambers).ok()?;
    let mut stray = 0;
    for k in 0..TargetBin::count_in(chambers) {
        let part = store.get(TargetBin::part(k))?;
        let (counted, past) = part.split_at_checked(section_words(chambers, k))?;
        answer.try_extend_from_slice(counted).ok()?;
        stray += past.iter().filter(|word| **word != wanted.at(k)).count();
    }
    answer.try_push(stray as u32).ok()
}
