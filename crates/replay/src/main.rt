// Answers the oracle's jobs: reads each from standard input and writes its answer to standard output.
// The format of jobs and answers is the wire format of oracle/README.md. It ends with the input, or at a job that is none.
#![tactic(auto)]

mod jobs;
mod join_job;
mod pack_job;
mod return_job;
mod tables;
mod try_job;

use arrayvec::ArrayVec;
use frames::read_frame;
use jobs::answer_job;
use std::io;
use std::io::{Read, Write};
use tables::{CHAMBER_WORDS, STORE_WORDS};

const WORD: usize = 4;
// The words of the longest job, and of the longest answer with its length.
const MOST_WORDS: usize = 16384;

const MOST_BYTES: usize = MOST_WORDS * WORD;
// A loop has to end: so many jobs are answered at most.
const MOST_JOBS: u64 = 1_000_000_000_000;

// The words of an answer, without the length before them.
const MOST_ANSWER: usize = MOST_WORDS - 1;

pub type Answer = ArrayVec<u32, MOST_ANSWER>;

fn main(rt: HostRuntime) -> io::Result<()> {
    run(&mut rt.stdin(), &mut rt.stdout())
}

fn run<R: Read, W: Write>(input: &mut R, output: &mut W) -> io::Result<()> {
    let mut bytes = [0; MOST_BYTES];
    let mut words = [0; MOST_WORDS];
    let mut chambers = [0; CHAMBER_WORDS];
    let mut store = [0; STORE_WORDS];
    let mut answer = Answer::new();
    for _ in 0..MOST_JOBS {
        let Some(n) = read_frame(input, &mut bytes, WORD)? else {
            return Ok(());
        };
        wire::read_words(&bytes, &mut words, n / WORD);
        let job = &words[..n / WORD];
        let Some(()) = answer_job(job, &mut chambers, &mut store, &mut answer) else {
            return Ok(());
        };
        write_answer(output, &mut bytes, &answer)?;
    }
    Ok(())
}

fn write_answer<W: Write>(
    output: &mut W,
    bytes: &mut [u8; MOST_BYTES],
    answer: &Answer,
) -> io::Result<()> {
    let words = answer.as_slice();
    wire::write_word(bytes, 0, words.len() as u32);
    wire::write_words(&mut bytes[WORD..], words, words.len());
    let end = WORD + words.len() * WORD;
    output.write_all(&bytes[..end])
}
