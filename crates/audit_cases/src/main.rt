// Runs the audit program's library on many inputs: standard input has, for each, its length as a word and then its bytes.
// For each it writes the line. It ends with the input, or at a length that is too large.
#![tactic(auto)]

use audit_input::write_line;
use frames::read_frame;
use std::io;
use std::io::{Read, Write};

const MOST_BYTES: usize = 65536;
// A loop has to end: so many inputs are audited at most.
const MOST_CASES: u64 = 1_000_000_000_000;

fn main(rt: HostRuntime) -> io::Result<()> {
    run(&mut rt.stdin(), &mut rt.stdout())
}

fn run<R: Read, W: Write>(input: &mut R, output: &mut W) -> io::Result<()> {
    let mut bytes = [0u8; MOST_BYTES];
    for _ in 0..MOST_CASES {
        let Some(n) = read_frame(input, &mut bytes, 1)? else {
            return Ok(());
        };
        write_line(&bytes[..n], output)?;
    }
    Ok(())
}
