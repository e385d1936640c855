// The audit program: reads one input from standard input, and writes its line to standard output.
#![tactic(auto)]

ghost use Rattle.std.specs.Prelude.{IfSome, OnOk};
ghost use Rattle.std.specs.Io.KnownBytes.{Appends};
ghost use Rattle.audit_input.specs.Line.{line_of};

use audit_input::write_line;
use box_input::InputHead;
use reading::read_full;
use std::io;
use std::io::{Read, Write};

// One byte past the longest valid input: what is longer still gets the same line (`cut_line` of the library's proofs).
const MOST_READ: usize = InputHead::MOST + 1;

fn main(rt: HostRuntime) -> io::Result<()> {
    run(&mut rt.stdin(), &mut rt.stdout())
}

// Audits the input and writes its line. The planner's program reads and answers so too. One function of both would take the answer as a closure
// and state its contract over it, to spare a line in each; what they share is proved once (`written_whole` of `reading`).
fn run<R: Read, W: Write>(input: &mut R, output: &mut W) -> io::Result<()>
    ensures line { OnOk result (IfSome (R.remaining input.old) (λ bytes. Appends (W.contents output.old) (W.contents output.new) (line_of bytes))) }
{
    let mut bytes = [0u8; MOST_READ];
    let n = read_full(input, &mut bytes)?;
    write_line(&bytes[..n], output)
}
