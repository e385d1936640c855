// The planner's program: reads a list from standard input, and writes its report to standard output.
#![tactic(auto)]

ghost use Rattle.std.specs.Prelude.{IfSome, OnOk};
ghost use Rattle.std.specs.Io.KnownBytes.{Appends};
ghost use Rattle.planner.specs.Plan.{plan_of};

use plan_list::PlanList;
use planner::print_plan;
use reading::read_full;
use std::io;
use std::io::{Read, Write};

// One byte past the longest list: what is longer still gets the same report (`cut_plan` of the library's proofs).
const MOST_READ: usize = PlanList::MOST + 1;

fn main(rt: HostRuntime) -> io::Result<()> {
    run(&mut rt.stdin(), &mut rt.stdout())
}

// Packs the list and writes its report.
fn run<R: Read, W: Write>(input: &mut R, output: &mut W) -> io::Result<()>
    ensures report { OnOk result (IfSome (R.remaining input.old) (λ text. Appends (W.contents output.old) (W.contents output.new) (plan_of text))) }
{
    let mut bytes = [0u8; MOST_READ];
    let n = read_full(input, &mut bytes)?;
    print_plan(&bytes[..n], output)
}
