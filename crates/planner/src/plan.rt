// The list's text to the report's text.
ghost use Rattle.std.specs.Prelude.{◌≡◌, ◌+◌, ◌≤◌, ◌++◌, OnOk, Some, length};
ghost use Rattle.std.specs.Io.KnownBytes.{Appends};
ghost use Rattle.arrayvec.specs.ArrayString.{array_string_len};
ghost use Rattle.text.specs.Written.{Written};
ghost use Rattle.planner.specs.Plan.{shown, plan_of};

use crate::packed::{Packed, pack_list};
use arrayvec::ArrayString;
use plan_list::{PlanList, SlipAt, read_list};
use plan_report::{Report, SlipReport};
use std::io::Write;
use std::{fmt, io};
use text::write_text;

// What a text comes to: a list packed, or the first slip of the pen in it. It is displayed as the report.
#[derive(Drop)]
pub enum Planned {
    Packed(PlanList, Packed),
    Slipped(SlipAt),
}

impl Planned {
    // Puts the report, which has at most 5,247 bytes.
    pub fn put(&self, out: &mut ArrayString<{ Report::MOST }>)
        requires { array_string_len out.old + 5247 ≤ 8192 }
        ensures { out.new.bytes ≡ out.old.bytes ++ shown self.now }
    {
        match self {
            Planned::Packed(list, packed) => {
                let report = Report {
                    list,
                    placements: &packed.placements,
                    answer: packed.answer,
                };
                report.put(out)
            }
            Planned::Slipped(slip) => SlipReport(*slip).put(out),
        }
    }
}

impl fmt::Display for Planned {
    ghost output = { λ planned. Some (shown planned) };

    fn fmt<W: fmt::Write>(&self, f: &mut fmt::Formatter<W>) -> fmt::Result {
        let mut out = ArrayString::new();
        self.put(&mut out);
        f.write_str(out.as_str())
    }
}

// Reads a list and packs it. Of a list with a slip of the pen nothing is packed. The report has at most 8,192 bytes.
#[tactic(auto, using(crate::proofs::Short::slip_plan_short), unfolding(crate::specs::Plan::plan_of, crate::specs::Plan::list_report, crate::specs::Plan::pack_text))]
pub fn plan_text(text: &[u8]) -> Planned
    ensures report { shown result ≡ plan_of text.now }
    ensures short { length (plan_of text.now) ≤ 8192 }
{
    match read_list(text) {
        Ok(list) => {
            let packed = pack_list(&list);
            Planned::Packed(list, packed)
        }
        Err(slipped) => Planned::Slipped(slipped.at),
    }
}

// The same, with its report at the front of a buffer; how many bytes it has is returned.
pub fn write_plan(text: &[u8], out: &mut [u8; Report::MOST]) -> usize
    ensures { Written 0 (plan_of text.now) out.old out.new result }
{
    let mut report = ArrayString::new();
    plan_text(text).put(&mut report);
    write_text(out, 0, report.as_str().as_bytes())
}

// The same, with its report written to an output, in one call.
pub fn print_plan<W: Write>(text: &[u8], output: &mut W) -> io::Result<()>
    ensures { OnOk result (Appends (W.contents output.old) (W.contents output.new) (plan_of text.now)) }
{
    let mut out = ArrayString::new();
    plan_text(text).put(&mut out);
    output.write_all(out.as_str().as_bytes())
}
