// The report of a slip in the list's text.
ghost use Rattle.std.specs.Prelude.{◌≡◌, ◌+◌, ◌≤◌, ◌++◌, Some, codes};
ghost use Rattle.arrayvec.specs.ArrayString.{array_string_len};
ghost use Rattle.text.specs.Decimal.{item};
ghost use Rattle.plan_report.specs.Texts.{slip_text, slip_report};

use crate::phrases::{LineTag, NOTHING_PLACED};
use crate::report::Report;
use arrayvec::ArrayString;
use plan_list::{Slip, SlipAt};
use std::fmt;
use text::put_item;

// What a slip is, in words.
#[derive(Clone, Copy)]
struct SlipText(Slip);

impl SlipText {
    // At most 68 bytes.
    #[tactic(auto, unfolding(crate::specs::Texts::slip_text))]
    fn put(&self, out: &mut ArrayString<{ Report::MOST }>)
        requires { array_string_len out.old + 68 ≤ 8192 }
        ensures bytes { out.new.bytes ≡ out.old.bytes ++ slip_text self.now.0 }
        ensures short { array_string_len out.new ≤ array_string_len out.old + 68 }
    {
        let SlipText(slip) = *self;
        match slip {
            Slip::Neither => out.push_str(
                "a line is a chamber or a coil, and begins with that word\n",
            ),
            Slip::ChamberWords => out.push_str(
                "a chamber is five words: chamber, id, width, height, depth\n",
            ),
            Slip::CoilWords => out.push_str(
                "a coil is six words: coil, id, group or none, width, height, depth\n",
            ),
            Slip::NoNumber(word) => put_no_number(out, word),
            Slip::ManyChambers => out.push_str("there are more than 16 chambers\n"),
            Slip::ManyCoils => out.push_str("there are more than 63 coils\n"),
            Slip::TooLong => out.push_str("the list is longer than 65536 bytes\n"),
            Slip::NoGroup => out.push_str(
                "a coil's group is a number from 1 to 4294967295, or none\n",
            ),
        }
    }
}

// At most 53 bytes.
fn put_no_number(out: &mut ArrayString<{ Report::MOST }>, word: u32)
    requires { array_string_len out.old + 53 ≤ 8192 }
    ensures bytes { out.new.bytes ≡ out.old.bytes ++ (item (codes "word ") word ++ codes " is not a number from 0 to 4294967295\n") }
    ensures short { array_string_len out.new ≤ array_string_len out.old + 53 }
{
    put_item(out, "word ", word);
    out.push_str(" is not a number from 0 to 4294967295\n");
}

// A slip is reported with its line, and that nothing is placed.
#[derive(Clone, Copy)]
pub struct SlipReport(pub SlipAt);

impl SlipReport {
    // At most 103 bytes.
    #[tactic(auto, unfolding(crate::specs::Texts::nothing_placed, crate::specs::Texts::slip_report))]
    pub fn put(&self, out: &mut ArrayString<{ Report::MOST }>)
        requires { array_string_len out.old + 103 ≤ 8192 }
        ensures { out.new.bytes ≡ out.old.bytes ++ slip_report self.now.0 }
    {
        let SlipAt { line, slip } = self.0;
        LineTag(line).put(out);
        SlipText(slip).put(out);
        out.push_str(NOTHING_PLACED);
    }
}

impl fmt::Display for SlipReport {
    ghost output = { λ report. Some (slip_report report.0) };

    fn fmt<W: fmt::Write>(&self, f: &mut fmt::Formatter<W>) -> fmt::Result {
        let mut out = ArrayString::new();
        self.put(&mut out);
        f.write_str(out.as_str())
    }
}
