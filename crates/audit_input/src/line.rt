// The line of what the audit answers.
ghost use Rattle.std.specs.Prelude.{◌≡◌, ◌+◌, ◌≤◌, ◌++◌, codes, Some, length};
ghost use Rattle.arrayvec.specs.ArrayString.{array_string_len};
ghost use Rattle.replies.specs.Replies.{job_reply};
ghost use Rattle.text.specs.Decimal.{item};
ghost use Rattle.audit_input.specs.Line.{line_for};

use arrayvec::ArrayString;
use replies::Refusal;
use std::fmt;
use text::put_item;

// What the audit answers to an input. It is displayed as the line: a fixed name, the box's index where one is named, a newline.
#[derive(Clone, Copy)]
pub struct Line(pub Result<(), Refusal>);

impl Line {
    // A line is at most 19 bytes long: the longest name, a space, ten digits, a newline.
    pub const MOST: usize = 19;

    #[tactic(auto, unfolding(crate::specs::Line::line_for))]
    pub fn text(&self) -> ArrayString<{ Line::MOST }>
        ensures { result.bytes ≡ line_for (job_reply self.now.0) }
    {
        let mut out = ArrayString::new();
        match self.0 {
            Ok(()) => out.push_str("WHOLE\n"),
            Err(Refusal::Outside(n)) => put_index(&mut out, "OUTSIDE ", n),
            Err(Refusal::Shared(n)) => put_index(&mut out, "SHARED ", n),
            Err(Refusal::Gap) => out.push_str("GAP\n"),
            Err(_) => out.push_str("BAD\n"),
        }
        out
    }
}

// A name, an index, a newline.
fn put_index(out: &mut ArrayString<{ Line::MOST }>, name: &str, n: u32)
    requires { array_string_len out.old + length name.now + 11 ≤ 19 }
    ensures { out.new.bytes ≡ out.old.bytes ++ (item name.now n ++ codes "\n") }
{
    put_item(out, name, n);
    out.push_str("\n");
}

impl fmt::Display for Line {
    ghost output = { λ line. Some (line_for (job_reply line.0)) };

    fn fmt<W: fmt::Write>(&self, f: &mut fmt::Formatter<W>) -> fmt::Result {
        f.write_str(self.text().as_str())
    }
}
