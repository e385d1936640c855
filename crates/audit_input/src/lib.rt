// The audit program's work, on bytes: an input audited, and its line written.
#![tactic(auto)]

ghost use Rattle.std.specs.Prelude.{◌≡◌, ◌≤◌, OnOk, length};
ghost use Rattle.std.specs.Io.KnownBytes.{Appends};
ghost use Rattle.replies.specs.Replies.{job_reply};
ghost use Rattle.audit_input.specs.Line.{line_for, line_of, Wrote};

mod line;
mod reply;

pub use line::Line;
use reply::reply_of;
use std::io;
use std::io::Write;
use text::write_text;

// The line for an input, as the whole of it was read. It has at most 19 bytes.
#[tactic(auto, using(crate::proofs::Short::line_short), unfolding(crate::specs::Line::line_of))]
pub fn audited_line(bytes: &[u8]) -> Line
    ensures line { line_for (job_reply result.0) ≡ line_of bytes.now }
    ensures short { length (line_of bytes.now) ≤ 19 }
{
    Line(reply_of(bytes))
}

// The same line, at the front of a buffer; how many bytes it has is returned.
pub fn audit_line(bytes: &[u8], line: &mut [u8; Line::MOST]) -> usize
    ensures { Wrote (line_of bytes.now) line.old line.new result }
{
    let text = audited_line(bytes).text();
    write_text(line, 0, text.as_str().as_bytes())
}

// Audits an input and writes its line, in one call.
pub fn write_line<W: Write>(bytes: &[u8], output: &mut W) -> io::Result<()>
    ensures { OnOk result (Appends (W.contents output.old) (W.contents output.new) (line_of bytes.now)) }
{
    let mut line = [0; Line::MOST];
    let n = audit_line(bytes, &mut line);
    output.write_all(&line[..n])
}
