// A refusal: its number, what that means, and the line of the list that it points at.
ghost use Rattle.std.specs.Prelude.{◌≡◌, ◌+◌, ◌≤◌, ◌++◌};
ghost use Rattle.arrayvec.specs.ArrayString.{array_string_len};
ghost use Rattle.replies.specs.Replies.{refusal_reply};
ghost use Rattle.plan_report.specs.Texts.{refusal_text, refusal, names_chamber, line_at, refused_line};

use crate::phrases::LineTag;
use crate::report::Report;
use arrayvec::ArrayString;
use plan_list::{OnLine, PlanList};
use replies::{Refusal, Reply};
use text::put_item;

// What a refusal means.
#[tactic(auto, unfolding(crate::specs::Texts::refusal_text))]
fn meaning(refusal: Refusal) -> &'static str
    ensures { result.now ≡ refusal_text (refusal_reply refusal).number }
{
    match refusal {
        Refusal::BadChamber(_) =>
            "the chamber's id is not above the one before it, or a side is not 1 to 65535\n",
        Refusal::BadRectangle(_) => "a side of the coil is not 1 to 65535\n",
        Refusal::SameId(_) => "the coil's id stands on an earlier line too\n",
        Refusal::NotEnoughBinSpace(_) =>
            "no chamber takes the coil with its whole group; it waits, and so do the groups after it, by falling volume\n",
        _ => "the list can't be packed\n",
    }
}

// A refusal, and the line of the list that it points at.
#[derive(Clone, Copy)]
pub struct Refused {
    pub line: u32,
    pub refusal: Refusal,
}

impl Refused {
    // At most 149 bytes.
    #[tactic(auto, using(crate::proofs::Short::refusal_text_short), unfolding(crate::specs::Texts::refusal))]
    pub fn put(&self, out: &mut ArrayString<{ Report::MOST }>)
        requires { array_string_len out.old + 149 ≤ 8192 }
        ensures bytes { out.new.bytes ≡ out.old.bytes ++ refusal self.now.line (refusal_reply self.now.refusal).number }
        ensures short { array_string_len out.new ≤ array_string_len out.old + 149 }
    {
        let number = Reply::from(self.refusal).number;
        LineTag(self.line).put(out);
        put_item(out, "refused with ", number);
        out.push_str(": ");
        out.push_str(meaning(self.refusal));
    }
}

// The line at an index. Where there is none the report says 0, by the definition of `refused_line`.
fn line_at<T>(entries: &[OnLine<T>], i: u32) -> u32
    ensures { result ≡ line_at entries.now i }
{
    entries.get(i as usize).map_or(0, |entry| entry.line)
}

// Whether the detail of a refusal is a chamber's index.
fn names_chamber(refusal: Refusal) -> bool
    ensures { result ≡ names_chamber (refusal_reply refusal).number }
{
    matches!(
        refusal,
        Refusal::BadChamber(_) | Refusal::BadSection(_) | Refusal::NoRoom(_)
    )
}

// The line of the list that a refusal points at.
#[tactic(auto, unfolding(crate::specs::Texts::refused_line))]
pub fn refused_line(list: &PlanList, refusal: Refusal) -> u32
    ensures { result ≡ refused_line list.now (refusal_reply refusal) }
{
    let detail = Reply::from(refusal).detail;
    if names_chamber(refusal) {
        return line_at(&list.chambers, detail);
    }
    line_at(&list.coils, detail)
}
