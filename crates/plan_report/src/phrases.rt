// What several texts have in common.
ghost use Rattle.std.specs.Prelude.{◌≡◌, ◌+◌, ◌≤◌, ◌++◌};
ghost use Rattle.arrayvec.specs.ArrayString.{array_string_len};
ghost use Rattle.plan_report.specs.Texts.{line_tag};

use crate::report::Report;
use arrayvec::ArrayString;
use text::put_item;

pub const NOTHING_PLACED: &str = "nothing is placed\n";

// The line of the list that a text is about.
#[derive(Clone, Copy)]
pub struct LineTag(pub u32);

impl LineTag {
    // At most 17 bytes.
    #[tactic(auto, unfolding(crate::specs::Texts::line_tag))]
    pub fn put(&self, out: &mut ArrayString<{ Report::MOST }>)
        requires { array_string_len out.old + 17 ≤ 8192 }
        ensures bytes { out.new.bytes ≡ out.old.bytes ++ line_tag self.now.0 }
        ensures short { array_string_len out.new ≤ array_string_len out.old + 17 }
    {
        let LineTag(line) = *self;
        put_item(out, "line ", line);
        out.push_str(": ");
    }
}
