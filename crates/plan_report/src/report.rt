// The report of a pack.
ghost use Rattle.std.specs.Prelude.{◌≡◌, ◌+◌, ◌≤◌, ◌++◌, Some};
ghost use Rattle.arrayvec.specs.ArrayString.{array_string_len};
ghost use Rattle.replies.specs.Replies.{job_reply};
ghost use Rattle.plan_report.specs.Texts.{pack_report};

use crate::coils::Coils;
use crate::phrases::NOTHING_PLACED;
use crate::refusals::{Refused, refused_line};
use crate::summary::Summary;
use arrayvec::ArrayString;
use placement::Placement;
use plan_list::PlanList;
use replies::Refusal;
use std::fmt;

// A list, a placement for each of its coils, and what the pack answered.
#[derive(Clone, Copy)]
pub struct Report<'a> {
    pub list: &'a PlanList,
    pub placements: &'a [Placement],
    pub answer: Result<(), Refusal>,
}

impl Report<'_> {
    // No report is longer.
    pub const MOST: usize = 8192;

    // At most 5,247 bytes: the coils, a refusal and the summary.
    #[tactic(auto, unfolding(crate::specs::Texts::nothing_placed, crate::specs::Texts::pack_report))]
    pub fn put(&self, out: &mut ArrayString<{ Report::MOST }>)
        requires { array_string_len out.old + 5247 ≤ 8192 }
        ensures { out.new.bytes ≡ out.old.bytes ++ pack_report self.now.list.now self.now.placements.now (job_reply self.now.answer) }
    {
        let Report {
            list,
            placements,
            answer,
        } = *self;
        let coils = Coils {
            coils: &list.coils,
            placements,
        };
        let summary = Summary(placements);
        let Err(refusal) = answer else {
            coils.put(out);
            return summary.put(out);
        };
        let refused = Refused {
            line: refused_line(list, refusal),
            refusal,
        };
        match refusal {
            Refusal::NotEnoughBinSpace(_) => {
                coils.put(out);
                refused.put(out);
                summary.put(out);
            }
            _ => {
                refused.put(out);
                out.push_str(NOTHING_PLACED);
            }
        }
    }
}

impl fmt::Display for Report<'_> {
    ghost output = { λ r. Some (pack_report r.list.now r.placements.now (job_reply r.answer)) };

    fn fmt<W: fmt::Write>(&self, f: &mut fmt::Formatter<W>) -> fmt::Result {
        let mut out = ArrayString::new();
        self.put(&mut out);
        f.write_str(out.as_str())
    }
}
