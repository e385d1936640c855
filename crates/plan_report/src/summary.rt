// How many coils are placed, and how many wait.
ghost use Rattle.std.specs.Prelude.{◌≡◌, ◌+◌, ◌≤◌, ◌++◌, length};
ghost use Rattle.arrayvec.specs.ArrayString.{array_string_len};
ghost use Rattle.text.specs.Decimal.{decimal};
ghost use Rattle.plan_report.specs.Texts.{placed_count, summary};

use crate::coils::is_placed;
use crate::report::Report;
use arrayvec::ArrayString;
use placement::Placement;
use text::put_decimal;

#[tactic(auto, unfolding(crate::specs::Texts::placed_count))]
fn placed_count(placements: &[Placement]) -> usize
    ensures { (result ≡ placed_count placements.now) × (result ≤ length placements.now) }
{
    placements
        .iter()
        .filter(|placement| is_placed(placement))
        .count()
}

#[derive(Clone, Copy)]
pub struct Summary<'a>(pub &'a [Placement]);

impl Summary<'_> {
    // At most 58 bytes.
    #[tactic(auto, unfolding(crate::specs::Texts::summary))]
    pub fn put(&self, out: &mut ArrayString<{ Report::MOST }>)
        requires { array_string_len out.old + 58 ≤ 8192 }
        ensures bytes { out.new.bytes ≡ out.old.bytes ++ summary self.now.0.now }
        ensures short { array_string_len out.new ≤ array_string_len out.old + 58 }
    {
        let placed = placed_count(self.0);
        let waiting = self.0.len() - placed;
        put_count(out, placed);
        out.push_str(" placed, ");
        put_count(out, waiting);
        out.push_str(" waiting\n");
    }
}

// A count has at most twenty digits.
fn put_count(out: &mut ArrayString<{ Report::MOST }>, n: usize)
    requires { array_string_len out.old + 20 ≤ 8192 }
    ensures bytes { out.new.bytes ≡ out.old.bytes ++ decimal n }
    ensures short { array_string_len out.new ≤ array_string_len out.old + 20 }
{
    put_decimal(out, n as u64);
}
