// Where each coil goes, or that it waits.
ghost use Rattle.std.specs.Prelude.{◌≡◌, ◌+◌, ◌*◌, ◌≤◌, ◌++◌, length};
ghost use Rattle.arrayvec.specs.ArrayString.{array_string_len};
ghost use Rattle.plan_report.specs.Texts.{is_placed, place_text, goes_to, coil_text, coil_texts};

use crate::report::Report;
use arrayvec::ArrayString;
use grouped_rects_to_place::RectToPlace;
use placement::Placement;
use plan_list::OnLine;
use text::put_item;

pub fn is_placed(placement: &Placement) -> bool
    ensures { result ≡ is_placed placement.now }
{
    placement.placed == Placement::PLACED
}

// Where a coil goes, or that it waits.
#[derive(Clone, Copy)]
struct Coil {
    id: u32,
    placement: Placement,
}

impl Coil {
    // At most 80 bytes.
    fn put(&self, out: &mut ArrayString<{ Report::MOST }>)
        requires { array_string_len out.old + 80 ≤ 8192 }
        ensures bytes { out.new.bytes ≡ out.old.bytes ++ coil_text self.now.id self.now.placement }
        ensures short { array_string_len out.new ≤ array_string_len out.old + 80 }
    {
        let id = self.id;
        put_item(out, "coil ", id);
        self.put_goes(out);
    }

    // At most 64 bytes.
    #[tactic(auto, unfolding(crate::specs::Texts::goes_to))]
    fn put_goes(&self, out: &mut ArrayString<{ Report::MOST }>)
        requires { array_string_len out.old + 64 ≤ 8192 }
        ensures bytes { out.new.bytes ≡ out.old.bytes ++ goes_to self.now.placement }
        ensures short { array_string_len out.new ≤ array_string_len out.old + 64 }
    {
        let Placement {
            chamber,
            x,
            y,
            z,
            ..
        } = self.placement;
        let placed = is_placed(&self.placement);
        if placed {
            put_item(out, " goes to chamber ", chamber);
            put_place(out, x, y, z);
        } else {
            out.push_str(" waits\n");
        }
    }
}

// At most 37 bytes.
#[tactic(auto, unfolding(crate::specs::Texts::place_text))]
fn put_place(out: &mut ArrayString<{ Report::MOST }>, x: u32, y: u32, z: u32)
    requires { array_string_len out.old + 37 ≤ 8192 }
    ensures bytes { out.new.bytes ≡ out.old.bytes ++ place_text x y z }
    ensures short { array_string_len out.new ≤ array_string_len out.old + 37 }
{
    put_item(out, " at ", x);
    put_item(out, " ", y);
    put_item(out, " ", z);
    out.push_str("\n");
}

// The coils in the order of the list, each with its placement.
#[derive(Clone, Copy)]
pub struct Coils<'a> {
    pub coils: &'a [OnLine<RectToPlace>],
    pub placements: &'a [Placement],
}

impl Coils<'_> {
    // At most 80 bytes each.
    pub fn put(&self, out: &mut ArrayString<{ Report::MOST }>)
        requires { array_string_len out.old + length self.now.coils.now * 80 ≤ 8192 }
        ensures bytes { out.new.bytes ≡ out.old.bytes ++ coil_texts self.now.coils.now self.now.placements.now }
        ensures short { array_string_len out.new ≤ array_string_len out.old + length self.now.coils.now * 80 }
    {
        for (coil, placement) in self.coils.iter().zip(self.placements) {
            let id = coil.item.id;
            let placement = *placement;
            Coil { id, placement }.put(out);
        }
    }
}
