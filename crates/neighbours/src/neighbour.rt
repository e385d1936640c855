// Two boxes that join into one box.
ghost use Rattle.std.specs.Prelude.{◌≡◌, true, ◌+◌, ◌≤◌, min, [], ◌∷◌};
ghost use Rattle.neighbours.specs.Neighbour.{spans_touch, joins_of, joined_side, joined_box};
ghost use Rattle.neighbours.specs.Leaning.{Ends, span};

use bin_section::{BinSection, WidthHeightDepth};

// How far a box goes along one axis.
#[derive(Clone, Copy, PartialEq, Eq)]
pub struct Span {
    start: u32,
    side: u32,
}

impl Span {
    // A sum in 64 bits: in 32 it could wrap.
    fn end(self) -> u64
        ensures { result ≡ self.start + self.side }
    {
        u64::from(self.start) + u64::from(self.side)
    }

    // Either way round.
    #[tactic(auto, unfolding(crate::specs::Neighbour::spans_touch))]
    fn touches(self, other: Span) -> bool
        ensures { result ≡ spans_touch self.start self.side other.start other.side }
    {
        (self.end() == u64::from(other.start)) | (other.end() == u64::from(self.start))
    }

    // From the earlier start to the later end.
    #[tactic(auto, unfolding(crate::specs::Neighbour::joined_side))]
    fn joined(self, other: Span) -> Span
        requires { (self.start + self.side ≤ 4294967295) × (other.start + other.side ≤ 4294967295) }
        ensures { result ≡ span (min self.start other.start) (joined_side self.start self.side other.start other.side) }
    {
        let start = self.start.min(other.start);
        let end = self.end().max(other.end());
        Span {
            start,
            side: (end - u64::from(start)) as u32,
        }
    }
}

// Along each axis.
fn spans(b: BinSection) -> [Span; 3]
    ensures { result ≡ span b.x b.whd.width ∷ span b.y b.whd.height ∷ span b.z b.whd.depth ∷ [] }
{
    [
        Span {
            start: b.x,
            side: b.whd.width,
        },
        Span {
            start: b.y,
            side: b.whd.height,
        },
        Span {
            start: b.z,
            side: b.whd.depth,
        },
    ]
}

// "equal origin and sides on two axes, touching on the third". Most pairs have other origins, and the quick test tells so from three words.
pub fn joins(a: BinSection, b: BinSection) -> bool
    ensures { result ≡ joins_of a b }
{
    aligned(a, b) && neighbouring(a, b)
}

// False only where the boxes do not join: those that do have one origin on two axes.
#[tactic(auto, using(crate::proofs::Neighbouring::joins_aligned))]
fn aligned(a: BinSection, b: BinSection) -> bool
    ensures { joins_of a b ≡ true → result ≡ true }
{
    let on_x = a.x == b.x;
    let on_y = a.y == b.y;
    let on_z = a.z == b.z;
    (on_x & on_y) | (on_z & (on_x | on_y))
}

// The test itself, without a branch.
#[tactic(auto, unfolding(crate::specs::Neighbour::joins_of, crate::specs::Neighbour::spans_equal))]
fn neighbouring(a: BinSection, b: BinSection) -> bool
    ensures { result ≡ joins_of a b }
{
    let [ax, ay, az] = spans(a);
    let [bx, by, bz] = spans(b);
    let equal_x = ax == bx;
    let equal_y = ay == by;
    let equal_z = az == bz;
    (ax.touches(bx) & (equal_y & equal_z))
        | ((equal_x & (ay.touches(by) & equal_z)) | (equal_x & (equal_y & az.touches(bz))))
}

// The joined box of two boxes.
#[tactic(auto, unfolding(crate::specs::Neighbour::joined_box))]
pub fn joined_box(a: BinSection, b: BinSection) -> BinSection
    requires { Ends a × Ends b }
    ensures { result ≡ joined_box a b }
{
    let [ax, ay, az] = spans(a);
    let [bx, by, bz] = spans(b);
    let x = ax.joined(bx);
    let y = ay.joined(by);
    let z = az.joined(bz);
    BinSection::new(
        x.start,
        y.start,
        z.start,
        WidthHeightDepth::new(x.side, y.side, z.side),
    )
}
