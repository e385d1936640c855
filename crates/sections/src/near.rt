// The first section of a list that shares a cell with a box, and the space that they share. The search goes four at a time: most lie apart along
// the first axis, and one test there passes over four.
ghost use Rattle.std.specs.Prelude.{◌≡◌, ◌+◌, ◌*◌, ◌≤◌, true, false, length};
ghost use Rattle.lists.specs.Lowest.{lowest, lowest_index, any_below};
ghost use Rattle.bin_section.specs.Overlap.{spans_meet, overlaps_of};
ghost use Rattle.sections.specs.Sections.{sections};
ghost use Rattle.sections.specs.Inside.{shares_at};
ghost use Rattle.sections.specs.Common.{first_common};

use bin_section::BinSection;
use words::Record;

// The highest bit: 2 to the 63.
const NEAR: u64 = 9223372036854775808;

// Below NEAR only where two spans do not meet. Where they do, each starts before the other's end, so both differences wrap and have the
// bit. It takes no branch.
#[tactic(auto, using(crate::proofs::Nearing::meet_near))]
fn nearness(start1: u32, side1: u32, start2: u32, side2: u32) -> u64
    ensures { spans_meet start1 side1 start2 side2 ≡ true → 9223372036854775808 ≤ result }
{
    let end1 = (start1 as u64) + (side1 as u64);
    let end2 = (start2 as u64) + (side2 as u64);
    let past1 = std::num::wrapping_sub_u64(start2 as u64, end1);
    let past2 = std::num::wrapping_sub_u64(start1 as u64, end2);
    past1 & past2
}

// The same of the section at index i and the box, along the first axis.
#[tactic(auto, using(bin_section::proofs::Sharing::meets))]
fn nearness_at(words: &[u32], i: usize, other: BinSection) -> u64
    requires { i * 6 + 6 ≤ length words.now }
    ensures { shares_at other words.now i ≡ true → 9223372036854775808 ≤ result }
{
    let section = BinSection::read(words, i);
    nearness(section.x, section.whd.width, other.x, other.whd.width)
}

// False only where none of the four sections from index i on shares a cell with the box.
fn some_near(words: &[u32], i: usize, other: BinSection) -> bool
    requires { (i + 4) * 6 ≤ length words.now }
    ensures { result ≡ false → any_below 4 (λ k. shares_at other words.now (i + k)) ≡ false }
{
    let first = nearness_at(words, i, other);
    let second = nearness_at(words, i + 1, other);
    let third = nearness_at(words, i + 2, other);
    let fourth = nearness_at(words, i + 3, other);
    NEAR <= (first | second) | (third | fourth)
}

// Passes over sections from index i on, four at a time, as long as none of the four is near the box. The index that it comes to is
// returned. It stands by itself, so that the compiled loop is short.
fn pass_over(words: &[u32], i: usize, n: usize, other: BinSection) -> usize
    requires { (n * 6 ≤ length words.now) × (i ≤ lowest n (shares_at other words.now)) }
    ensures { (i ≤ result) × (result ≤ n) × (result ≤ lowest n (shares_at other words.now)) }
{
    let mut j = i;
    while j + 4 <= n {
        if some_near(words, j, other) {
            return j;
        }
        j += 4;
    }
    j
}

// False only where the two boxes share no cell: on some axis they do not meet.
#[tactic(auto, using(crate::proofs::Nearing::all_near))]
fn near(a: BinSection, b: BinSection) -> bool
    ensures { overlaps_of a b ≡ true → result ≡ true }
{
    let on_x = nearness(a.x, a.whd.width, b.x, b.whd.width);
    let on_y = nearness(a.y, a.whd.height, b.y, b.whd.height);
    let on_z = nearness(a.z, a.whd.depth, b.z, b.whd.depth);
    NEAR <= on_x & (on_y & on_z)
}

// Whether the section at index i shares a cell with the box. Most lie apart, and the quick test tells so: the overlap test, which would make
// a common box, is left for the others.
fn shares(words: &[u32], i: usize, other: BinSection) -> bool
    requires { i * 6 + 6 ≤ length words.now }
    ensures { result ≡ shares_at other words.now i }
{
    let section = BinSection::read(words, i);
    near(section, other) && section.overlaps(other).is_some()
}

// The first of the sections from index i to the end that shares a cell with the box, each looked at. None before i does.
fn first_from(words: &[u32], i: usize, end: usize, other: BinSection) -> Option<usize>
    requires { (end * 6 ≤ length words.now) × (i ≤ end) × (i ≤ lowest end (shares_at other words.now)) }
    ensures { result ≡ lowest_index end (shares_at other words.now) }
{
    (i..end).find(|k| shares(words, *k, other))
}

// The first of the n sections that shares a cell with the box. Of four that are not passed over each is looked at, and so is each of the
// last three at most.
pub fn first_sharing(words: &[u32], n: usize, other: BinSection) -> Option<usize>
    requires { n * 6 ≤ length words.now }
    ensures { result ≡ lowest_index n (shares_at other words.now) }
{
    let mut i = pass_over(words, 0, n, other);
    while i + 4 <= n {
        let found = first_from(words, i, i + 4, other);
        if found.is_some() {
            return found;
        }
        i = pass_over(words, i + 4, n, other);
    }
    first_from(words, i, n, other)
}

// The common box of the box and the first of the n sections that shares a cell with it.
#[tactic(auto, using(crate::proofs::Searching::found_below, crate::proofs::Searching::common_none, crate::proofs::Searching::common_at))]
pub fn first_common(words: &[u32], n: usize, other: BinSection) -> Option<BinSection>
    requires { n * 6 ≤ length words.now }
    ensures { result ≡ first_common other (sections words.now n) }
{
    let met = first_sharing(words, n, other)?;
    BinSection::read(words, met).overlaps(other)
}
