// "The lowest faulty index is given": the first section of a list that a test is true of, or none.
ghost use Rattle.std.specs.Prelude.{◌≡◌, ◌*◌, ◌≤◌, length};
ghost use Rattle.lists.specs.Lowest.{lowest_index};
ghost use Rattle.sections.specs.Sections.{sections};
ghost use Rattle.sections.specs.Inside.{outside_at, shares_earlier};

use crate::near::first_sharing;
use bin_section::{BinSection, WidthHeightDepth, inside};
use lists::lowest_index;
use words::Record;

// The first of the n sections that has a zero side or reaches past the chamber.
pub fn first_outside(words: &[u32], n: usize, whd: WidthHeightDepth) -> Option<usize>
    requires { n * 6 ≤ length words.now }
    ensures { result ≡ lowest_index n (outside_at whd words.now) }
{
    lowest_index(n, |i| !inside(BinSection::read(words, i), whd))
}

// The first of the n sections that shares a cell with an earlier one.
#[tactic(auto, using(crate::proofs::Searching::shares_earlier_lem))]
pub fn first_shared(words: &[u32], n: usize) -> Option<usize>
    requires { n * 6 ≤ length words.now }
    ensures { result ≡ lowest_index n (shares_earlier (sections words.now n)) }
{
    lowest_index(
        n,
        |i| first_sharing(words, i, BinSection::read(words, i)).is_some(),
    )
}
