// The first pair of a list's sections that join.
ghost use Rattle.std.specs.Prelude.{◌≡◌, ◌+◌, ◌*◌, ◌≤◌, ◌<◌, length};
ghost use Rattle.lists.specs.Lowest.{lowest, lowest_index};
ghost use Rattle.sections.specs.Sections.{sections};
ghost use Rattle.bin_section.specs.Section.{section_at};
ghost use Rattle.neighbours.specs.Neighbour.{joins_of};
ghost use Rattle.neighbours.specs.Joining.{joins_with, joins_later, first_pair};

use crate::neighbour::joins;
use bin_section::BinSection;
use lists::lowest_index;
use words::Record;

// Two positions in a list, the first below the second.
#[derive(Clone, Copy)]
pub struct Pair {
    pub first: usize,
    pub second: usize,
}

// The first section after index i that joins with the section there, or none.
fn first_joining(words: &[u32], n: usize, i: usize) -> Option<usize>
    requires { (n * 6 ≤ length words.now) × (i < n) }
    ensures { result ≡ lowest_index n (joins_with (sections words.now n) i) }
{
    let section = BinSection::read(words, i);
    (i + 1..n).find(|j| joins(section, BinSection::read(words, *j)))
}

// "the pair with the lowest first index, then the lowest second". No section before index `from` joins with a later one.
pub fn first_pair(words: &[u32], n: usize, from: usize) -> Option<Pair>
    requires { (n * 6 ≤ length words.now) × (from ≤ lowest n (joins_later (sections words.now n))) }
    ensures { result ≡ first_pair (sections words.now n) }
{
    (from..n).find_map(|first| {
        let second = first_joining(words, n, first)?;
        Some(Pair { first, second })
    })
}

// The first section before index i that joins with the section there, or none.
pub fn first_before(words: &[u32], i: usize) -> Option<usize>
    requires { i * 6 + 6 ≤ length words.now }
    ensures { result ≡ lowest_index i (λ k. joins_of (section_at words.now k) (section_at words.now i)) }
{
    let section = BinSection::read(words, i);
    lowest_index(i, |k| joins(BinSection::read(words, k), section))
}
