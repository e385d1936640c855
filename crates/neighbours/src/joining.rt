// The sections of a list, joined as long as two of them join.
ghost use Rattle.std.specs.Prelude.{◌≡◌, ◌+◌, ◌*◌, ◌-◌, ◌≤◌, ◌<◌, length};
ghost use Rattle.sections.specs.Sections.{sections};
ghost use Rattle.lists.specs.Lowest.{lowest};
ghost use Rattle.neighbours.specs.Joining.{joins_later, joined_at, join_all};
ghost use Rattle.neighbours.specs.Leaning.{AllEnd, FirstJoined};

use crate::neighbour::joined_box;
use crate::pairs::{Pair, first_before, first_pair};
use bin_section::BinSection;
use sections::remove_section;
use words::Record;

// "the joined box stands at the first, the second is removed, later ones move down"
fn join_pair(words: &mut [u32], n: usize, pair: Pair)
    requires { (n * 6 ≤ length words.old) × (pair.first < n) × (pair.second < n) × AllEnd words.old n }
    ensures { sections words.new (n - 1) ≡ joined_at (sections words.old n) pair }
{
    let first = BinSection::read(words, pair.first);
    let second = BinSection::read(words, pair.second);
    joined_box(first, second).write(words, pair.first);
    remove_section(words, n, pair.second);
}

// Joins the first pair that joins, and gives its first index, or none where no two join. No section before index `from` joins with a later one.
fn join_first(words: &mut [u32], n: usize, from: usize) -> Option<usize>
    requires { (n * 6 ≤ length words.old) × AllEnd words.old n × (from ≤ lowest n (joins_later (sections words.old n))) }
    ensures { FirstJoined n words.old words.new result }
{
    let pair = first_pair(words, n, from)?;
    join_pair(words, n, pair);
    Some(pair.first)
}

// Joins pairs as long as two of the first n sections join; as many are left as is returned. The search begins again after each join, but for
// the pairs that were passed over: before the joined box only that box can be the second of a pair.
pub fn join_all(words: &mut [u32], n: usize) -> usize
    requires { (n * 6 ≤ length words.old) × AllEnd words.old n }
    ensures result_after { sections words.new result ≡ (join_all (sections words.old n)).free }
    ensures n_value { result + (join_all (sections words.old n)).joins ≡ n }
{
    let mut left = n;
    let mut from = 0;
    while let Some(first) = join_first(words, left, from) {
        left -= 1;
        from = first_before(words, first).unwrap_or(first);
    }
    left
}
