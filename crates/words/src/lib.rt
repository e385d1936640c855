// Words of a table: values put at an index, one value repeated, a record read, written and taken out.
#![tactic(auto)]

mod record;

ghost use Rattle.std.specs.Prelude.{◌+◌, ◌≤◌, ◌≡◌, length, replicate};
ghost use Rattle.lists.specs.Tab.{put};
ghost use Rattle.words.specs.Leaning.{without};

pub use record::Record;
// Writes the values to the words from an index on.
#[tactic(auto, using(lists::proofs::Tabs::lent))]
pub fn put_words(words: &mut [u32], at: usize, values: &[u32])
    requires { at + length values.now ≤ length words.old }
    ensures { words.new ≡ put words.old at values.now }
{
    words[at..at + values.len()].copy_from_slice(values);
}

// Sets n words from an index on to one value.
#[tactic(auto, using(lists::proofs::Tabs::lent))]
pub fn fill(words: &mut [u32], at: usize, n: usize, value: u32)
    requires { at + n ≤ length words.old }
    ensures { words.new ≡ put words.old at (replicate n value) }
{
    words[at..at + n].fill(value);
}

// Takes k words out at an index: the n words behind them move down, and the last k of all these become 0.
#[tactic(auto, using(crate::proofs::Taking::moved), unfolding(crate::specs::Leaning::without))]
pub fn take_out(words: &mut [u32], at: usize, k: usize, n: usize)
    requires { at + k + n ≤ length words.old }
    ensures { words.new ≡ without at k n words.old }
{
    words.copy_within(at + k..at + k + n, at);
    fill(words, at + n, k, 0);
}
