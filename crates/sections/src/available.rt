// The free sections of a chamber: the first count of a list of sections.
ghost use Rattle.std.specs.Prelude.{◌≡◌, ◌+◌, ◌*◌, ◌<◌, ◌≤◌, length};
ghost use Rattle.sections.specs.Sections.{sections};
ghost use Rattle.sections.specs.Leaning.{Removed, Appended, Cleared};

use bin_section::BinSection;
use words::{Record, take_out};

// Takes the section at i out of the first count: later ones move down one, and the freed last becomes six zeros.
pub fn remove_section(words: &mut [u32], count: usize, i: usize)
    requires { (count * 6 ≤ length words.old) × (i < count) }
    ensures { Removed count i words.old words.new }
{
    let at = i * BinSection::WORDS;
    let behind = (count - (i + 1)) * BinSection::WORDS;
    take_out(words, at, BinSection::WORDS, behind);
}

// Puts a section after the first count.
pub fn append_section(words: &mut [u32], count: usize, section: BinSection)
    requires { count * 6 + 6 ≤ length words.old }
    ensures { Appended count section words.old words.new }
{
    section.write(words, count);
}

// Sets every word past the first count sections to 0.
pub fn clear_past(words: &mut [u32], count: usize)
    requires { count * 6 ≤ length words.old }
    ensures { Cleared count words.old words.new }
{
    words[count * BinSection::WORDS..].fill(0);
}

// Copies the first n sections of one list to the front of another.
pub fn copy_sections(from: &[u32], n: usize, to: &mut [u32])
    requires { (n * 6 ≤ length from.now) × (n * 6 ≤ length to.old) }
    ensures { sections to.new n ≡ sections from.now n }
{
    let end = n * BinSection::WORDS;
    to[..end].copy_from_slice(&from[..end]);
}
