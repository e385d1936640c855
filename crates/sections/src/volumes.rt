// The volumes of a list's sections.
ghost use Rattle.std.specs.Prelude.{◌≡◌, ◌*◌, ◌≤◌, length};
ghost use Rattle.bin_section.specs.Boxes.{volumes};
ghost use Rattle.sections.specs.Sections.{sections};
ghost use Rattle.sections.specs.Leaning.{AllSmall};

use bin_section::BinSection;
use words::Record;

// The sum of the volumes of the first n sections. That of 1,024 fits 64 bits.
pub fn sum_of_volumes(words: &[u32], n: usize) -> u64
    requires { (n * 6 ≤ length words.now) × (n ≤ 1024) × AllSmall n words.now }
    ensures { (result ≡ volumes (sections words.now n)) × (result ≤ n * 281462092005375) }
{
    (0..n)
        .map(|i| BinSection::read(words, i).whd.volume())
        .sum()
}
