// A kind of record in a table: N words each, one record after the other.
ghost use Rattle.std.specs.Prelude.{ℕ, ◌+◌, ◌*◌, ◌≤◌, ◌≡◌, List, length};
ghost use Rattle.lists.specs.Tab.{put};
ghost use Rattle.words.specs.Records.{Layout};

use crate::put_words;

// A type is a record once it is made of its N words and gives them: where each word stands is said there and nowhere else.
pub trait Record<const N: usize>: Copy + From<[u32; N]> + Into<[u32; N]> {
    // The record that stands at an index of a table, and the words of a record.
    ghost record_at: { List ℕ → ℕ → Self };

    ghost record_words: { Self → List ℕ };

    // How it lies in a table, and that the two conversions are the same as that.
    ghost layout: { Layout N record_at record_words };

    ghost from_words: { (w : List ℕ) (r : Self) → Self.From.from_gives w r → r ≡ record_at w 0 };

    ghost to_words: { (r : Self) (w : List ℕ) → Self.Into.converts r w → w ≡ record_words r };

    // The record at index i of the table.
    final fn read(table: &[u32], i: usize) -> Self
        requires { i * N + N ≤ length table.now }
        ensures { result ≡ record_at table.now i }
    {
        let at = i * N;
        Self::from(<[u32; N]>::try_from(&table[at..at + N]).unwrap())
    }

    // Writes the record to index i of the table.
    final fn write(self, table: &mut [u32], i: usize)
        requires { i * N + N ≤ length table.old }
        ensures { table.new ≡ put table.old (i * N) (record_words self) }
    {
        let words: [u32; N] = self.into();
        put_words(table, i * N, &words);
    }
}
