// Words in bytes: 32 bits, big-endian, as files and programs of the project have them.
#![tactic(auto)]

ghost use Rattle.std.specs.Prelude.{◌≡◌, ◌++◌, ◌+◌, ◌*◌, ◌≤◌, length, drop};
ghost use Rattle.lists.specs.Tab.{put};
ghost use Rattle.wire.specs.Word.{word_at, bytes_of, words_in, bytes_in};

// The word at index i.
#[tactic(auto, unfolding(crate::specs::Word::word_at))]
pub fn read_word(bytes: &[u8], i: usize) -> u32
    requires { i * 4 + 4 ≤ length bytes.now }
    ensures { result ≡ word_at bytes.now i }
{
    let at = i * 4;
    u32::from_be_bytes([bytes[at], bytes[at + 1], bytes[at + 2], bytes[at + 3]])
}

// Writes a word to index i.
#[tactic(auto, using(lists::proofs::Tabs::lent))]
pub fn write_word(bytes: &mut [u8], i: usize, word: u32)
    requires { i * 4 + 4 ≤ length bytes.old }
    ensures { bytes.new ≡ put bytes.old (i * 4) (bytes_of word) }
{
    let at = i * 4;
    bytes[at..at + 4].copy_from_slice(&word.to_be_bytes());
}

// The first n words of the bytes, to the first n words of the table.
pub fn read_words(bytes: &[u8], words: &mut [u32], n: usize)
    requires { (n * 4 ≤ length bytes.now) × (n ≤ length words.old) }
    ensures { words.new ≡ words_in bytes.now n ++ drop n words.old }
{
    for (i, word) in words[..n].iter_mut().enumerate() {
        *word = read_word(bytes, i);
    }
}

// The first n words of the table, to the first bytes.
pub fn write_words(bytes: &mut [u8], words: &[u32], n: usize)
    requires { (n * 4 ≤ length bytes.old) × (n ≤ length words.now) }
    ensures { bytes.new ≡ bytes_in words.now n ++ drop (n * 4) bytes.old }
{
    for (i, &word) in words[..n].iter().enumerate() {
        write_word(bytes, i, word);
    }
}
