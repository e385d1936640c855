// The input of the programs that are given boxes: a chamber, its placed and its free boxes, in bytes. An input is read whole into two lent
// tables; what is no input leaves them as they are.
#![tactic(auto)]

ghost use Rattle.std.specs.Prelude.{IfSome, ◌≡◌, ◌++◌, ◌+◌, ◌*◌, ◌≤◌, length, drop};
ghost use Rattle.wire.specs.Word.{words_in};
ghost use Rattle.box_input.specs.Read.{input_read, input_of};

mod head;

use bin_section::{BinSection, WidthHeightDepth};
use head::{head, is_input};

// What an input says before its boxes: the chamber, and how many boxes are placed and free.
#[derive(Clone, Copy)]
pub struct InputHead {
    pub whd: WidthHeightDepth,
    pub placed: usize,
    pub free: usize,
}

impl InputHead {
    pub const VERSION: u8 = 1;

    // The bytes of the length word and the version.
    pub const BEFORE_HEAD: usize = 5;

    // The same and five words.
    pub const HEAD: usize = 25;

    // The bytes of a box.
    pub const BOX: usize = 24;

    // "at most 1,024 boxes together"
    pub const MOST_BOXES: usize = 1024;

    // The bytes of the longest input.
    pub const MOST: usize = InputHead::HEAD + InputHead::MOST_BOXES * InputHead::BOX;
}

// The boxes of an input, "placed first".
fn read_boxes(bytes: &[u8], said: InputHead, placed: &mut [u32], free: &mut [u32])
    requires size { 25 + (said.placed + said.free) * 24 ≡ length bytes.now }
    requires few { said.placed + said.free ≤ 1024 }
    requires room { (6144 ≤ length placed.old) × (6144 ≤ length free.old) }
    ensures placed_after { placed.new ≡ words_in (drop 25 bytes.now) (said.placed * 6) ++ drop (said.placed * 6) placed.old }
    ensures free_after { free.new ≡ words_in (drop (25 + said.placed * 24) bytes.now) (said.free * 6) ++ drop (said.free * 6) free.old }
{
    wire::read_words(
        &bytes[InputHead::HEAD..],
        placed,
        said.placed * BinSection::WORDS,
    );
    let at = InputHead::HEAD + said.placed * InputHead::BOX;
    wire::read_words(&bytes[at..], free, said.free * BinSection::WORDS);
}

// Reads an input: the words of its boxes go to the front of the two tables, whose other words stay. Each has room for all boxes.
#[tactic(auto, using(crate::proofs::Reading::told_long, crate::proofs::Reading::nothing_read))]
pub fn read_input(bytes: &[u8], placed: &mut [u32], free: &mut [u32]) -> Option<InputHead>
    requires { (6144 ≤ length placed.old) × (6144 ≤ length free.old) }
    ensures few { IfSome result (λ said. said.placed + said.free ≤ 1024) }
    ensures read { input_read result placed.new free.new ≡ input_of bytes.now placed.old free.old }
{
    if !is_input(bytes) {
        return None;
    }
    let said = head(bytes);
    read_boxes(bytes, said, placed, free);
    Some(said)
}

// The words of an input's boxes, each list at the front of a table with room for all boxes.
#[derive(Drop)]
pub struct InputBoxes {
    pub placed: [u32; InputBoxes::WORDS],
    pub free: [u32; InputBoxes::WORDS],
}

impl InputBoxes {
    // The words of a table.
    pub const WORDS: usize = InputHead::MOST_BOXES * BinSection::WORDS;

    // Reads an input into the two tables.
    pub fn take(&mut self, bytes: &[u8]) -> Option<InputHead>
        ensures few { IfSome result (λ said. said.placed + said.free ≤ 1024) }
        ensures read { input_read result self.new.placed self.new.free ≡ input_of bytes.now self.old.placed self.old.free }
    {
        read_input(bytes, &mut self.placed, &mut self.free)
    }
}
