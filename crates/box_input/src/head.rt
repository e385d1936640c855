// The words before the boxes: whether the bytes are an input, and what it says of its boxes.
ghost use Rattle.std.specs.Prelude.{◌≡◌, ◌≤◌, ◌<◌, length};
ghost use Rattle.box_input.specs.Input.{head_word, head_of, is_input};

use crate::InputHead;
use bin_section::WidthHeightDepth;

// The word at index i past the version byte.
fn head_word(bytes: &[u8], i: usize) -> u32
    requires { (25 ≤ length bytes.now) × (i < 5) }
    ensures { result ≡ head_word bytes.now i }
{
    wire::read_word(&bytes[InputHead::BEFORE_HEAD..], i)
}

#[tactic(auto, using(crate::proofs::Reading::short_none), unfolding(crate::specs::Input::is_input))]
pub fn is_input(bytes: &[u8]) -> bool
    ensures { result ≡ is_input bytes.now }
{
    if bytes.len() < InputHead::HEAD {
        return false;
    }
    let rest = wire::read_word(bytes, 0) as usize;
    let version = bytes[4];
    let boxes = (head_word(bytes, 3) as usize) + (head_word(bytes, 4) as usize);
    rest + 4 == bytes.len()
        && version == InputHead::VERSION
        && InputHead::HEAD + boxes * InputHead::BOX == bytes.len()
        && boxes <= InputHead::MOST_BOXES
}

pub fn head(bytes: &[u8]) -> InputHead
    requires { 25 ≤ length bytes.now }
    ensures { result ≡ head_of bytes.now }
{
    let whd = WidthHeightDepth::new(
        head_word(bytes, 0),
        head_word(bytes, 1),
        head_word(bytes, 2),
    );
    let placed = head_word(bytes, 3) as usize;
    let free = head_word(bytes, 4) as usize;
    InputHead { whd, placed, free }
}
