// Frames, as programs that answer many inputs read them: a length as a word, and behind it so many records.
#![tactic(auto)]

ghost use Rattle.std.specs.Prelude.{◌≡◌, ◌≤◌, ◌+◌, cond, Some, None, length, take, drop, IfSome, IfOk};
ghost use Rattle.frames.specs.Frame.{frame_size, is_frame};

use reading::read_full;
use std::io;
use std::io::Read;

// The bytes of the length word.
const WORD: usize = 4;

// Reads a frame: a length as a word, and then so many records of `size` bytes each, which go to the front of the buffer. Returns how many bytes
// they have; none where the input ends before, or where the buffer has no room for them.
#[tactic(auto, unfolding(crate::specs::Frame::is_frame, wire::specs::Word::word_at))]
pub fn read_frame<R: Read>(reader: &mut R, buf: &mut [u8], size: usize) -> io::Result<Option<usize>>
    requires { (4 ≤ length buf.old) × (size ≤ 4) }
    ensures room { IfOk result (λ frame. IfSome frame (λ n. n ≤ length buf.new)) }
    ensures whole { IfOk result (λ frame. IfSome (R.remaining reader.old) (λ bytes. frame ≡ cond (is_frame size (length buf.old) bytes) (Some (frame_size size bytes)) None)) }
    ensures front { IfOk result (λ frame. IfSome frame (λ n. IfSome (R.remaining reader.old) (λ bytes. take n buf.new ≡ take n (drop 4 bytes)))) }
    ensures rest { IfOk result (λ frame. IfSome frame (λ n. IfSome (R.remaining reader.old) (λ bytes. R.remaining reader.new ≡ Some (drop (4 + n) bytes)))) }
{
    if read_full(reader, &mut buf[..WORD])? < WORD {
        return Ok(None);
    }
    let n = (wire::read_word(buf, 0) as usize) * size;
    if n > buf.len() {
        return Ok(None);
    }
    if read_full(reader, &mut buf[..n])? < n {
        return Ok(None);
    }
    Ok(Some(n))
}
