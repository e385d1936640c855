// Texts in bytes: numbers put behind a text in decimal, and a text copied into a buffer.
#![tactic(auto)]

ghost use Rattle.std.specs.Prelude.{◌≡◌, ◌+◌, ◌%◌, ◌≤◌, ◌<◌, [], ◌∷◌, ◌++◌, length};
ghost use Rattle.arrayvec.specs.ArrayString.{array_string_len};
ghost use Rattle.text.specs.Decimal.{decimal, item};
ghost use Rattle.text.specs.Written.{Written};

use arrayvec::ArrayString;

// The digits of n.
pub fn put_decimal<const CAP: usize>(out: &mut ArrayString<CAP>, n: u64)
    requires { array_string_len out.old + length (decimal n) ≤ CAP }
    ensures { out.new.bytes ≡ out.old.bytes ++ decimal n }
{
    let mut digits = ArrayString::new();
    push_digits(&mut digits, n);
    out.push_str(digits.as_str());
}

// Twenty digits hold a 64-bit number.
fn push_digits(out: &mut ArrayString<20>, n: u64)
    requires { array_string_len out.old + length (decimal n) ≤ 20 }
    ensures { out.new.bytes ≡ out.old.bytes ++ decimal n }
{
    if n < 10 {
        return push_digit(out, last_digit(n));
    }
    push_digits(out, n / 10);
    push_digit(out, last_digit(n))
}

// Puts one ASCII character.
fn push_digit(out: &mut ArrayString<20>, digit: u8)
    requires { (array_string_len out.old < 20) × (digit < 128) }
    ensures { out.new.bytes ≡ out.old.bytes ++ digit ∷ [] }
{
    out.push(char::from(digit));
}

fn last_digit(n: u64) -> u8
    ensures { result ≡ 48 + n % 10 }
{
    b'0' + (n % 10) as u8
}

// A text and a number behind it, which has at most ten digits.
pub fn put_item<const CAP: usize>(out: &mut ArrayString<CAP>, text: &str, n: u32)
    requires { array_string_len out.old + length text.now + 10 ≤ CAP }
    ensures bytes { out.new.bytes ≡ out.old.bytes ++ item text.now n }
    ensures short { array_string_len out.new ≤ array_string_len out.old + length text.now + 10 }
{
    out.push_str(text);
    put_decimal(out, u64::from(n));
}

// Copies the text to index `at` and on; the index past it is returned.
pub fn write_text(out: &mut [u8], at: usize, text: &[u8]) -> usize
    requires { at + length text.now ≤ length out.old }
    ensures { Written at text.now out.old out.new result }
{
    let end = at + text.len();
    out[at..end].copy_from_slice(text);
    end
}
