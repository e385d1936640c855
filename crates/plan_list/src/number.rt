// Numbers in decimal, as words say them.
ghost use Rattle.std.specs.Prelude.{◌≡◌};
ghost use Rattle.plan_list.specs.Number.{with_digit, said};

// The number n with one digit more. There is none where the byte is no digit, or the number is above 4,294,967,295.
fn with_digit(n: u32, b: u8) -> Option<u32>
    ensures { result ≡ with_digit n b }
{
    if !b.is_ascii_digit() {
        return None;
    }
    n.checked_mul(10)?.checked_add(u32::from(b - b'0'))
}

// The number that a word says: one digit or more.
pub fn number_of(word: &[u8]) -> Option<u32>
    ensures { result ≡ said word.now }
{
    if word.is_empty() {
        return None;
    }
    let mut n = 0;
    for b in word {
        n = with_digit(n, *b)?;
    }
    Some(n)
}
