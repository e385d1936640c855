// A line without its comment, and its words.
ghost use Rattle.std.specs.Prelude.{◌≡◌, ◌<◌, [], ◌∷◌, length, slice_get, option_copied, MatchOption, OnSome};
ghost use Rattle.plan_list.specs.Words.{is_blank, uncommented, words_of};

fn is_blank(b: u8) -> bool
    ensures { result ≡ is_blank b }
{
    matches!(b, b' ' | b'\t' | b'\r')
}

pub fn uncommented(line: &[u8]) -> &[u8]
    ensures { result.now ≡ uncommented line.now }
{
    let end = line.iter().position(|b| *b == b'#').unwrap_or(line.len());
    &line[..end]
}

// Takes the first word off what is left of a line. A word is looked for by where it begins and ends, so that a blank costs next to nothing.
fn next_word<'a>(rest: &mut &'a [u8]) -> Option<&'a [u8]>
    ensures word { MatchOption result (words_of rest.old.now ≡ []) (λ word. words_of rest.old.now ≡ word.now ∷ words_of rest.new.now) }
    ensures shorter { OnSome result (length rest.new.now < length rest.old.now) }
{
    let line: &'a [u8] = *rest;
    let start = line.iter().position(|b| !is_blank(*b))?;
    let from = &line[start..];
    let end = from.iter().position(|b| is_blank(*b)).unwrap_or(from.len());
    *rest = &from[end..];
    Some(&from[..end])
}

pub fn count_words(line: &[u8]) -> usize
    ensures { result ≡ length (words_of line.now) }
{
    let mut rest = line;
    let mut n = 0;
    while next_word(&mut rest).is_some() {
        n += 1;
    }
    n
}

// The word at index k, if there is one.
pub fn word_at(line: &[u8], k: usize) -> Option<&[u8]>
    ensures { option_copied result ≡ slice_get (words_of line.now) k }
{
    let mut rest = line;
    for _ in 0..k {
        next_word(&mut rest)?;
    }
    next_word(&mut rest)
}
