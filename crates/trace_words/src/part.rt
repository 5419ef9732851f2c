//! A line's first word, and what follows its space.
ghost use Rattle.std.specs.Prelude.{◌≡◌};
ghost use Rattle.std.specs.Option.{option_copied};
ghost use Rattle.trace_words.specs.Parts.{space_at, word_of, rest_of};

use memchr::memchr;

/// The index of the first space, or the length.
fn first_space(line: &[u8]) -> usize
    ensures { result ≡ space_at line.now }
{
    match memchr(b' ', line) {
        Some(index) => index,
        None => line.len(),
    }
}

/// The first word of a line.
pub fn word(line: &[u8]) -> &[u8]
    ensures { result.now ≡ word_of line.now }
{
    &line[..first_space(line)]
}

/// What follows the first space; none without one.
pub fn rest(line: &[u8]) -> Option<&[u8]>
    ensures { option_copied result ≡ rest_of line.now }
{
    let space = first_space(line);
    if space < line.len() {
        Some(&line[space + 1..])
    } else {
        None
    }
}
