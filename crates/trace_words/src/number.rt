//! Decimal numbers without a sign or a leading zero.
ghost use Rattle.std.specs.Prelude.{◌≡◌, ◌+◌, ◌*◌, ◌<◌, ◌^◌, SomeIff};
ghost use Rattle.trace_words.specs.Numbers.{number_in, upto, digits_from};

/// The number that the word spells, where it isn't above the greatest that is wanted.
pub fn number_upto(word: &[u8], greatest: u64) -> Option<u64>
    ensures { result ≡ number_in greatest word.now }
{
    match word {
        [] => None,
        [b'0'] => Some(0),
        [b'0', _, ..] => None,
        [_, ..] => digits_upto(word, greatest),
    }
}

/// The number that digits spell.
fn digits_upto(word: &[u8], greatest: u64) -> Option<u64>
    ensures { result ≡ upto greatest (digits_from 0 word.now) }
{
    let mut number: u64 = 0;
    let mut rest = word;
    while let Some((digit, more)) = rest.split_first() {
        if *digit < b'0' || *digit > b'9' {
            return None;
        }
        match next_number(number, *digit - b'0') {
            Some(next) => number = next,
            None => return None,
        }
        rest = more;
    }
    if number <= greatest {
        Some(number)
    } else {
        None
    }
}

/// One digit more, while it fits.
fn next_number(number: u64, digit: u8) -> Option<u64>
    requires { digit < 10 }
    ensures { SomeIff result (10 * number + digit < 2 ^ 64) (10 * number + digit) }
{
    number.checked_mul(10)?.checked_add(u64::from(digit))
}
