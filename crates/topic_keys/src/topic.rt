//! Binding keys of topic exchanges, and the routing keys that they match.
ghost use Rattle.std.specs.Prelude.{◌≡◌, ◌∷◌, length};
ghost use Rattle.std.specs.Option.{option_copied};
ghost use Rattle.topic_keys.specs.Topics.{words, is_hash, takes, behind, matches};
ghost use Rattle.topic_keys.specs.Ahead.{left, EndIs, AheadIs};

use memchr::memchr;

/// Whether a binding key of a topic exchange matches a routing key. Words are parted by `.`; `*` stands for one word,
/// `#` for any number of them (AMQP 0-10, "exchange", topic). Takes no memory; its time is that of the two lengths
/// multiplied at most, whatever stands in the keys.
pub fn topic_matches(pattern: &[u8], key: &[u8]) -> bool
    ensures { result ≡ matches (words pattern.now) (words key.now) }
{
    let (step, patterns, words) = go_ahead(Some(pattern), Some(key));
    match step {
        Ahead::Ends => true,
        Ahead::Fails => false,
        Ahead::Hash => behind_hash(patterns, words),
    }
}

/// How far a pattern went.
#[derive(Clone, Copy, Debug, PartialEq, Eq)]
enum Ahead {
    /// To its end and the key's.
    Ends,
    /// To a word that isn't taken, or to the end of one of the two alone.
    Fails,
    /// To a `#`.
    Hash,
}

/// The first word of a text, and what follows its dot; none without one.
fn first_word(text: &[u8]) -> (&[u8], Option<&[u8]>)
    ensures { words text.now ≡ result.0.now ∷ left (option_copied result.1) }
{
    match memchr(b'.', text) {
        Some(dot) => (&text[..dot], Some(&text[dot + 1..])),
        None => (text, None),
    }
}

fn is_hash(word: &[u8]) -> bool
    ensures { result ≡ is_hash word.now }
{
    word == b"#".as_slice()
}

/// Whether a word of a pattern stands for this one.
fn is_taken(pattern: &[u8], word: &[u8]) -> bool
    ensures { result ≡ takes pattern.now word.now }
{
    pattern == b"*".as_slice() || pattern == word
}

/// How far a pattern went that is at its end, where these words are left.
fn end_of(words: Option<&[u8]>) -> Ahead
    ensures { EndIs result (left (option_copied words.entry)) }
{
    match words {
        Some(_) => Ahead::Fails,
        None => Ahead::Ends,
    }
}

/// Goes on word by word, up to the first `#`; gives how far that was, and what follows there.
fn go_ahead<'a>(
    patterns: Option<&'a [u8]>,
    words: Option<&'a [u8]>,
) -> (Ahead, Option<&'a [u8]>, Option<&'a [u8]>)
    ensures { AheadIs result.0 (left (option_copied patterns.entry)) (left (option_copied words.entry)) (left (option_copied result.1)) (left (option_copied result.2)) }
{
    let mut patterns = patterns;
    let mut words = words;
    loop {
        let Some(pattern) = patterns else {
            return (end_of(words), None, None);
        };
        let (pattern, more) = first_word(pattern);
        if is_hash(pattern) {
            return (Ahead::Hash, more, words);
        }
        let Some(word) = words else {
            return (Ahead::Fails, None, None);
        };
        let (word, rest) = first_word(word);
        if !is_taken(pattern, word) {
            return (Ahead::Fails, None, None);
        }
        patterns = more;
        words = rest;
    }
}

/// Whether what follows a `#` matches the words, or some of them from a later one on. What went well up to another `#`
/// is never tried again from a later word, since that `#` takes what is between.
fn behind_hash(patterns: Option<&[u8]>, words: Option<&[u8]>) -> bool
    ensures { result ≡ behind (matches (left (option_copied patterns.entry))) (left (option_copied words.entry)) }
{
    let mut patterns = patterns;
    let mut words = words;
    loop {
        let (step, more, rest) = go_ahead(patterns, words);
        match step {
            Ahead::Ends => return true,
            Ahead::Hash => {
                patterns = more;
                words = rest;
            }
            Ahead::Fails => {
                let Some(word) = words else {
                    return false;
                };
                let (_, rest) = first_word(word);
                words = rest;
            }
        }
    }
}
