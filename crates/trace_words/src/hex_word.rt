//! Octets in hex digits of either case.
ghost use Rattle.std.specs.Prelude.{◌≡◌, IfOk};
ghost use Rattle.trace_words.specs.HexWords.{octets_in};

use hex::FromHexError;
use octet_reading::{NoMemory, Octets};
use std::alloc::Global;

/// The most octets of a word.
const MOST_OCTETS: usize = 65_536;

/// The octets of a word: 1 to 65,536 of them, or none where it isn't of that form.
pub fn hex_octets(alloc: Global, word: &[u8]) -> Result<Option<Octets>, NoMemory>
    ensures { IfOk result (λ octets. octets ≡ octets_in word.now) }
{
    match hex::decode(alloc, word) {
        Ok(octets) => {
            if octets.is_empty() || octets.len() > MOST_OCTETS {
                return Ok(None);
            }
            Ok(Some(Octets::from_vec(octets)))
        }
        Err(FromHexError::OutOfMemory) => Err(NoMemory),
        Err(_) => Ok(None),
    }
}
