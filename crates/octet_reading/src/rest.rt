//! What is left of octets, before a reading and after it.
ghost use Rattle.std.specs.Prelude.{◌≡◌, length, drop, []};
ghost use Rattle.octet_reading.specs.Reading.{Gives, Within, Moves, ended};

use crate::{Flaw, ReadError, Why, refused};

/// The octets from an index on; none where it is beyond them. Takes no memory.
pub fn octets_from(octets: &[u8], at: usize) -> &[u8]
    ensures { result.now ≡ drop at octets.now }
{
    if at < octets.len() {
        &octets[at..]
    } else {
        &[]
    }
}

/// Nothing may be left of a part. Takes no memory.
pub fn end_of(rest: &[u8]) -> Result<(), ReadError>
    ensures gives { Gives (λ x. x) result (ended rest.now) }
    ensures within { Within (λ x. []) (length rest.now) result }
{
    if rest.is_empty() {
        Ok(())
    } else {
        Err(refused(Why::SizeDiffers, rest))
    }
}

/// The error of reading a part, seen from what follows the part too, so many octets. Takes no memory.
pub fn moved(error: ReadError, after: usize) -> ReadError
    ensures { Moves after error result }
{
    match error {
        ReadError::Memory => ReadError::Memory,
        ReadError::Flaw(flaw) => ReadError::Flaw(Flaw {
            left: flaw.left.saturating_add(after),
            why: flaw.why,
        }),
    }
}
