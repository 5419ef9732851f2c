//! Parts whose size is known, or stands before them.
ghost use Rattle.std.specs.Prelude.{◌≡◌, ◌≤◌, ◌++◌, length, Some, None, if◌then◌else◌};
ghost use Rattle.std.specs.Option.{option_copied};
ghost use Rattle.std.specs.Str.{is_utf8};
ghost use Rattle.octet_reading.specs.Reading.{Gives, Within, part_at, width_of, size_at, sized_at, text_at};

use crate::{Flaw, Octets, ReadError, Text, Why, refused, u8_of, u16_of, u32_of};
use std::alloc::Global;
use std::str;

/// How many octets a size has.
#[derive(Clone, Copy, Debug, PartialEq, Eq)]
pub enum SizeWidth {
    One,
    Two,
    Four,
}

/// So many octets, and what follows them. Where they aren't there, the flaw is at `from`. Takes no memory.
pub fn part_of<'a>(
    from: &[u8],
    octets: &'a [u8],
    size: usize,
) -> Result<(&'a [u8], &'a [u8]), ReadError>
    ensures gives { Gives (λ x. (x.0.now, x.1.now)) result (part_at from.now octets.now size) }
    ensures within { length octets.now ≤ length from.now → Within (λ x. x.0.now ++ x.1.now) (length from.now) result }
{
    if octets.len() < size {
        return Err(refused(Why::Short, from));
    }
    Ok(octets.split_at(size))
}

/// A size, and what follows it.
fn size_of(width: SizeWidth, octets: &[u8]) -> Result<(usize, &[u8]), ReadError>
    ensures gives { Gives (λ x. (x.0, x.1.now)) result (size_at width octets.now) }
    ensures within { Within (λ x. x.1.now) (length octets.now) result }
{
    match width {
        SizeWidth::One => {
            let (size, rest) = u8_of(octets)?;
            Ok((size as usize, rest))
        }
        SizeWidth::Two => {
            let (size, rest) = u16_of(octets)?;
            Ok((size as usize, rest))
        }
        SizeWidth::Four => {
            let (size, rest) = u32_of(octets)?;
            Ok((size as usize, rest))
        }
    }
}

/// The octets behind their size, and what follows them. Takes no memory.
#[tactic(auto, unfolding(crate::specs::Reading::sized_at))]
pub fn sized_of(width: SizeWidth, octets: &[u8]) -> Result<(&[u8], &[u8]), ReadError>
    ensures gives { Gives (λ x. (x.0.now, x.1.now)) result (sized_at width octets.now) }
    ensures within { Within (λ x. x.0.now ++ x.1.now) (length octets.now) result }
{
    let (size, rest) = size_of(width, octets)?;
    part_of(octets, rest, size)
}

/// The octets behind their size, owned, and what follows them.
pub fn octets_of(
    alloc: Global,
    width: SizeWidth,
    octets: &[u8],
) -> Result<(Octets, &[u8]), ReadError>
    ensures gives { Gives (λ x. (x.0, x.1.now)) result (sized_at width octets.now) }
    ensures within { Within (λ x. x.1.now) (length octets.now) result }
{
    let (part, rest) = sized_of(width, octets)?;
    Ok((Octets::from_slice(alloc, part)?, rest))
}

/// The octets as a text, where they are one.
fn as_text(octets: &[u8]) -> Option<&str>
    ensures { option_copied result ≡ (if is_utf8 octets.now then Some octets.now else None) }
{
    match str::from_utf8(octets) {
        Ok(text) => Some(text),
        Err(_) => None,
    }
}

/// The text behind its size, and what follows it.
#[tactic(auto, unfolding(crate::specs::Reading::text_at))]
pub fn text_of(alloc: Global, width: SizeWidth, octets: &[u8]) -> Result<(Text, &[u8]), ReadError>
    ensures gives { Gives (λ x. (x.0, x.1.now)) result (text_at width octets.now) }
    ensures within { Within (λ x. x.1.now) (length octets.now) result }
{
    let (part, rest) = sized_of(width, octets)?;
    let Some(text) = as_text(part) else {
        let left = part.len() + rest.len();
        return Err(ReadError::Flaw(Flaw {
            left,
            why: Why::BadText,
        }));
    };
    Ok((Text::from_text(alloc, text)?, rest))
}
