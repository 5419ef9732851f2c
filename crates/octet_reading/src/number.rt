//! Numbers, the most significant octet first.
ghost use Rattle.std.specs.Prelude.{length};
ghost use Rattle.std.specs.Int.{w8, w16, w32, w64};
ghost use Rattle.octet_reading.specs.Reading.{Gives, Within, number_at};

use crate::{ReadError, Why, refused};

/// A number of one octet, and what follows it. Takes no memory.
pub fn u8_of(octets: &[u8]) -> Result<(u8, &[u8]), ReadError>
    ensures gives { Gives (λ x. (x.0, x.1.now)) result (number_at w8 octets.now) }
    ensures within { Within (λ x. x.1.now) (length octets.now) result }
{
    if octets.is_empty() {
        return Err(refused(Why::Short, octets));
    }
    let (front, rest) = octets.split_at(1);
    Ok((u8::from_be_bytes([front[0]]), rest))
}

/// A number of two octets, and what follows it. Takes no memory.
pub fn u16_of(octets: &[u8]) -> Result<(u16, &[u8]), ReadError>
    ensures gives { Gives (λ x. (x.0, x.1.now)) result (number_at w16 octets.now) }
    ensures within { Within (λ x. x.1.now) (length octets.now) result }
{
    if octets.len() < 2 {
        return Err(refused(Why::Short, octets));
    }
    let (front, rest) = octets.split_at(2);
    Ok((u16::from_be_bytes([front[0], front[1]]), rest))
}

/// A number of four octets, and what follows it. Takes no memory.
pub fn u32_of(octets: &[u8]) -> Result<(u32, &[u8]), ReadError>
    ensures gives { Gives (λ x. (x.0, x.1.now)) result (number_at w32 octets.now) }
    ensures within { Within (λ x. x.1.now) (length octets.now) result }
{
    if octets.len() < 4 {
        return Err(refused(Why::Short, octets));
    }
    let (front, rest) = octets.split_at(4);
    let number = u32::from_be_bytes([front[0], front[1], front[2], front[3]]);
    Ok((number, rest))
}

/// A number of eight octets, and what follows it. Takes no memory.
pub fn u64_of(octets: &[u8]) -> Result<(u64, &[u8]), ReadError>
    ensures gives { Gives (λ x. (x.0, x.1.now)) result (number_at w64 octets.now) }
    ensures within { Within (λ x. x.1.now) (length octets.now) result }
{
    if octets.len() < 8 {
        return Err(refused(Why::Short, octets));
    }
    let (front, rest) = octets.split_at(8);
    let number = u64::from_be_bytes([
        front[0], front[1], front[2], front[3], front[4], front[5], front[6], front[7],
    ]);
    Ok((number, rest))
}
