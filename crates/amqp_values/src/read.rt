//! Values out of octets.
ghost use Rattle.std.specs.Prelude.{◌≡◌, ◌+◌, Ok, true, ◌≤◌, ◌||◌, ℕ, nat_lt, length, drop, [], ◌∷◌, ◌++◌, List, not, IfOk, OnOk};
ghost use Rattle.octet_reading.specs.Reading.{Gives, Within, many_at, ended, behind, Moves};
ghost use Rattle.amqp_values.specs.Spelling.{told, spelling, is_valid};
ghost use Rattle.amqp_values.specs.declared.value.Value.{Value};
ghost use Rattle.amqp_values.specs.Values.{item_at, pair_at, SeesLong, map_in, list_in, array_in, content_in, container_at, fixed_at, boolean_at, inner_at, value_at, read_at, Answers};
ghost use Rattle.octet_reading.specs.declared.flaw.Flaw.{Flaw};
ghost use Rattle.octet_reading.specs.Reading.{check};

use crate::fault::{ValueError, ValueFault};
use crate::keys::is_new_key;
use crate::kind::{Container, Kind, is_array_code, is_known, kind_of};
use crate::value::{Items, Pair, Pairs, Value};
use octet_reading::{
    Flaw, NoMemory, Octets, ReadError, SizeWidth, Text, Why, end_of, moved, octets_from, octets_of,
    part_of, refused, sized_of, text_of, u8_of, u32_of,
};
use std::alloc::Global;
use std::collections::BTreeSet;

/// How many containers may stand on one path.
pub(crate) const MOST_LEVELS: u8 = 16;

/// Reads a value of a type code, from an index on, and gives the index after it.
///
/// Where the index is beyond the octets there are none to read.
pub fn read_value(
    alloc: Global,
    code: u8,
    octets: &[u8],
    at: usize,
) -> Result<(Value, usize), ValueError>
    // The value, or the first fault.
    ensures exact { Answers result (read_at code octets.now at) }
    // What was read is spelled there, and has a spelling.
    ensures found { IfOk result (λ x. (is_valid x.0 ≡ true) × ((told x.0).code ≡ code) × (drop at octets.now ≡ spelling x.0 ++ drop x.1 octets.now)) }
    // What is spelled there is read, whatever follows.
    ensures only { (value : Value) (rest : List ℕ) → is_valid value ≡ true → (told value).code ≡ code → drop at octets.now ≡ spelling value ++ rest
        → Answers result (Ok (value, at + length (spelling value))) }
{
    read_from(alloc, code, octets, at)
}

fn read_from(
    alloc: Global,
    code: u8,
    octets: &[u8],
    at: usize,
) -> Result<(Value, usize), ValueError>
    ensures { Answers result (read_at code octets.now at) }
{
    let rest = octets_from(octets, at);
    let end = at.max(octets.len());
    match value_of(alloc, MOST_LEVELS, code, rest) {
        Ok((value, after)) => Ok((value, end - after.len())),
        Err(ReadError::Memory) => Err(ValueError::NoMemory),
        Err(ReadError::Flaw(flaw)) => Err(ValueError::Bad(ValueFault {
            at: end - flaw.left,
            why: flaw.why,
        })),
    }
}

/// A value of a code, and what follows it, where so many levels of containers are left: 16 for one
/// that stands in none.
#[cycle(reading)]
#[tactic(auto, unfolding(crate::specs::Values::kind_at))]
pub fn value_of(
    alloc: Global,
    levels: u8,
    code: u8,
    octets: &[u8],
) -> Result<(Value, &[u8]), ReadError>
    ensures gives { Gives (λ x. (x.0, x.1.now)) result (value_at levels code octets.now) }
    ensures within { Within (λ x. x.1.now) (length octets.now) result }
{
    match kind_of(code) {
        Some(Kind::Fixed { size }) => fixed_of(alloc, code, size, octets),
        Some(Kind::Boolean) => boolean_of(alloc, code, octets),
        Some(Kind::Text8) => {
            let (text, rest) = text_of(alloc, SizeWidth::One, octets)?;
            Ok((Value::Text8(text), rest))
        }
        Some(Kind::Text16) => {
            let (text, rest) = text_of(alloc, SizeWidth::Two, octets)?;
            Ok((Value::Text16(text), rest))
        }
        Some(Kind::Bin { width }) => {
            let (octets, rest) = octets_of(alloc, width, octets)?;
            Ok((Value::Bin { code, octets }, rest))
        }
        Some(Kind::Container { of }) => container_of(alloc, levels, code, of, octets),
        Some(Kind::Struct32) => {
            let (octets, rest) = octets_of(alloc, SizeWidth::Four, octets)?;
            Ok((Value::Struct32(octets), rest))
        }
        Some(Kind::Void) => Ok((Value::Void, octets)),
        Some(Kind::Bit) => Ok((Value::Bit, octets)),
        None => Err(refused(Why::UnknownCode, octets)),
    }
}

/// So many octets under a code.
#[tactic(auto, unfolding(crate::specs::Values::fixed_at))]
fn fixed_of(
    alloc: Global,
    code: u8,
    size: usize,
    octets: &[u8],
) -> Result<(Value, &[u8]), ReadError>
    ensures gives { Gives (λ x. (x.0, x.1.now)) result (fixed_at code size octets.now) }
    ensures within { Within (λ x. x.1.now) (length octets.now) result }
{
    let (part, rest) = part_of(octets, octets, size)?;
    let octets = Octets::from_slice(alloc, part)?;
    Ok((Value::Fixed { code, octets }, rest))
}

/// One octet that is 0 or 1.
#[tactic(auto, unfolding(crate::specs::Values::boolean_at))]
fn boolean_of(alloc: Global, code: u8, octets: &[u8]) -> Result<(Value, &[u8]), ReadError>
    ensures gives { Gives (λ x. (x.0, x.1.now)) result (boolean_at code octets.now) }
    ensures within { Within (λ x. x.1.now) (length octets.now) result }
{
    let (part, rest) = part_of(octets, octets, 1)?;
    if octets[0] > 1 {
        return Err(refused(Why::BadBoolean, octets));
    }
    let octets = Octets::from_slice(alloc, part)?;
    Ok((Value::Fixed { code, octets }, rest))
}

/// A container behind its size.
#[cycle(reading)]
#[tactic(auto, unfolding(crate::specs::Values::container_at))]
fn container_of(
    alloc: Global,
    levels: u8,
    code: u8,
    of: Container,
    octets: &[u8],
) -> Result<(Value, &[u8]), ReadError>
    ensures gives { Gives (λ x. (x.0, x.1.now)) result (container_at (inner_at levels) code of octets.now) }
    ensures within { Within (λ x. x.1.now) (length octets.now) result }
{
    let (content, rest) = sized_of(SizeWidth::Four, octets)?;
    if levels == 0 {
        return Err(refused(Why::TooDeep, octets));
    }
    if content.is_empty() {
        return Ok((Value::Bare { code }, rest));
    }
    match content_of(alloc, levels - 1, of, content) {
        Ok(value) => Ok((value, rest)),
        Err(error) => Err(moved(error, rest.len())),
    }
}

/// What a container holds.
#[cycle(reading)]
fn content_of(alloc: Global, levels: u8, of: Container, octets: &[u8]) -> Result<Value, ReadError>
    ensures gives { Gives (λ x. x) result (content_in (value_at levels) of octets.now) }
    ensures within { Within (λ x. []) (length octets.now) result }
{
    match of {
        Container::Map => map_of(alloc, levels, octets),
        Container::List => list_of(alloc, levels, octets),
        Container::Array => array_of(alloc, levels, octets),
    }
}

/// A count, and so many pairs.
#[cycle(reading)]
#[tactic(auto, unfolding(crate::specs::Values::map_in))]
fn map_of(alloc: Global, levels: u8, octets: &[u8]) -> Result<Value, ReadError>
    ensures gives { Gives (λ x. x) result (map_in (value_at levels) octets.now) }
    ensures within { Within (λ x. []) (length octets.now) result }
{
    let (count, rest) = u32_of(octets)?;
    let (pairs, rest) = pairs_of(alloc, levels, count, octets.len(), rest)?;
    end_of(rest)?;
    Ok(Value::Map(pairs))
}

/// A count, and so many items.
#[cycle(reading)]
#[tactic(auto, unfolding(crate::specs::Values::list_in))]
fn list_of(alloc: Global, levels: u8, octets: &[u8]) -> Result<Value, ReadError>
    ensures gives { Gives (λ x. x) result (list_in (value_at levels) octets.now) }
    ensures within { Within (λ x. []) (length octets.now) result }
{
    let (count, rest) = u32_of(octets)?;
    let (items, rest) = items_of(alloc, levels, count, octets.len(), rest)?;
    end_of(rest)?;
    Ok(Value::List(items))
}

/// A code, a count, and so many values of the code.
#[cycle(reading)]
#[tactic(auto, unfolding(crate::specs::Values::array_in))]
fn array_of(alloc: Global, levels: u8, octets: &[u8]) -> Result<Value, ReadError>
    ensures gives { Gives (λ x. x) result (array_in (value_at levels) octets.now) }
    ensures within { Within (λ x. []) (length octets.now) result }
{
    let (code, rest) = u8_of(octets)?;
    if !is_array_code(code) {
        return Err(refused(Why::UnknownCode, octets));
    }
    let from = rest.len();
    let (count, rest) = u32_of(rest)?;
    let (items, rest) = values_of(alloc, levels, code, count, from, rest)?;
    end_of(rest)?;
    Ok(Value::Array { code, items })
}

/// A code, and a value of it.
#[cycle(reading)]
#[tactic(auto, unfolding(crate::specs::Values::item_at))]
fn item_of(alloc: Global, levels: u8, octets: &[u8]) -> Result<(Value, &[u8]), ReadError>
    ensures gives { Gives (λ x. (x.0, x.1.now)) result (item_at (value_at levels) octets.now) }
    ensures within { Within (λ x. x.1.now) (length octets.now) result }
{
    let (code, rest) = u8_of(octets)?;
    if !is_known(code) {
        return Err(refused(Why::UnknownCode, octets));
    }
    value_of(alloc, levels, code, rest)
}

/// Something must be left; else the count is the flaw.
fn more_of(from: usize, rest: &[u8]) -> Result<(), ReadError>
    ensures gives { Gives (λ x. x) result (check (nat_lt 0 (length rest.now)) (record { left = from; why = Why.CountDiffers })) }
{
    if rest.is_empty() {
        Err(ReadError::Flaw(Flaw {
            left: from,
            why: Why::CountDiffers,
        }))
    } else {
        Ok(())
    }
}

/// So many items.
#[cycle(reading)]
fn items_of(
    alloc: Global,
    levels: u8,
    count: u32,
    from: usize,
    octets: &[u8],
) -> Result<(Items<Value>, &[u8]), ReadError>
    ensures gives { Gives (λ x. (x.0, x.1.now)) result (many_at (λ front. item_at (value_at levels)) [] count from octets.now) }
    ensures within { length octets.now ≤ from → Within (λ x. x.1.now) from result }
{
    let mut items = Items::new(alloc);
    let mut rest = octets;
    for _ in 0..count {
        more_of(from, rest)?;
        let (value, after) = item_of(alloc, levels, rest)?;
        items.push(value)?;
        rest = after;
    }
    Ok((items, rest))
}

/// So many values of a code.
#[cycle(reading)]
fn values_of(
    alloc: Global,
    levels: u8,
    code: u8,
    count: u32,
    from: usize,
    octets: &[u8],
) -> Result<(Items<Value>, &[u8]), ReadError>
    ensures gives { Gives (λ x. (x.0, x.1.now)) result (many_at (λ front. value_at levels code) [] count from octets.now) }
    ensures within { length octets.now ≤ from → Within (λ x. x.1.now) from result }
{
    let mut items = Items::new(alloc);
    let mut rest = octets;
    for _ in 0..count {
        more_of(from, rest)?;
        let (value, after) = value_of(alloc, levels, code, rest)?;
        items.push(value)?;
        rest = after;
    }
    Ok((items, rest))
}

/// A key that wasn't seen before, and an item.
#[cycle(reading)]
#[tactic(auto, unfolding(crate::specs::Values::pair_at))]
fn pair_of<'a>(
    alloc: Global,
    levels: u8,
    before: &[Pair<Value>],
    seen: &mut BTreeSet<Text>,
    octets: &'a [u8],
) -> Result<(Pair<Value>, &'a [u8]), ReadError>
    ensures gives { SeesLong seen.old.keys before.now → Gives (λ x. (x.0, x.1.now)) result (pair_at (value_at levels) before.now octets.now) }
    ensures sees { SeesLong seen.old.keys before.now → IfOk result (λ x. SeesLong seen.new.keys (before.now ++ x.0 ∷ [])) }
    ensures within { Within (λ x. x.1.now) (length octets.now) result }
{
    let (key, rest) = text_of(alloc, SizeWidth::One, octets)?;
    if !is_new_key(alloc, seen, before, &key)? {
        return Err(refused(Why::RepeatedKey, octets));
    }
    let (value, rest) = item_of(alloc, levels, rest)?;
    Ok((Pair { key, value }, rest))
}

/// So many pairs.
#[cycle(reading)]
fn pairs_of(
    alloc: Global,
    levels: u8,
    count: u32,
    from: usize,
    octets: &[u8],
) -> Result<(Pairs, &[u8]), ReadError>
    ensures gives { Gives (λ x. (x.0, x.1.now)) result (many_at (pair_at (value_at levels)) [] count from octets.now) }
    ensures within { length octets.now ≤ from → Within (λ x. x.1.now) from result }
{
    let mut pairs = Items::new(alloc);
    let mut seen = BTreeSet::new(alloc);
    let mut rest = octets;
    for _ in 0..count {
        more_of(from, rest)?;
        let (pair, after) = pair_of(alloc, levels, pairs.as_slice(), &mut seen, rest)?;
        pairs.push(pair)?;
        rest = after;
    }
    Ok((pairs, rest))
}
