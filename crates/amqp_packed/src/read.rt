//! Fields out of octets.
ghost use Rattle.std.specs.Prelude.{◌≡◌, ℕ, ◌+◌, ◌<◌, ◌≤◌, ◌/◌, ◌^◌, ◌++◌, List, length, drop, [], Ok, Result, IfOk, if◌then◌else◌};
ghost use Rattle.std.specs.Option.{option_copied};
ghost use Rattle.amqp_packed.specs.declared.field.Field.{Field};
ghost use Rattle.octet_reading.specs.Reading.{Gives, Within};
ghost use Rattle.amqp_packed.specs.Reading.{Reader, flags_at, slot_at, slots_at, fields_at, range_at, ranges_from, ranges_in, ranges_at, plain_at, u32_or_0, octets_or_none, text_or_none, given, xid_of, reply_of, xid_in, reply_in, xid_at, reply_at, field_at, all_fields_at, reader, read_at, Answers};
ghost use Rattle.amqp_packed.specs.Spelling.{packed, AreOf};
ghost use Rattle.amqp_packed.specs.Spelled.{Packs};

use crate::error::PackError;
use crate::field::{Field, FieldKind, Fields};
use amqp_values::{
    Items, NoMemory, Octets, Range, Ranges, ReplyTo, Text, ValueFault, Xid, value_of,
};
use octet_reading::{
    ReadError, SizeWidth, Why, end_of, moved, octets_from, octets_of, part_of, refused, sized_of,
    text_of, u8_of, u16_of, u32_of, u64_of,
};
use std::alloc::Global;

/// How many containers may stand on one path.
const MOST_LEVELS: u8 = 16;

/// The type codes of a map and of an array.
const MAP: u8 = 0xa8;

const ARRAY: u8 = 0xaa;

/// The fields of an xid, and of a reply-to.
const XID: [FieldKind; 3] = [FieldKind::U32, FieldKind::Vbin8, FieldKind::Vbin8];

const REPLY_TO: [FieldKind; 2] = [FieldKind::Str8, FieldKind::Str8];

/// Reads the fields of a table from an index on, and gives the index after them.
///
/// Where the index is beyond the octets there are none to read. A table has 16 kinds at most.
/// In an xid and a reply-to an absent field counts as 0 or empty.
pub fn read_fields(
    alloc: Global,
    table: &[FieldKind],
    octets: &[u8],
    at: usize,
) -> Result<(Fields, usize), PackError>
    requires { length table.now ≤ 16 }
    // The fields, or the first fault.
    ensures exact { Answers result (read_at table.now octets.now at) }
    // What was read fits the table and has a spelling, and octets that spell it stand there.
    ensures found { IfOk result (λ x. AreOf table.now x.0 × Packs x.0 (drop at octets.now) (drop x.1 octets.now)) }
    // What fits the table and is written there is read, whatever follows.
    ensures only { (fields : List Field) (rest : List ℕ) → AreOf table.now fields → drop at octets.now ≡ packed fields ++ rest
        → Answers result (Ok (fields, at + length (packed fields))) }
{
    read_from(alloc, table, octets, at)
}

/// Reads them, as reading is defined.
fn read_from(
    alloc: Global,
    table: &[FieldKind],
    octets: &[u8],
    at: usize,
) -> Result<(Fields, usize), PackError>
    requires { length table.now ≤ 16 }
    ensures { Answers result (read_at table.now octets.now at) }
{
    let rest = octets_from(octets, at);
    let end = at.max(octets.len());
    match fields_of(alloc, table, rest) {
        Ok((fields, after)) => Ok((fields, end - after.len())),
        Err(ReadError::Memory) => Err(PackError::NoMemory),
        Err(ReadError::Flaw(flaw)) => Err(PackError::Bad(ValueFault {
            at: end - flaw.left,
            why: flaw.why,
        })),
    }
}

/// The fields of a table of 16 kinds at most, and what follows them.
pub fn fields_of<'a>(
    alloc: Global,
    table: &[FieldKind],
    octets: &'a [u8],
) -> Result<(Fields, &'a [u8]), ReadError>
    requires { length table.now ≤ 16 }
    ensures gives { Gives (λ x. (x.0, x.1.now)) result (fields_at field_at table.now octets.now) }
    ensures within { Within (λ x. x.1.now) (length octets.now) result }
{
    packed_of(alloc, false, table, octets)
}

/// The fields of a table of 16 kinds at most that take all of the octets, and otherwise the reason
/// for which what is left is wrong.
#[tactic(auto, unfolding(crate::specs::Reading::all_fields_at))]
pub fn all_fields_of(
    alloc: Global,
    table: &[FieldKind],
    why: Why,
    octets: &[u8],
) -> Result<Fields, ReadError>
    requires { length table.now ≤ 16 }
    ensures gives { Gives (λ x. x) result (all_fields_at why table.now octets.now) }
    ensures within { Within (λ x. []) (length octets.now) result }
{
    let (fields, rest) = fields_of(alloc, table, octets)?;
    if !rest.is_empty() {
        return Err(refused(why, rest));
    }
    Ok(fields)
}

/// Two octets of flags; none is set beyond so many fields.
#[tactic(auto, unfolding(crate::specs::Reading::flags_at))]
fn flags_of(count: usize, octets: &[u8]) -> Result<(u16, &[u8]), ReadError>
    requires { count ≤ 16 }
    ensures gives { Gives (λ x. (x.0, x.1.now)) result (flags_at count octets.now) }
    ensures within { Within (λ x. x.1.now) (length octets.now) result }
{
    let (_, rest) = part_of(octets, octets, 2)?;
    if u16::from(octets[0]) >= limit_of(count.min(8)) {
        return Err(refused(Why::ReservedFlag, octets));
    }
    if u16::from(octets[1]) >= limit_of(count.saturating_sub(8)) {
        return Err(refused(Why::ReservedFlag, &octets[1..]));
    }
    Ok((u16::from(octets[0]) + 256 * u16::from(octets[1]), rest))
}

/// Two to a power of at most 8.
fn limit_of(bits: usize) -> u16
    requires { bits ≤ 8 }
    ensures { result ≡ 2 ^ bits }
{
    match bits {
        0 => 1,
        1 => 2,
        2 => 4,
        3 => 8,
        4 => 16,
        5 => 32,
        6 => 64,
        7 => 128,
        _ => 256,
    }
}

/// A pair of serials.
#[tactic(auto, unfolding(crate::specs::Reading::range_at))]
fn range_of(octets: &[u8]) -> Result<(Range, &[u8]), ReadError>
    ensures gives { Gives (λ x. (x.0, x.1.now)) result (range_at octets.now) }
    ensures within { Within (λ x. x.1.now) (length octets.now) result }
{
    let (lower, rest) = u32_of(octets)?;
    let (upper, rest) = u32_of(rest)?;
    if upper.wrapping_sub(lower) >= 2_147_483_648 {
        return Err(refused(Why::BadRanges, octets));
    }
    Ok((Range { lower, upper }, rest))
}

/// Pairs of serials that are all of the octets.
#[tactic(auto, unfolding(crate::specs::Reading::ranges_in))]
fn ranges_in(alloc: Global, octets: &[u8]) -> Result<Field, ReadError>
    ensures gives { Gives (λ x. x) result (ranges_in octets.now) }
    ensures within { Within (λ x. []) (length octets.now) result }
{
    let ranges = ranges_of(alloc, octets)?;
    Ok(Field::Ranges(Ranges::from_vec(ranges)))
}

/// As many pairs as the octets have room for.
fn ranges_of(alloc: Global, octets: &[u8]) -> Result<Vec<Range>, ReadError>
    ensures gives { Gives (λ x. x.items) result (ranges_from (length octets.now / 8) [] octets.now) }
    ensures within { Within (λ x. []) (length octets.now) result }
{
    let mut ranges = Vec::new(alloc);
    let mut rest = octets;
    for _ in 0..octets.len() / 8 {
        let (range, after) = range_of(rest)?;
        ranges.push(range)?;
        rest = after;
    }
    Ok(ranges)
}

/// Pairs of serials behind the count of their octets.
#[tactic(auto, unfolding(crate::specs::Reading::ranges_at))]
fn ranges_field_of(alloc: Global, octets: &[u8]) -> Result<(Field, &[u8]), ReadError>
    ensures gives { Gives (λ x. (x.0, x.1.now)) result (ranges_at octets.now) }
    ensures within { Within (λ x. x.1.now) (length octets.now) result }
{
    let (part, rest) = sized_of(SizeWidth::Two, octets)?;
    if part.len() % 8 != 0 {
        return Err(refused(Why::BadRanges, octets));
    }
    match ranges_in(alloc, part) {
        Ok(field) => Ok((field, rest)),
        Err(error) => Err(moved(error, rest.len())),
    }
}

/// A field that has no fields in it.
#[tactic(auto, unfolding(crate::specs::Reading::plain_at))]
fn plain_of(alloc: Global, kind: FieldKind, octets: &[u8]) -> Result<(Field, &[u8]), ReadError>
    ensures gives { Gives (λ x. (x.0, x.1.now)) result (plain_at kind octets.now) }
    ensures within { Within (λ x. x.1.now) (length octets.now) result }
{
    match kind {
        FieldKind::Bit => Ok((Field::Bit, octets)),
        FieldKind::U8 => {
            let (number, rest) = u8_of(octets)?;
            Ok((Field::U8(number), rest))
        }
        FieldKind::U16 => {
            let (number, rest) = u16_of(octets)?;
            Ok((Field::U16(number), rest))
        }
        FieldKind::U32 => {
            let (number, rest) = u32_of(octets)?;
            Ok((Field::U32(number), rest))
        }
        FieldKind::U64 => {
            let (number, rest) = u64_of(octets)?;
            Ok((Field::U64(number), rest))
        }
        FieldKind::Str8 => {
            let (text, rest) = text_of(alloc, SizeWidth::One, octets)?;
            Ok((Field::Str8(text), rest))
        }
        FieldKind::Str16 => {
            let (text, rest) = text_of(alloc, SizeWidth::Two, octets)?;
            Ok((Field::Str16(text), rest))
        }
        FieldKind::Vbin8 => {
            let (part, rest) = octets_of(alloc, SizeWidth::One, octets)?;
            Ok((Field::Vbin8(part), rest))
        }
        FieldKind::Vbin16 => {
            let (part, rest) = octets_of(alloc, SizeWidth::Two, octets)?;
            Ok((Field::Vbin16(part), rest))
        }
        FieldKind::Vbin32 => {
            let (part, rest) = octets_of(alloc, SizeWidth::Four, octets)?;
            Ok((Field::Vbin32(part), rest))
        }
        FieldKind::Uuid => {
            let (part, rest) = part_of(octets, octets, 16)?;
            Ok((Field::Uuid(Octets::from_slice(alloc, part)?), rest))
        }
        FieldKind::Datetime => {
            let (number, rest) = u64_of(octets)?;
            Ok((Field::Datetime(number), rest))
        }
        FieldKind::Map => {
            let (value, rest) = value_of(alloc, MOST_LEVELS, MAP, octets)?;
            Ok((Field::Map(value), rest))
        }
        FieldKind::Array => {
            let (value, rest) = value_of(alloc, MOST_LEVELS, ARRAY, octets)?;
            Ok((Field::Array(value), rest))
        }
        FieldKind::Ranges => ranges_field_of(alloc, octets),
        FieldKind::Struct32 => {
            let (part, rest) = octets_of(alloc, SizeWidth::Four, octets)?;
            Ok((Field::Struct32(part), rest))
        }
        FieldKind::Xid | FieldKind::ReplyTo => Ok((Field::Absent, octets)),
    }
}

/// A field of a kind that is no struct with fields, or of any kind where it isn't nested in one.
#[cycle(fields)]
#[tactic(auto, unfolding(crate::specs::Reading::field_at))]
fn field_of(
    alloc: Global,
    nested: bool,
    kind: FieldKind,
    octets: &[u8],
) -> Result<(Field, &[u8]), ReadError>
    ensures gives { Gives (λ x. (x.0, x.1.now)) result (reader nested kind octets.now) }
    ensures within { Within (λ x. x.1.now) (length octets.now) result }
{
    if nested {
        return plain_of(alloc, kind, octets);
    }
    match kind {
        FieldKind::Xid => xid_field_of(alloc, octets),
        FieldKind::ReplyTo => reply_field_of(alloc, octets),
        _ => plain_of(alloc, kind, octets),
    }
}

/// A field where its flag is set.
#[cycle(fields)]
#[tactic(auto, unfolding(crate::specs::Reading::slot_at))]
fn slot_of(
    alloc: Global,
    nested: bool,
    kind: FieldKind,
    flags: u16,
    octets: &[u8],
) -> Result<(Field, &[u8]), ReadError>
    ensures gives { Gives (λ x. (x.0, x.1.now)) result (slot_at (reader nested) kind flags octets.now) }
    ensures within { Within (λ x. x.1.now) (length octets.now) result }
{
    if flags % 2 == 1 {
        field_of(alloc, nested, kind, octets)
    } else {
        Ok((Field::Absent, octets))
    }
}

/// A field for each kind.
#[cycle(fields)]
fn slots_of<'a>(
    alloc: Global,
    nested: bool,
    table: &[FieldKind],
    all: u16,
    octets: &'a [u8],
) -> Result<(Fields, &'a [u8]), ReadError>
    ensures gives { Gives (λ x. (x.0, x.1.now)) result (slots_at (reader nested) table.now all [] octets.now) }
    ensures within { Within (λ x. x.1.now) (length octets.now) result }
{
    let mut fields = Items::new(alloc);
    let mut flags = all;
    let mut rest = octets;
    for kind in table {
        let (field, after) = slot_of(alloc, nested, *kind, flags, rest)?;
        fields.push(field)?;
        flags /= 2;
        rest = after;
    }
    Ok((fields, rest))
}

/// The flags, and the fields.
#[cycle(fields)]
#[tactic(auto, unfolding(crate::specs::Reading::fields_at))]
fn packed_of<'a>(
    alloc: Global,
    nested: bool,
    table: &[FieldKind],
    octets: &'a [u8],
) -> Result<(Fields, &'a [u8]), ReadError>
    requires { length table.now ≤ 16 }
    ensures gives { Gives (λ x. (x.0, x.1.now)) result (fields_at (reader nested) table.now octets.now) }
    ensures within { Within (λ x. x.1.now) (length octets.now) result }
{
    let (flags, rest) = flags_of(table.len(), octets)?;
    slots_of(alloc, nested, table, flags, rest)
}

/// An xid behind its size.
#[cycle(fields)]
#[tactic(auto, unfolding(crate::specs::Reading::xid_at))]
fn xid_field_of(alloc: Global, octets: &[u8]) -> Result<(Field, &[u8]), ReadError>
    ensures gives { Gives (λ x. (x.0, x.1.now)) result (xid_at octets.now) }
    ensures within { Within (λ x. x.1.now) (length octets.now) result }
{
    let (part, rest) = sized_of(SizeWidth::Four, octets)?;
    match xid_in(alloc, part) {
        Ok(field) => Ok((field, rest)),
        Err(error) => Err(moved(error, rest.len())),
    }
}

/// A reply-to behind its size.
#[cycle(fields)]
#[tactic(auto, unfolding(crate::specs::Reading::reply_at))]
fn reply_field_of(alloc: Global, octets: &[u8]) -> Result<(Field, &[u8]), ReadError>
    ensures gives { Gives (λ x. (x.0, x.1.now)) result (reply_at octets.now) }
    ensures within { Within (λ x. x.1.now) (length octets.now) result }
{
    let (part, rest) = sized_of(SizeWidth::Two, octets)?;
    match reply_in(alloc, part) {
        Ok(field) => Ok((field, rest)),
        Err(error) => Err(moved(error, rest.len())),
    }
}

/// The class and code of an xid, and its fields.
#[cycle(fields)]
#[tactic(auto, unfolding(crate::specs::Reading::xid_in))]
fn xid_in(alloc: Global, octets: &[u8]) -> Result<Field, ReadError>
    ensures gives { Gives (λ x. x) result (xid_in octets.now) }
    ensures within { Within (λ x. []) (length octets.now) result }
{
    let (_, rest) = part_of(octets, octets, 2)?;
    if !(octets[0] == 6 && octets[1] == 4) {
        return Err(refused(Why::BadStruct, octets));
    }
    let (fields, rest) = packed_of(alloc, true, XID.as_slice(), rest)?;
    end_of(rest)?;
    Ok(Field::Xid(made_xid(alloc, fields.as_slice())?))
}

/// The fields of a reply-to.
#[cycle(fields)]
#[tactic(auto, unfolding(crate::specs::Reading::reply_in))]
fn reply_in(alloc: Global, octets: &[u8]) -> Result<Field, ReadError>
    ensures gives { Gives (λ x. x) result (reply_in octets.now) }
    ensures within { Within (λ x. []) (length octets.now) result }
{
    let (fields, rest) = packed_of(alloc, true, REPLY_TO.as_slice(), octets)?;
    end_of(rest)?;
    Ok(Field::ReplyTo(made_reply(alloc, fields.as_slice())?))
}

/// A number, or 0.
fn number_in(field: Option<&Field>) -> u32
    ensures { result ≡ u32_or_0 (given (option_copied field.entry)) }
{
    match field {
        Some(Field::U32(number)) => *number,
        _ => 0,
    }
}

/// Octets, or none.
fn octets_in(alloc: Global, field: Option<&Field>) -> Result<Octets, NoMemory>
    ensures { IfOk result (λ octets. octets ≡ octets_or_none (given (option_copied field.entry))) }
{
    match field {
        Some(Field::Vbin8(octets)) => octets.copied(alloc),
        _ => Ok(Octets::new(alloc)),
    }
}

/// A text, or none.
fn text_in(alloc: Global, field: Option<&Field>) -> Result<Text, NoMemory>
    ensures { IfOk result (λ text. text ≡ text_or_none (given (option_copied field.entry))) }
{
    match field {
        Some(Field::Str8(text)) => text.copied(alloc),
        _ => Text::from_text(alloc, ""),
    }
}

/// The xid that three fields make.
fn made_xid(alloc: Global, fields: &[Field]) -> Result<Xid, NoMemory>
    ensures { IfOk result (λ xid. xid ≡ xid_of fields.now) }
{
    let format = number_in(fields.first());
    let global = octets_in(alloc, fields.get(1))?;
    let branch = octets_in(alloc, fields.get(2))?;
    Ok(Xid {
        format,
        global,
        branch,
    })
}

/// The reply-to that two fields make.
fn made_reply(alloc: Global, fields: &[Field]) -> Result<ReplyTo, NoMemory>
    ensures { IfOk result (λ reply. reply ≡ reply_of fields.now) }
{
    let exchange = text_in(alloc, fields.first())?;
    let routing_key = text_in(alloc, fields.get(1))?;
    Ok(ReplyTo {
        exchange,
        routing_key,
    })
}
