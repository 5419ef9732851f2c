//! Fields by their names.
ghost use Rattle.std.specs.Prelude.{◌≡◌, ◌++◌, true, false, length, map, codes, flat_map, OnOk};
ghost use Rattle.std.specs.List.{list_all};
ghost use Rattle.hex.specs.Hex.{encode_lower};
ghost use Rattle.uuid.specs.Text.{hyphenated_text, lower};
ghost use Rattle.trace_words.specs.Parts.{rest_of};
ghost use Rattle.amqp_packed.specs.Lent.{lent, lent_fine};
ghost use Rattle.amqp_packed.specs.Spelling.{field_octets, is_there, is_fine};
ghost use Rattle.octet_tools.specs.Show.{range_text, ranges_text, value_text, is_bit, field_text, later, lead, fields_text};

use crate::text::{push_hex, push_number, push_shown};
use amqp_packed::{FieldRef, put_field};
use amqp_values::Range;
use octet_reading::{NoMemory, put};
use std::alloc::Global;
use trace_words::{rest, word};
use uuid::Uuid;

/// Puts the ends of a range.
fn push_range(alloc: Global, text: &mut Vec<u8>, range: Range) -> Result<(), NoMemory>
    ensures { OnOk result (text.new.items ≡ text.old.items ++ range_text range) }
{
    push_number(alloc, text, u64::from(range.lower))?;
    put(text, b"-")?;
    push_number(alloc, text, u64::from(range.upper))
}

/// Puts further ranges, each behind a comma.
fn push_more(alloc: Global, text: &mut Vec<u8>, ranges: &[Range]) -> Result<(), NoMemory>
    ensures { OnOk result (text.new.items ≡ text.old.items ++ flat_map (λ r. codes "," ++ range_text r) ranges.now) }
{
    for range in ranges {
        push_next(alloc, text, *range)?;
    }
    Ok(())
}

/// Puts a range behind a comma.
fn push_next(alloc: Global, text: &mut Vec<u8>, range: Range) -> Result<(), NoMemory>
    ensures { OnOk result (text.new.items ≡ text.old.items ++ (codes "," ++ range_text range)) }
{
    put(text, b",")?;
    push_range(alloc, text, range)
}

/// Puts ranges.
fn push_ranges(alloc: Global, text: &mut Vec<u8>, ranges: &[Range]) -> Result<(), NoMemory>
    ensures { OnOk result (text.new.items ≡ text.old.items ++ ranges_text ranges.now) }
{
    match ranges.split_first() {
        None => put(text, b"-"),
        Some((range, more)) => {
            push_range(alloc, text, *range)?;
            push_more(alloc, text, more)
        }
    }
}

/// Puts 16 octets as a uuid.
fn push_uuid(text: &mut Vec<u8>, octets: &[u8]) -> Result<(), NoMemory>
    requires { length octets.now ≡ 16 }
    ensures { OnOk result (text.new.items ≡ text.old.items ++ hyphenated_text lower octets.now) }
{
    let Ok(uuid) = Uuid::from_slice(octets) else {
        unreachable!()
    };
    let mut buffer = Uuid::encode_buffer();
    let digits = uuid.hyphenated().encode_lower(&mut buffer);
    put(text, digits.as_bytes())
}

/// Puts the packed octets of a field in hex.
fn push_packed(alloc: Global, text: &mut Vec<u8>, field: FieldRef<'_>) -> Result<(), NoMemory>
    requires { lent_fine field ≡ true }
    ensures { OnOk result (text.new.items ≡ text.old.items ++ encode_lower (field_octets (lent field.entry))) }
{
    let mut octets = Vec::new(alloc);
    put_field(&mut octets, field)?;
    push_hex(alloc, text, octets.as_slice())
}

/// Puts the value of a field that has a spelling.
fn push_value(alloc: Global, text: &mut Vec<u8>, field: FieldRef<'_>) -> Result<(), NoMemory>
    requires { lent_fine field ≡ true }
    ensures { OnOk result (text.new.items ≡ text.old.items ++ value_text (lent field.entry)) }
{
    match field {
        FieldRef::Absent | FieldRef::Bit => Ok(()),
        FieldRef::U8(it) => push_number(alloc, text, u64::from(it)),
        FieldRef::U16(it) => push_number(alloc, text, u64::from(it)),
        FieldRef::U32(it) => push_number(alloc, text, u64::from(it)),
        FieldRef::U64(it) | FieldRef::Datetime(it) => push_number(alloc, text, it),
        FieldRef::Str8(it) | FieldRef::Str16(it) => push_shown(alloc, text, it.as_slice()),
        FieldRef::Vbin8(it) | FieldRef::Vbin16(it) | FieldRef::Vbin32(it) => push_shown(
            alloc,
            text,
            it.as_slice(),
        ),
        FieldRef::Uuid(it) => push_uuid(text, it.as_slice()),
        FieldRef::Ranges(it) => push_ranges(alloc, text, it.as_slice()),
        FieldRef::Map(_)
        | FieldRef::Array(_)
        | FieldRef::Struct32(_)
        | FieldRef::Xid(_)
        | FieldRef::ReplyTo(_) => push_packed(alloc, text, field),
    }
}

/// Whether a field is there.
fn is_there(field: FieldRef<'_>) -> bool
    ensures { result ≡ is_there (lent field.entry) }
{
    !matches!(field, FieldRef::Absent)
}

/// Whether a field is a bit that is set.
fn is_bit(field: FieldRef<'_>) -> bool
    ensures { result ≡ is_bit (lent field.entry) }
{
    matches!(field, FieldRef::Bit)
}

/// Puts a field that is there behind its name.
fn push_field(
    alloc: Global,
    text: &mut Vec<u8>,
    name: &[u8],
    field: FieldRef<'_>,
) -> Result<(), NoMemory>
    requires { lent_fine field ≡ true }
    ensures { OnOk result (text.new.items ≡ text.old.items ++ field_text name.now (lent field.entry)) }
{
    if is_bit(field) {
        return put(text, name);
    }
    put(text, name)?;
    put(text, b"=")?;
    push_value(alloc, text, field)
}

/// What follows the first word.
pub(crate) fn later(words: &[u8]) -> &[u8]
    ensures { result.now ≡ later (rest_of words.now) }
{
    match rest(words) {
        Some(words) => words,
        None => &[],
    }
}

/// Puts a blank, if one leads.
fn push_lead(text: &mut Vec<u8>, blank: bool) -> Result<(), NoMemory>
    ensures { OnOk result (text.new.items ≡ text.old.items ++ lead blank) }
{
    if blank { put(text, b" ") } else { Ok(()) }
}

/// Puts the fields that are there by their names; a blank stands before each, but for the first where
/// none leads.
pub(crate) fn push_fields(
    alloc: Global,
    text: &mut Vec<u8>,
    blank: bool,
    words: &[u8],
    fields: &[FieldRef<'_>],
) -> Result<(), NoMemory>
    requires { list_all is_fine (map lent fields.now) ≡ true }
    ensures { OnOk result (text.new.items ≡ text.old.items ++ fields_text blank words.now (map lent fields.now)) }
{
    match fields.split_first() {
        None => Ok(()),
        Some((field, more)) => {
            if !is_there(*field) {
                return push_fields(alloc, text, blank, later(words), more);
            }
            push_lead(text, blank)?;
            push_field(alloc, text, word(words), *field)?;
            push_fields(alloc, text, true, later(words), more)
        }
    }
}
