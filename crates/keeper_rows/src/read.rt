//! What a row keeps.
ghost use Rattle.std.specs.Prelude.{◌≡◌, [], length, true, Ok, Err, IfOk, Some, None, if◌then◌else◌};
ghost use Rattle.std.specs.Option.{option_copied};
ghost use Rattle.std.specs.Str.{is_utf8};
ghost use Rattle.octet_reading.specs.Reading.{Gives, Within};
ghost use Rattle.keeper_rows.specs.declared.kept.Kept.{Kept};
ghost use Rattle.keeper_rows.specs.Rows.{is_reserved, number_fine, has_format, IsRowOf};
ghost use Rattle.keeper_rows.specs.Form.{text_in, name_in, name_at, xid_at, part_in, parts_in, marked_in, copy_in, map_in, perhaps_in, arguments_in, branch_in, intent_of, intent_in, message_in, queue_in, exchange_of, exchange_in, binding_in, row_in, kept_in, Answers};

use crate::kept::{Kept, RowCopy, RowError};
use amqp_values::{Octets, Text, Value, Why, Xid, value_of};
use keeper_core::Row;
use octet_reading::{
    ReadError, SizeWidth, end_of, octets_of, refused, sized_of, text_of, u8_of, u32_of, u64_of,
};
use std::alloc::Global;
use std::str;

/// The code of a map.
const MAP: u8 = 0xa8;

/// The greatest number of a copy.
const GREATEST: u64 = 1 << 62;

/// What a row keeps, by its form: in format 2, or in format 1 where there was such a row. What the octets of a header
/// spell isn't looked at.
pub fn read_row(alloc: Global, row: &Row) -> Result<Kept, RowError>
    // What is kept, or that the row isn't of the form.
    ensures exact { Answers result (kept_in row.now.key row.now.content) }
    // It is a row of what was read.
    ensures found { IfOk result (λ kept. IsRowOf row.now kept) }
    // A row of something is read as that.
    ensures only { (kept : Kept) → IsRowOf row.now kept → Answers result (Ok kept) }
{
    read_parts(alloc, row.key.as_slice(), row.content.as_slice())
}

/// The same of a key and a content.
fn read_parts(alloc: Global, key: &[u8], content: &[u8]) -> Result<Kept, RowError>
    ensures exact { Answers result (kept_in key.now content.now) }
    ensures found { IfOk result (λ kept. IsRowOf (record { key = key.now; content = content.now }) kept) }
{
    match kept_of(alloc, key, content) {
        Ok(kept) => Ok(kept),
        Err(ReadError::Memory) => Err(RowError::NoMemory),
        Err(ReadError::Flaw(_)) => Err(RowError::BadRow),
    }
}

#[tactic(auto, unfolding(crate::specs::Form::kept_in))]
fn kept_of(alloc: Global, key: &[u8], content: &[u8]) -> Result<Kept, ReadError>
    ensures { Gives (λ x. x) result (kept_in key.now content.now) }
{
    let (letter, name) = u8_of(key)?;
    let (format, rest) = u8_of(content)?;
    if !is_format(letter, format) {
        return Err(refused(Why::BadStruct, content));
    }
    row_of(alloc, letter, name, rest)
}

/// Whether a row with this letter may have this format.
fn is_format(letter: u8, format: u8) -> bool
    ensures { result ≡ has_format letter format }
{
    format == 2
        || (format == 1
            && ((letter == b'B' || letter == b'I') || (letter == b'M' || letter == b'Q')))
}

/// A row, by the letter of its key.
fn row_of(alloc: Global, letter: u8, key: &[u8], content: &[u8]) -> Result<Kept, ReadError>
    ensures { Gives (λ x. x) result (row_in letter key.now content.now) }
{
    match letter {
        b'B' => branch_of(alloc, key, content),
        b'I' => intent_of(alloc, key, content),
        b'M' => message_of(alloc, key, content),
        b'Q' => queue_of(alloc, key, content),
        b'E' => exchange_of(alloc, key, content),
        b'R' => binding_of(alloc, key, content),
        _ => Err(refused(Why::UnknownCode, key)),
    }
}

#[tactic(auto, unfolding(crate::specs::Form::branch_in))]
fn branch_of(alloc: Global, key: &[u8], content: &[u8]) -> Result<Kept, ReadError>
    ensures { Gives (λ x. x) result (branch_in key.now content.now) }
{
    let (xid, rest) = xid_of(alloc, key)?;
    end_of(rest)?;
    let (count, rest) = u32_of(content)?;
    end_of(rest)?;
    Ok(Kept::Branch { xid, count })
}

#[tactic(auto, unfolding(crate::specs::Form::intent_in))]
fn intent_of(alloc: Global, key: &[u8], content: &[u8]) -> Result<Kept, ReadError>
    ensures { Gives (λ x. x) result (intent_in key.now content.now) }
{
    let (xid, rest) = xid_of(alloc, key)?;
    let (index, rest) = u32_of(rest)?;
    end_of(rest)?;
    let (kind, rest) = u8_of(content)?;
    if kind >= 2 {
        return Err(refused(Why::BadBoolean, content));
    }
    intent_by(alloc, xid, index, kind == 1, rest)
}

/// What stands behind the kind of an intent.
#[tactic(auto, unfolding(crate::specs::Form::intent_of))]
fn intent_by(
    alloc: Global,
    xid: Xid,
    index: u32,
    accept: bool,
    content: &[u8],
) -> Result<Kept, ReadError>
    ensures { Gives (λ x. x) result (intent_of xid index accept content.now) }
{
    let (queue, rest) = name_of(alloc, content)?;
    let (number, after) = u64_of(rest)?;
    if !is_number(accept, number) {
        return Err(refused(Why::BadStruct, rest));
    }
    let copy = copy_of(alloc, after)?;
    Ok(Kept::Intent {
        xid,
        index,
        accept,
        queue,
        number,
        copy,
    })
}

/// Whether a number may stand there: for a copy from 1 on, else 0.
fn is_number(has_copy: bool, number: u64) -> bool
    ensures { result ≡ number_fine has_copy number }
{
    if has_copy {
        0 < number && number <= GREATEST
    } else {
        number == 0
    }
}

#[tactic(auto, unfolding(crate::specs::Form::message_in))]
fn message_of(alloc: Global, key: &[u8], content: &[u8]) -> Result<Kept, ReadError>
    ensures { Gives (λ x. x) result (message_in key.now content.now) }
{
    let (queue, rest) = name_of(alloc, key)?;
    let (number, after) = u64_of(rest)?;
    end_of(after)?;
    if !is_number(true, number) {
        return Err(refused(Why::BadStruct, rest));
    }
    let copy = copy_of(alloc, content)?;
    Ok(Kept::Message {
        queue,
        number,
        copy,
    })
}

#[tactic(auto, unfolding(crate::specs::Form::queue_in))]
fn queue_of(alloc: Global, key: &[u8], content: &[u8]) -> Result<Kept, ReadError>
    ensures { Gives (λ x. x) result (queue_in key.now content.now) }
{
    let name = whole_name(alloc, key)?;
    let (alternate, rest) = text_of(alloc, SizeWidth::One, content)?;
    let arguments = arguments_of(alloc, rest)?;
    Ok(Kept::Queue {
        name,
        alternate,
        arguments,
    })
}

#[tactic(auto, unfolding(crate::specs::Form::exchange_in))]
fn exchange_of(alloc: Global, key: &[u8], content: &[u8]) -> Result<Kept, ReadError>
    ensures { Gives (λ x. x) result (exchange_in key.now content.now) }
{
    let name = whole_name(alloc, key)?;
    if is_reserved(key) {
        return Err(refused(Why::BadStruct, key));
    }
    let (kind, rest) = u8_of(content)?;
    if kind >= 4 {
        return Err(refused(Why::BadStruct, content));
    }
    exchange_by(alloc, name, kind, rest)
}

/// What stands behind the kind of an exchange.
#[tactic(auto, unfolding(crate::specs::Form::exchange_of))]
fn exchange_by(alloc: Global, name: Text, kind: u8, content: &[u8]) -> Result<Kept, ReadError>
    ensures { Gives (λ x. x) result (exchange_of name kind content.now) }
{
    let (alternate, rest) = text_of(alloc, SizeWidth::One, content)?;
    let arguments = arguments_of(alloc, rest)?;
    Ok(Kept::Exchange {
        name,
        kind,
        alternate,
        arguments,
    })
}

/// Whether a name begins with `amq.`.
fn is_reserved(name: &[u8]) -> bool
    ensures { result ≡ is_reserved name.now }
{
    name.starts_with(b"amq.")
}

#[tactic(auto, unfolding(crate::specs::Form::binding_in))]
fn binding_of(alloc: Global, key: &[u8], content: &[u8]) -> Result<Kept, ReadError>
    ensures { Gives (λ x. x) result (binding_in key.now content.now) }
{
    let (exchange, rest) = name_of(alloc, key)?;
    let (queue, rest) = name_of(alloc, rest)?;
    let key = whole_text(alloc, rest)?;
    let arguments = arguments_of(alloc, content)?;
    Ok(Kept::Binding {
        exchange,
        queue,
        key,
        arguments,
    })
}

/// A text that is all there is.
#[tactic(auto, unfolding(crate::specs::Form::text_in))]
fn whole_text(alloc: Global, octets: &[u8]) -> Result<Text, ReadError>
    ensures { Gives (λ x. x) result (text_in octets.now) }
{
    if octets.len() >= 256 {
        return Err(refused(Why::SizeDiffers, octets));
    }
    let Some(text) = as_text(octets) else {
        return Err(refused(Why::BadText, octets));
    };
    Ok(Text::from_text(alloc, text)?)
}

/// The octets as a text, where they are one.
fn as_text(octets: &[u8]) -> Option<&str>
    ensures { option_copied result ≡ (if is_utf8 octets.now then Some octets.now else None) }
{
    match str::from_utf8(octets) {
        Ok(text) => Some(text),
        Err(_) => None,
    }
}

/// A name that is all there is.
#[tactic(auto, unfolding(crate::specs::Form::name_in))]
fn whole_name(alloc: Global, octets: &[u8]) -> Result<Text, ReadError>
    ensures { Gives (λ x. x) result (name_in octets.now) }
{
    if octets.is_empty() {
        return Err(refused(Why::Short, octets));
    }
    whole_text(alloc, octets)
}

/// A name behind its size, and what follows it.
#[tactic(auto, unfolding(crate::specs::Form::name_at))]
fn name_of(alloc: Global, octets: &[u8]) -> Result<(Text, &[u8]), ReadError>
    ensures { Gives (λ x. (x.0, x.1.now)) result (name_at octets.now) }
{
    let (name, rest) = text_of(alloc, SizeWidth::One, octets)?;
    if name.as_slice().is_empty() {
        return Err(refused(Why::Short, octets));
    }
    Ok((name, rest))
}

/// An xid, and what follows it.
#[tactic(auto, unfolding(crate::specs::Form::xid_at))]
fn xid_of(alloc: Global, octets: &[u8]) -> Result<(Xid, &[u8]), ReadError>
    ensures { Gives (λ x. (x.0, x.1.now)) result (xid_at octets.now) }
{
    let (format, rest) = u32_of(octets)?;
    let (global, rest) = octets_of(alloc, SizeWidth::One, rest)?;
    let (branch, rest) = octets_of(alloc, SizeWidth::One, rest)?;
    Ok((
        Xid {
            format,
            global,
            branch,
        },
        rest,
    ))
}

/// A copy that is all there is.
#[tactic(auto, unfolding(crate::specs::Form::copy_in))]
fn copy_of(alloc: Global, octets: &[u8]) -> Result<RowCopy, ReadError>
    ensures { Gives (λ x. x) result (copy_in octets.now) }
{
    let (marks, rest) = u8_of(octets)?;
    if marks >= 4 {
        return Err(refused(Why::BadStruct, octets));
    }
    marked_of(alloc, marks, rest)
}

/// What stands behind the marks of a copy.
#[tactic(auto, unfolding(crate::specs::Form::marked_in))]
fn marked_of(alloc: Global, marks: u8, octets: &[u8]) -> Result<RowCopy, ReadError>
    ensures { Gives (λ x. x) result (marked_in marks octets.now) }
{
    let (exchange, rest) = text_of(alloc, SizeWidth::One, octets)?;
    let (header, rest) = sized_of(SizeWidth::Four, rest)?;
    let (body, rest) = sized_of(SizeWidth::Four, rest)?;
    end_of(rest)?;
    parts_of(alloc, marks, exchange, header, body)
}

/// A copy of its parts.
#[tactic(auto, unfolding(crate::specs::Form::parts_in))]
fn parts_of(
    alloc: Global,
    marks: u8,
    exchange: Text,
    header: &[u8],
    body: &[u8],
) -> Result<RowCopy, ReadError>
    ensures { Gives (λ x. x) result (parts_in marks exchange header.now body.now) }
{
    let header = part_of(alloc, marks == 1 || marks == 3, header)?;
    let body = part_of(alloc, marks == 2 || marks == 3, body)?;
    Ok(RowCopy {
        exchange,
        header,
        body,
    })
}

/// A part, where it is there.
#[tactic(auto, unfolding(crate::specs::Form::part_in))]
fn part_of(alloc: Global, there: bool, octets: &[u8]) -> Result<Option<Octets>, ReadError>
    ensures { Gives (λ x. x) result (part_in there octets.now) }
{
    if there {
        Ok(Some(Octets::from_slice(alloc, octets)?))
    } else if octets.is_empty() {
        Ok(None)
    } else {
        Err(refused(Why::SizeDiffers, octets))
    }
}

/// Arguments that are all there is.
#[tactic(auto, unfolding(crate::specs::Form::arguments_in))]
fn arguments_of(alloc: Global, octets: &[u8]) -> Result<Option<Value>, ReadError>
    ensures { Gives (λ x. x) result (arguments_in octets.now) }
{
    let (part, rest) = sized_of(SizeWidth::Four, octets)?;
    end_of(rest)?;
    perhaps_of(alloc, part)
}

/// A map; no octets are none.
#[tactic(auto, unfolding(crate::specs::Form::perhaps_in))]
fn perhaps_of(alloc: Global, octets: &[u8]) -> Result<Option<Value>, ReadError>
    ensures { Gives (λ x. x) result (perhaps_in octets.now) }
{
    if octets.is_empty() {
        return Ok(None);
    }
    let value = map_of(alloc, octets)?;
    Ok(Some(value))
}

/// A map that is all there is.
#[tactic(auto, unfolding(crate::specs::Form::map_in))]
fn map_of(alloc: Global, octets: &[u8]) -> Result<Value, ReadError>
    ensures { Gives (λ x. x) result (map_in octets.now) }
{
    let (value, rest) = value_of(alloc, 16, MAP, octets)?;
    if !rest.is_empty() {
        drop(value);
        return Err(refused(Why::SizeDiffers, rest));
    }
    Ok(value)
}
