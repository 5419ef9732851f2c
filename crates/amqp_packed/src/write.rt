//! Octets out of fields.
ghost use Rattle.std.specs.Prelude.{◌≡◌, ◌++◌, ◌≤◌, ◌<◌, ◌^◌, true, length, flat_map, map, IfOk, OnOk, OnErr};
ghost use Rattle.octet_reading.specs.declared.part.SizeWidth.TheVariants.{Two, Four};
ghost use Rattle.octet_reading.specs.Spelling.{fits};
ghost use Rattle.std.specs.List.{list_all};
ghost use Rattle.amqp_packed.specs.declared.field.Field.TheVariants as TheField;
ghost use Rattle.amqp_packed.specs.Spelling.{range_octets, ranges_octets, xid_content, field_octets, is_there, flags_of, flag_octets, packed, is_fine, AreOf};
ghost use Rattle.amqp_packed.specs.Lent.{lent, lent_fine};

use crate::field::{Field, FieldKind, Fields};
use crate::lent::FieldRef;
use amqp_values::{NoMemory, Range, ReplyTo, Xid, put_value};
use octet_reading::{SizeWidth, put, put_size, put_sized};
use std::alloc::Global;

/// Appends the octets of fields that fit a table of 16 kinds at most and have a spelling.
///
/// Xids and reply-tos are written with all their fields. Without memory nothing is appended.
#[tactic(auto, using(crate::proofs::Sizes::fields_fit))]
pub fn write_fields(
    alloc: Global,
    _table: &[FieldKind],
    fields: &Fields,
    out: &mut Vec<u8>,
) -> Result<(), NoMemory>
    requires { (length _table.now ≤ 16) × AreOf _table.now fields.now }
    ensures ok { OnOk result (out.new.items ≡ out.old.items ++ packed fields.now) }
    ensures err { OnErr result (out.new.items ≡ out.old.items) }
{
    let lent = lent_of(alloc, fields.as_slice())?;
    let mut octets = Vec::new(alloc);
    put_fields(&mut octets, lent.as_slice())?;
    out.extend_from_slice(octets.as_slice())?;
    Ok(())
}

/// Lends each field.
fn lent_of(alloc: Global, fields: &[Field]) -> Result<Vec<FieldRef<'_>>, NoMemory>
    ensures { IfOk result (λ refs. map lent refs.items ≡ fields.now) }
{
    let mut refs = Vec::new(alloc);
    for field in fields {
        refs.push(FieldRef::of_field(field))?;
    }
    Ok(refs)
}

/// Puts the flags of at most 16 fields that have spellings, and those that are present. Without memory a part
/// of them may stand there.
#[tactic(auto, using(crate::proofs::Lending::fine_lent))]
pub fn put_fields(out: &mut Vec<u8>, fields: &[FieldRef<'_>]) -> Result<(), NoMemory>
    requires few { length (map lent fields.now) ≤ 16 }
    requires fine { list_all is_fine (map lent fields.now) ≡ true }
    ensures { OnOk result (out.new.items ≡ out.old.items ++ packed (map lent fields.now)) }
{
    put_flags(out, flags_of(fields))?;
    put_each(out, fields)
}

/// Puts flags in two octets.
fn put_flags(out: &mut Vec<u8>, flags: u16) -> Result<(), NoMemory>
    ensures { OnOk result (out.new.items ≡ out.old.items ++ flag_octets flags) }
{
    out.push((flags % 256) as u8)?;
    out.push((flags / 256) as u8)?;
    Ok(())
}

/// Puts what stands for each field.
fn put_each(out: &mut Vec<u8>, fields: &[FieldRef<'_>]) -> Result<(), NoMemory>
    requires { list_all lent_fine fields.now ≡ true }
    ensures { OnOk result (out.new.items ≡ out.old.items ++ flat_map field_octets (map lent fields.now)) }
{
    for field in fields {
        put_field(out, *field)?;
    }
    Ok(())
}

/// Whether a field is there.
fn is_present(field: FieldRef<'_>) -> bool
    ensures { result ≡ is_there (lent field.entry) }
{
    !matches!(field, FieldRef::Absent)
}

/// The flags of fields, that of the first the lowest bit.
#[tactic(auto, unfolding(crate::specs::Spelling::bits))]
fn flags_of(fields: &[FieldRef<'_>]) -> u16
    requires { length (map lent fields.now) ≤ 16 }
    ensures flags { result ≡ flags_of (map lent fields.now) }
    ensures below { result < 2 ^ length (map lent fields.now) }
{
    match fields.split_first() {
        None => 0,
        Some((field, rest)) => u16::from(is_present(*field)) + 2 * flags_of(rest),
    }
}

/// Puts the octets of a field that has a spelling; none of an absent one, nor of a bit, whose flag is its value.
/// Without memory a part of them may stand there.
pub fn put_field(out: &mut Vec<u8>, field: FieldRef<'_>) -> Result<(), NoMemory>
    requires { lent_fine field ≡ true }
    ensures { OnOk result (out.new.items ≡ out.old.items ++ field_octets (lent field.entry)) }
{
    match field {
        FieldRef::Absent | FieldRef::Bit => Ok(()),
        FieldRef::U8(it) => put(out, it.to_be_bytes().as_slice()),
        FieldRef::U16(it) => put(out, it.to_be_bytes().as_slice()),
        FieldRef::U32(it) => put(out, it.to_be_bytes().as_slice()),
        FieldRef::U64(it) | FieldRef::Datetime(it) => put(out, it.to_be_bytes().as_slice()),
        FieldRef::Str8(it) => put_sized(out, SizeWidth::One, it.as_slice()),
        FieldRef::Str16(it) => put_sized(out, SizeWidth::Two, it.as_slice()),
        FieldRef::Vbin8(it) => put_sized(out, SizeWidth::One, it.as_slice()),
        FieldRef::Vbin16(it) => put_sized(out, SizeWidth::Two, it.as_slice()),
        FieldRef::Vbin32(it) | FieldRef::Struct32(it) => put_sized(
            out,
            SizeWidth::Four,
            it.as_slice(),
        ),
        FieldRef::Uuid(it) => put(out, it.as_slice()),
        FieldRef::Map(it) | FieldRef::Array(it) => put_value(out, it),
        FieldRef::Ranges(it) => put_ranges(out, it.as_slice()),
        FieldRef::Xid(it) => put_xid(out, it),
        FieldRef::ReplyTo(it) => put_reply(out, it),
    }
}

/// How many octets pairs have.
#[tactic(auto, using(crate::proofs::Sizes::ranges_length))]
fn ranges_size(ranges: &[Range]) -> usize
    requires { length ranges.now < 8192 }
    ensures size { result ≡ length (flat_map range_octets ranges.now) }
    ensures fits { fits Two result ≡ true }
{
    8 * ranges.len()
}

/// Puts pairs behind the count of their octets.
fn put_ranges(out: &mut Vec<u8>, ranges: &[Range]) -> Result<(), NoMemory>
    requires { length ranges.now < 8192 }
    ensures { OnOk result (out.new.items ≡ out.old.items ++ ranges_octets ranges.now) }
{
    put_size(out, SizeWidth::Two, ranges_size(ranges))?;
    for range in ranges {
        out.extend_from_slice(range.lower.to_be_bytes().as_slice())?;
        out.extend_from_slice(range.upper.to_be_bytes().as_slice())?;
    }
    Ok(())
}

/// How many octets an xid has behind its size.
#[tactic(auto, using(crate::proofs::Sizes::xid_length))]
fn xid_size(xid: &Xid) -> usize
    requires { is_fine (TheField.Xid xid.now) ≡ true }
    ensures size { result ≡ length (xid_content xid.now) }
    ensures fits { fits Four result ≡ true }
{
    10 + xid.global.len() + xid.branch.len()
}

/// Puts the class and code of an xid, and all its fields.
#[tactic(auto, unfolding(crate::specs::Spelling::xid_content))]
fn put_xid_content(out: &mut Vec<u8>, xid: &Xid) -> Result<(), NoMemory>
    requires { is_fine (TheField.Xid xid.now) ≡ true }
    ensures { OnOk result (out.new.items ≡ out.old.items ++ xid_content xid.now) }
{
    out.extend_from_slice([6, 4, 7, 0].as_slice())?;
    out.extend_from_slice(xid.format.to_be_bytes().as_slice())?;
    put_sized(out, SizeWidth::One, xid.global.as_slice())?;
    put_sized(out, SizeWidth::One, xid.branch.as_slice())
}

/// Puts an xid behind its size.
fn put_xid(out: &mut Vec<u8>, xid: &Xid) -> Result<(), NoMemory>
    requires { is_fine (TheField.Xid xid.now) ≡ true }
    ensures { OnOk result (out.new.items ≡ out.old.items ++ field_octets (TheField.Xid xid.now)) }
{
    put_size(out, SizeWidth::Four, xid_size(xid))?;
    put_xid_content(out, xid)
}

/// Puts a reply-to behind its size, with all its fields.
fn put_reply(out: &mut Vec<u8>, reply: &ReplyTo) -> Result<(), NoMemory>
    requires { is_fine (TheField.ReplyTo reply.now) ≡ true }
    ensures { OnOk result (out.new.items ≡ out.old.items ++ field_octets (TheField.ReplyTo reply.now)) }
{
    put_size(
        out,
        SizeWidth::Two,
        4 + reply.exchange.as_slice().len() + reply.routing_key.as_slice().len(),
    )?;
    out.extend_from_slice([3, 0].as_slice())?;
    put_sized(out, SizeWidth::One, reply.exchange.as_slice())?;
    put_sized(out, SizeWidth::One, reply.routing_key.as_slice())
}
