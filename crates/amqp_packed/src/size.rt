//! How many octets fields have.
ghost use Rattle.std.specs.Prelude.{◌≡◌, ◌+◌, ◌*◌, length, flat_map, map};
ghost use Rattle.amqp_values.specs.Spelling.{counted_upto};
ghost use Rattle.amqp_packed.specs.Spelling.{xid_content, reply_content, field_octets, packed};
ghost use Rattle.amqp_packed.specs.Lent.{lent};

use crate::lent::FieldRef;
use amqp_values::{ReplyTo, Xid, size_of};

/// The octets of fields and their flags, as they are written; at most the greatest u64. Takes no memory.
pub fn size_of_fields(fields: &[FieldRef<'_>]) -> u64
    ensures { result ≡ counted_upto (length (packed (map lent fields.now))) }
{
    size_of_each(fields).saturating_add(2)
}

/// The octets of each field, together.
fn size_of_each(fields: &[FieldRef<'_>]) -> u64
    ensures { result ≡ counted_upto (length (flat_map field_octets (map lent fields.now))) }
{
    let mut size: u64 = 0;
    for field in fields {
        size = size.saturating_add(size_of_field(*field));
    }
    size
}

/// The octets of a field.
#[tactic(auto, using(crate::proofs::Sizes::ranges_length))]
fn size_of_field(field: FieldRef<'_>) -> u64
    ensures { result ≡ counted_upto (length (field_octets (lent field.entry))) }
{
    match field {
        FieldRef::Absent | FieldRef::Bit => 0,
        FieldRef::U8(_) => 1,
        FieldRef::U16(_) => 2,
        FieldRef::U32(_) => 4,
        FieldRef::U64(_) | FieldRef::Datetime(_) => 8,
        FieldRef::Str8(it) => behind(1, it.as_slice().len()),
        FieldRef::Str16(it) => behind(2, it.as_slice().len()),
        FieldRef::Vbin8(it) => behind(1, it.len()),
        FieldRef::Vbin16(it) => behind(2, it.len()),
        FieldRef::Vbin32(it) | FieldRef::Struct32(it) => behind(4, it.len()),
        FieldRef::Uuid(it) => it.len() as u64,
        FieldRef::Map(it) | FieldRef::Array(it) => size_of(it),
        FieldRef::Ranges(it) => ranges_size(it.as_slice().len()),
        FieldRef::Xid(it) => xid_size(it).saturating_add(4),
        FieldRef::ReplyTo(it) => reply_size(it).saturating_add(2),
    }
}

/// So many octets behind their size.
fn behind(width: u64, size: usize) -> u64
    ensures { result ≡ counted_upto (width + size) }
{
    width.saturating_add(size as u64)
}

/// So many pairs of serials behind the count of their octets.
fn ranges_size(pairs: usize) -> u64
    ensures { result ≡ counted_upto (2 + 8 * pairs) }
{
    (pairs as u64).saturating_mul(8).saturating_add(2)
}

/// What an xid has behind its size.
#[tactic(auto, using(crate::proofs::Sizes::xid_length))]
fn xid_size(xid: &Xid) -> u64
    ensures { result ≡ counted_upto (length (xid_content xid.now)) }
{
    behind(10, xid.global.len()).saturating_add(xid.branch.len() as u64)
}

/// What a reply-to has behind its size.
fn reply_size(reply: &ReplyTo) -> u64
    ensures { result ≡ counted_upto (length (reply_content reply.now)) }
{
    behind(4, reply.exchange.as_slice().len()).saturating_add(
        reply.routing_key.as_slice().len() as u64,
    )
}
