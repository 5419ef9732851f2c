//! Fields taken out of their list one after the other, as what a command has.
ghost use Rattle.std.specs.Prelude.{◌≡◌};
ghost use Rattle.amqp_packed.specs.Typed.{first, others, as_bit, as_u8, as_u16, as_u32, as_u64, as_str8, as_str16, as_vbin8, as_vbin16, as_vbin32, as_uuid, as_datetime, as_map, as_array, as_ranges, as_struct32, as_xid, as_reply_to};

use crate::field::{Field, Fields};
use amqp_values::{Octets, Ranges, ReplyTo, Text, Value, Xid};

/// Lets fields go. A crate that lets them go itself needs a proof of its own for all their parts.
pub fn discard_fields(fields: Fields) {
    drop(fields);
}

/// The first field; past the end every field is absent.
fn take_first(fields: &mut Fields) -> Field
    ensures value { result ≡ first fields.old }
    ensures others { fields.new ≡ others fields.old }
{
    if fields.is_empty() {
        Field::Absent
    } else {
        fields.remove(0)
    }
}

/// Takes a bit: whether it is set.
pub fn take_bit(fields: &mut Fields) -> bool
    ensures value { result ≡ as_bit (first fields.old) }
    ensures others { fields.new ≡ others fields.old }
{
    match take_first(fields) {
        Field::Bit => true,
        other => {
            drop(other);
            false
        }
    }
}

/// Takes a field of the kind u8; none where it is absent.
pub fn take_u8(fields: &mut Fields) -> Option<u8>
    ensures value { result ≡ as_u8 (first fields.old) }
    ensures others { fields.new ≡ others fields.old }
{
    match take_first(fields) {
        Field::U8(it) => Some(it),
        other => {
            drop(other);
            None
        }
    }
}

/// Takes a field of the kind u16; none where it is absent.
pub fn take_u16(fields: &mut Fields) -> Option<u16>
    ensures value { result ≡ as_u16 (first fields.old) }
    ensures others { fields.new ≡ others fields.old }
{
    match take_first(fields) {
        Field::U16(it) => Some(it),
        other => {
            drop(other);
            None
        }
    }
}

/// Takes a field of the kind u32; none where it is absent.
pub fn take_u32(fields: &mut Fields) -> Option<u32>
    ensures value { result ≡ as_u32 (first fields.old) }
    ensures others { fields.new ≡ others fields.old }
{
    match take_first(fields) {
        Field::U32(it) => Some(it),
        other => {
            drop(other);
            None
        }
    }
}

/// Takes a field of the kind u64; none where it is absent.
pub fn take_u64(fields: &mut Fields) -> Option<u64>
    ensures value { result ≡ as_u64 (first fields.old) }
    ensures others { fields.new ≡ others fields.old }
{
    match take_first(fields) {
        Field::U64(it) => Some(it),
        other => {
            drop(other);
            None
        }
    }
}

/// Takes a field of the kind str8; none where it is absent.
pub fn take_str8(fields: &mut Fields) -> Option<Text>
    ensures value { result ≡ as_str8 (first fields.old) }
    ensures others { fields.new ≡ others fields.old }
{
    match take_first(fields) {
        Field::Str8(it) => Some(it),
        other => {
            drop(other);
            None
        }
    }
}

/// Takes a field of the kind str16; none where it is absent.
pub fn take_str16(fields: &mut Fields) -> Option<Text>
    ensures value { result ≡ as_str16 (first fields.old) }
    ensures others { fields.new ≡ others fields.old }
{
    match take_first(fields) {
        Field::Str16(it) => Some(it),
        other => {
            drop(other);
            None
        }
    }
}

/// Takes a field of the kind vbin8; none where it is absent.
pub fn take_vbin8(fields: &mut Fields) -> Option<Octets>
    ensures value { result ≡ as_vbin8 (first fields.old) }
    ensures others { fields.new ≡ others fields.old }
{
    match take_first(fields) {
        Field::Vbin8(it) => Some(it),
        other => {
            drop(other);
            None
        }
    }
}

/// Takes a field of the kind vbin16; none where it is absent.
pub fn take_vbin16(fields: &mut Fields) -> Option<Octets>
    ensures value { result ≡ as_vbin16 (first fields.old) }
    ensures others { fields.new ≡ others fields.old }
{
    match take_first(fields) {
        Field::Vbin16(it) => Some(it),
        other => {
            drop(other);
            None
        }
    }
}

/// Takes a field of the kind vbin32; none where it is absent.
pub fn take_vbin32(fields: &mut Fields) -> Option<Octets>
    ensures value { result ≡ as_vbin32 (first fields.old) }
    ensures others { fields.new ≡ others fields.old }
{
    match take_first(fields) {
        Field::Vbin32(it) => Some(it),
        other => {
            drop(other);
            None
        }
    }
}

/// Takes a field of the kind uuid; none where it is absent.
pub fn take_uuid(fields: &mut Fields) -> Option<Octets>
    ensures value { result ≡ as_uuid (first fields.old) }
    ensures others { fields.new ≡ others fields.old }
{
    match take_first(fields) {
        Field::Uuid(it) => Some(it),
        other => {
            drop(other);
            None
        }
    }
}

/// Takes a field of the kind datetime; none where it is absent.
pub fn take_datetime(fields: &mut Fields) -> Option<u64>
    ensures value { result ≡ as_datetime (first fields.old) }
    ensures others { fields.new ≡ others fields.old }
{
    match take_first(fields) {
        Field::Datetime(it) => Some(it),
        other => {
            drop(other);
            None
        }
    }
}

/// Takes a field of the kind map; none where it is absent.
pub fn take_map(fields: &mut Fields) -> Option<Value>
    ensures value { result ≡ as_map (first fields.old) }
    ensures others { fields.new ≡ others fields.old }
{
    match take_first(fields) {
        Field::Map(it) => Some(it),
        other => {
            drop(other);
            None
        }
    }
}

/// Takes a field of the kind array; none where it is absent.
pub fn take_array(fields: &mut Fields) -> Option<Value>
    ensures value { result ≡ as_array (first fields.old) }
    ensures others { fields.new ≡ others fields.old }
{
    match take_first(fields) {
        Field::Array(it) => Some(it),
        other => {
            drop(other);
            None
        }
    }
}

/// Takes a field of the kind ranges; none where it is absent.
pub fn take_ranges(fields: &mut Fields) -> Option<Ranges>
    ensures value { result ≡ as_ranges (first fields.old) }
    ensures others { fields.new ≡ others fields.old }
{
    match take_first(fields) {
        Field::Ranges(it) => Some(it),
        other => {
            drop(other);
            None
        }
    }
}

/// Takes a field of the kind struct32; none where it is absent.
pub fn take_struct32(fields: &mut Fields) -> Option<Octets>
    ensures value { result ≡ as_struct32 (first fields.old) }
    ensures others { fields.new ≡ others fields.old }
{
    match take_first(fields) {
        Field::Struct32(it) => Some(it),
        other => {
            drop(other);
            None
        }
    }
}

/// Takes a field of the kind xid; none where it is absent.
pub fn take_xid(fields: &mut Fields) -> Option<Xid>
    ensures value { result ≡ as_xid (first fields.old) }
    ensures others { fields.new ≡ others fields.old }
{
    match take_first(fields) {
        Field::Xid(it) => Some(it),
        other => {
            drop(other);
            None
        }
    }
}

/// Takes a field of the kind reply-to; none where it is absent.
pub fn take_reply_to(fields: &mut Fields) -> Option<ReplyTo>
    ensures value { result ≡ as_reply_to (first fields.old) }
    ensures others { fields.new ≡ others fields.old }
{
    match take_first(fields) {
        Field::ReplyTo(it) => Some(it),
        other => {
            drop(other);
            None
        }
    }
}
