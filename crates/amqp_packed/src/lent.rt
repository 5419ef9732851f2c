//! Fields that are lent, to be written or measured and not copied.
ghost use Rattle.std.specs.Prelude.{◌≡◌};
ghost use Rattle.amqp_packed.specs.Typed.{of_bit, of_u8, of_u16, of_u32, of_u64, of_str8, of_str16, of_vbin8, of_vbin16, of_vbin32, of_uuid, of_datetime, of_map, of_array, of_ranges, of_struct32, of_xid, of_reply_to};
ghost use Rattle.amqp_packed.specs.Lent.{lent};

use crate::field::Field;
use amqp_values::{Octets, Ranges, ReplyTo, Text, Value, Xid};

/// A field of a struct, absent or of its kind.
#[derive(Clone, Copy)]
pub enum FieldRef<'a> {
    Absent,
    Bit,
    U8(u8),
    U16(u16),
    U32(u32),
    U64(u64),
    Str8(&'a Text),
    Str16(&'a Text),
    Vbin8(&'a Octets),
    Vbin16(&'a Octets),
    Vbin32(&'a Octets),
    Uuid(&'a Octets),
    Datetime(u64),
    Map(&'a Value),
    Array(&'a Value),
    Ranges(&'a Ranges),
    Struct32(&'a Octets),
    Xid(&'a Xid),
    ReplyTo(&'a ReplyTo),
}

// Each of these makes the field that a command or struct has: a bit that is set or not, another
// field that is there or absent.
impl<'a> FieldRef<'a> {
    pub fn of_bit(field: bool) -> FieldRef<'a>
        ensures { lent result ≡ of_bit field }
    {
        if field {
            FieldRef::Bit
        } else {
            FieldRef::Absent
        }
    }

    pub fn of_u8(field: &'a Option<u8>) -> FieldRef<'a>
        ensures { lent result ≡ of_u8 field.now }
    {
        match field {
            Some(it) => FieldRef::U8(*it),
            None => FieldRef::Absent,
        }
    }

    pub fn of_u16(field: &'a Option<u16>) -> FieldRef<'a>
        ensures { lent result ≡ of_u16 field.now }
    {
        match field {
            Some(it) => FieldRef::U16(*it),
            None => FieldRef::Absent,
        }
    }

    pub fn of_u32(field: &'a Option<u32>) -> FieldRef<'a>
        ensures { lent result ≡ of_u32 field.now }
    {
        match field {
            Some(it) => FieldRef::U32(*it),
            None => FieldRef::Absent,
        }
    }

    pub fn of_u64(field: &'a Option<u64>) -> FieldRef<'a>
        ensures { lent result ≡ of_u64 field.now }
    {
        match field {
            Some(it) => FieldRef::U64(*it),
            None => FieldRef::Absent,
        }
    }

    pub fn of_str8(field: &'a Option<Text>) -> FieldRef<'a>
        ensures { lent result ≡ of_str8 field.now }
    {
        match field {
            Some(it) => FieldRef::Str8(it),
            None => FieldRef::Absent,
        }
    }

    pub fn of_str16(field: &'a Option<Text>) -> FieldRef<'a>
        ensures { lent result ≡ of_str16 field.now }
    {
        match field {
            Some(it) => FieldRef::Str16(it),
            None => FieldRef::Absent,
        }
    }

    pub fn of_vbin8(field: &'a Option<Octets>) -> FieldRef<'a>
        ensures { lent result ≡ of_vbin8 field.now }
    {
        match field {
            Some(it) => FieldRef::Vbin8(it),
            None => FieldRef::Absent,
        }
    }

    pub fn of_vbin16(field: &'a Option<Octets>) -> FieldRef<'a>
        ensures { lent result ≡ of_vbin16 field.now }
    {
        match field {
            Some(it) => FieldRef::Vbin16(it),
            None => FieldRef::Absent,
        }
    }

    pub fn of_vbin32(field: &'a Option<Octets>) -> FieldRef<'a>
        ensures { lent result ≡ of_vbin32 field.now }
    {
        match field {
            Some(it) => FieldRef::Vbin32(it),
            None => FieldRef::Absent,
        }
    }

    pub fn of_uuid(field: &'a Option<Octets>) -> FieldRef<'a>
        ensures { lent result ≡ of_uuid field.now }
    {
        match field {
            Some(it) => FieldRef::Uuid(it),
            None => FieldRef::Absent,
        }
    }

    pub fn of_datetime(field: &'a Option<u64>) -> FieldRef<'a>
        ensures { lent result ≡ of_datetime field.now }
    {
        match field {
            Some(it) => FieldRef::Datetime(*it),
            None => FieldRef::Absent,
        }
    }

    pub fn of_map(field: &'a Option<Value>) -> FieldRef<'a>
        ensures { lent result ≡ of_map field.now }
    {
        match field {
            Some(it) => FieldRef::Map(it),
            None => FieldRef::Absent,
        }
    }

    pub fn of_array(field: &'a Option<Value>) -> FieldRef<'a>
        ensures { lent result ≡ of_array field.now }
    {
        match field {
            Some(it) => FieldRef::Array(it),
            None => FieldRef::Absent,
        }
    }

    pub fn of_ranges(field: &'a Option<Ranges>) -> FieldRef<'a>
        ensures { lent result ≡ of_ranges field.now }
    {
        match field {
            Some(it) => FieldRef::Ranges(it),
            None => FieldRef::Absent,
        }
    }

    pub fn of_struct32(field: &'a Option<Octets>) -> FieldRef<'a>
        ensures { lent result ≡ of_struct32 field.now }
    {
        match field {
            Some(it) => FieldRef::Struct32(it),
            None => FieldRef::Absent,
        }
    }

    pub fn of_xid(field: &'a Option<Xid>) -> FieldRef<'a>
        ensures { lent result ≡ of_xid field.now }
    {
        match field {
            Some(it) => FieldRef::Xid(it),
            None => FieldRef::Absent,
        }
    }

    pub fn of_reply_to(field: &'a Option<ReplyTo>) -> FieldRef<'a>
        ensures { lent result ≡ of_reply_to field.now }
    {
        match field {
            Some(it) => FieldRef::ReplyTo(it),
            None => FieldRef::Absent,
        }
    }

    /// Lends a field.
    pub fn of_field(field: &'a Field) -> FieldRef<'a>
        ensures { lent result ≡ field.now }
    {
        match field {
            Field::Absent => FieldRef::Absent,
            Field::Bit => FieldRef::Bit,
            Field::U8(it) => FieldRef::U8(*it),
            Field::U16(it) => FieldRef::U16(*it),
            Field::U32(it) => FieldRef::U32(*it),
            Field::U64(it) => FieldRef::U64(*it),
            Field::Str8(it) => FieldRef::Str8(it),
            Field::Str16(it) => FieldRef::Str16(it),
            Field::Vbin8(it) => FieldRef::Vbin8(it),
            Field::Vbin16(it) => FieldRef::Vbin16(it),
            Field::Vbin32(it) => FieldRef::Vbin32(it),
            Field::Uuid(it) => FieldRef::Uuid(it),
            Field::Datetime(it) => FieldRef::Datetime(*it),
            Field::Map(it) => FieldRef::Map(it),
            Field::Array(it) => FieldRef::Array(it),
            Field::Ranges(it) => FieldRef::Ranges(it),
            Field::Struct32(it) => FieldRef::Struct32(it),
            Field::Xid(it) => FieldRef::Xid(it),
            Field::ReplyTo(it) => FieldRef::ReplyTo(it),
        }
    }
}
