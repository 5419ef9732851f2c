//! The fields of packed structs (AMQP 0-10, "packing").
use amqp_values::{Items, Octets, Ranges, ReplyTo, Text, Value, Xid};

/// How a field is spelled.
#[derive(Clone, Copy, Debug, PartialEq, Eq)]
pub enum FieldKind {
    /// No octets: the flag is the value.
    Bit,
    U8,
    U16,
    U32,
    U64,
    Str8,
    Str16,
    Vbin8,
    Vbin16,
    Vbin32,
    /// 16 octets.
    Uuid,
    /// Eight octets, seconds since 1970.
    Datetime,
    Map,
    Array,
    /// Pairs of serials.
    Ranges,
    /// A size, and octets that aren't looked at.
    Struct32,
    /// The name of a transaction's branch, a struct.
    Xid,
    /// Where a reply goes, a struct.
    ReplyTo,
}

/// A field of a struct, absent or of its kind.
#[derive(Debug, Drop)]
pub enum Field {
    Absent,
    Bit,
    U8(u8),
    U16(u16),
    U32(u32),
    U64(u64),
    Str8(Text),
    Str16(Text),
    Vbin8(Octets),
    Vbin16(Octets),
    Vbin32(Octets),
    Uuid(Octets),
    Datetime(u64),
    Map(Value),
    Array(Value),
    Ranges(Ranges),
    Struct32(Octets),
    Xid(Xid),
    ReplyTo(ReplyTo),
}

/// The fields of a struct, one for each kind of its table.
pub type Fields = Items<Field>;
