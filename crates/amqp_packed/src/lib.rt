//! Packed structs: two octets of flags, and the fields that are present.
#![tactic(auto)]

mod error;
mod field;
mod lent;
mod read;
mod size;
mod take;
#[cfg(test)]
mod tests;
mod write;

pub use error::PackError;
pub use field::{Field, FieldKind, Fields};
pub use lent::FieldRef;
pub use read::{all_fields_of, fields_of, read_fields};
pub use size::size_of_fields;
pub use take::{
    discard_fields, take_array, take_bit, take_datetime, take_map, take_ranges, take_reply_to,
    take_str8, take_str16, take_struct32, take_u8, take_u16, take_u32, take_u64, take_uuid,
    take_vbin8, take_vbin16, take_vbin32, take_xid,
};
pub use write::{put_field, put_fields, write_fields};
