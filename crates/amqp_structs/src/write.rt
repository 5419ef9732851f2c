//! The structs of a header segment, written and measured.
ghost use Rattle.std.specs.Prelude.{◌≡◌, ◌++◌, true, length, map, OnOk, OnErr};
ghost use Rattle.std.specs.List.{list_all};
ghost use Rattle.amqp_values.specs.Spelling.{counted_upto};
ghost use Rattle.amqp_packed.specs.Lent.{lent};
ghost use Rattle.amqp_structs.specs.Header.{delivery_fields, message_fields, struct_content, struct_octets, header_octets, is_sound, has_spelling};

use amqp_packed::{FieldRef, put_fields, size_of_fields};
use amqp_terms::{DeliveryProperties, Header, HeaderItem, MessageProperties};
use amqp_values::NoMemory;
use octet_reading::{SizeWidth, put, put_size};
use std::alloc::Global;

/// Appends the octets of a header whose structs have spellings. Without memory nothing is appended.
pub fn write_header(alloc: Global, header: &Header, out: &mut Vec<u8>) -> Result<(), NoMemory>
    requires { list_all has_spelling header.now ≡ true }
    ensures ok { OnOk result (out.new.items ≡ out.old.items ++ header_octets header.now) }
    ensures err { OnErr result (out.new.items ≡ out.old.items) }
{
    let mut octets = Vec::new(alloc);
    put_structs(&mut octets, header.as_slice())?;
    out.extend_from_slice(octets.as_slice())?;
    Ok(())
}

/// The octets of a header, as they are written; at most the greatest u64. Takes no memory.
pub fn header_size(header: &Header) -> u64
    ensures { result ≡ counted_upto (length (header_octets header.now)) }
{
    structs_size(header.as_slice())
}

fn structs_size(items: &[HeaderItem]) -> u64
    ensures { result ≡ counted_upto (length (header_octets items.now)) }
{
    let mut size: u64 = 0;
    for item in items {
        size = size.saturating_add(4).saturating_add(content_size(item));
    }
    size
}

/// Puts structs, one after the other. Without memory a part of them may stand there.
pub fn put_structs(out: &mut Vec<u8>, items: &[HeaderItem]) -> Result<(), NoMemory>
    requires { list_all has_spelling items.now ≡ true }
    ensures { OnOk result (out.new.items ≡ out.old.items ++ header_octets items.now) }
{
    for item in items {
        put_struct(out, item)?;
    }
    Ok(())
}

/// Puts a struct behind its size.
fn put_struct(out: &mut Vec<u8>, item: &HeaderItem) -> Result<(), NoMemory>
    requires { has_spelling item.now ≡ true }
    ensures { OnOk result (out.new.items ≡ out.old.items ++ struct_octets item.now) }
{
    put_size(out, SizeWidth::Four, content_size(item) as usize)?;
    put_content(out, item)
}

/// Puts the class and code of a struct, and what follows them.
fn put_content(out: &mut Vec<u8>, item: &HeaderItem) -> Result<(), NoMemory>
    requires { is_sound item.now ≡ true }
    ensures { OnOk result (out.new.items ≡ out.old.items ++ struct_content item.now) }
{
    match item {
        HeaderItem::Delivery(properties) => {
            put(out, &[4, 1])?;
            put_fields(out, delivery_refs(properties).as_slice())
        }
        HeaderItem::Message(properties) => {
            put(out, &[4, 3])?;
            put_fields(out, message_refs(properties).as_slice())
        }
        HeaderItem::Other {
            class,
            code,
            octets,
        } => {
            put(out, &[*class, *code])?;
            put(out, octets.as_slice())
        }
    }
}

/// The octets of a struct behind its size.
fn content_size(item: &HeaderItem) -> u64
    ensures { result ≡ counted_upto (length (struct_content item.now)) }
{
    match item {
        HeaderItem::Delivery(properties) => size_of_fields(delivery_refs(
            properties,
        ).as_slice()).saturating_add(2),
        HeaderItem::Message(properties) => size_of_fields(message_refs(
            properties,
        ).as_slice()).saturating_add(2),
        HeaderItem::Other {
            class: _,
            code: _,
            octets,
        } => (octets.len() as u64).saturating_add(2),
    }
}

/// The fields of 4,1 delivery-properties in the order of its table, lent; absent ones too.
#[tactic(auto, unfolding(crate::specs::Header::delivery_fields))]
pub fn delivery_refs(properties: &DeliveryProperties) -> [FieldRef<'_>; 12]
    ensures fields { map lent result ≡ delivery_fields properties.now }
    ensures count { length (delivery_fields properties.now) ≡ 12 }
{
    [
        FieldRef::of_bit(properties.discard_unroutable),
        FieldRef::of_bit(properties.immediate),
        FieldRef::of_bit(properties.redelivered),
        FieldRef::of_u8(&properties.priority),
        FieldRef::of_u8(&properties.delivery_mode),
        FieldRef::of_u64(&properties.ttl),
        FieldRef::of_datetime(&properties.timestamp),
        FieldRef::of_datetime(&properties.expiration),
        FieldRef::of_str8(&properties.exchange),
        FieldRef::of_str8(&properties.routing_key),
        FieldRef::of_str16(&properties.resume_id),
        FieldRef::of_u64(&properties.resume_ttl),
    ]
}

/// The fields of 4,3 message-properties in the order of its table, lent; absent ones too.
#[tactic(auto, unfolding(crate::specs::Header::message_fields))]
pub fn message_refs(properties: &MessageProperties) -> [FieldRef<'_>; 9]
    ensures fields { map lent result ≡ message_fields properties.now }
    ensures count { length (message_fields properties.now) ≡ 9 }
{
    [
        FieldRef::of_u64(&properties.content_length),
        FieldRef::of_uuid(&properties.message_id),
        FieldRef::of_vbin16(&properties.correlation_id),
        FieldRef::of_reply_to(&properties.reply_to),
        FieldRef::of_str8(&properties.content_type),
        FieldRef::of_str8(&properties.content_encoding),
        FieldRef::of_vbin16(&properties.user_id),
        FieldRef::of_vbin16(&properties.app_id),
        FieldRef::of_map(&properties.application_headers),
    ]
}
