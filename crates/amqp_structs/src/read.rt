//! The structs of a header segment, read.
ghost use Rattle.std.specs.Prelude.{◌≡◌, true, Ok, List, [], length, IfOk, ◌<◌, ◌^◌};
ghost use Rattle.octet_reading.specs.Reading.{Gives, Within};
ghost use Rattle.amqp_structs.specs.Header.{delivery_table, delivery_by, message_table, message_by, delivery_in, message_in, coded_in, struct_in, struct_at, header_in, header_octets, is_sound, has_spelling, read_in, Answers};
ghost use Rattle.amqp_structs.specs.Spelled.{HeaderSpelled};
ghost use Rattle.amqp_terms.specs.declared.content.HeaderItem.{HeaderItem};
ghost use Rattle.std.specs.List.{list_all};

use crate::error::HeaderError;
use amqp_packed::{
    FieldKind, Fields, all_fields_of, discard_fields, take_bit, take_datetime, take_map,
    take_reply_to, take_str8, take_str16, take_u8, take_u64, take_uuid, take_vbin16,
};
use amqp_terms::{DeliveryProperties, Header, HeaderItem, MessageProperties};
use amqp_values::ValueFault;
use octet_reading::{Octets, ReadError, SizeWidth, Why, moved, refused, sized_of};
use std::alloc::Global;

/// The fields of 4,1 delivery-properties.
const DELIVERY: [FieldKind; 12] = [
    FieldKind::Bit,
    FieldKind::Bit,
    FieldKind::Bit,
    FieldKind::U8,
    FieldKind::U8,
    FieldKind::U64,
    FieldKind::Datetime,
    FieldKind::Datetime,
    FieldKind::Str8,
    FieldKind::Str8,
    FieldKind::Str16,
    FieldKind::U64,
];

/// The fields of 4,3 message-properties.
const MESSAGE: [FieldKind; 9] = [
    FieldKind::U64,
    FieldKind::Uuid,
    FieldKind::Vbin16,
    FieldKind::ReplyTo,
    FieldKind::Str8,
    FieldKind::Str8,
    FieldKind::Vbin16,
    FieldKind::Vbin16,
    FieldKind::Map,
];

/// Reads the structs of a header segment. A fault's index counts within the segment, from 0.
pub fn read_header(alloc: Global, octets: &[u8]) -> Result<Header, HeaderError>
    // The structs, or the first fault.
    ensures exact { Answers result (read_in octets.now) }
    // What was read has spellings in its fields, and the octets spell it.
    ensures found { IfOk result (λ items. (list_all is_sound items ≡ true) × HeaderSpelled items octets.now) }
    // What was read of fewer than 2^31 octets can be written.
    ensures fine { length octets.now < 2 ^ 31 → IfOk result (λ items. list_all has_spelling items ≡ true) }
    // What is written is read.
    ensures only { (items : List HeaderItem) → list_all has_spelling items ≡ true → octets.now ≡ header_octets items → Answers result (Ok items) }
{
    read_from(alloc, octets)
}

/// Reads them, as reading is defined.
fn read_from(alloc: Global, octets: &[u8]) -> Result<Header, HeaderError>
    ensures { Answers result (read_in octets.now) }
{
    match header_of(alloc, octets) {
        Ok(header) => Ok(header),
        Err(ReadError::Memory) => Err(HeaderError::NoMemory),
        Err(ReadError::Flaw(flaw)) => Err(HeaderError::Bad(ValueFault {
            at: octets.len() - flaw.left,
            why: flaw.why,
        })),
    }
}

/// All structs.
pub fn header_of(alloc: Global, octets: &[u8]) -> Result<Header, ReadError>
    ensures gives { Gives (λ x. x) result (header_in octets.now) }
    ensures within { Within (λ x. []) (length octets.now) result }
{
    let mut header = Header::new(alloc);
    let mut rest = octets;
    for _ in 0..octets.len() {
        if rest.is_empty() {
            return Ok(header);
        }
        let (item, after) = struct_of(alloc, rest)?;
        header.push(item)?;
        rest = after;
    }
    Ok(header)
}

/// A struct behind its size.
#[tactic(auto, unfolding(crate::specs::Header::struct_at))]
fn struct_of(alloc: Global, octets: &[u8]) -> Result<(HeaderItem, &[u8]), ReadError>
    ensures gives { Gives (λ x. (x.0, x.1.now)) result (struct_at octets.now) }
    ensures within { Within (λ x. x.1.now) (length octets.now) result }
{
    let (part, rest) = sized_of(SizeWidth::Four, octets)?;
    if part.len() < 2 {
        return Err(refused(Why::BadStruct, octets));
    }
    match coded_of(alloc, part[0], part[1], &part[2..]) {
        Ok(item) => Ok((item, rest)),
        Err(error) => Err(moved(error, rest.len())),
    }
}

/// A struct of a class and code.
fn coded_of(alloc: Global, class: u8, code: u8, octets: &[u8]) -> Result<HeaderItem, ReadError>
    ensures gives { Gives (λ x. x) result (coded_in class code octets.now) }
    ensures within { Within (λ x. []) (length octets.now) result }
{
    match (class, code) {
        (4, 1) => delivery_of(alloc, octets),
        (4, 3) => message_of(alloc, octets),
        _ => Ok(HeaderItem::Other {
            class,
            code,
            octets: Octets::from_slice(alloc, octets)?,
        }),
    }
}

/// 4,1 delivery-properties.
#[tactic(auto, unfolding(crate::specs::Header::delivery_in))]
fn delivery_of(alloc: Global, octets: &[u8]) -> Result<HeaderItem, ReadError>
    ensures gives { Gives (λ x. x) result (delivery_in octets.now) }
    ensures within { Within (λ x. []) (length octets.now) result }
{
    let mut fields = all_fields_of(alloc, DELIVERY.as_slice(), Why::SizeDiffers, octets)?;
    let properties = delivery_by(&mut fields);
    discard_fields(fields);
    Ok(HeaderItem::Delivery(properties))
}

/// 4,3 message-properties.
#[tactic(auto, unfolding(crate::specs::Header::message_in))]
fn message_of(alloc: Global, octets: &[u8]) -> Result<HeaderItem, ReadError>
    ensures gives { Gives (λ x. x) result (message_in octets.now) }
    ensures within { Within (λ x. []) (length octets.now) result }
{
    let mut fields = all_fields_of(alloc, MESSAGE.as_slice(), Why::SizeDiffers, octets)?;
    let properties = message_by(&mut fields);
    discard_fields(fields);
    Ok(HeaderItem::Message(properties))
}

/// The properties that fields make.
#[tactic(auto, unfolding(crate::specs::Header::delivery_by))]
fn delivery_by(fields: &mut Fields) -> DeliveryProperties
    ensures { result ≡ delivery_by fields.old }
{
    DeliveryProperties {
        discard_unroutable: take_bit(fields),
        immediate: take_bit(fields),
        redelivered: take_bit(fields),
        priority: take_u8(fields),
        delivery_mode: take_u8(fields),
        ttl: take_u64(fields),
        timestamp: take_datetime(fields),
        expiration: take_datetime(fields),
        exchange: take_str8(fields),
        routing_key: take_str8(fields),
        resume_id: take_str16(fields),
        resume_ttl: take_u64(fields),
    }
}

/// The properties that fields make.
#[tactic(auto, unfolding(crate::specs::Header::message_by))]
fn message_by(fields: &mut Fields) -> MessageProperties
    ensures { result ≡ message_by fields.old }
{
    MessageProperties {
        content_length: take_u64(fields),
        message_id: take_uuid(fields),
        correlation_id: take_vbin16(fields),
        reply_to: take_reply_to(fields),
        content_type: take_str8(fields),
        content_encoding: take_str8(fields),
        user_id: take_vbin16(fields),
        app_id: take_vbin16(fields),
        application_headers: take_map(fields),
    }
}
