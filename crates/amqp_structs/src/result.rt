//! The values of execution.result, read and written.
ghost use Rattle.std.specs.Prelude.{◌≡◌, ◌≤◌, ◌++◌, true, Ok, [], length, IfOk, OnOk};
ghost use Rattle.octet_reading.specs.Reading.{Gives, Within};
ghost use Rattle.amqp_terms.specs.declared.result.ResultValue.{ResultValue};
ghost use Rattle.amqp_structs.specs.Header.{Answers};
ghost use Rattle.amqp_structs.specs.Results.{result_class, result_code, result_table, result_kind, result_by, result_in, read_result_in, result_head, result_octets, result_fine, ResultSpelled};

use crate::error::HeaderError;
use amqp_packed::{
    FieldKind, FieldRef, Fields, all_fields_of, discard_fields, put_fields, take_array, take_bit,
    take_map, take_ranges, take_str8, take_u16, take_u32,
};
use amqp_terms::ResultValue;
use amqp_values::{NoMemory, ValueFault};
use octet_reading::{Octets, ReadError, Why, part_of, put, refused};
use std::alloc::Global;

/// What a result is, without its fields.
#[derive(Clone, Copy, Debug, PartialEq, Eq)]
pub enum ResultKind {
    /// 4,4 acquired.
    Acquired,
    /// 6,1 xa-result.
    XaResult,
    /// 6,2 get-timeout-result.
    GetTimeoutResult,
    /// 6,3 recover-result.
    RecoverResult,
    /// 7,1 exchange-query-result.
    ExchangeQueryResult,
    /// 7,2 exchange-bound-result.
    ExchangeBoundResult,
    /// 8,1 queue-query-result.
    QueueQueryResult,
}

impl ResultKind {
    /// Its class octet.
    pub fn class(self) -> u8
        ensures { result ≡ result_class self }
    {
        match self {
            ResultKind::Acquired => 4,
            ResultKind::XaResult => 6,
            ResultKind::GetTimeoutResult => 6,
            ResultKind::RecoverResult => 6,
            ResultKind::ExchangeQueryResult => 7,
            ResultKind::ExchangeBoundResult => 7,
            ResultKind::QueueQueryResult => 8,
        }
    }

    /// Its code octet, within the class.
    pub fn code(self) -> u8
        ensures { result ≡ result_code self }
    {
        match self {
            ResultKind::Acquired => 4,
            ResultKind::XaResult => 1,
            ResultKind::GetTimeoutResult => 2,
            ResultKind::RecoverResult => 3,
            ResultKind::ExchangeQueryResult => 1,
            ResultKind::ExchangeBoundResult => 2,
            ResultKind::QueueQueryResult => 1,
        }
    }

    /// The kinds of its fields, in order.
    pub fn table(self) -> &'static [FieldKind]
        ensures fields { result.now ≡ result_table self }
        ensures few { length result.now ≤ 16 }
    {
        match self {
            ResultKind::Acquired => &[FieldKind::Ranges],
            ResultKind::XaResult => &[FieldKind::U16],
            ResultKind::GetTimeoutResult => &[FieldKind::U32],
            ResultKind::RecoverResult => &[FieldKind::Array],
            ResultKind::ExchangeQueryResult => &[
                FieldKind::Str8,
                FieldKind::Bit,
                FieldKind::Bit,
                FieldKind::Map,
            ],
            ResultKind::ExchangeBoundResult => &[
                FieldKind::Bit,
                FieldKind::Bit,
                FieldKind::Bit,
                FieldKind::Bit,
                FieldKind::Bit,
            ],
            ResultKind::QueueQueryResult => &[
                FieldKind::Str8,
                FieldKind::Str8,
                FieldKind::Bit,
                FieldKind::Bit,
                FieldKind::Bit,
                FieldKind::Map,
                FieldKind::U32,
                FieldKind::U32,
            ],
        }
    }
}

/// The kind of a class and code, if one has them.
#[tactic(auto, unfolding(crate::specs::Results::result_kind))]
pub fn result_kind(class: u8, code: u8) -> Option<ResultKind>
    ensures { result ≡ result_kind class code }
{
    match (class, code) {
        (4, 4) => Some(ResultKind::Acquired),
        (6, 1) => Some(ResultKind::XaResult),
        (6, 2) => Some(ResultKind::GetTimeoutResult),
        (6, 3) => Some(ResultKind::RecoverResult),
        (7, 1) => Some(ResultKind::ExchangeQueryResult),
        (7, 2) => Some(ResultKind::ExchangeBoundResult),
        (8, 1) => Some(ResultKind::QueueQueryResult),
        _ => None,
    }
}

/// Reads the value of an execution.result: class, code and fields. A fault's index counts from the class, which is 0.
pub fn read_result(alloc: Global, octets: &[u8]) -> Result<ResultValue, HeaderError>
    // The result, or the first fault.
    ensures exact { Answers result (read_result_in octets.now) }
    // What was read has spellings in its fields, and the octets spell it.
    ensures found { IfOk result (λ value. ResultSpelled value octets.now) }
    // What is written is read.
    ensures only { (value : ResultValue) → result_fine value ≡ true → octets.now ≡ result_octets value → Answers result (Ok value) }
{
    read_from(alloc, octets)
}

/// Reads it, as reading is defined.
fn read_from(alloc: Global, octets: &[u8]) -> Result<ResultValue, HeaderError>
    ensures { Answers result (read_result_in octets.now) }
{
    match result_of(alloc, octets) {
        Ok(value) => Ok(value),
        Err(ReadError::Memory) => Err(HeaderError::NoMemory),
        Err(ReadError::Flaw(flaw)) => Err(HeaderError::Bad(ValueFault {
            at: octets.len() - flaw.left,
            why: flaw.why,
        })),
    }
}

/// Class, code and fields.
#[tactic(auto, unfolding(crate::specs::Results::result_in))]
fn result_of(alloc: Global, octets: &[u8]) -> Result<ResultValue, ReadError>
    ensures gives { Gives (λ x. x) result (result_in octets.now) }
    ensures within { Within (λ x. []) (length octets.now) result }
{
    let (_, rest) = part_of(octets, octets, 2)?;
    let Some(kind) = result_kind(octets[0], octets[1]) else {
        return Err(refused(Why::BadStruct, octets));
    };
    let mut fields = all_fields_of(alloc, kind.table(), Why::SizeDiffers, rest)?;
    let value = result_by(kind, &mut fields);
    discard_fields(fields);
    Ok(value)
}

/// The result of a kind that fields make; past their end every field is absent.
fn result_by(kind: ResultKind, fields: &mut Fields) -> ResultValue
    ensures { result ≡ result_by kind fields.old }
{
    match kind {
        ResultKind::Acquired => ResultValue::Acquired {
            transfers: take_ranges(fields),
        },
        ResultKind::XaResult => ResultValue::XaResult {
            status: take_u16(fields),
        },
        ResultKind::GetTimeoutResult => ResultValue::GetTimeoutResult {
            setting: take_u32(fields),
        },
        ResultKind::RecoverResult => ResultValue::RecoverResult {
            in_doubt: take_array(fields),
        },
        ResultKind::ExchangeQueryResult => ResultValue::ExchangeQueryResult {
            kind: take_str8(fields),
            durable: take_bit(fields),
            not_found: take_bit(fields),
            arguments: take_map(fields),
        },
        ResultKind::ExchangeBoundResult => ResultValue::ExchangeBoundResult {
            exchange_not_found: take_bit(fields),
            queue_not_found: take_bit(fields),
            queue_not_matched: take_bit(fields),
            key_not_matched: take_bit(fields),
            args_not_matched: take_bit(fields),
        },
        ResultKind::QueueQueryResult => ResultValue::QueueQueryResult {
            queue: take_str8(fields),
            alternate_exchange: take_str8(fields),
            durable: take_bit(fields),
            exclusive: take_bit(fields),
            auto_delete: take_bit(fields),
            arguments: take_map(fields),
            message_count: take_u32(fields),
            subscriber_count: take_u32(fields),
        },
    }
}

/// The octets of a result whose fields have spellings, for the value of execution.result.
pub fn write_result(alloc: Global, value: &ResultValue) -> Result<Octets, NoMemory>
    requires { result_fine value.now ≡ true }
    ensures { IfOk result (λ octets. octets ≡ result_octets value.now) }
{
    let mut octets = Vec::new(alloc);
    put_result(&mut octets, value)?;
    Ok(Octets::from_vec(octets))
}

/// Puts class and code.
fn put_head(out: &mut Vec<u8>, kind: ResultKind) -> Result<(), NoMemory>
    ensures { OnOk result (out.new.items ≡ out.old.items ++ result_head kind) }
{
    put(out, &[kind.class(), kind.code()])
}

/// Puts class, code and fields. Without memory a part of them may stand there.
fn put_result(out: &mut Vec<u8>, value: &ResultValue) -> Result<(), NoMemory>
    requires { result_fine value.now ≡ true }
    ensures { OnOk result (out.new.items ≡ out.old.items ++ result_octets value.now) }
{
    match value {
        ResultValue::Acquired { transfers } => {
            put_head(out, ResultKind::Acquired)?;
            put_fields(out, &[FieldRef::of_ranges(transfers)])
        }
        ResultValue::XaResult { status } => {
            put_head(out, ResultKind::XaResult)?;
            put_fields(out, &[FieldRef::of_u16(status)])
        }
        ResultValue::GetTimeoutResult { setting } => {
            put_head(out, ResultKind::GetTimeoutResult)?;
            put_fields(out, &[FieldRef::of_u32(setting)])
        }
        ResultValue::RecoverResult { in_doubt } => {
            put_head(out, ResultKind::RecoverResult)?;
            put_fields(out, &[FieldRef::of_array(in_doubt)])
        }
        ResultValue::ExchangeQueryResult {
            kind,
            durable,
            not_found,
            arguments,
        } => {
            put_head(out, ResultKind::ExchangeQueryResult)?;
            put_fields(
                out,
                &[
                    FieldRef::of_str8(kind),
                    FieldRef::of_bit(*durable),
                    FieldRef::of_bit(*not_found),
                    FieldRef::of_map(arguments),
                ],
            )
        }
        ResultValue::ExchangeBoundResult {
            exchange_not_found,
            queue_not_found,
            queue_not_matched,
            key_not_matched,
            args_not_matched,
        } => {
            put_head(out, ResultKind::ExchangeBoundResult)?;
            put_fields(
                out,
                &[
                    FieldRef::of_bit(*exchange_not_found),
                    FieldRef::of_bit(*queue_not_found),
                    FieldRef::of_bit(*queue_not_matched),
                    FieldRef::of_bit(*key_not_matched),
                    FieldRef::of_bit(*args_not_matched),
                ],
            )
        }
        ResultValue::QueueQueryResult {
            queue,
            alternate_exchange,
            durable,
            exclusive,
            auto_delete,
            arguments,
            message_count,
            subscriber_count,
        } => {
            put_head(out, ResultKind::QueueQueryResult)?;
            put_fields(
                out,
                &[
                    FieldRef::of_str8(queue),
                    FieldRef::of_str8(alternate_exchange),
                    FieldRef::of_bit(*durable),
                    FieldRef::of_bit(*exclusive),
                    FieldRef::of_bit(*auto_delete),
                    FieldRef::of_map(arguments),
                    FieldRef::of_u32(message_count),
                    FieldRef::of_u32(subscriber_count),
                ],
            )
        }
    }
}
