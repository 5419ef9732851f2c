//! Copies of fields that are there or absent.
ghost use Rattle.std.specs.Prelude.{◌≡◌, IfOk};

use amqp_values::{NoMemory, Octets, Ranges, ReplyTo, Text, Value, Xid};
use std::alloc::Global;

pub(crate) fn text_copied(alloc: Global, field: &Option<Text>) -> Result<Option<Text>, NoMemory>
    ensures { IfOk result (λ copy. copy ≡ field.now) }
{
    match field {
        Some(it) => Ok(Some(it.copied(alloc)?)),
        None => Ok(None),
    }
}

pub(crate) fn octets_copied(
    alloc: Global,
    field: &Option<Octets>,
) -> Result<Option<Octets>, NoMemory>
    ensures { IfOk result (λ copy. copy ≡ field.now) }
{
    match field {
        Some(it) => Ok(Some(it.copied(alloc)?)),
        None => Ok(None),
    }
}

pub(crate) fn value_copied(alloc: Global, field: &Option<Value>) -> Result<Option<Value>, NoMemory>
    ensures { IfOk result (λ copy. copy ≡ field.now) }
{
    match field {
        Some(it) => Ok(Some(it.copied(alloc)?)),
        None => Ok(None),
    }
}

pub(crate) fn ranges_copied(
    alloc: Global,
    field: &Option<Ranges>,
) -> Result<Option<Ranges>, NoMemory>
    ensures { IfOk result (λ copy. copy ≡ field.now) }
{
    match field {
        Some(it) => Ok(Some(it.copied(alloc)?)),
        None => Ok(None),
    }
}

pub(crate) fn xid_copied(alloc: Global, field: &Option<Xid>) -> Result<Option<Xid>, NoMemory>
    ensures { IfOk result (λ copy. copy ≡ field.now) }
{
    match field {
        Some(it) => Ok(Some(it.copied(alloc)?)),
        None => Ok(None),
    }
}

pub(crate) fn reply_to_copied(
    alloc: Global,
    field: &Option<ReplyTo>,
) -> Result<Option<ReplyTo>, NoMemory>
    ensures { IfOk result (λ copy. copy ≡ field.now) }
{
    match field {
        Some(it) => Ok(Some(it.copied(alloc)?)),
        None => Ok(None),
    }
}
