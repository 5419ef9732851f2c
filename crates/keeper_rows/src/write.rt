//! Rows, written.
ghost use Rattle.std.specs.Prelude.{◌≡◌, ◌++◌, ◌∷◌, true, length, OnOk, IfOk};
ghost use Rattle.keeper_rows.specs.Rows.{has_row, row_of, key_of, inside_of, xid_octets, xid_fine, kind_of, copy_octets, copy_fine, marks_of, or_nothing, arguments_octets, arguments_fine};

use crate::kept::{Kept, RowCopy};
use amqp_values::{NoMemory, Octets, Value, Xid, put_value};
use keeper_core::Row;
use octet_reading::{SizeWidth, put, put_sized};
use std::alloc::Global;

/// The row of what is kept, in format 2.
pub fn write_row(alloc: Global, kept: &Kept) -> Result<Row, NoMemory>
    requires { has_row kept.now ≡ true }
    ensures { IfOk result (λ row. row ≡ row_of kept.now) }
{
    let mut key = Vec::new(alloc);
    put_key(&mut key, kept)?;
    let mut content = Vec::new(alloc);
    put(&mut content, &[2])?;
    put_inside(alloc, &mut content, kept)?;
    Ok(Row {
        key: Octets::from_vec(key),
        content: Octets::from_vec(content),
    })
}

fn put_key(out: &mut Vec<u8>, kept: &Kept) -> Result<(), NoMemory>
    requires { has_row kept.now ≡ true }
    ensures { OnOk result (out.new.items ≡ out.old.items ++ key_of kept.now) }
{
    match kept {
        Kept::Branch { xid, .. } => {
            put(out, b"B")?;
            put_xid(out, xid)
        }
        Kept::Intent { xid, index, .. } => {
            put(out, b"I")?;
            put_xid(out, xid)?;
            put(out, index.to_be_bytes().as_slice())
        }
        Kept::Message { queue, number, .. } => {
            put(out, b"M")?;
            put_sized(out, SizeWidth::One, queue.as_slice())?;
            put(out, number.to_be_bytes().as_slice())
        }
        Kept::Queue { name, .. } => {
            put(out, b"Q")?;
            put(out, name.as_slice())
        }
        Kept::Exchange { name, .. } => {
            put(out, b"E")?;
            put(out, name.as_slice())
        }
        Kept::Binding {
            exchange,
            queue,
            key,
            ..
        } => {
            put(out, b"R")?;
            put_sized(out, SizeWidth::One, exchange.as_slice())?;
            put_sized(out, SizeWidth::One, queue.as_slice())?;
            put(out, key.as_slice())
        }
    }
}

fn put_xid(out: &mut Vec<u8>, xid: &Xid) -> Result<(), NoMemory>
    requires { xid_fine xid.now ≡ true }
    ensures { OnOk result (out.new.items ≡ out.old.items ++ xid_octets xid.now) }
{
    put(out, xid.format.to_be_bytes().as_slice())?;
    put_sized(out, SizeWidth::One, xid.global.as_slice())?;
    put_sized(out, SizeWidth::One, xid.branch.as_slice())
}

/// What stands behind the format.
fn put_inside(alloc: Global, out: &mut Vec<u8>, kept: &Kept) -> Result<(), NoMemory>
    requires { has_row kept.now ≡ true }
    ensures { OnOk result (out.new.items ≡ out.old.items ++ inside_of kept.now) }
{
    match kept {
        Kept::Branch { count, .. } => put(out, count.to_be_bytes().as_slice()),
        Kept::Intent {
            accept,
            queue,
            number,
            copy,
            ..
        } => {
            put(out, &[kind(*accept)])?;
            put_sized(out, SizeWidth::One, queue.as_slice())?;
            put(out, number.to_be_bytes().as_slice())?;
            put_copy(out, copy)
        }
        Kept::Message { copy, .. } => put_copy(out, copy),
        Kept::Queue {
            alternate,
            arguments,
            ..
        } => {
            put_sized(out, SizeWidth::One, alternate.as_slice())?;
            put_arguments(alloc, out, arguments)
        }
        Kept::Exchange {
            kind,
            alternate,
            arguments,
            ..
        } => {
            put(out, &[*kind])?;
            put_sized(out, SizeWidth::One, alternate.as_slice())?;
            put_arguments(alloc, out, arguments)
        }
        Kept::Binding { arguments, .. } => put_arguments(alloc, out, arguments),
    }
}

/// 1 for an accept.
fn kind(accept: bool) -> u8
    ensures { result ≡ kind_of accept }
{
    if accept { 1 } else { 0 }
}

fn put_copy(out: &mut Vec<u8>, copy: &RowCopy) -> Result<(), NoMemory>
    requires { copy_fine copy.now ≡ true }
    ensures { OnOk result (out.new.items ≡ out.old.items ++ copy_octets copy.now) }
{
    put(out, &[marks(&copy.header, &copy.body)])?;
    put_sized(out, SizeWidth::One, copy.exchange.as_slice())?;
    put_sized(out, SizeWidth::Four, or_nothing(&copy.header))?;
    put_sized(out, SizeWidth::Four, or_nothing(&copy.body))
}

/// 1 for a header, 2 for a body.
fn marks(header: &Option<Octets>, body: &Option<Octets>) -> u8
    ensures { result ≡ marks_of header.now body.now }
{
    match (header, body) {
        (None, None) => 0,
        (Some(_), None) => 1,
        (None, Some(_)) => 2,
        (Some(_), Some(_)) => 3,
    }
}

fn or_nothing(part: &Option<Octets>) -> &[u8]
    ensures { result.now ≡ or_nothing part.now }
{
    match part {
        Some(octets) => octets.as_slice(),
        None => &[],
    }
}

fn put_arguments(
    alloc: Global,
    out: &mut Vec<u8>,
    arguments: &Option<Value>,
) -> Result<(), NoMemory>
    requires { arguments_fine arguments.now ≡ true }
    ensures { OnOk result (out.new.items ≡ out.old.items ++ arguments_octets arguments.now) }
{
    let mut octets = Vec::new(alloc);
    if let Some(value) = arguments {
        put_value(&mut octets, value)?;
    }
    put_sized(out, SizeWidth::Four, octets.as_slice())
}
