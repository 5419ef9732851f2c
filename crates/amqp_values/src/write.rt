//! Octets out of values.
ghost use Rattle.std.specs.Prelude.{◌≡◌, ◌++◌, ◌<◌, ◌^◌, true, length, OnOk, OnErr, All};
ghost use Rattle.std.specs.Int.{w32, to_be_bytes};
ghost use Rattle.octet_reading.specs.Reading.{width_of};
ghost use Rattle.octet_reading.specs.Spelling.{sized, fits};
ghost use Rattle.amqp_values.specs.Spelling.{told, spelling, pairs_octets, items_octets, values_octets, map_told, list_told, array_told, IsFine, IsPairFine};

use crate::kind::{Kind, kind_of};
use crate::size::{items_size, pairs_size, values_size};
use crate::value::{Pair, Value};
use octet_reading::{NoMemory, SizeWidth, put_size, put_sized};
use std::alloc::Global;

/// Appends the octets of a value that has a spelling, its code left out.
///
/// Without memory nothing is appended.
pub fn write_value(alloc: Global, value: &Value, out: &mut Vec<u8>) -> Result<(), NoMemory>
    requires { IsFine value.now }
    ensures ok { OnOk result (out.new.items ≡ out.old.items ++ spelling value.now) }
    ensures err { OnErr result (out.new.items ≡ out.old.items) }
{
    let mut octets = Vec::new(alloc);
    put_value(&mut octets, value)?;
    out.extend_from_slice(octets.as_slice())?;
    Ok(())
}

/// The type code of a value.
#[tactic(auto, using(crate::proofs::Telling::tellings))]
pub(crate) fn code_of(value: &Value) -> u8
    ensures { result ≡ (told value.now).code }
{
    match value {
        Value::Fixed { code, octets: _ } | Value::Bin { code, octets: _ } | Value::Bare { code } =>
            *code,
        Value::Text8(_) => 0x85,
        Value::Text16(_) => 0x95,
        Value::Map(_) => 0xa8,
        Value::List(_) => 0xa9,
        Value::Array { code: _, items: _ } => 0xaa,
        Value::Struct32(_) => 0xab,
        Value::Void => 0xf0,
        Value::Bit => 0xf1,
    }
}

/// Puts a value's octets, its code left out. Without memory a part of them may stand there.
#[cycle(writing)]
#[tactic(auto, using(crate::proofs::Telling::tellings))]
pub fn put_value(out: &mut Vec<u8>, value: &Value) -> Result<(), NoMemory>
    requires { IsFine value.now }
    ensures { OnOk result (out.new.items ≡ out.old.items ++ spelling value.now) }
{
    match value {
        Value::Fixed { code: _, octets } => {
            out.extend_from_slice(octets.as_slice())?;
            Ok(())
        }
        Value::Text8(text) => put_sized(out, SizeWidth::One, text.as_slice()),
        Value::Text16(text) => put_sized(out, SizeWidth::Two, text.as_slice()),
        Value::Bin { code, octets } => match kind_of(*code) {
            Some(Kind::Bin { width }) => put_sized(out, width, octets.as_slice()),
            _ => Ok(()),
        },
        Value::Map(pairs) => put_map(out, pairs.as_slice()),
        Value::List(items) => put_list(out, items.as_slice()),
        Value::Array { code, items } => put_array(out, *code, items.as_slice()),
        Value::Struct32(octets) => put_sized(out, SizeWidth::Four, octets.as_slice()),
        Value::Bare { code: _ } => put_size(out, SizeWidth::Four, 0),
        Value::Void => Ok(()),
        Value::Bit => Ok(()),
    }
}

/// Puts a map's size, count and pairs.
#[cycle(writing)]
fn put_map(out: &mut Vec<u8>, pairs: &[Pair<Value>]) -> Result<(), NoMemory>
    requires { (map_told pairs.now).fine ≡ true }
    ensures { OnOk result (out.new.items ≡ out.old.items ++ (map_told pairs.now).octets) }
{
    put_size(out, SizeWidth::Four, pairs_size(pairs) as usize - 4)?;
    put_size(out, SizeWidth::Four, pairs.len())?;
    for pair in pairs {
        put_sized(out, SizeWidth::One, pair.key.as_slice())?;
        out.push(code_of(&pair.value))?;
        put_value(out, &pair.value)?;
    }
    Ok(())
}

/// Puts a list's size, count and items.
#[cycle(writing)]
fn put_list(out: &mut Vec<u8>, items: &[Value]) -> Result<(), NoMemory>
    requires { (list_told items.now).fine ≡ true }
    ensures { OnOk result (out.new.items ≡ out.old.items ++ (list_told items.now).octets) }
{
    put_size(out, SizeWidth::Four, items_size(items) as usize - 4)?;
    put_size(out, SizeWidth::Four, items.len())?;
    for item in items {
        out.push(code_of(item))?;
        put_value(out, item)?;
    }
    Ok(())
}

/// Puts an array's size, code, count and items.
#[cycle(writing)]
fn put_array(out: &mut Vec<u8>, code: u8, items: &[Value]) -> Result<(), NoMemory>
    requires { (array_told code items.now).fine ≡ true }
    ensures { OnOk result (out.new.items ≡ out.old.items ++ (array_told code items.now).octets) }
{
    put_size(out, SizeWidth::Four, values_size(items) as usize - 4)?;
    out.push(code)?;
    put_size(out, SizeWidth::Four, items.len())?;
    for item in items {
        put_value(out, item)?;
    }
    Ok(())
}
