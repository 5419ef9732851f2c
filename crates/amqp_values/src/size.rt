//! How many octets a value has.
ghost use Rattle.std.specs.Prelude.{◌≡◌, ◌+◌, length};
ghost use Rattle.amqp_values.specs.Spelling.{spelling, pairs_octets, items_octets, values_octets, counted_upto};

use crate::kind::{Kind, kind_of};
use crate::value::{Pair, Value};
use octet_reading::SizeWidth;

/// The octets of a value's spelling, its code left out; at most the greatest u64. Takes no memory.
#[cycle(sizes)]
#[tactic(auto, using(crate::proofs::Telling::tellings))]
pub fn size_of(value: &Value) -> u64
    ensures { result ≡ counted_upto (length (spelling value.now)) }
{
    match value {
        Value::Fixed { code: _, octets } => octets.len() as u64,
        Value::Text8(text) => behind(1, text.as_slice().len()),
        Value::Text16(text) => behind(2, text.as_slice().len()),
        Value::Bin { code, octets } => match kind_of(*code) {
            Some(
                Kind::Bin {
                    width: SizeWidth::One,
                },
            ) => behind(1, octets.len()),
            Some(
                Kind::Bin {
                    width: SizeWidth::Two,
                },
            ) => behind(2, octets.len()),
            Some(
                Kind::Bin {
                    width: SizeWidth::Four,
                },
            ) => behind(4, octets.len()),
            _ => 0,
        },
        Value::Map(pairs) => pairs_size(pairs.as_slice()),
        Value::List(items) => items_size(items.as_slice()),
        Value::Array { code: _, items } => values_size(items.as_slice()),
        Value::Struct32(octets) => behind(4, octets.len()),
        Value::Bare { code: _ } => 4,
        Value::Void | Value::Bit => 0,
    }
}

/// So many octets behind their size.
fn behind(width: u64, size: usize) -> u64
    ensures { result ≡ counted_upto (width + size) }
{
    width.saturating_add(size as u64)
}

/// A map's octets, with its size and count.
#[cycle(sizes)]
pub(crate) fn pairs_size(pairs: &[Pair<Value>]) -> u64
    ensures { result ≡ counted_upto (8 + length (pairs_octets pairs.now)) }
{
    let mut size: u64 = 8;
    for pair in pairs {
        size = size
            .saturating_add(pair.key.as_slice().len() as u64)
            .saturating_add(2)
            .saturating_add(size_of(&pair.value));
    }
    size
}

/// A list's octets, with its size and count.
#[cycle(sizes)]
pub(crate) fn items_size(items: &[Value]) -> u64
    ensures { result ≡ counted_upto (8 + length (items_octets items.now)) }
{
    let mut size: u64 = 8;
    for item in items {
        size = size.saturating_add(1).saturating_add(size_of(item));
    }
    size
}

/// An array's octets, with its size, code and count.
#[cycle(sizes)]
pub(crate) fn values_size(items: &[Value]) -> u64
    ensures { result ≡ counted_upto (9 + length (values_octets items.now)) }
{
    let mut size: u64 = 9;
    for item in items {
        size = size.saturating_add(size_of(item));
    }
    size
}
