//! Whether a value has a spelling.
ghost use Rattle.std.specs.Prelude.{◌≡◌, ◌==◌, ◌&&◌, nat_le, bytes_eq, length, map};
ghost use Rattle.std.specs.List.{list_all, list_any};
ghost use Rattle.std.specs.Str.{is_utf8};
ghost use Rattle.amqp_values.specs.Codes.{kind};
ghost use Rattle.octet_reading.specs.Spelling.{fits};
ghost use Rattle.amqp_values.specs.Spelling.{Told, told, told_pair, fixed_fine, bin_fine, keys_fine, deepest, deepest_pair, map_told, list_told, array_told, is_valid, counted_upto};

use crate::kind::{Kind, is_array_code, kind_of};
use crate::read::MOST_LEVELS;
use crate::size::{items_size, pairs_size, values_size};
use crate::value::{Pair, Value};
use crate::write::code_of;
use octet_reading::{SizeWidth, Text};

/// Whether a value has a spelling: as many octets as its code wants, sizes and counts within their
/// width, keys that differ, and at most 16 containers on one path. Takes no memory.
///
/// Its time is quadratic in the keys of one map. A value that was read has a spelling.
pub fn valid(value: &Value) -> bool
    ensures { result ≡ is_valid value.now }
{
    let fine = is_fine(value);
    fine && levels_of(value) <= u64::from(MOST_LEVELS)
}

/// Whether so many octets can be counted.
fn fits(width: SizeWidth, size: usize) -> bool
    ensures { result ≡ fits width size }
{
    match width {
        SizeWidth::One => size < 256,
        SizeWidth::Two => size < 65_536,
        SizeWidth::Four => size < 4_294_967_296,
    }
}

/// Whether a text can be counted.
fn text_fits(width: SizeWidth, text: &Text) -> bool
    ensures { result ≡ (fits width (length text.now) && is_utf8 text.now) }
{
    fits(width, text.as_slice().len())
}

/// Whether a code's values have such octets.
fn is_fixed(code: u8, octets: &[u8]) -> bool
    ensures { result ≡ fixed_fine (kind code) octets.now }
{
    match kind_of(code) {
        Some(Kind::Fixed { size }) => octets.len() == size,
        Some(Kind::Boolean) => match octets {
            [octet] => *octet <= 1,
            _ => false,
        },
        _ => false,
    }
}

/// Whether a code's values have such octets behind their size.
fn is_bin(code: u8, octets: &[u8]) -> bool
    ensures { result ≡ bin_fine (kind code) octets.now }
{
    match kind_of(code) {
        Some(Kind::Bin { width }) => fits(width, octets.len()),
        _ => false,
    }
}

/// Whether a value has a spelling, its depth aside.
#[cycle(fine)]
#[tactic(auto, using(crate::proofs::Telling::tellings))]
fn is_fine(value: &Value) -> bool
    ensures { result ≡ (told value.now).fine }
{
    match value {
        Value::Fixed { code, octets } => is_fixed(*code, octets.as_slice()),
        Value::Text8(text) => text_fits(SizeWidth::One, text),
        Value::Text16(text) => text_fits(SizeWidth::Two, text),
        Value::Bin { code, octets } => is_bin(*code, octets.as_slice()),
        Value::Map(pairs) => is_map(pairs.as_slice()),
        Value::List(items) => is_list(items.as_slice()),
        Value::Array { code, items } => is_array(*code, items.as_slice()),
        Value::Struct32(octets) => fits(SizeWidth::Four, octets.len()),
        Value::Bare { code } => *code == 0xa8 || (*code == 0xa9 || *code == 0xaa),
        Value::Void => true,
        Value::Bit => true,
    }
}

#[cycle(fine)]
fn is_map(pairs: &[Pair<Value>]) -> bool
    ensures { result ≡ (map_told pairs.now).fine }
{
    let counted = fits(SizeWidth::Four, pairs.len());
    let keys = are_keys(pairs);
    let fine = keys && are_pairs(pairs);
    let inside = counted && fine;
    pairs_size(pairs) - 4 < 4_294_967_296 && inside
}

#[cycle(fine)]
fn is_list(items: &[Value]) -> bool
    ensures { result ≡ (list_told items.now).fine }
{
    let counted = fits(SizeWidth::Four, items.len());
    let inside = counted && are_fine(items);
    items_size(items) - 4 < 4_294_967_296 && inside
}

#[cycle(fine)]
fn is_array(code: u8, items: &[Value]) -> bool
    ensures { result ≡ (array_told code items.now).fine }
{
    let counted = fits(SizeWidth::Four, items.len());
    let known = is_array_code(code);
    let fine = known && are_alike(code, items);
    let inside = counted && fine;
    values_size(items) - 4 < 4_294_967_296 && inside
}

/// Whether the key stands among those of the pairs.
fn has(pairs: &[Pair<Value>], key: &Text) -> bool
    ensures { result ≡ list_any (λ (q : Pair Told). bytes_eq q.key key.now) (map told_pair pairs.now) }
{
    let mut rest = pairs;
    while let Some((first, more)) = rest.split_first() {
        if first.key == *key {
            return true;
        }
        rest = more;
    }
    false
}

/// Whether the keys are short texts that differ.
fn are_keys(pairs: &[Pair<Value>]) -> bool
    ensures { result ≡ keys_fine (map told_pair pairs.now) }
{
    let mut rest = pairs;
    while let Some((first, more)) = rest.split_first() {
        if !text_fits(SizeWidth::One, &first.key) || has(more, &first.key) {
            return false;
        }
        rest = more;
    }
    true
}

#[cycle(fine)]
fn are_pairs(pairs: &[Pair<Value>]) -> bool
    ensures { result ≡ list_all (λ (p : Pair Told). p.value.fine) (map told_pair pairs.now) }
{
    for pair in pairs {
        if !is_fine(&pair.value) {
            return false;
        }
    }
    true
}

#[cycle(fine)]
fn are_fine(items: &[Value]) -> bool
    ensures { result ≡ list_all (λ (t : Told). t.fine) (map told items.now) }
{
    for item in items {
        if !is_fine(item) {
            return false;
        }
    }
    true
}

#[cycle(fine)]
fn is_alike(code: u8, item: &Value) -> bool
    ensures { result ≡ (((told item.now).code == code) && (told item.now).fine) }
{
    code_of(item) == code && is_fine(item)
}

/// Whether the items have this code, and a spelling.
#[cycle(fine)]
fn are_alike(code: u8, items: &[Value]) -> bool
    ensures { result ≡ list_all (λ (t : Told). (t.code == code) && t.fine) (map told items.now) }
{
    for item in items {
        if !is_alike(code, item) {
            return false;
        }
    }
    true
}

/// How many containers stand on one path, at most the greatest u64.
#[cycle(levels)]
#[tactic(auto, using(crate::proofs::Telling::tellings))]
fn levels_of(value: &Value) -> u64
    ensures { result ≡ counted_upto ((told value.now).levels) }
{
    match value {
        Value::Map(pairs) => pair_levels(pairs.as_slice()).saturating_add(1),
        Value::List(items) => item_levels(items.as_slice()).saturating_add(1),
        Value::Array { code: _, items } => item_levels(items.as_slice()).saturating_add(1),
        Value::Bare { code: _ } => 1,
        Value::Fixed { code: _, octets: _ } => 0,
        Value::Bin { code: _, octets: _ } => 0,
        Value::Text8(_) => 0,
        Value::Text16(_) => 0,
        Value::Struct32(_) => 0,
        Value::Void => 0,
        Value::Bit => 0,
    }
}

#[cycle(levels)]
fn item_levels(items: &[Value]) -> u64
    ensures { result ≡ counted_upto (deepest (map told items.now)) }
{
    let mut most: u64 = 0;
    for item in items {
        most = most.max(levels_of(item));
    }
    most
}

#[cycle(levels)]
fn pair_levels(pairs: &[Pair<Value>]) -> u64
    ensures { result ≡ counted_upto (deepest_pair (map told_pair pairs.now)) }
{
    let mut most: u64 = 0;
    for pair in pairs {
        most = most.max(levels_of(&pair.value));
    }
    most
}
