//! Whether two values are the same.
ghost use Rattle.std.specs.Prelude.{◌≡◌, map};
ghost use Rattle.std.specs.Option.{option_copied};
ghost use Rattle.header_match.specs.Equality.{equal, pairwise, passes, pair_passes, equal_to, pair_test, arguments_equal};

use amqp_values::{Pair, Value};

/// Whether two values have the same code and the same octets (AMQP 0-10, "types"). Takes no memory.
#[cycle(sames)]
#[tactic(auto, using(crate::proofs::Layers::layers))]
pub fn same(a: &Value, b: &Value) -> bool
    ensures { result ≡ equal a.now b.now }
{
    match a {
        Value::Fixed { code, octets } => match b {
            Value::Fixed {
                code: code_b,
                octets: octets_b,
            } => code == code_b && octets == octets_b,
            _ => false,
        },
        Value::Text8(text) => match b {
            Value::Text8(text_b) => text == text_b,
            _ => false,
        },
        Value::Text16(text) => match b {
            Value::Text16(text_b) => text == text_b,
            _ => false,
        },
        Value::Bin { code, octets } => match b {
            Value::Bin {
                code: code_b,
                octets: octets_b,
            } => code == code_b && octets == octets_b,
            _ => false,
        },
        Value::Map(pairs) => match b {
            Value::Map(pairs_b) => same_pairs(pairs.as_slice(), pairs_b.as_slice()),
            _ => false,
        },
        Value::List(items) => match b {
            Value::List(items_b) => same_items(items.as_slice(), items_b.as_slice()),
            _ => false,
        },
        Value::Array { code, items } => match b {
            Value::Array {
                code: code_b,
                items: items_b,
            } => code == code_b && same_items(items.as_slice(), items_b.as_slice()),
            _ => false,
        },
        Value::Struct32(octets) => match b {
            Value::Struct32(octets_b) => octets == octets_b,
            _ => false,
        },
        Value::Bare { code } => match b {
            Value::Bare { code: code_b } => code == code_b,
            _ => false,
        },
        Value::Void => match b {
            Value::Void => true,
            _ => false,
        },
        Value::Bit => match b {
            Value::Bit => true,
            _ => false,
        },
    }
}

#[cycle(sames)]
fn same_items(a: &[Value], b: &[Value]) -> bool
    ensures { result ≡ pairwise passes (map equal_to a.now) b.now }
{
    if a.len() != b.len() {
        return false;
    }
    for i in 0..a.len() {
        if !same(&a[i], &b[i]) {
            return false;
        }
    }
    true
}

#[cycle(sames)]
fn same_pairs(a: &[Pair<Value>], b: &[Pair<Value>]) -> bool
    ensures { result ≡ pairwise pair_passes (map pair_test a.now) b.now }
{
    if a.len() != b.len() {
        return false;
    }
    for i in 0..a.len() {
        let left = &a[i];
        let right = &b[i];
        if left.key != right.key {
            return false;
        }
        if !same(&left.value, &right.value) {
            return false;
        }
    }
    true
}

/// Whether two arguments are the same; missing ones equal missing ones alone. Takes no memory.
pub fn same_arguments(a: Option<&Value>, b: Option<&Value>) -> bool
    ensures { result ≡ arguments_equal (option_copied a.entry) (option_copied b.entry) }
{
    match a {
        Some(a) => match b {
            Some(b) => same(a, b),
            None => false,
        },
        None => b.is_none(),
    }
}
