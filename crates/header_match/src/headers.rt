//! Which headers a binding asks for.
ghost use Rattle.std.specs.Prelude.{◌≡◌};
ghost use Rattle.std.specs.Option.{option_copied};
ghost use Rattle.header_match.specs.Headers.{entries, is_void, says_any, is_x_match, is_compared, asks_any, holds, any_holds, all_hold, matches};

use crate::equality::same;
use amqp_values::{Pair, Value};
use octet_reading::Text;

/// Whether a message's application-headers have what a binding's arguments ask for (AMQP 0-10, "exchange", headers):
/// all entries, or at least one where `x-match` is the text `any`. Keys that begin with `x-` are not compared; a void
/// value asks for the key alone. Missing headers or arguments are empty ones. Takes no memory; its time is that of the
/// two numbers of entries multiplied at most.
pub fn headers_match(arguments: Option<&Value>, headers: Option<&Value>) -> bool
    ensures { result ≡ matches (option_copied arguments.entry) (option_copied headers.entry) }
{
    let asked = entries_of(arguments);
    let headers = entries_of(headers);
    if asks_any(asked) {
        any_holds(asked, headers)
    } else {
        all_hold(asked, headers)
    }
}

/// A map's entries; none of anything else.
fn entries_of(arguments: Option<&Value>) -> &[Pair<Value>]
    ensures { result.now ≡ entries (option_copied arguments.entry) }
{
    match arguments {
        Some(Value::Map(pairs)) => pairs.as_slice(),
        _ => &[],
    }
}

/// Whether one entry is enough.
fn asks_any(asked: &[Pair<Value>]) -> bool
    ensures { result ≡ asks_any asked.now }
{
    let mut rest = asked;
    while let Some((pair, more)) = rest.split_first() {
        if pair.key.as_slice() == b"x-match".as_slice() && says_any(&pair.value) {
            return true;
        }
        rest = more;
    }
    false
}

fn says_any(value: &Value) -> bool
    ensures { result ≡ says_any value.now }
{
    match value {
        Value::Text8(text) | Value::Text16(text) => text.as_slice() == b"any".as_slice(),
        _ => false,
    }
}

fn is_void(value: &Value) -> bool
    ensures { result ≡ is_void value.now }
{
    match value {
        Value::Void => true,
        _ => false,
    }
}

fn is_compared(key: &Text) -> bool
    ensures { result ≡ is_compared key.now }
{
    !key.as_slice().starts_with(b"x-".as_slice())
}

/// Whether at least one entry that is compared is met.
fn any_holds(asked: &[Pair<Value>], headers: &[Pair<Value>]) -> bool
    ensures { result ≡ any_holds asked.now headers.now }
{
    let mut rest = asked;
    while let Some((pair, more)) = rest.split_first() {
        if is_compared(&pair.key) && holds(pair, headers) {
            return true;
        }
        rest = more;
    }
    false
}

/// Whether each entry that is compared is met.
fn all_hold(asked: &[Pair<Value>], headers: &[Pair<Value>]) -> bool
    ensures { result ≡ all_hold asked.now headers.now }
{
    let mut rest = asked;
    while let Some((pair, more)) = rest.split_first() {
        if is_compared(&pair.key) && !holds(pair, headers) {
            return false;
        }
        rest = more;
    }
    true
}

/// Whether headers have an entry's key, with its value where one is asked.
fn holds(pair: &Pair<Value>, headers: &[Pair<Value>]) -> bool
    ensures { result ≡ holds headers.now pair.now }
{
    let mut rest = headers;
    while let Some((header, more)) = rest.split_first() {
        if header.key == pair.key && (is_void(&pair.value) || same(&pair.value, &header.value)) {
            return true;
        }
        rest = more;
    }
    false
}
