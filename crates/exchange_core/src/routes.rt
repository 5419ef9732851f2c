//! Which bindings take a message.
ghost use Rattle.std.specs.Prelude.{◌≡◌, IfOk, map, filter};
ghost use Rattle.std.specs.List.{list_any};
ghost use Rattle.std.specs.Option.{option_copied};
ghost use Rattle.exchange_core.specs.Routes.{takes, is_same, last_of, queues_of, is_asked, has_entry, has_none};

use crate::marks::{Kind, Names};
use amqp_values::Value;
use binding_table::{Row, Rows};
use header_match::{headers_match, same_arguments};
use octet_reading::{NoMemory, Text};
use std::alloc::Global;
use topic_keys::topic_matches;

/// Whether a binding of an exchange of this kind takes a message.
fn takes(kind: Kind, key: &Text, headers: Option<&Value>, row: &Row<Option<Value>>) -> bool
    ensures { result ≡ takes kind key.now (option_copied headers.entry) row.now }
{
    match kind {
        Kind::Direct => row.binding.key == *key,
        Kind::Fanout => true,
        Kind::Topic => topic_matches(row.binding.key.as_slice(), key.as_slice()),
        Kind::Headers => headers_match(row.binding.arguments.as_ref(), headers),
    }
}

/// Whether a name is the last of some.
fn is_last(names: &Names, name: &Text) -> bool
    ensures { result ≡ is_same (last_of names.now.items) name.now }
{
    match names.last() {
        Some(last) => last == name,
        None => false,
    }
}

/// The queues of the bindings that take a message. Bindings of a queue come one behind another.
pub(crate) fn queues_of(
    alloc: Global,
    rows: Rows<'_, Option<Value>>,
    kind: Kind,
    key: &Text,
    headers: Option<&Value>,
) -> Result<Names, NoMemory>
    ensures { IfOk result (λ names. names.items ≡ queues_of kind key.now (option_copied headers.entry) rows.entry) }
{
    let mut rows = rows;
    let mut names = Vec::new(alloc);
    while let Some(row) = rows.next() {
        if takes(kind, key, headers, row) && !is_last(&names, &row.binding.queue) {
            names.push(row.binding.queue.copied(alloc)?)?;
        }
    }
    Ok(names)
}

/// Whether one of the bindings has the key, where one is given, and the arguments, where some are.
fn is_asked(key: Option<&Text>, arguments: Option<&Value>, row: &Row<Option<Value>>) -> bool
    ensures { result ≡ is_asked (option_copied key.entry) (option_copied arguments.entry) row.now }
{
    let key_is = match key {
        Some(key) => row.binding.key == *key,
        None => true,
    };
    key_is && (arguments.is_none() || same_arguments(row.binding.arguments.as_ref(), arguments))
}

/// Whether one of the bindings is what is asked for.
pub(crate) fn any_asked(
    rows: Rows<'_, Option<Value>>,
    key: Option<&Text>,
    arguments: Option<&Value>,
) -> bool
    ensures { result ≡ list_any (is_asked (option_copied key.entry) (option_copied arguments.entry)) rows.entry }
{
    let mut rows = rows;
    while let Some(row) = rows.next() {
        if is_asked(key, arguments, row) {
            return true;
        }
    }
    false
}

/// Whether there are no bindings.
pub(crate) fn is_empty(rows: Rows<'_, Option<Value>>) -> bool
    ensures { result ≡ has_none rows.entry }
{
    let mut rows = rows;
    match rows.next() {
        Some(_) => false,
        None => true,
    }
}

/// Whether arguments have an entry.
pub(crate) fn has_entry(arguments: Option<&Value>) -> bool
    ensures { result ≡ has_entry (option_copied arguments.entry) }
{
    match arguments {
        Some(Value::Map(pairs)) => !pairs.as_slice().is_empty(),
        _ => false,
    }
}
