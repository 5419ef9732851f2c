//! Bindings and headers as octets, and what they match.
use crate::{headers_match, same, same_arguments};
use amqp_values::{Value, read_value};
use std::alloc::Global;
use std::test::Fail;

/// A map of so many entries, from the octets of the entries.
fn map(alloc: Global, count: u8, entries: &[u8]) -> Result<Option<Value>, Fail> {
    let mut octets = Vec::new(alloc);
    let size = u8::try_from(entries.len()).unwrap_or(0).saturating_add(4);
    octets.extend_from_slice(&[0, 0, 0, size, 0, 0, 0, count])?;
    octets.extend_from_slice(entries)?;
    Ok(value(alloc, 0xa8, octets.as_slice()))
}

fn value(alloc: Global, code: u8, octets: &[u8]) -> Option<Value> {
    match read_value(alloc, code, octets, 0) {
        Ok((value, _)) => Some(value),
        Err(_) => None,
    }
}

/// Whether headers `a`, the octet 1, and `b`, the short text `x`, are what a binding with these entries asks for.
fn matched(alloc: Global, count: u8, asked: &[u8]) -> Result<bool, Fail> {
    let headers = map(alloc, 2, b"\x01a\x02\x01\x01b\x85\x01x".as_slice())?;
    let asked = map(alloc, count, asked)?;
    Ok(asked.is_some() && headers.is_some() && headers_match(asked.as_ref(), headers.as_ref()))
}

#[test]
fn values_are_equal_by_code_and_octets(rt: HostRuntime) -> Result<(), Fail> {
    let table: [(u8, &[u8]); 8] = [
        (0x02, &[1]),
        (0x02, &[2]),
        (0x01, &[1]),
        (0x85, &[1, 97]),
        (0x95, &[0, 1, 97]),
        (0xf0, &[]),
        (0xa9, &[0, 0, 0, 8, 0, 0, 0, 2, 2, 1, 2, 2]),
        (0xa9, &[0, 0, 0, 6, 0, 0, 0, 1, 2, 1]),
    ];
    for i in 0..table.len() {
        for j in 0..table.len() {
            match (
                value(rt.alloc(), table[i].0, table[i].1),
                value(rt.alloc(), table[j].0, table[j].1),
            ) {
                (Some(a), Some(b)) => assert_eq!(rt; same(&a, &b), i == j),
                _ => assert!(rt; false),
            }
        }
    }
    Ok(())
}

/// Whether arguments with these entries are the same as those with others.
fn alike(alloc: Global, count: u8, entries: &[u8], others: u8, more: &[u8]) -> Result<bool, Fail> {
    let a = map(alloc, count, entries)?;
    let b = map(alloc, others, more)?;
    Ok(a.is_some() && same_arguments(a.as_ref(), b.as_ref()))
}

#[test]
fn missing_arguments_equal_missing_ones(rt: HostRuntime) -> Result<(), Fail> {
    let alloc = rt.alloc();
    let one = b"\x01a\x02\x01".as_slice();
    assert!(rt; same_arguments(None, None));
    assert!(rt; !same_arguments(None, map(alloc, 1, one)?.as_ref()));
    assert!(rt; alike(alloc, 1, one, 1, one)?);
    assert!(rt; !alike(alloc, 1, one, 0, b"".as_slice())?);
    assert!(rt; alike(alloc, 0, b"".as_slice(), 0, b"".as_slice())?);
    Ok(())
}

#[test]
fn all_entries_are_asked_for(rt: HostRuntime) -> Result<(), Fail> {
    let alloc = rt.alloc();
    assert!(rt; matched(alloc, 0, &[])?);
    assert!(rt; matched(alloc, 1, b"\x01a\x02\x01".as_slice())?);
    assert!(rt; matched(alloc, 2, b"\x01b\x85\x01x\x01a\x02\x01".as_slice())?);
    assert!(rt; !matched(alloc, 2, b"\x01b\x85\x01y\x01a\x02\x01".as_slice())?);
    assert!(rt; !matched(alloc, 1, b"\x01c\x02\x01".as_slice())?);
    assert!(rt; matched(alloc, 1, b"\x01b\xf0".as_slice())?);
    assert!(rt; !matched(alloc, 1, b"\x01c\xf0".as_slice())?);
    assert!(rt; !matched(alloc, 1, b"\x01b\x95\x00\x01x".as_slice())?);
    assert!(rt; matched(alloc, 2, b"\x03x-a\x02\x09\x01a\x02\x01".as_slice())?);
    Ok(())
}

#[test]
fn one_entry_is_enough_where_any_is_asked(rt: HostRuntime) -> Result<(), Fail> {
    let alloc = rt.alloc();
    assert!(rt; matched(alloc, 2, b"\x07x-match\x85\x03any\x01a\x02\x01".as_slice())?);
    assert!(rt;
        matched(
            alloc,
            3,
            b"\x01c\x02\x01\x07x-match\x95\x00\x03any\x01b\x85\x01x".as_slice()
        )?
    );
    assert!(rt; !matched(alloc, 2, b"\x07x-match\x85\x03any\x01c\x02\x01".as_slice())?);
    assert!(rt; !matched(alloc, 1, b"\x07x-match\x85\x03any".as_slice())?);
    assert!(rt; matched(alloc, 1, b"\x07x-match\x85\x03all".as_slice())?);
    assert!(rt;
        !matched(
            alloc,
            3,
            b"\x07x-match\x85\x03Any\x01a\x02\x01\x01c\x02\x01".as_slice()
        )?
    );
    assert!(rt; headers_match(None, None));
    Ok(())
}
