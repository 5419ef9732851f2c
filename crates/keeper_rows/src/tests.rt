//! Rows as a keeper has them.
use crate::{RowError, read_row, write_row};
use amqp_values::{NoMemory, Octets};
use keeper_core::Row;
use std::alloc::Global;
use std::test::Fail;

/// A row of these octets.
fn row(alloc: Global, key: &[u8], content: &[u8]) -> Result<Row, NoMemory> {
    Ok(Row {
        key: Octets::from_slice(alloc, key)?,
        content: Octets::from_slice(alloc, content)?,
    })
}

/// The row that is written of what a row keeps; none of a bad row.
fn again(alloc: Global, key: &[u8], content: &[u8]) -> Result<Option<Row>, NoMemory> {
    let row = row(alloc, key, content)?;
    match read_row(alloc, &row) {
        Ok(kept) => {
            let written = write_row(alloc, &kept);
            drop(kept);
            Ok(Some(written?))
        }
        Err(RowError::BadRow) => Ok(None),
        Err(RowError::NoMemory) => Err(NoMemory),
    }
}

/// Whether a row is written as it was read.
fn is_kept(alloc: Global, key: &[u8], content: &[u8]) -> Result<bool, NoMemory> {
    match again(alloc, key, content)? {
        Some(row) => Ok(row.key.as_slice() == key && row.content.as_slice() == content),
        None => Ok(false),
    }
}

/// Whether a row is bad.
fn is_bad(alloc: Global, key: &[u8], content: &[u8]) -> Result<bool, NoMemory> {
    Ok(again(alloc, key, content)?.is_none())
}

const XID: &[u8] = &[0x42, 0, 0, 0, 1, 1, 0x61, 1, 0x62];

const COPY: &[u8] = &[2, 3, 1, 0x65, 0, 0, 0, 1, 9, 0, 0, 0, 2, 7, 8];

#[test]
fn each_kind_of_row_is_written_as_it_was_read(rt: HostRuntime) -> Result<(), Fail> {
    let alloc = rt.alloc();
    assert!(rt; is_kept(alloc, b"Ee", &[2, 2, 0, 0, 0, 0, 0])?);
    assert!(rt; is_kept(alloc, b"Qq", &[2, 0, 0, 0, 0, 0])?);
    assert!(rt; is_kept(alloc, b"R\x01e\x01qa.#", &[2, 0, 0, 0, 0])?);
    assert!(rt; is_kept(alloc, b"M\x01q\0\0\0\0\0\0\0\x05", COPY)?);
    assert!(rt; is_kept(alloc, XID, &[2, 0, 0, 0, 7])?);
    let accept = b"I\0\0\0\x01\x01a\x01b\0\0\0\x03";
    assert!(rt;
        is_kept(
            alloc,
            accept,
            &[
                2, 1, 1, 0x71, 0, 0, 0, 0, 0, 0, 0, 5, 0, 0, 0, 0, 0, 0, 0, 0, 0, 0
            ]
        )?
    );
    Ok(())
}

#[test]
fn rows_of_format_1_mended_at_opening(rt: HostRuntime) -> Result<(), Fail> {
    let alloc = rt.alloc();
    match again(alloc, b"Qq", &[1, 0, 0, 0, 0, 0])? {
        Some(row) => assert_eq!(rt; row.content.as_slice(), &[2, 0, 0, 0, 0, 0][..]),
        None => assert!(rt; false),
    }
    assert!(rt; is_bad(alloc, b"Ee", &[1, 2, 0, 0, 0, 0, 0])?);
    assert!(rt; is_bad(alloc, b"R\x01e\x01q", &[1, 0, 0, 0, 0])?);
    assert!(rt; is_bad(alloc, b"Qq", &[3, 0, 0, 0, 0, 0])?);
    Ok(())
}

#[test]
fn a_bad_row_is_refused(rt: HostRuntime) -> Result<(), Fail> {
    let alloc = rt.alloc();
    // Nothing behind the key, or something behind the end.
    assert!(rt; is_bad(alloc, b"Qq", &[])?);
    assert!(rt; is_bad(alloc, b"Qq", &[2, 0, 0, 0, 0, 0, 0])?);
    assert!(rt; is_bad(alloc, XID, &[2, 0, 0, 0])?);
    // No letter, another one, or no name.
    assert!(rt; is_bad(alloc, b"", &[2, 0, 0, 0, 0, 0])?);
    assert!(rt; is_bad(alloc, b"Zq", &[2, 0, 0, 0, 0, 0])?);
    assert!(rt; is_bad(alloc, b"Q", &[2, 0, 0, 0, 0, 0])?);
    // A name that isn't UTF-8, or one that is there from the start.
    assert!(rt; is_bad(alloc, b"Q\xff", &[2, 0, 0, 0, 0, 0])?);
    assert!(rt; is_bad(alloc, b"Eamq.x", &[2, 2, 0, 0, 0, 0, 0])?);
    // A kind that is none.
    assert!(rt; is_bad(alloc, b"Ee", &[2, 4, 0, 0, 0, 0, 0])?);
    // A copy with number 0, and a header's octets where none is.
    assert!(rt; is_bad(alloc, b"M\x01q\0\0\0\0\0\0\0\0", COPY)?);
    assert!(rt;
        is_bad(
            alloc,
            b"M\x01q\0\0\0\0\0\0\0\x05",
            &[2, 2, 0, 0, 0, 0, 1, 9, 0, 0, 0, 0]
        )?
    );
    // Arguments that are no map.
    assert!(rt; is_bad(alloc, b"Qq", &[2, 0, 0, 0, 0, 1, 0])?);
    Ok(())
}

#[test]
fn durable_exchange_and_binding(rt: HostRuntime) -> Result<(), Fail> {
    let alloc = rt.alloc();
    assert!(rt; is_kept(alloc, &[0x45, 0x65], &[2, 2, 0, 0, 0, 0, 0])?);
    assert!(rt; is_kept(alloc, &[0x51, 0x71], &[2, 0, 0, 0, 0, 0])?);
    let binding = [0x52, 1, 0x65, 1, 0x71, 0x61, 0x2e, 0x23];
    assert!(rt; is_kept(alloc, &binding, &[2, 0, 0, 0, 0])?);
    Ok(())
}

#[test]
fn a_binding_without_its_exchange(rt: HostRuntime) -> Result<(), Fail> {
    // The row by itself is good: what other rows there are is asked by whoever opens the store.
    let binding = [0x52, 1, 0x65, 1, 0x71, 0x6b];
    assert!(rt; is_kept(rt.alloc(), &binding, &[2, 0, 0, 0, 0])?);
    Ok(())
}
