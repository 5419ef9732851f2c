//! Values read and written, with ample memory.
use crate::{Value, ValueError, ValueFault, Why, read_value, size_of, valid, write_value};
use std::alloc::Global;
use std::test::Fail;

/// The index and the reason of the first fault.
fn fault_of(alloc: Global, code: u8, octets: &[u8]) -> Option<(usize, Why)> {
    match read_value(alloc, code, octets, 0) {
        Err(ValueError::Bad(ValueFault { at, why })) => Some((at, why)),
        _ => None,
    }
}

/// Whether a value is read to its end, has that size, and is written as it was read.
fn is_read(alloc: Global, code: u8, octets: &[u8]) -> Result<bool, Fail> {
    match read_value(alloc, code, octets, 0) {
        Ok((value, end)) => {
            if !valid(&value) {
                return Ok(false);
            }
            let mut out = Vec::new(alloc);
            write_value(alloc, &value, &mut out)?;
            let copy = value.copied(alloc)?;
            Ok(
                end == octets.len()
                    && size_of(&copy) == octets.len() as u64
                    && out.as_slice() == octets,
            )
        }
        Err(_) => Ok(false),
    }
}

#[test]
fn reading_maps(rt: HostRuntime) -> Result<(), Fail> {
    let alloc = rt.alloc();
    match read_value(alloc, 0xa8, &[0, 0, 0, 4, 0, 0, 0, 0], 0) {
        Ok((Value::Map(pairs), 8)) => assert!(rt; pairs.is_empty()),
        _ => assert!(rt; false),
    }
    match read_value(alloc, 0xa8, &[0, 0, 0, 0], 0) {
        Ok((Value::Bare { code }, 4)) => assert_eq!(rt; code, 0xa8),
        _ => assert!(rt; false),
    }
    let twice = [0, 0, 0, 12, 0, 0, 0, 2, 1, 97, 8, 1, 1, 97, 8, 0];
    assert_eq!(rt; fault_of(alloc, 0xa8, &twice), Some((12, Why::RepeatedKey)));
    let two = [0, 0, 0, 8, 0, 0, 0, 1, 1, 97, 8, 2];
    assert_eq!(rt; fault_of(alloc, 0xa8, &two), Some((11, Why::BadBoolean)));
    Ok(())
}

#[test]
fn each_reason_at_its_place(rt: HostRuntime) -> Result<(), Fail> {
    let alloc = rt.alloc();
    assert_eq!(rt; fault_of(alloc, 0x12, &[1]), Some((0, Why::Short)));
    assert_eq!(rt; fault_of(alloc, 0x85, &[2, 97]), Some((0, Why::Short)));
    assert_eq!(rt;
        fault_of(alloc, 0xa9, &[0, 0, 0, 3, 0, 0, 0]),
        Some((4, Why::Short))
    );
    assert_eq!(rt; fault_of(alloc, 0x03, &[1]), Some((0, Why::UnknownCode)));
    assert_eq!(rt;
        fault_of(alloc, 0xa9, &[0, 0, 0, 5, 0, 0, 0, 1, 3]),
        Some((8, Why::UnknownCode))
    );
    assert_eq!(rt;
        fault_of(alloc, 0xaa, &[0, 0, 0, 5, 0xf0, 0, 0, 0, 1]),
        Some((4, Why::UnknownCode))
    );
    assert_eq!(rt;
        fault_of(alloc, 0x95, &[0, 1, 0xff]),
        Some((2, Why::BadText))
    );
    assert_eq!(rt; fault_of(alloc, 0x08, &[2]), Some((0, Why::BadBoolean)));
    assert_eq!(rt;
        fault_of(alloc, 0xa9, &[0, 0, 0, 5, 0, 0, 0, 0, 7]),
        Some((8, Why::SizeDiffers))
    );
    assert_eq!(rt;
        fault_of(alloc, 0xa9, &[0, 0, 0, 5, 0, 0, 0, 2, 0xf0]),
        Some((4, Why::CountDiffers))
    );
    assert_eq!(rt;
        fault_of(alloc, 0xaa, &[0, 0, 0, 5, 2, 0, 0, 0, 1]),
        Some((5, Why::CountDiffers))
    );
    assert_eq!(rt;
        fault_of(alloc, 0xa8, &[0, 0, 0, 6, 0, 0, 0, 1, 1, 97]),
        Some((10, Why::Short))
    );
    Ok(())
}

#[test]
fn sixteen_containers_and_seventeen(rt: HostRuntime) -> Result<(), Fail> {
    let alloc = rt.alloc();
    let mut octets = Vec::new(alloc);
    for level in 0..15u8 {
        octets.extend_from_slice([0, 0, 0, 135 - 9 * level, 0, 0, 0, 1, 0xa9].as_slice())?;
    }
    octets.extend_from_slice([0, 0, 0, 0].as_slice())?;
    assert!(rt; is_read(alloc, 0xa9, octets.as_slice())?);
    let mut octets = Vec::new(alloc);
    for level in 0..16u8 {
        octets.extend_from_slice([0, 0, 0, 144 - 9 * level, 0, 0, 0, 1, 0xa9].as_slice())?;
    }
    octets.extend_from_slice([0, 0, 0, 0].as_slice())?;
    assert_eq!(rt;
        fault_of(alloc, 0xa9, octets.as_slice()),
        Some((144, Why::TooDeep))
    );
    Ok(())
}

#[test]
fn values_are_written_as_read(rt: HostRuntime) -> Result<(), Fail> {
    let alloc = rt.alloc();
    assert!(rt; is_read(alloc, 0x38, &[0, 0, 0, 0, 0, 0, 1, 0])?);
    assert!(rt; is_read(alloc, 0x80, &[2, 7, 8])?);
    assert!(rt; is_read(alloc, 0x95, &[0, 2, 0xc3, 0xa9])?);
    assert!(rt; is_read(alloc, 0xa0, &[0, 0, 0, 1, 9])?);
    assert!(rt;
        is_read(
            alloc,
            0xa8,
            &[
                0, 0, 0, 14, 0, 0, 0, 2, 1, 97, 8, 1, 1, 98, 0x85, 2, 120, 121
            ]
        )?
    );
    assert!(rt; is_read(alloc, 0xa9, &[0, 0, 0, 7, 0, 0, 0, 2, 0xf0, 2, 255])?);
    assert!(rt; is_read(alloc, 0xaa, &[0, 0, 0, 9, 0x12, 0, 0, 0, 2, 1, 2, 3, 4])?);
    assert!(rt; is_read(alloc, 0xab, &[0, 0, 0, 2, 4, 1])?);
    assert!(rt; is_read(alloc, 0xd8, &[1, 2, 3, 4, 5, 6, 7, 8, 9])?);
    assert!(rt; is_read(alloc, 0xf1, &[])?);
    Ok(())
}
