//! Fields read and written, with ample memory.
use crate::{Field, FieldKind, PackError, read_fields, write_fields};
use amqp_values::{Items, ValueFault, Why};
use std::alloc::Global;
use std::test::Fail;

/// The index and the reason of the first fault, for a table of one kind.
fn fault_of(alloc: Global, kind: FieldKind, octets: &[u8]) -> Option<(usize, Why)> {
    match read_fields(alloc, &[kind], octets, 0) {
        Err(PackError::Bad(ValueFault { at, why })) => Some((at, why)),
        _ => None,
    }
}

/// Whether a field of the kind is read to the octets' end, and written so.
fn is_written(alloc: Global, kind: FieldKind, octets: &[u8], written: &[u8]) -> Result<bool, Fail> {
    let table = [kind];
    match read_fields(alloc, table.as_slice(), octets, 0) {
        Ok((fields, end)) => {
            let mut out = Vec::new(alloc);
            write_fields(alloc, table.as_slice(), &fields, &mut out)?;
            Ok(end == octets.len() && out.as_slice() == written)
        }
        Err(_) => Ok(false),
    }
}

/// Whether a field of the kind is read to the octets' end, and written as it was read.
fn is_read(alloc: Global, kind: FieldKind, octets: &[u8]) -> Result<bool, Fail> {
    is_written(alloc, kind, octets, octets)
}

#[test]
fn each_kind_is_written_as_read(rt: HostRuntime) -> Result<(), Fail> {
    let alloc = rt.alloc();
    assert!(rt; is_read(alloc, FieldKind::Bit, &[1, 0])?);
    assert!(rt; is_read(alloc, FieldKind::U8, &[0, 0])?);
    assert!(rt; is_read(alloc, FieldKind::U8, &[1, 0, 7])?);
    assert!(rt; is_read(alloc, FieldKind::U16, &[1, 0, 7, 7])?);
    assert!(rt; is_read(alloc, FieldKind::U32, &[1, 0, 7, 7, 7, 7])?);
    assert!(rt; is_read(alloc, FieldKind::U64, &[1, 0, 7, 7, 7, 7, 7, 7, 7, 7])?);
    assert!(rt; is_read(alloc, FieldKind::Str8, &[1, 0, 1, 97])?);
    assert!(rt; is_read(alloc, FieldKind::Str16, &[1, 0, 0, 1, 97])?);
    assert!(rt; is_read(alloc, FieldKind::Vbin8, &[1, 0, 1, 255])?);
    assert!(rt; is_read(alloc, FieldKind::Vbin16, &[1, 0, 0, 1, 255])?);
    assert!(rt; is_read(alloc, FieldKind::Vbin32, &[1, 0, 0, 0, 0, 1, 255])?);
    assert!(rt;
        is_read(
            alloc,
            FieldKind::Uuid,
            &[1, 0, 1, 2, 3, 4, 5, 6, 7, 8, 9, 10, 11, 12, 13, 14, 15, 16]
        )?
    );
    assert!(rt; is_read(alloc, FieldKind::Datetime, &[1, 0, 7, 7, 7, 7, 7, 7, 7, 7])?);
    assert!(rt; is_read(alloc, FieldKind::Map, &[1, 0, 0, 0, 0, 0])?);
    assert!(rt; is_read(alloc, FieldKind::Array, &[1, 0, 0, 0, 0, 0])?);
    assert!(rt;
        is_read(
            alloc,
            FieldKind::Ranges,
            &[1, 0, 0, 8, 0, 0, 0, 1, 0, 0, 0, 2]
        )?
    );
    assert!(rt; is_read(alloc, FieldKind::Struct32, &[1, 0, 0, 0, 0, 1, 255])?);
    assert!(rt;
        is_read(
            alloc,
            FieldKind::Xid,
            &[1, 0, 0, 0, 0, 12, 6, 4, 7, 0, 0, 0, 0, 1, 1, 2, 1, 3]
        )?
    );
    assert!(rt; is_read(alloc, FieldKind::ReplyTo, &[1, 0, 0, 6, 3, 0, 1, 97, 1, 98])?);
    Ok(())
}

#[test]
fn each_reason_at_its_place(rt: HostRuntime) -> Result<(), Fail> {
    let alloc = rt.alloc();
    assert_eq!(rt; fault_of(alloc, FieldKind::U8, &[1]), Some((0, Why::Short)));
    assert_eq!(rt;
        fault_of(alloc, FieldKind::U8, &[1, 0]),
        Some((2, Why::Short))
    );
    assert_eq!(rt;
        fault_of(alloc, FieldKind::U8, &[2, 0]),
        Some((0, Why::ReservedFlag))
    );
    assert_eq!(rt;
        fault_of(alloc, FieldKind::U8, &[1, 1]),
        Some((1, Why::ReservedFlag))
    );
    assert_eq!(rt;
        fault_of(alloc, FieldKind::U8, &[2, 1]),
        Some((0, Why::ReservedFlag))
    );
    assert_eq!(rt;
        fault_of(alloc, FieldKind::Str8, &[1, 0, 1, 255]),
        Some((3, Why::BadText))
    );
    assert_eq!(rt;
        fault_of(alloc, FieldKind::Ranges, &[1, 0, 0, 4, 0, 0, 0, 0]),
        Some((2, Why::BadRanges))
    );
    assert_eq!(rt;
        fault_of(
            alloc,
            FieldKind::Ranges,
            &[
                1, 0, 0, 16, 0, 0, 0, 0, 0, 0, 0, 0, 0, 0, 0, 0, 128, 0, 0, 0
            ]
        ),
        Some((12, Why::BadRanges))
    );
    assert_eq!(rt;
        fault_of(alloc, FieldKind::Ranges, &[1, 0, 0, 4]),
        Some((2, Why::Short))
    );
    assert_eq!(rt;
        fault_of(alloc, FieldKind::Xid, &[1, 0, 0, 0, 0, 4, 6, 5, 0, 0]),
        Some((6, Why::BadStruct))
    );
    assert_eq!(rt;
        fault_of(alloc, FieldKind::Xid, &[1, 0, 0, 0, 0, 5, 6, 4, 0, 0, 9]),
        Some((10, Why::SizeDiffers))
    );
    assert_eq!(rt;
        fault_of(alloc, FieldKind::ReplyTo, &[1, 0, 0, 3, 0, 0, 9]),
        Some((6, Why::SizeDiffers))
    );
    assert_eq!(rt;
        fault_of(alloc, FieldKind::ReplyTo, &[1, 0, 0, 2, 4, 0]),
        Some((4, Why::ReservedFlag))
    );
    Ok(())
}

#[test]
fn absent_fields_of_an_xid_and_a_reply_to_are_written(rt: HostRuntime) -> Result<(), Fail> {
    let alloc = rt.alloc();
    let xid = [1, 0, 0, 0, 0, 4, 6, 4, 0, 0];
    let all = [1, 0, 0, 0, 0, 10, 6, 4, 7, 0, 0, 0, 0, 0, 0, 0];
    assert!(rt; is_written(alloc, FieldKind::Xid, xid.as_slice(), all.as_slice())?);
    let reply = [1, 0, 0, 4, 2, 0, 1, 97];
    let both = [1, 0, 0, 5, 3, 0, 0, 1, 97];
    assert!(rt; is_written(alloc, FieldKind::ReplyTo, reply.as_slice(), both.as_slice())?);
    Ok(())
}

#[test]
#[tactic(auto, unfolding(crate::specs::Spelling::Alike))]
fn absent_fields_have_no_octets(rt: HostRuntime) -> Result<(), Fail> {
    let alloc = rt.alloc();
    let table = [FieldKind::U8, FieldKind::Bit, FieldKind::U16];
    let mut fields = Items::new(alloc);
    fields.push(Field::Absent)?;
    fields.push(Field::Bit)?;
    fields.push(Field::U16(258))?;
    let mut out = Vec::new(alloc);
    write_fields(alloc, table.as_slice(), &fields, &mut out)?;
    assert_eq!(rt; out.as_slice(), [6, 0, 1, 2].as_slice());
    Ok(())
}
