//! Units read and written, with ample memory.
ghost use Rattle.std.specs.Prelude.{◌≡◌, [], ◌∷◌, ◌<◌, IfOk};

use crate::{CommandKind, UnitError, UnitFault, command_kind, control_kind, read_unit, write_unit};
use amqp_frames::{Assembly, Segment};
use amqp_terms::{Command, Unit};
use amqp_values::{NoMemory, Why};
use bytes::Bytes;
use hex::FromHexError;
use std::alloc::Global;
use std::test::Fail;

/// Each control with all of its fields, and with none.
const CONTROLS: [&str; 48] = [
    "01010700000000080000000101610801000000059500000000000000059500000000",
    "01020f00000000080000000101610801016100000002ff000161",
    "0103010000000002ff00",
    "0104010000000002ff00",
    "01050f000708070807080708",
    "01060700070807080708",
    "010707000161000000059500000000",
    "01080100000000059500000000",
    "010a0000",
    "010b030007080161",
    "010c0000",
    "020103000002ff00",
    "020201000002ff00",
    "020301000002ff00",
    "020403000002ff0007",
    "0205010001020304",
    "0206010001020304",
    "02070300010203040102030405060708",
    "0208030000080000000100000002000000059500000000",
    "0209030000080000000100000002000000059500000000",
    "020a030000080000000100000002",
    "020b010000080000000100000002",
    "020c0700",
    "020d010000080000000100000002",
    "01010000",
    "01020000",
    "01030000",
    "01040000",
    "01050000",
    "01060000",
    "01070000",
    "01080000",
    "010a0000",
    "010b0000",
    "010c0000",
    "02010000",
    "02020000",
    "02030000",
    "02040000",
    "02050000",
    "02060000",
    "02070000",
    "02080000",
    "02090000",
    "020a0000",
    "020b0000",
    "020c0000",
    "020d0000",
];

/// Each command with all of its fields and sync, and with none.
const COMMANDS: [&str; 74] = [
    "030101010000",
    "03020101030001020304000000020601",
    "030301017f00070801020304070707000161000000080000000101610801",
    "04010101070001610707",
    "04020101010000080000000100000002",
    "0403010107000008000000010000000207080161",
    "04040101030000080000000100000002",
    "04050101010000080000000100000002",
    "04070101ff000161016107070001610102030405060708000000080000000101610801",
    "0408010101000161",
    "040901010300016107",
    "040a0101070001610701020304",
    "040b010101000161",
    "040c010101000161",
    "050101010000",
    "050201010000",
    "050301010000",
    "060101010000",
    "0602010107000000000c060407000000000101610162",
    "0603010107000000000c060407000000000101610162",
    "0604010103000000000c060407000000000101610162",
    "0605010101000000000c060407000000000101610162",
    "0606010101000000000c060407000000000101610162",
    "0607010101000000000c060407000000000101610162",
    "0609010101000000000c060407000000000101610162",
    "060801010000",
    "060a010103000000000c06040700000000010161016201020304",
    "070101017f00016101610161000000080000000101610801",
    "0702010103000161",
    "0703010101000161",
    "070401010f00016101610161000000080000000101610801",
    "070501010700016101610161",
    "070601010f00016101610161000000080000000101610801",
    "080101017f0001610161000000080000000101610801",
    "0802010107000161",
    "0803010101000161",
    "0804010101000161",
    "030101000000",
    "030201000000",
    "030301000000",
    "040101000000",
    "040201000000",
    "040301000000",
    "040401000000",
    "040501000000",
    "040701000000",
    "040801000000",
    "040901000000",
    "040a01000000",
    "040b01000000",
    "040c01000000",
    "050101000000",
    "050201000000",
    "050301000000",
    "060101000000",
    "060201000000",
    "060301000000",
    "060401000000",
    "060501000000",
    "060601000000",
    "060701000000",
    "060901000000",
    "060801000000",
    "060a01000000",
    "070101000000",
    "070201000000",
    "070301000000",
    "070401000000",
    "070501000000",
    "070601000000",
    "080101000000",
    "080201000000",
    "080301000000",
    "080401000000",
];

/// The octets of hex digits; none for other texts.
fn octets_of(alloc: Global, text: &str) -> Result<Vec<u8>, NoMemory> {
    match hex::decode(alloc, text.as_bytes()) {
        Ok(octets) => Ok(octets),
        Err(FromHexError::OutOfMemory) => Err(NoMemory),
        Err(_) => Ok(Vec::new(alloc)),
    }
}

/// An assembly of one segment.
fn alone(alloc: Global, kind: u8, octets: Vec<u8>) -> Result<Assembly, NoMemory>
    ensures { IfOk result (λ assembly. assembly ≡ record { kind = kind; octets = octets.items } ∷ []) }
{
    let mut assembly = Assembly::new(alloc);
    match Bytes::from_vec(octets) {
        Ok(octets) => {
            assembly.push(Segment { kind, octets })?;
            Ok(assembly)
        }
        Err(_) => Err(NoMemory),
    }
}

/// Whether a control's segment is read, and written so.
fn is_control(alloc: Global, octets: Vec<u8>) -> Result<bool, NoMemory> {
    let assembly = alone(alloc, 0, octets)?;
    match read_unit(alloc, &assembly) {
        Ok(unit) => Ok(is_written(&assembly, &write_unit(alloc, &unit)?)),
        Err(_) => Ok(false),
    }
}

/// Whether a command's segment is read, and written so.
fn is_command(alloc: Global, octets: Vec<u8>) -> Result<bool, NoMemory> {
    let assembly = alone(alloc, 1, octets)?;
    match read_unit(alloc, &assembly) {
        Ok(unit) => Ok(is_written(&assembly, &write_unit(alloc, &unit)?)),
        Err(_) => Ok(false),
    }
}

/// Whether two assemblies have one segment each, alike.
fn is_written(one: &Assembly, other: &Assembly) -> bool {
    match (one.as_slice(), other.as_slice()) {
        ([one], [other]) => {
            one.kind == other.kind && one.octets.as_slice() == other.octets.as_slice()
        }
        _ => false,
    }
}

/// The first fault of a segment: its index within the segment, and the reason.
fn fault_of(alloc: Global, control: bool, text: &str) -> Result<Option<(u64, Why)>, NoMemory> {
    let octets = octets_of(alloc, text)?;
    let read = if control {
        read_unit(alloc, &alone(alloc, 0, octets)?)
    } else {
        read_unit(alloc, &alone(alloc, 1, octets)?)
    };
    match read {
        Err(
            UnitError::Bad(
                UnitFault {
                    segment: 0,
                    at,
                    why,
                },
            ),
        ) => Ok(Some((at, why))),
        _ => Ok(None),
    }
}

#[test]
fn each_control_is_written_as_read(rt: HostRuntime) -> Result<(), Fail> {
    let alloc = rt.alloc();
    for text in CONTROLS.as_slice() {
        assert!(rt; is_control(alloc, octets_of(alloc, text)?)?);
    }
    Ok(())
}

#[test]
fn each_command_is_written_as_read(rt: HostRuntime) -> Result<(), Fail> {
    let alloc = rt.alloc();
    for text in COMMANDS.as_slice() {
        assert!(rt; is_command(alloc, octets_of(alloc, text)?)?);
    }
    Ok(())
}

#[test]
fn an_unknown_command_is_written_as_read(rt: HostRuntime) -> Result<(), Fail> {
    let alloc = rt.alloc();
    assert!(rt; command_kind(4, 6) == None);
    assert!(rt; command_kind(8, 1) == Some(CommandKind::QueueDeclare));
    assert!(rt; control_kind(1, 9) == None);
    assert!(rt; is_command(alloc, octets_of(alloc, "04060101ff")?)?);
    Ok(())
}

#[test]
fn each_reason_at_its_place(rt: HostRuntime) -> Result<(), Fail> {
    let alloc = rt.alloc();
    assert!(rt; fault_of(alloc, true, "02")? == Some((0, Why::Short)));
    assert!(rt; fault_of(alloc, true, "0301")? == Some((0, Why::UnknownClass)));
    assert!(rt; fault_of(alloc, true, "0109")? == Some((1, Why::UnknownControl)));
    assert!(rt; fault_of(alloc, true, "0201")? == Some((2, Why::Short)));
    assert!(rt; fault_of(alloc, true, "02010400")? == Some((2, Why::ReservedFlag)));
    assert!(rt; fault_of(alloc, true, "020c000000")? == Some((4, Why::TrailingOctets)));
    assert!(rt; fault_of(alloc, false, "02010100")? == Some((0, Why::UnknownClass)));
    assert!(rt; fault_of(alloc, false, "0b010100")? == Some((0, Why::UnknownClass)));
    assert!(rt; fault_of(alloc, false, "030101")? == Some((2, Why::Short)));
    assert!(rt; fault_of(alloc, false, "03010102")? == Some((2, Why::BadSessionHeader)));
    assert!(rt; fault_of(alloc, false, "03010200")? == Some((2, Why::BadSessionHeader)));
    Ok(())
}

// A worked row of the project's rules: a flag beyond the fields of queue.declare.
#[test]
fn a_reserved_flag(rt: HostRuntime) -> Result<(), Fail> {
    let alloc = rt.alloc();
    assert!(rt; fault_of(alloc, false, "080101000002")? == Some((5, Why::ReservedFlag)));
    Ok(())
}

// The units that a session's first commands are: attach `s`, command-point 0, queue.declare `q`.
#[test]
fn the_units_of_show(rt: HostRuntime) -> Result<(), Fail> {
    let alloc = rt.alloc();
    assert!(rt; is_control(alloc, octets_of(alloc, "02010100000173")?)?);
    assert!(rt; is_control(alloc, octets_of(alloc, "02070300000000000000000000000000")?)?);
    assert!(rt; is_command(alloc, octets_of(alloc, "0801010001000171")?)?);
    Ok(())
}

/// The place and the segment of the first fault of two segments.
fn content_fault(alloc: Global, first: &str, header: &str) -> Result<Option<UnitFault>, NoMemory> {
    let mut assembly = alone(alloc, 1, octets_of(alloc, first)?)?;
    match Bytes::from_vec(octets_of(alloc, header)?) {
        Ok(octets) => assembly.push(Segment { kind: 2, octets })?,
        Err(_) => return Err(NoMemory),
    }
    match read_unit(alloc, &assembly) {
        Err(UnitError::Bad(fault)) => Ok(Some(fault)),
        _ => Ok(None),
    }
}

#[test]
fn content_stands_where_it_may(rt: HostRuntime) -> Result<(), Fail> {
    let alloc = rt.alloc();
    assert!(rt;
        content_fault(alloc, "030101000000", "")?
            == Some(UnitFault {
                segment: 1,
                at: 0,
                why: Why::ContentNotAllowed,
            })
    );
    assert!(rt; content_fault(alloc, "040101000000", "")? == None);
    assert!(rt;
        content_fault(alloc, "040101000000", "00000001")?
            == Some(UnitFault {
                segment: 1,
                at: 0,
                why: Why::Short,
            })
    );
    assert!(rt;
        content_fault(alloc, "040101000000", "0000000404010010")?
            == Some(UnitFault {
                segment: 1,
                at: 7,
                why: Why::ReservedFlag,
            })
    );
    Ok(())
}
