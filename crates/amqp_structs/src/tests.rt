//! Headers read, measured and written, with ample memory.
use crate::{HeaderError, header_size, read_header, read_result, write_header, write_result};
use amqp_terms::{DeliveryProperties, Header, HeaderItem, ResultValue};
use amqp_values::{NoMemory, ValueFault, Why};
use hex::FromHexError;
use std::alloc::Global;
use std::test::Fail;

/// Each struct with all of its fields.
const DELIVERY: &str =
    "0000002d0401ff0f0707010203040506070801020304050607080102030405060708016101610001610102030405060708";

const MESSAGE: &str =
    "000000400403ff010102030405060708000102030405060708090a0b0c0d0e0f0002ff000006030001610162016101610002ff000002ff00000000080000000101610801";

/// Each result with all of its fields, and with none.
const RESULTS: [&str; 14] = [
    "0404010000080000000100000002",
    "060101000708",
    "0602010001020304",
    "06030100000000059500000000",
    "07010f000161000000080000000101610801",
    "07021f00",
    "0801ff00016101610000000800000001016108010102030401020304",
    "04040000",
    "06010000",
    "06020000",
    "06030000",
    "07010000",
    "07020000",
    "08010000",
];

/// The octets of hex digits; none for other texts.
fn octets_of(alloc: Global, text: &str) -> Result<Vec<u8>, NoMemory> {
    match hex::decode(alloc, text.as_bytes()) {
        Ok(octets) => Ok(octets),
        Err(FromHexError::OutOfMemory) => Err(NoMemory),
        Err(_) => Ok(Vec::new(alloc)),
    }
}

/// Whether the octets are read as so many structs, which have as many octets.
fn is_read(alloc: Global, text: &str, count: usize) -> Result<bool, NoMemory> {
    let octets = octets_of(alloc, text)?;
    match read_header(alloc, octets.as_slice()) {
        Ok(header) => Ok(
            header.as_slice().len() == count && header_size(&header) == octets.len() as u64,
        ),
        Err(_) => Ok(false),
    }
}

/// The index and the reason of the first fault.
fn fault_of(alloc: Global, text: &str) -> Result<Option<(usize, Why)>, NoMemory> {
    let octets = octets_of(alloc, text)?;
    match read_header(alloc, octets.as_slice()) {
        Err(HeaderError::Bad(ValueFault { at, why })) => Ok(Some((at, why))),
        _ => Ok(None),
    }
}

#[test]
fn each_struct_is_measured_as_read(rt: HostRuntime) -> Result<(), Fail> {
    let alloc = rt.alloc();
    assert!(rt; is_read(alloc, "", 0)?);
    assert!(rt; is_read(alloc, DELIVERY, 1)?);
    assert!(rt; is_read(alloc, MESSAGE, 1)?);
    assert!(rt; is_read(alloc, "00000003040200", 1)?);
    assert!(rt; is_read(alloc, "0000000404010000000000020402", 2)?);
    Ok(())
}

#[test]
fn each_reason_at_its_place(rt: HostRuntime) -> Result<(), Fail> {
    let alloc = rt.alloc();
    assert!(rt; fault_of(alloc, "000000")? == Some((0, Why::Short)));
    assert!(rt; fault_of(alloc, "00000002040200000001")? == Some((6, Why::Short)));
    assert!(rt; fault_of(alloc, "0000000104")? == Some((0, Why::BadStruct)));
    assert!(rt; fault_of(alloc, "00000001")? == Some((0, Why::Short)));
    assert!(rt; fault_of(alloc, "000000020401")? == Some((6, Why::Short)));
    assert!(rt; fault_of(alloc, "0000000404010010")? == Some((7, Why::ReservedFlag)));
    assert!(rt; fault_of(alloc, "000000050403000000")? == Some((8, Why::SizeDiffers)));
    Ok(())
}

#[test]
#[tactic(auto, unfolding(crate::specs::Header::delivery_fields))]
fn a_struct_without_fields_is_written(rt: HostRuntime) -> Result<(), Fail> {
    let alloc = rt.alloc();
    let mut header = Header::new(alloc);
    header.push(HeaderItem::Delivery(DeliveryProperties {
        discard_unroutable: false,
        immediate: false,
        redelivered: true,
        priority: None,
        delivery_mode: None,
        ttl: None,
        timestamp: None,
        expiration: None,
        exchange: None,
        routing_key: None,
        resume_id: None,
        resume_ttl: None,
    }))?;
    let mut out = Vec::new(alloc);
    write_header(alloc, &header, &mut out)?;
    assert!(rt; out.as_slice() == octets_of(alloc, "0000000404010400")?.as_slice());
    Ok(())
}

/// Whether a result is read, and written so.
fn is_result(alloc: Global, text: &str) -> Result<bool, NoMemory> {
    let octets = octets_of(alloc, text)?;
    match read_result(alloc, octets.as_slice()) {
        Ok(value) => {
            let written = write_result(alloc, &value)?;
            Ok(written.as_slice() == octets.as_slice())
        }
        Err(_) => Ok(false),
    }
}

#[test]
fn each_result_is_written_as_read(rt: HostRuntime) -> Result<(), Fail> {
    let alloc = rt.alloc();
    for text in RESULTS.as_slice() {
        assert!(rt; is_result(alloc, text)?);
    }
    assert!(rt; !is_result(alloc, "06040000")?);
    Ok(())
}

// The result of dtx.prepare and of dtx.commit, where all went well.
#[test]
fn a_prepared_branch_over_a_restart(rt: HostRuntime) -> Result<(), Fail> {
    let alloc = rt.alloc();
    let value = ResultValue::XaResult { status: Some(0) };
    let written = write_result(alloc, &value)?;
    assert!(rt; written.as_slice() == octets_of(alloc, "060101000000")?.as_slice());
    Ok(())
}
