//! Runs of `show` and `reframe` over small inputs, and over inputs that pass a limit, as tests.
use keeper_core::MapKeeper;
use octet_reading::{NoMemory, Why};
use outside_core::{Calls, MemSink, MemSource};
use std::alloc::Global;
use std::test::Fail;
use trace_tool::{Status, run_tool};

/// No call fails.
fn none(alloc: Global) -> Calls {
    Calls::from_vec(Vec::new(alloc))
}

/// The status of a run over octets, and what it wrote.
fn ran(
    alloc: Global,
    word: &str,
    number: Option<&str>,
    octets: Vec<u8>,
) -> Result<(Status, MemSink), NoMemory> {
    let mut input = MemSource::new(octets, 70_001, none(alloc));
    let mut out = MemSink::new(alloc, 4_001, none(alloc));
    let mut words = Vec::new(alloc);
    words.push(String::from_str(alloc, word)?)?;
    if let Some(number) = number {
        words.push(String::from_str(alloc, number)?)?;
    }
    let keeper = MapKeeper::new(alloc, none(alloc), none(alloc));
    let (status, _) = run_tool(alloc, words.as_slice(), &mut input, &mut out, keeper);
    Ok((status, out))
}

/// Puts a frame of this head with so many octets of payload, all 0.
fn put_frame(
    out: &mut Vec<u8>,
    flags: u8,
    kind: u8,
    channel: u8,
    payload: u16,
) -> Result<(), NoMemory> {
    let [high, low] = payload.saturating_add(12).to_be_bytes();
    let track = if kind == 0 { 0 } else { 1 };
    let head = [flags, kind, high, low, 0, track, 0, channel, 0, 0, 0, 0];
    out.extend_from_slice(head.as_slice())?;
    for _ in 0..payload {
        out.push(0)?;
    }
    Ok(())
}

/// Puts the command frame of a message.transfer with the empty destination, whose content follows.
fn put_transfer(out: &mut Vec<u8>, channel: u8) -> Result<(), NoMemory> {
    let frame = [
        0x0b, 1, 0, 18, 0, 1, 0, channel, 0, 0, 0, 0, 4, 1, 1, 0, 0, 0,
    ];
    out.extend_from_slice(frame.as_slice())?;
    Ok(())
}

#[test]
fn show(rt: HostRuntime) -> Result<(), Fail> {
    let alloc = rt.alloc();
    let octets = hex::decode(
        alloc,
        "0f0000130000000100000000020101000001730f00001c0000000100000000020703000000000000000000000000000f01001400010001000000000801010001000171",
    )?;
    let (status, out) = ran(alloc, "show", None, octets)?;
    assert_eq!(rt; status, Status::Ok);
    assert!(rt;
        out.octets()
            == b"0 1 session.attach name=73\n19 1 session.command-point command-id=0 command-offset=0\n47 1 queue.declare queue=71\n".as_slice()
    );
    Ok(())
}

#[test]
fn reframe(rt: HostRuntime) -> Result<(), Fail> {
    let alloc = rt.alloc();
    let mut octets = Vec::new(alloc);
    put_transfer(&mut octets, 1)?;
    put_frame(&mut octets, 7, 3, 1, 5_000)?;
    let mut wanted = Vec::new(alloc);
    put_transfer(&mut wanted, 1)?;
    put_frame(&mut wanted, 6, 3, 1, 4_084)?;
    put_frame(&mut wanted, 5, 3, 1, 916)?;
    let (status, out) = ran(alloc, "reframe", Some("4096"), octets)?;
    assert_eq!(rt; status, Status::Ok);
    assert!(rt; out.octets() == wanted.as_slice());
    Ok(())
}

#[test]
fn a_largest_frame_below_4096_is_no_form(rt: HostRuntime) -> Result<(), Fail> {
    let alloc = rt.alloc();
    let (status, out) = ran(alloc, "reframe", Some("4095"), Vec::new(alloc))?;
    assert_eq!(rt; status, Status::Usage);
    assert!(rt; out.octets().is_empty());
    Ok(())
}

// What came before the fault is shown.
#[test]
fn a_fault_is_named_by_its_place(rt: HostRuntime) -> Result<(), Fail> {
    let alloc = rt.alloc();
    let octets = hex::decode(
        alloc,
        "414d51500101000a0f0000130000000100000000020101000001730f01000b0001000100000000",
    )?;
    let (status, out) = ran(alloc, "show", None, octets)?;
    assert_eq!(rt;
        status,
        Status::Malformed {
            at: 27,
            why: Why::BadSize
        }
    );
    assert!(rt; out.octets() == b"8 1 session.attach name=73\n".as_slice());
    Ok(())
}

// A third assembly beside two of 16,000,000 octets.
#[test]
fn too_much_open(rt: HostRuntime) -> Result<(), Fail> {
    let alloc = rt.alloc();
    let mut octets = Vec::new(alloc);
    for channel in 0..2 {
        put_transfer(&mut octets, channel)?;
        put_frame(&mut octets, 6, 3, channel, 65_523)?;
        for _ in 0..243 {
            put_frame(&mut octets, 4, 3, channel, 65_523)?;
        }
        put_frame(&mut octets, 4, 3, channel, 12_382)?;
    }
    put_transfer(&mut octets, 2)?;
    put_frame(&mut octets, 6, 3, 2, 65_523)?;
    for _ in 0..22 {
        put_frame(&mut octets, 4, 3, 2, 65_523)?;
    }
    let at = octets.len() as u64;
    put_frame(&mut octets, 4, 3, 2, 65_523)?;
    let (status, out) = ran(alloc, "show", None, octets)?;
    assert_eq!(rt;
        status,
        Status::Malformed {
            at,
            why: Why::TooMuchOpen
        }
    );
    assert!(rt; out.octets().is_empty());
    Ok(())
}
