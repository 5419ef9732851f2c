//! Assemblies laid in frames, with ample memory.
use crate::{Assembler, Assembly, Done, Fed, FrameError, FrameFault, Segment, write_frames};
use bytes::Bytes;
use octet_reading::{NoMemory, Why};
use std::alloc::Global;
use std::test::Fail;

/// A segment of so many octets, all 0.
fn segment(alloc: Global, kind: u8, size: usize) -> Result<Segment, NoMemory> {
    let mut octets = Vec::new(alloc);
    for _ in 0..size {
        octets.push(0)?;
    }
    match Bytes::from_vec(octets) {
        Ok(octets) => Ok(Segment { kind, octets }),
        Err(_) => Err(NoMemory),
    }
}

/// The first four octets of the frame that begins at an index: flags, type and size.
fn head_at(octets: &[u8], at: usize) -> Option<[u8; 4]> {
    match (
        octets.get(at),
        octets.get(at.saturating_add(1)),
        octets.get(at.saturating_add(2)),
        octets.get(at.saturating_add(3)),
    ) {
        (Some(a), Some(b), Some(c), Some(d)) => Some([*a, *b, *c, *d]),
        _ => None,
    }
}

// A command of 10 octets with a body of 5,000, in frames of 4,096.
#[test]
fn a_body_in_two_frames(rt: HostRuntime) -> Result<(), Fail> {
    let alloc = rt.alloc();
    let mut assembly = Assembly::new(alloc);
    assembly.push(segment(alloc, 1, 10)?)?;
    assembly.push(segment(alloc, 3, 5_000)?)?;
    let mut out = Vec::new(alloc);
    write_frames(alloc, 1, &assembly, 4_096, &mut out)?;
    let out = out.as_slice();
    assert!(rt; out.len() == 22 + 4_096 + 928);
    assert!(rt; head_at(out, 0) == Some([0x0b, 1, 0, 22]));
    assert!(rt; head_at(out, 22) == Some([0x06, 3, 0x10, 0]));
    assert!(rt; head_at(out, 22 + 4_096) == Some([0x05, 3, 0x03, 0xa0]));
    Ok(())
}

#[test]
fn an_empty_segment_is_one_frame(rt: HostRuntime) -> Result<(), Fail> {
    let alloc = rt.alloc();
    let mut assembly = Assembly::new(alloc);
    assembly.push(segment(alloc, 0, 0)?)?;
    let mut out = Vec::new(alloc);
    write_frames(alloc, 258, &assembly, 4_096, &mut out)?;
    assert!(rt; out.as_slice() == [0x0f, 0, 0, 12, 0, 0, 1, 2, 0, 0, 0, 0].as_slice());
    Ok(())
}

/// Feeds octets in pieces of one size, and gives what came out.
fn fed(
    alloc: Global,
    assembler: &mut Assembler,
    octets: &[u8],
    size: usize,
) -> Result<Vec<Done>, FrameError> {
    let mut came = Vec::new(alloc);
    let mut rest = octets;
    for _ in 0..octets.len() {
        let piece = rest.get(..size).unwrap_or(rest);
        if piece.is_empty() {
            return Ok(came);
        }
        let Fed { taken, done } = assembler.feed(piece)?;
        if let Some(done) = done {
            if came.push(done).is_err() {
                return Err(FrameError::NoMemory);
            }
        }
        rest = rest.get(taken..).unwrap_or(&[]);
    }
    Ok(came)
}

// Two assemblies on channels 0 and 1, their frames mixed: each comes when its last octet does.
#[test]
fn frames_of_two_channels_in_any_cut(rt: HostRuntime) -> Result<(), Fail> {
    let alloc = rt.alloc();
    let octets = [
        0x0b, 1, 0, 14, 0, 1, 0, 0, 0, 0, 0, 0, 7, 8, 0x0f, 0, 0, 13, 0, 0, 0, 1, 0, 0, 0, 0, 9,
        0x06, 3, 0, 13, 0, 1, 0, 0, 0, 0, 0, 0, 5, 0x05, 3, 0, 13, 0, 1, 0, 0, 0, 0, 0, 0, 6,
    ];
    for size in 1..octets.len() {
        let mut assembler = Assembler::new(alloc, 65_535, 8)?;
        let Ok(came) = fed(alloc, &mut assembler, octets.as_slice(), size) else {
            return Err(Fail::new("refused"));
        };
        let [first, second] = came.as_slice() else {
            return Err(Fail::new("not two"));
        };
        assert!(rt; first.channel == 1 && first.at == 22 && first.end == 35);
        assert!(rt; second.channel == 0 && second.at == 8 && second.end == 61);
        let [command, body] = second.assembly.as_slice() else {
            return Err(Fail::new("not two segments"));
        };
        assert!(rt; command.kind == 1 && command.octets.as_slice() == [7, 8].as_slice());
        assert!(rt; body.kind == 3 && body.octets.as_slice() == [5, 6].as_slice());
    }
    Ok(())
}

// A size of 11 is refused at its twelfth octet, and so is all that follows.
#[test]
fn a_fault_stays(rt: HostRuntime) -> Result<(), Fail> {
    let alloc = rt.alloc();
    let mut assembler = Assembler::new(alloc, 65_535, 0)?;
    let octets = [0x0f, 1, 0, 11, 0, 1, 0, 1, 0, 0, 0, 0];
    let came = fed(alloc, &mut assembler, &octets[..11], 4);
    assert!(rt; came.is_ok());
    let fault = FrameFault {
        at: 0,
        why: Why::BadSize,
    };
    for _ in 0..2 {
        match assembler.feed(&octets[11..]) {
            Err(FrameError::Bad(came)) => assert_eq!(rt; came, fault),
            _ => return Err(Fail::new("taken")),
        }
    }
    Ok(())
}
