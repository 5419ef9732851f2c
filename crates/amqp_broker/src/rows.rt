//! Runs of `replay` over small traces, as tests.
use keeper_core::MapKeeper;
use line_runs::TraceWhy;
use outside_core::{Calls, MemSink, MemSource};
use std::alloc::Global;
use std::test::Fail;
use trace_tool::{Status, run_tool};

/// The status of a run over the text, where it wrote what it should.
pub(crate) fn ran(
    alloc: Global,
    word: &str,
    text: &str,
    wanted: &str,
) -> Result<Option<Status>, Fail> {
    ran_over(
        alloc,
        word,
        Vec::from_slice(alloc, text.as_bytes())?,
        wanted,
    )
}

/// The same over octets.
fn ran_over(
    alloc: Global,
    word: &str,
    octets: Vec<u8>,
    wanted: &str,
) -> Result<Option<Status>, Fail> {
    let mut input = MemSource::new(octets, 7, Calls::from_vec(Vec::new(alloc)));
    let mut out = MemSink::new(alloc, 5, Calls::from_vec(Vec::new(alloc)));
    let mut words = Vec::new(alloc);
    words.push(String::from_str(alloc, word)?)?;
    let none = Calls::from_vec(Vec::new(alloc));
    let keeper = MapKeeper::new(alloc, none, Calls::from_vec(Vec::new(alloc)));
    let (status, _) = run_tool(alloc, words.as_slice(), &mut input, &mut out, keeper);
    if out.octets() == wanted.as_bytes() {
        Ok(Some(status))
    } else {
        Ok(None)
    }
}

#[test]
fn empty_input(rt: HostRuntime) -> Result<(), Fail> {
    let status = ran(rt.alloc(), "replay", "", "end\n")?;
    assert_eq!(rt; status, Some(Status::Ok));
    Ok(())
}

#[test]
fn two_declares_in_one_piece(rt: HostRuntime) -> Result<(), Fail> {
    let status = ran(
        rt.alloc(),
        "replay",
        "ready 1\nbytes 1 0f0000130000000100000000020101000001730f00001c0000000100000000020703000000000000000000000000000f010014000100010000000008010100010001710f00001c0000000100000000020703000000000000000000000000000f01001400010001000000000801010001000171\n",
        "to 1 0f0000130000000100000000020201000001730f00001c0000000100000000020703000000000000000000000000000f00001a0000000100000000020a0100000800000000000000000f00001a0000000100000000020a010000080000000000000000\nqueue 71 0 0\nsession 73 received 1 sent 0 kept 0 on 1/1\nend\n",
    )?;
    assert_eq!(rt; status, Some(Status::Ok));
    Ok(())
}

#[test]
fn one_declare(rt: HostRuntime) -> Result<(), Fail> {
    let status = ran(
        rt.alloc(),
        "replay",
        "ready 1\nbytes 1 0f000013000000010000000002010100000173\nbytes 1 0f00001c000000010000000002070300000000000000000000000000\nbytes 1 0f01001400010001000000000801010001000171\n",
        "to 1 0f0000130000000100000000020201000001730f00001c000000010000000002070300000000000000000000000000\nto 1 0f00001a0000000100000000020a010000080000000000000000\nqueue 71 0 0\nsession 73 received 1 sent 0 kept 0 on 1/1\nend\n",
    )?;
    assert_eq!(rt; status, Some(Status::Ok));
    Ok(())
}

#[test]
fn single_octets_on_two_connections(rt: HostRuntime) -> Result<(), Fail> {
    let status = ran(
        rt.alloc(),
        "replay",
        "ready 1\nbytes 1 0f000013000000010000000002010100000173\nbytes 1 0f00001c000000010000000002070300000000000000000000000000\nready 2\nbytes 1 0f\nbytes 2 0f\nbytes 1 01\nbytes 2 00\nbytes 1 00\nbytes 2 00\nbytes 1 14\nbytes 2 13\nbytes 1 00\nbytes 2 00\nbytes 1 01\nbytes 2 00\nbytes 1 00\nbytes 2 00\nbytes 1 01\nbytes 2 01\nbytes 1 00\nbytes 2 00\nbytes 1 00\nbytes 2 00\nbytes 1 00\nbytes 2 00\nbytes 1 00\nbytes 2 00\nbytes 1 08\nbytes 2 02\nbytes 1 01\nbytes 2 01\nbytes 1 01\nbytes 2 01\nbytes 1 00\nbytes 2 00\nbytes 1 01\nbytes 2 00\nbytes 1 00\nbytes 2 01\nbytes 1 01\nbytes 2 74\nbytes 1 71\n",
        "to 1 0f0000130000000100000000020201000001730f00001c000000010000000002070300000000000000000000000000\nto 2 0f0000130000000100000000020201000001740f00001c000000010000000002070300000000000000000000000000\nto 1 0f00001a0000000100000000020a010000080000000000000000\nqueue 71 0 0\nsession 73 received 1 sent 0 kept 0 on 1/1\nsession 74 received 0 sent 0 kept 0 on 2/1\nend\n",
    )?;
    assert_eq!(rt; status, Some(Status::Ok));
    Ok(())
}

#[test]
fn bad_frames_after_good_units(rt: HostRuntime) -> Result<(), Fail> {
    let status = ran(
        rt.alloc(),
        "replay",
        "ready 1\nbytes 1 0f0000130000000100000000020101000001730f00001c0000000100000000020703000000000000000000000000000f010014000100010000000008010100010001710f01000b0001000100000000\n",
        "to 1 0f0000130000000100000000020201000001730f00001c0000000100000000020703000000000000000000000000000f00001a0000000100000000020a0100000800000000000000000f00001a0000000000000000010b030001f50742616453697a65\nrefused 1 67 - - BadSize\nqueue 71 0 0\nend\n",
    )?;
    assert_eq!(rt; status, Some(Status::Ok));
    let status = ran(
        rt.alloc(),
        "replay",
        "ready 1\nbytes 1 0f0000130000000100000000020101000001730f00001c0000000100000000020703000000000000000000000000000f01001400020001000000000801010001000171\n",
        "to 1 0f0000130000000100000000020201000001730f00001c0000000100000000020703000000000000000000000000000f00001b0000000000000000010b030001f508426164547261636b\nrefused 1 47 - - BadTrack\nend\n",
    )?;
    assert_eq!(rt; status, Some(Status::Ok));
    Ok(())
}

#[test]
fn a_reserved_flag(rt: HostRuntime) -> Result<(), Fail> {
    let status = ran(
        rt.alloc(),
        "replay",
        "ready 1\nbytes 1 0f0000130000000100000000020101000001730f00001c0000000100000000020703000000000000000000000000000f0100120001000100000000080101000002\n",
        "to 1 0f0000130000000100000000020201000001730f00001c0000000100000000020703000000000000000000000000000f00001f0000000000000000010b030001f50c5265736572766564466c6167\nrefused 1 47 0 5 ReservedFlag\nend\n",
    )?;
    assert_eq!(rt; status, Some(Status::Ok));
    Ok(())
}

#[test]
fn missing_flag_octets(rt: HostRuntime) -> Result<(), Fail> {
    let status = ran(
        rt.alloc(),
        "replay",
        "ready 1\nbytes 1 0f00000e0000000000000000010b\n",
        "to 1 0f0000180000000000000000010b030001f50553686f7274\nrefused 1 0 0 2 Short\nend\n",
    )?;
    assert_eq!(rt; status, Some(Status::Ok));
    Ok(())
}

#[test]
fn a_65th_channel(rt: HostRuntime) -> Result<(), Fail> {
    let status = ran(
        rt.alloc(),
        "replay",
        "ready 1\nbytes 1 0f000013000000400000000002010100000173\n",
        "to 1 0f0000220000000000000000010b030001f50f546f6f4d616e794368616e6e656c73\nrefused 1 0 - - TooManyChannels\nend\n",
    )?;
    assert_eq!(rt; status, Some(Status::Ok));
    Ok(())
}

/// Puts a `bytes` line with a frame of 65,535 octets of a body.
fn put_body_line(text: &mut Vec<u8>, head: &str) -> Result<(), Fail> {
    text.extend_from_slice(head.as_bytes())?;
    for _ in 0..131_046 {
        text.push(b'0')?;
    }
    text.push(b'\n')?;
    Ok(())
}

// A body that passes 16,777,216 octets with its 257th frame.
#[test]
fn too_large(rt: HostRuntime) -> Result<(), Fail> {
    let alloc = rt.alloc();
    let mut text = Vec::new(alloc);
    text.extend_from_slice(b"ready 1\nbytes 1 0b0100120001000000000000040101000000\n")?;
    put_body_line(&mut text, "bytes 1 0603ffff0001000000000000")?;
    for _ in 0..256 {
        put_body_line(&mut text, "bytes 1 0403ffff0001000000000000")?;
    }
    let status = ran_over(
        alloc,
        "replay",
        text,
        "to 1 0f00001b0000000000000000010b030001f508546f6f4c61726765\nrefused 1 16776978 - - TooLarge\nend\n",
    )?;
    assert_eq!(rt; status, Some(Status::Ok));
    Ok(())
}

#[test]
fn a_closed_connection_hears_nothing(rt: HostRuntime) -> Result<(), Fail> {
    let status = ran(
        rt.alloc(),
        "replay",
        "ready 1\nbytes 1 0f01000b0001000100000000\nbytes 1 0f000013000000010000000002010100000173\nquiet 1\nready 1\n",
        "to 1 0f00001a0000000000000000010b030001f50742616453697a65\nrefused 1 0 - - BadSize\n",
    )?;
    let why = TraceWhy::InUse;
    assert_eq!(rt; status, Some(Status::BadTrace { line: 5, why }));
    let status = ran(
        rt.alloc(),
        "replay",
        "ready 1\nbytes 1 0f01000b0001000100000000\nlose 1\nready 1\nbytes 1 0f000013000000010000000002010100000173\n",
        "to 1 0f00001a0000000000000000010b030001f50742616453697a65\nrefused 1 0 - - BadSize\nto 1 0f0000130000000100000000020201000001730f00001c000000010000000002070300000000000000000000000000\nsession 73 received 0 sent 0 kept 0 on 1/1\nend\n",
    )?;
    assert_eq!(rt; status, Some(Status::Ok));
    Ok(())
}

#[test]
fn a_lost_connection_ends_its_sessions(rt: HostRuntime) -> Result<(), Fail> {
    let status = ran(
        rt.alloc(),
        "replay",
        "ready 1\nbytes 1 0f0000130000000100000000020101000001730f00001c0000000100000000020703000000000000000000000000000f01001400010001000000000801010001000171\nlose 1\nquiet 1\n",
        "to 1 0f0000130000000100000000020201000001730f00001c0000000100000000020703000000000000000000000000000f00001a0000000100000000020a010000080000000000000000\n",
    )?;
    let why = TraceWhy::NoSuchConnection;
    assert_eq!(rt; status, Some(Status::BadTrace { line: 4, why }));
    let status = ran(
        rt.alloc(),
        "replay",
        "ready 1\nbytes 1 0f0000130000000100000000020101000001730f00001c0000000100000000020703000000000000000000000000000f01001400010001000000000801010001000171\nlose 1\nready 1\nquiet 1\nbytes 1 0f000013000000010000000002010100000173\n",
        "to 1 0f0000130000000100000000020201000001730f00001c0000000100000000020703000000000000000000000000000f00001a0000000100000000020a010000080000000000000000\nto 1 0f0000130000000100000000020201000001730f00001c000000010000000002070300000000000000000000000000\nqueue 71 0 0\nsession 73 received 0 sent 0 kept 0 on 1/1\nend\n",
    )?;
    assert_eq!(rt; status, Some(Status::Ok));
    Ok(())
}

#[test]
fn broken_lines_and_words(rt: HostRuntime) -> Result<(), Fail> {
    let status = ran(rt.alloc(), "replay", "ready 1\nbytes 1 4\n", "")?;
    let why = TraceWhy::BadHex;
    assert_eq!(rt; status, Some(Status::BadTrace { line: 2, why }));
    let status = ran(rt.alloc(), "replay", "lose 7\n", "")?;
    let why = TraceWhy::NoSuchConnection;
    assert_eq!(rt; status, Some(Status::BadTrace { line: 1, why }));
    let status = ran(rt.alloc(), "reframe", "", "")?;
    assert_eq!(rt; status, Some(Status::Usage));
    Ok(())
}
