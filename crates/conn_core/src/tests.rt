//! Negotiations, refusals and silence, as a connection has them.
use crate::{ClientEnd, Said, ServerEnd};
use amqp_terms::{Control, Unit};
use octet_reading::{NoMemory, Octets, Text, Why};
use std::alloc::Global;
use std::test::Fail;

const PROTOCOL: [u8; 8] = [0x41, 0x4d, 0x51, 0x50, 1, 1, 0, 10];

/// The name of a unit that an end may say.
fn word(unit: &Unit) -> &'static str {
    match unit {
        Unit::Control(Control::ConnectionStart { .. }) => "start",
        Unit::Control(Control::ConnectionStartOk { .. }) => "start-ok",
        Unit::Control(Control::ConnectionTune { .. }) => "tune",
        Unit::Control(Control::ConnectionTuneOk { .. }) => "tune-ok",
        Unit::Control(Control::ConnectionOpen { .. }) => "open",
        Unit::Control(Control::ConnectionOpenOk { .. }) => "open-ok",
        Unit::Control(Control::ConnectionHeartbeat) => "heartbeat",
        Unit::Control(
            Control::ConnectionClose {
                reply_code: Some(320),
                ..
            },
        ) => "close 320",
        Unit::Control(
            Control::ConnectionClose {
                reply_code: Some(402),
                ..
            },
        ) => "close 402",
        Unit::Control(
            Control::ConnectionClose {
                reply_code: Some(501),
                ..
            },
        ) => "close 501",
        Unit::Control(Control::ConnectionCloseOk) => "close-ok",
        _ => "other",
    }
}

/// Whether these units are said.
fn says(said: &Said, words: &[&str]) -> bool {
    let units = said.units.as_slice();
    if units.len() != words.len() {
        return false;
    }
    for place in 0..units.len() {
        match (units.get(place), words.get(place)) {
            (Some(unit), Some(said)) => {
                if word(unit) != *said {
                    return false;
                }
            }
            _ => return false,
        }
    }
    true
}

fn start_ok(alloc: Global, mechanism: &str, response: &[u8]) -> Result<Unit, NoMemory> {
    let response = Octets::from_vec(Vec::from_slice(alloc, response)?);
    Ok(Unit::Control(Control::ConnectionStartOk {
        client_properties: None,
        mechanism: Some(Text::from_text(alloc, mechanism)?),
        response: Some(response),
        locale: None,
    }))
}

fn tune_ok(max_frame_size: u16, heartbeat: u16) -> Unit {
    Unit::Control(Control::ConnectionTuneOk {
        channel_max: None,
        max_frame_size: Some(max_frame_size),
        heartbeat: Some(heartbeat),
    })
}

fn opening(alloc: Global, host: &str) -> Result<Unit, NoMemory> {
    Ok(Unit::Control(Control::ConnectionOpen {
        virtual_host: Some(Text::from_text(alloc, host)?),
        capabilities: None,
        insist: false,
    }))
}

fn attach() -> Unit {
    Unit::Control(Control::SessionAttach {
        name: None,
        force: false,
    })
}

#[test]
fn a_negotiation_by_plain(rt: HostRuntime) -> Result<(), Fail> {
    let alloc = rt.alloc();
    let mut end = ServerEnd::waiting(alloc);
    let said = end.header(PROTOCOL)?;
    assert!(rt; said.echo && said.max_frame == 4096 && says(&said, ["start"].as_slice()));
    let said = end.hear(0, &start_ok(alloc, "PLAIN", b"\0guest\0guest".as_slice())?)?;
    assert!(rt; !said.echo && says(&said, ["tune"].as_slice()));
    let said = end.hear(0, &tune_ok(4096, 0))?;
    assert!(rt; says(&said, [].as_slice()) && said.max_frame == 4096 && !said.pass);
    let said = end.hear(0, &opening(alloc, "/")?)?;
    assert!(rt; says(&said, ["open-ok"].as_slice()));
    let said = end.hear(1, &attach())?;
    assert!(rt; said.pass && says(&said, [].as_slice()) && said.closed == None);
    Ok(())
}

#[test]
fn what_is_refused(rt: HostRuntime) -> Result<(), Fail> {
    let alloc = rt.alloc();
    for response in [
        b"guest".as_slice(),
        b"\0\0guest",
        b"\0guest\0gu\0est",
        b"\0guest",
    ] {
        let mut end = ServerEnd::waiting(alloc);
        let _ = end.header(PROTOCOL)?;
        let said = end.hear(0, &start_ok(alloc, "PLAIN", response)?)?;
        assert!(rt; says(&said, ["close 320"].as_slice()));
        assert!(rt; said.closed == Some(Some(Why::Mechanism)));
    }
    let mut end = ServerEnd::waiting(alloc);
    let _ = end.header(PROTOCOL)?;
    let said = end.hear(1, &start_ok(alloc, "ANONYMOUS", b"".as_slice())?)?;
    assert!(rt; says(&said, ["close 501"].as_slice()));
    assert!(rt; said.closed == Some(Some(Why::OutOfOrder)));
    let mut end = ServerEnd::waiting(alloc);
    let _ = end.header(PROTOCOL)?;
    let _ = end.hear(0, &start_ok(alloc, "ANONYMOUS", b"".as_slice())?)?;
    let said = end.hear(0, &tune_ok(4095, 0))?;
    assert!(rt; says(&said, [].as_slice()) && said.closed == Some(Some(Why::TuneRange)));
    let mut end = ServerEnd::waiting(alloc);
    let _ = end.header(PROTOCOL)?;
    let _ = end.hear(0, &start_ok(alloc, "ANONYMOUS", b"".as_slice())?)?;
    let _ = end.hear(0, &tune_ok(65535, 120))?;
    let said = end.hear(1, &attach())?;
    assert!(rt; says(&said, ["close 501"].as_slice()) && !said.pass);
    Ok(())
}

#[test]
fn a_bad_header(rt: HostRuntime) -> Result<(), Fail> {
    let mut end = ServerEnd::waiting(rt.alloc());
    let said = end.header([0x41, 0x4d, 0x51, 0x50, 1, 1, 0, 9])?;
    assert!(rt; said.echo && says(&said, [].as_slice()));
    assert!(rt; said.closed == Some(Some(Why::BadHeader)));
    let said = end.header(PROTOCOL)?;
    assert!(rt; !said.echo && says(&said, [].as_slice()) && said.closed == None);
    Ok(())
}

#[test]
fn a_close(rt: HostRuntime) -> Result<(), Fail> {
    let mut end = ServerEnd::ready(rt.alloc());
    let close = Unit::Control(Control::ConnectionClose {
        reply_code: None,
        reply_text: None,
    });
    let said = end.hear(0, &close)?;
    assert!(rt; says(&said, ["close-ok"].as_slice()) && said.closed == Some(None));
    let said = end.hear(1, &attach())?;
    assert!(rt; !said.pass && said.closed == None);
    Ok(())
}

/// An end that agreed on a heartbeat of 10 seconds.
fn beating(alloc: Global) -> Result<ServerEnd, NoMemory> {
    let mut end = ServerEnd::waiting(alloc);
    let _ = end.header(PROTOCOL)?;
    let _ = end.hear(0, &start_ok(alloc, "ANONYMOUS", b"".as_slice())?)?;
    let _ = end.hear(0, &tune_ok(65535, 10))?;
    let _ = end.hear(0, &opening(alloc, "")?)?;
    end.octets_came();
    Ok(end)
}

#[test]
fn silence(rt: HostRuntime) -> Result<(), Fail> {
    let mut end = beating(rt.alloc())?;
    assert!(rt; says(&end.moment(10)?, ["heartbeat"].as_slice()));
    assert!(rt; says(&end.moment(19)?, [].as_slice()));
    let said = end.moment(20)?;
    assert!(rt; says(&said, [].as_slice()) && said.closed == Some(Some(Why::Silent)));
    Ok(())
}

#[test]
fn heartbeats_both_ways(rt: HostRuntime) -> Result<(), Fail> {
    let mut end = beating(rt.alloc())?;
    assert!(rt; says(&end.moment(10)?, ["heartbeat"].as_slice()));
    assert!(rt; says(&end.moment(19)?, [].as_slice()));
    end.octets_came();
    let said = end.hear(0, &Unit::Control(Control::ConnectionHeartbeat))?;
    assert!(rt; says(&said, [].as_slice()) && !said.pass);
    assert!(rt; says(&end.moment(20)?, ["heartbeat"].as_slice()));
    assert!(rt; says(&end.moment(38)?, ["heartbeat"].as_slice()));
    assert!(rt; end.moment(39)?.closed == Some(Some(Why::Silent)));
    Ok(())
}

/// Hears each unit that the other end says; gives what it says to the last.
fn tell(end: &mut ClientEnd, units: &[Unit]) -> Result<Option<Said>, NoMemory> {
    let mut last = None;
    for unit in units {
        last = Some(end.hear(0, unit)?);
    }
    Ok(last)
}

#[test]
fn both_ends_come_to_terms(rt: HostRuntime) -> Result<(), Fail> {
    let alloc = rt.alloc();
    let mut server = ServerEnd::waiting(alloc);
    let mut client = ClientEnd::waiting(alloc);
    let said = server.header(PROTOCOL)?;
    assert!(rt; says(&client.header(PROTOCOL)?, [].as_slice()));
    let Some(said) = tell(&mut client, said.units.as_slice())? else {
        return Ok(());
    };
    assert!(rt; says(&said, ["start-ok"].as_slice()) && said.max_frame == 4096);
    for unit in said.units.as_slice() {
        let said = server.hear(0, unit)?;
        assert!(rt; says(&said, ["tune"].as_slice()));
        let Some(said) = tell(&mut client, said.units.as_slice())? else {
            return Ok(());
        };
        assert!(rt; says(&said, ["tune-ok", "open"].as_slice()) && said.max_frame == 65535);
        for unit in said.units.as_slice() {
            let said = server.hear(0, unit)?;
            let _ = tell(&mut client, said.units.as_slice())?;
        }
    }
    assert!(rt; client.hear(1, &attach())?.pass && server.hear(1, &attach())?.pass);
    assert!(rt; ClientEnd::ready(alloc).hear(1, &attach())?.pass);
    let said = client.hear(0, &tune_ok(65535, 0))?;
    assert!(rt; says(&said, [].as_slice()) && said.closed == Some(Some(Why::OutOfOrder)));
    Ok(())
}
