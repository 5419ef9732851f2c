//! Units to octets.
ghost use Rattle.std.specs.Prelude.{◌≡◌, ◌≤◌, ◌++◌, true, OnOk, IfOk, flat_map};
ghost use Rattle.std.specs.List.{list_all};
ghost use Rattle.amqp_packed.specs.Spelling.{range_fine, coded, text_fine};
ghost use Rattle.octet_reading.specs.declared.part.SizeWidth.TheVariants.{One};
ghost use Rattle.amqp_commands.specs.Units.{unit_fine};
ghost use Rattle.broker_engine.specs.Wire.{ranges_fine, is_said, is_said_control, laid_unit, out_octets, close_octets, close_unit};

use amqp_commands::write_unit;
use amqp_frames::write_frames;
use amqp_terms::{Control, Out, Unit};
use amqp_values::{NoMemory, Range, Text, Value, Why, valid};
use std::alloc::Global;

/// The largest frame of a connection whose negotiation is done.
pub(crate) const LARGEST: u16 = 65_535;

/// The reply-code of a connection that is closed for what its peer sent (AMQP 0-10, "connection.close").
const FRAMING_ERROR: u16 = 501;

/// The most octets of a session's name.
const LONGEST_NAME: usize = 65_535;

/// The most ranges of a field, and one more.
const TOO_MANY_RANGES: usize = 8192;

/// Whether the numbers of a range rise by less than half of the circle.
fn is_fine(range: &Range) -> bool
    ensures { result ≡ range_fine range.now }
{
    range.upper.wrapping_sub(range.lower) < 2_147_483_648
}

/// Whether the numbers of each range do.
fn all_fine(ranges: &[Range]) -> bool
    ensures { result ≡ list_all range_fine ranges.now }
{
    let mut rest = ranges;
    while let Some((first, more)) = rest.split_first() {
        if !is_fine(first) {
            return false;
        }
        rest = more;
    }
    true
}

/// Whether the ranges have a spelling.
fn are_fine(ranges: &[Range]) -> bool
    ensures { result ≡ ranges_fine ranges.now }
{
    ranges.len() < TOO_MANY_RANGES && all_fine(ranges)
}

/// Whether the hub sends such a control, and it has a spelling.
fn is_said_control(control: &Control) -> bool
    ensures value { result ≡ is_said_control control.now }
    ensures fine { result ≡ true → unit_fine (Unit.Control control.now) ≡ true }
{
    match control {
        Control::SessionAttached { name: Some(name) } => name.len() <= LONGEST_NAME,
        Control::SessionDetached {
            name: Some(name),
            code: Some(code),
        } => {
            let _code = *code;
            name.len() <= LONGEST_NAME
        }
        Control::SessionTimeout {
            timeout: Some(timeout),
        } => {
            let _timeout = *timeout;
            true
        }
        Control::SessionCommandPoint {
            command_id: Some(id),
            command_offset: Some(offset),
        } => {
            let _id = *id;
            let _offset = *offset;
            true
        }
        Control::SessionExpected {
            commands: Some(ranges),
            fragments: None,
        } => are_fine(ranges.as_slice()),
        Control::SessionConfirmed {
            commands: Some(ranges),
            fragments: None,
        } => are_fine(ranges.as_slice()),
        Control::SessionCompleted {
            commands: Some(ranges),
            timely_reply: false,
        } => are_fine(ranges.as_slice()),
        Control::SessionKnownCompleted {
            commands: Some(ranges),
        } => are_fine(ranges.as_slice()),
        Control::SessionFlush { .. } => true,
        _ => false,
    }
}

/// Whether the hub sends such a unit.
fn is_said(unit: &Unit) -> bool
    ensures value { result ≡ is_said unit.now }
    ensures fine { result ≡ true → unit_fine unit.now ≡ true }
{
    match unit {
        Unit::Control(control) => is_said_control(control),
        Unit::Command { .. } => false,
    }
}

/// Whether a value is a map with a spelling.
fn is_map(value: &Value) -> bool
    ensures { result ≡ true → coded 168 value.now ≡ true }
{
    match value {
        Value::Map(_) => valid(value),
        _ => false,
    }
}

/// Whether a value is an array with a spelling.
fn is_array(value: &Value) -> bool
    ensures { result ≡ true → coded 170 value.now ≡ true }
{
    match value {
        Value::Array { .. } => valid(value),
        _ => false,
    }
}

/// Whether a text has a spelling as a short one.
fn is_short(text: &Text) -> bool
    ensures { result ≡ true → text_fine One text.now ≡ true }
{
    text.as_slice().len() < 256
}

/// Whether the connection says such a control itself, and it has a spelling.
fn is_own_control(control: &Control) -> bool
    ensures { result ≡ true → unit_fine (Unit.Control control.now) ≡ true }
{
    match control {
        Control::ConnectionStart {
            server_properties: Some(properties),
            mechanisms: Some(mechanisms),
            locales: Some(locales),
        } => is_map(properties) && is_array(mechanisms) && is_array(locales),
        Control::ConnectionTune {
            channel_max: Some(channels),
            max_frame_size: Some(frame),
            heartbeat_min: Some(least),
            heartbeat_max: Some(most),
        } => {
            let _channels = *channels;
            let _frame = *frame;
            let _least = *least;
            let _most = *most;
            true
        }
        Control::ConnectionOpenOk {
            known_hosts: Some(hosts),
        } => is_array(hosts),
        Control::ConnectionClose {
            reply_code: Some(code),
            reply_text: Some(text),
        } => {
            let _code = *code;
            is_short(text)
        }
        Control::ConnectionHeartbeat => true,
        Control::ConnectionCloseOk => true,
        _ => false,
    }
}

/// Whether the connection says such a unit itself.
fn is_own(unit: &Unit) -> bool
    ensures { result ≡ true → unit_fine unit.now ≡ true }
{
    match unit {
        Unit::Control(control) => is_own_control(control),
        Unit::Command { .. } => false,
    }
}

/// The least largest frame (AMQP 0-10, "connection.tune").
const LEAST: u16 = 4_096;

/// Puts a unit that has a spelling in frames of at most so many octets at the octets' end.
fn push_unit(
    alloc: Global,
    out: &mut Vec<u8>,
    channel: u16,
    unit: &Unit,
    max_frame: u16,
) -> Result<(), NoMemory>
    requires { unit_fine unit.now ≡ true }
    ensures { 4096 ≤ max_frame → OnOk result (out.new.items ≡ out.old.items ++ laid_unit channel unit.now max_frame) }
{
    let assembly = write_unit(alloc, unit)?;
    write_frames(alloc, channel, &assembly, max_frame.max(LEAST), out)
}

/// Puts what the connection says itself, on channel 0, at the octets' end.
pub(crate) fn push_units(
    alloc: Global,
    out: &mut Vec<u8>,
    units: &[Unit],
    max_frame: u16,
) -> Result<(), NoMemory> {
    for unit in units {
        if is_own(unit) {
            push_unit(alloc, out, 0, unit, max_frame)?;
        }
    }
    Ok(())
}

/// Puts the protocol header of AMQP 0-10 at the octets' end.
pub(crate) fn push_header(out: &mut Vec<u8>) -> Result<(), NoMemory> {
    out.extend_from_slice(b"AMQP\x01\x01\x00\x0a".as_slice())?;
    Ok(())
}

/// Puts what goes out in its frames at the octets' end.
fn push_out(alloc: Global, out: &mut Vec<u8>, sent: &Out, max_frame: u16) -> Result<(), NoMemory>
    ensures { max_frame ≡ 65535 → OnOk result (out.new.items ≡ out.old.items ++ out_octets sent.now) }
{
    if is_said(&sent.unit) {
        push_unit(alloc, out, sent.channel, &sent.unit, max_frame)
    } else {
        Ok(())
    }
}

/// Puts all that goes out at the octets' end.
pub(crate) fn push_outs(
    alloc: Global,
    out: &mut Vec<u8>,
    outs: &[Out],
    max_frame: u16,
) -> Result<(), NoMemory>
    ensures { max_frame ≡ 65535 → OnOk result (out.new.items ≡ out.old.items ++ flat_map out_octets outs.now) }
{
    for sent in outs {
        push_out(alloc, out, sent, max_frame)?;
    }
    Ok(())
}

/// connection.close for a reason.
#[tactic(auto, using(crate::proofs::Said::word_short))]
fn close_of(alloc: Global, why: Why) -> Result<Unit, NoMemory>
    ensures unit { IfOk result (λ unit. unit ≡ close_unit why) }
    ensures fine { IfOk result (λ unit. unit_fine unit ≡ true) }
{
    let reply_text = Some(Text::from_text(alloc, why.word())?);
    Ok(Unit::Control(Control::ConnectionClose {
        reply_code: Some(FRAMING_ERROR),
        reply_text,
    }))
}

/// Puts connection.close for a reason at the octets' end.
pub(crate) fn push_close(alloc: Global, out: &mut Vec<u8>, why: Why) -> Result<(), NoMemory>
    ensures { OnOk result (out.new.items ≡ out.old.items ++ close_octets why) }
{
    let unit = close_of(alloc, why)?;
    let written = push_unit(alloc, out, 0, &unit, LARGEST);
    drop(unit);
    written
}
