//! The units of answers.
ghost use Rattle.std.specs.Prelude.{◌≡◌, ◌++◌, ◌∷◌, [], codes, List, ℕ, IfOk, OnOk};
ghost use Rattle.amqp_terms.specs.declared.unit.Unit.TheVariants as unit;
ghost use Rattle.amqp_terms.specs.declared.control.Control.TheVariants as control;
ghost use Rattle.amqp_values.specs.declared.value.Value.TheVariants as value;
ghost use Rattle.conn_core.specs.Answers.{units_of, replies_of, start_ok, open_host, start, mechanisms, locales, close};

use crate::turn::Answer;
use amqp_terms::{Control, Unit, Units};
use amqp_values::{Items, NoMemory, Value};
use octet_reading::{Octets, Text, Why};
use std::alloc::Global;

/// The code of str16 (AMQP 0-10, "types").
const STR16: u8 = 0x95;

/// The units of an answer.
pub(crate) fn units_of(alloc: Global, answer: Answer) -> Result<Units, NoMemory>
    ensures { IfOk result (λ units. units ≡ units_of answer) }
{
    let mut units = Units::new(alloc);
    match answer {
        Answer::Nothing => (),
        Answer::Start => units.push(start(alloc)?)?,
        Answer::Tune => units.push(Unit::Control(Control::ConnectionTune {
            channel_max: Some(64),
            max_frame_size: Some(65535),
            heartbeat_min: Some(0),
            heartbeat_max: Some(120),
        }))?,
        Answer::OpenOk => units.push(Unit::Control(Control::ConnectionOpenOk {
            known_hosts: Some(array(Items::new(alloc))),
        }))?,
        Answer::Heartbeat => units.push(Unit::Control(Control::ConnectionHeartbeat))?,
        Answer::Close { code, why } => units.push(close(alloc, code, why)?)?,
        Answer::CloseOk => units.push(Unit::Control(Control::ConnectionCloseOk))?,
    }
    Ok(units)
}

/// What the client's end answers.
#[derive(Clone, Copy, Debug, PartialEq, Eq)]
pub(crate) enum Reply {
    Nothing,
    StartOk,
    TuneOkAndOpen { channels: u16, max_frame: u16 },
    CloseOk,
}

/// The units of a reply.
pub(crate) fn replies_of(alloc: Global, reply: Reply) -> Result<Units, NoMemory>
    ensures { IfOk result (λ units. units ≡ replies_of reply) }
{
    let mut units = Units::new(alloc);
    match reply {
        Reply::Nothing => (),
        Reply::StartOk => units.push(start_ok(alloc)?)?,
        Reply::TuneOkAndOpen {
            channels,
            max_frame,
        } => {
            units.push(Unit::Control(Control::ConnectionTuneOk {
                channel_max: Some(channels),
                max_frame_size: Some(max_frame),
                heartbeat: Some(0),
            }))?;
            units.push(open_host(alloc)?)?;
        }
        Reply::CloseOk => units.push(Unit::Control(Control::ConnectionCloseOk))?,
    }
    Ok(units)
}

/// connection.start-ok: no properties, the mechanism ANONYMOUS, the locale en_US.
fn start_ok(alloc: Global) -> Result<Unit, NoMemory>
    ensures { IfOk result (λ unit. unit ≡ start_ok) }
{
    let client_properties = Some(Value::Map(Items::new(alloc)));
    let mechanism = Some(Text::from_text(alloc, "ANONYMOUS")?);
    let response = Some(Octets::from_vec(Vec::new(alloc)));
    let locale = Some(Text::from_text(alloc, "en_US")?);
    Ok(Unit::Control(Control::ConnectionStartOk {
        client_properties,
        mechanism,
        response,
        locale,
    }))
}

/// connection.open: the empty virtual host, no capabilities.
fn open_host(alloc: Global) -> Result<Unit, NoMemory>
    ensures { IfOk result (λ unit. unit ≡ open_host) }
{
    let virtual_host = Some(Text::from_text(alloc, "")?);
    let capabilities = Some(array(Items::new(alloc)));
    Ok(Unit::Control(Control::ConnectionOpen {
        virtual_host,
        capabilities,
        insist: false,
    }))
}

/// connection.start: no properties, two mechanisms, one locale.
fn start(alloc: Global) -> Result<Unit, NoMemory>
    ensures { IfOk result (λ unit. unit ≡ start) }
{
    let server_properties = Some(Value::Map(Items::new(alloc)));
    let mechanisms = Some(mechanisms(alloc)?);
    let locales = Some(locales(alloc)?);
    Ok(Unit::Control(Control::ConnectionStart {
        server_properties,
        mechanisms,
        locales,
    }))
}

/// The mechanisms that are offered.
fn mechanisms(alloc: Global) -> Result<Value, NoMemory>
    ensures { IfOk result (λ names. names ≡ mechanisms) }
{
    let mut names = Items::new(alloc);
    push_name(alloc, &mut names, "ANONYMOUS")?;
    push_name(alloc, &mut names, "PLAIN")?;
    Ok(array(names))
}

/// The locales that are offered.
fn locales(alloc: Global) -> Result<Value, NoMemory>
    ensures { IfOk result (λ names. names ≡ locales) }
{
    let mut names = Items::new(alloc);
    push_name(alloc, &mut names, "en_US")?;
    Ok(array(names))
}

/// connection.close.
fn close(alloc: Global, code: u16, why: Why) -> Result<Unit, NoMemory>
    ensures { IfOk result (λ unit. unit ≡ close code why) }
{
    let text = Text::from_text(alloc, why.word())?;
    Ok(Unit::Control(Control::ConnectionClose {
        reply_code: Some(code),
        reply_text: Some(text),
    }))
}

/// An array of texts.
fn array(items: Items<Value>) -> Value
    ensures { result ≡ value.Array 149 items }
{
    Value::Array { code: STR16, items }
}

/// Puts a text last.
fn push_name(alloc: Global, names: &mut Items<Value>, name: &str) -> Result<(), NoMemory>
    ensures { OnOk result (names.new ≡ names.old ++ value.Text16 name.now ∷ []) }
{
    names.push(Value::Text16(Text::from_text(alloc, name)?))?;
    Ok(())
}
