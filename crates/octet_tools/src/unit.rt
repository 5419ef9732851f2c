//! The line of a unit.
ghost use Rattle.std.specs.Prelude.{◌≡◌, ◌++◌, true, false, map, length, ◌≤◌, codes, decimal, flat_map, [], None, Some, OnOk, if◌then◌else◌};
ghost use Rattle.std.specs.List.{list_all};
ghost use Rattle.amqp_packed.specs.Lent.{lent};
ghost use Rattle.amqp_packed.specs.Spelling.{is_fine};
ghost use Rattle.amqp_structs.specs.Header.{is_sound};
ghost use Rattle.amqp_commands.specs.Terms.{control_fields, command_fields, command_kind_of};
ghost use Rattle.octet_tools.specs.Show.{shown, named_text, control_text, kind_text, command_text, braced_text, item_text, header_text, body_text, content_text, unit_text, unit_line, header_sound, content_sound, unit_sound};

use crate::field::{later, push_fields};
use crate::text::{push_number, push_shown};
use crate::words::{command_words, control_words, delivery_words, message_words};
use amqp_commands::{CommandKind, ControlKind, command_refs, control_refs};
use amqp_packed::FieldRef;
use amqp_structs::{delivery_refs, message_refs};
use amqp_terms::{Command, Content, Control, Header, HeaderItem, Unit};
use octet_reading::{NoMemory, Octets, put};
use std::alloc::Global;
use trace_words::word;

/// Puts ` sync` where it is set.
fn push_sync(text: &mut Vec<u8>, sync: bool) -> Result<(), NoMemory>
    ensures { OnOk result (text.new.items ≡ text.old.items ++ (if sync then codes " sync" else [])) }
{
    if sync { put(text, b" sync") } else { Ok(()) }
}

/// Puts a name and the fields that are there.
fn push_named(
    alloc: Global,
    text: &mut Vec<u8>,
    words: &[u8],
    sync: bool,
    fields: &[FieldRef<'_>],
) -> Result<(), NoMemory>
    requires { list_all is_fine (map lent fields.now) ≡ true }
    ensures { OnOk result (text.new.items ≡ text.old.items ++ named_text words.now sync (map lent fields.now)) }
{
    put(text, word(words))?;
    push_sync(text, sync)?;
    push_fields(alloc, text, true, later(words), fields)
}

/// Puts a control.
fn push_control(alloc: Global, text: &mut Vec<u8>, control: &Control) -> Result<(), NoMemory>
    requires { list_all is_fine (control_fields control.now) ≡ true }
    ensures { OnOk result (text.new.items ≡ text.old.items ++ control_text control.now) }
{
    let fields = control_refs(alloc, control)?;
    push_named(
        alloc,
        text,
        control_words(ControlKind::of(control)),
        false,
        fields.as_slice(),
    )
}

/// Puts a listed command.
fn push_listed(
    alloc: Global,
    text: &mut Vec<u8>,
    kind: CommandKind,
    sync: bool,
    command: &Command,
) -> Result<(), NoMemory>
    requires { list_all is_fine (command_fields command.now) ≡ true }
    ensures { OnOk result (text.new.items ≡ text.old.items ++ kind_text (Some kind) sync (command_fields command.now)) }
{
    let fields = command_refs(alloc, command)?;
    push_named(alloc, text, command_words(kind), sync, fields.as_slice())
}

/// Puts an unknown command, by its class and code.
fn push_unknown(
    alloc: Global,
    text: &mut Vec<u8>,
    sync: bool,
    class: u8,
    code: u8,
) -> Result<(), NoMemory>
    ensures { OnOk result (text.new.items ≡ text.old.items ++ (codes "unknown " ++ decimal class ++ codes " " ++ decimal code ++ (if sync then codes " sync" else []))) }
{
    push_codes(alloc, text, class, code)?;
    push_sync(text, sync)
}

/// Puts `unknown` with class and code.
fn push_codes(alloc: Global, text: &mut Vec<u8>, class: u8, code: u8) -> Result<(), NoMemory>
    ensures { OnOk result (text.new.items ≡ text.old.items ++ (codes "unknown " ++ decimal class ++ codes " " ++ decimal code)) }
{
    put(text, b"unknown ")?;
    push_number(alloc, text, u64::from(class))?;
    put(text, b" ")?;
    push_number(alloc, text, u64::from(code))
}

/// Puts a command that isn't listed.
fn push_unlisted(
    alloc: Global,
    text: &mut Vec<u8>,
    sync: bool,
    command: &Command,
) -> Result<(), NoMemory>
    requires { command_kind_of command.now ≡ None }
    ensures { OnOk result (text.new.items ≡ text.old.items ++ command_text sync command.now) }
{
    match command {
        Command::Unknown {
            class,
            code,
            rest: _,
        } => push_unknown(alloc, text, sync, *class, *code),
        _ => unreachable!(),
    }
}

/// Puts a command.
fn push_command(
    alloc: Global,
    text: &mut Vec<u8>,
    sync: bool,
    command: &Command,
) -> Result<(), NoMemory>
    requires { list_all is_fine (command_fields command.now) ≡ true }
    ensures { OnOk result (text.new.items ≡ text.old.items ++ command_text sync command.now) }
{
    match CommandKind::of(command) {
        Some(kind) => push_listed(alloc, text, kind, sync, command),
        None => push_unlisted(alloc, text, sync, command),
    }
}

/// Puts a struct's name, and its fields between braces.
fn push_braced(
    alloc: Global,
    text: &mut Vec<u8>,
    words: &[u8],
    fields: &[FieldRef<'_>],
) -> Result<(), NoMemory>
    requires { list_all is_fine (map lent fields.now) ≡ true }
    ensures { OnOk result (text.new.items ≡ text.old.items ++ braced_text words.now (map lent fields.now)) }
{
    put(text, b" ")?;
    put(text, word(words))?;
    put(text, b"{")?;
    push_fields(alloc, text, false, later(words), fields)?;
    put(text, b"}")
}

/// Puts another struct, by its class, code and octets.
fn push_other(
    alloc: Global,
    text: &mut Vec<u8>,
    class: u8,
    code: u8,
    octets: &[u8],
) -> Result<(), NoMemory>
    ensures { OnOk result (text.new.items ≡ text.old.items ++ (codes " struct{" ++ decimal class ++ codes "," ++ decimal code ++ codes " " ++ shown octets.now ++ codes "}")) }
{
    push_other_head(alloc, text, class, code)?;
    put(text, b" ")?;
    push_shown(alloc, text, octets)?;
    put(text, b"}")
}

/// Puts the name and codes of another struct.
fn push_other_head(alloc: Global, text: &mut Vec<u8>, class: u8, code: u8) -> Result<(), NoMemory>
    ensures { OnOk result (text.new.items ≡ text.old.items ++ (codes " struct{" ++ decimal class ++ codes "," ++ decimal code)) }
{
    put(text, b" struct{")?;
    push_number(alloc, text, u64::from(class))?;
    put(text, b",")?;
    push_number(alloc, text, u64::from(code))
}

/// Puts a struct of a header segment.
fn push_item(alloc: Global, text: &mut Vec<u8>, item: &HeaderItem) -> Result<(), NoMemory>
    requires { is_sound item.now ≡ true }
    ensures { OnOk result (text.new.items ≡ text.old.items ++ item_text item.now) }
{
    match item {
        HeaderItem::Delivery(properties) => push_braced(
            alloc,
            text,
            delivery_words(),
            delivery_refs(properties).as_slice(),
        ),
        HeaderItem::Message(properties) => push_braced(
            alloc,
            text,
            message_words(),
            message_refs(properties).as_slice(),
        ),
        HeaderItem::Other {
            class,
            code,
            octets,
        } => push_other(alloc, text, *class, *code, octets.as_slice()),
    }
}

/// Puts the structs of a header segment.
fn push_items(alloc: Global, text: &mut Vec<u8>, items: &[HeaderItem]) -> Result<(), NoMemory>
    requires { list_all is_sound items.now ≡ true }
    ensures { OnOk result (text.new.items ≡ text.old.items ++ flat_map item_text items.now) }
{
    for item in items {
        push_item(alloc, text, item)?;
    }
    Ok(())
}

/// Puts a header segment, if there is one.
fn push_header(alloc: Global, text: &mut Vec<u8>, header: &Option<Header>) -> Result<(), NoMemory>
    requires { header_sound header.now ≡ true }
    ensures { OnOk result (text.new.items ≡ text.old.items ++ header_text header.now) }
{
    match header {
        None => Ok(()),
        Some(header) => push_items(alloc, text, header.as_slice()),
    }
}

/// Puts a body, if there is one.
fn push_body(alloc: Global, text: &mut Vec<u8>, body: &Option<Octets>) -> Result<(), NoMemory>
    ensures { OnOk result (text.new.items ≡ text.old.items ++ body_text body.now) }
{
    match body {
        None => Ok(()),
        Some(body) => {
            put(text, b" body=")?;
            push_shown(alloc, text, body.as_slice())
        }
    }
}

/// Puts the content of a command, if there is any.
fn push_content(
    alloc: Global,
    text: &mut Vec<u8>,
    content: &Option<Content>,
) -> Result<(), NoMemory>
    requires { content_sound content.now ≡ true }
    ensures { OnOk result (text.new.items ≡ text.old.items ++ content_text content.now) }
{
    match content {
        None => Ok(()),
        Some(Content { header, body }) => {
            push_header(alloc, text, header)?;
            push_body(alloc, text, body)
        }
    }
}

/// Puts a unit whose fields have spellings.
fn push_unit(alloc: Global, text: &mut Vec<u8>, unit: &Unit) -> Result<(), NoMemory>
    requires { unit_sound unit.now ≡ true }
    ensures { OnOk result (text.new.items ≡ text.old.items ++ unit_text unit.now) }
{
    match unit {
        Unit::Control(control) => push_control(alloc, text, control),
        Unit::Command {
            sync,
            command,
            content,
        } => {
            push_command(alloc, text, *sync, command)?;
            push_content(alloc, text, content)
        }
    }
}

/// Puts the place of a unit and its channel.
fn push_place(alloc: Global, text: &mut Vec<u8>, at: u64, channel: u16) -> Result<(), NoMemory>
    ensures { OnOk result (text.new.items ≡ text.old.items ++ (decimal at ++ codes " " ++ decimal channel ++ codes " ")) }
{
    push_number(alloc, text, at)?;
    put(text, b" ")?;
    push_number(alloc, text, u64::from(channel))?;
    put(text, b" ")
}

/// Puts the line of a unit whose fields have spellings: the place of its first octet, its channel, its name
/// and the fields that are there.
pub(crate) fn push_line(
    alloc: Global,
    text: &mut Vec<u8>,
    at: u64,
    channel: u16,
    unit: &Unit,
) -> Result<(), NoMemory>
    requires { unit_sound unit.now ≡ true }
    ensures { OnOk result (text.new.items ≡ text.old.items ++ unit_line at channel unit.now) }
{
    push_place(alloc, text, at, channel)?;
    push_unit(alloc, text, unit)?;
    put(text, b"\n")
}
