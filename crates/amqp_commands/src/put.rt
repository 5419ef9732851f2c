//! The octets of a control's or a command's segment.
ghost use Rattle.std.specs.Prelude.{◌≡◌, ◌++◌, true, None, OnOk};
ghost use Rattle.std.specs.List.{list_all};
ghost use Rattle.amqp_packed.specs.Spelling.{is_fine};
ghost use Rattle.amqp_commands.specs.Kinds.{command_class, command_code};
ghost use Rattle.amqp_commands.specs.Terms.{control_fields, command_fields, command_kind_of};
ghost use Rattle.amqp_commands.specs.Units.{control_head, control_octets, command_head, command_octets};

use crate::commands::CommandKind;
use crate::controls::ControlKind;
use crate::lend_commands::command_refs;
use crate::lend_controls::control_refs;
use amqp_packed::put_fields;
use amqp_terms::{Command, Control};
use amqp_values::NoMemory;
use octet_reading::put;
use std::alloc::Global;

/// Puts the segment of a control whose fields have spellings. Without memory a part of it may stand there.
pub(crate) fn put_control(
    alloc: Global,
    out: &mut Vec<u8>,
    control: &Control,
) -> Result<(), NoMemory>
    requires { list_all is_fine (control_fields control.now) ≡ true }
    ensures { OnOk result (out.new.items ≡ out.old.items ++ control_octets control.now) }
{
    put_control_head(out, ControlKind::of(control))?;
    let fields = control_refs(alloc, control)?;
    put_fields(out, fields.as_slice())
}

/// Puts class and code of a kind.
fn put_control_head(out: &mut Vec<u8>, kind: ControlKind) -> Result<(), NoMemory>
    ensures { OnOk result (out.new.items ≡ out.old.items ++ control_head kind) }
{
    put(out, &[kind.class(), kind.code()])
}

/// Puts the segment of a command whose fields have spellings. Without memory a part of it may stand there.
pub(crate) fn put_command(
    alloc: Global,
    out: &mut Vec<u8>,
    sync: bool,
    command: &Command,
) -> Result<(), NoMemory>
    requires { list_all is_fine (command_fields command.now) ≡ true }
    ensures { OnOk result (out.new.items ≡ out.old.items ++ command_octets sync command.now) }
{
    match CommandKind::of(command) {
        Some(kind) => {
            put_command_head(out, kind, sync)?;
            let fields = command_refs(alloc, command)?;
            put_fields(out, fields.as_slice())
        }
        None => put_unknown(out, sync, command),
    }
}

/// Puts the segment of an unknown command.
fn put_unknown(out: &mut Vec<u8>, sync: bool, command: &Command) -> Result<(), NoMemory>
    requires { command_kind_of command.now ≡ None }
    ensures { OnOk result (out.new.items ≡ out.old.items ++ command_octets sync command.now) }
{
    match command {
        Command::Unknown { class, code, rest } => {
            put_head(out, *class, *code, sync)?;
            put(out, rest.as_slice())
        }
        _ => unreachable!(),
    }
}

/// Puts class, code and session header of a kind.
fn put_command_head(out: &mut Vec<u8>, kind: CommandKind, sync: bool) -> Result<(), NoMemory>
    ensures { OnOk result (out.new.items ≡ out.old.items ++ command_head (command_class kind) (command_code kind) sync) }
{
    put_head(out, kind.class(), kind.code(), sync)
}

/// Puts class, code and session header.
fn put_head(out: &mut Vec<u8>, class: u8, code: u8, sync: bool) -> Result<(), NoMemory>
    ensures { OnOk result (out.new.items ≡ out.old.items ++ command_head class code sync) }
{
    put(out, &[class, code, 1, u8::from(sync)])
}
