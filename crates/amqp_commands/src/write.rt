//! Assemblies out of units.
ghost use Rattle.std.specs.Prelude.{◌≡◌, ◌++◌, ◌∷◌, [], true, IfOk, OnOk};
ghost use Rattle.std.specs.List.{list_all};
ghost use Rattle.amqp_structs.specs.Header.{header_octets, has_spelling};
ghost use Rattle.amqp_frames.specs.Assembly.{IsPlaced};
ghost use Rattle.amqp_terms.specs.declared.unit.Unit.TheVariants as AnyUnit;
ghost use Rattle.amqp_commands.specs.Units.{control_octets, command_octets, content_segments, content_sound, unit_segments, unit_fine, command_fine};

use crate::put::{put_command, put_control};
use amqp_frames::{Assembly, Segment};
use amqp_structs::put_structs;
use amqp_terms::{Command, Content, Control, Header, Unit};
use amqp_values::NoMemory;
use bytes::Bytes;
use octet_reading::Octets;
use std::alloc::Global;

/// The assembly of a unit that has a spelling. A shared body is shared once more, not copied.
pub fn write_unit(alloc: Global, unit: &Unit) -> Result<Assembly, NoMemory>
    requires { unit_fine unit.now ≡ true }
    ensures ok { IfOk result (λ assembly. assembly ≡ unit_segments unit.now) }
    ensures placed { IfOk result (λ assembly. IsPlaced assembly) }
{
    assembly_of(alloc, unit)
}

fn assembly_of(alloc: Global, unit: &Unit) -> Result<Assembly, NoMemory>
    requires { unit_fine unit.now ≡ true }
    ensures { IfOk result (λ assembly. assembly ≡ unit_segments unit.now) }
{
    let mut assembly = Assembly::new(alloc);
    match unit {
        Unit::Control(control) => push_control(alloc, &mut assembly, control)?,
        Unit::Command {
            sync,
            command,
            content,
        } => {
            push_command(alloc, &mut assembly, *sync, command)?;
            push_content(alloc, &mut assembly, content)?;
        }
    }
    Ok(assembly)
}

/// Puts a segment last.
fn push(assembly: &mut Assembly, kind: u8, octets: Vec<u8>) -> Result<(), NoMemory>
    ensures { OnOk result (assembly.new ≡ assembly.old ++ record { kind = kind; octets = octets.items } ∷ []) }
{
    match Bytes::from_vec(octets) {
        Ok(octets) => assembly.push(Segment { kind, octets }),
        Err(_) => Err(NoMemory),
    }
}

/// Puts the segment of a control.
fn push_control(alloc: Global, assembly: &mut Assembly, control: &Control) -> Result<(), NoMemory>
    requires { unit_fine (AnyUnit.Control control.now) ≡ true }
    ensures { OnOk result (assembly.new ≡ assembly.old ++ unit_segments (AnyUnit.Control control.now)) }
{
    let mut octets = Vec::new(alloc);
    put_control(alloc, &mut octets, control)?;
    push(assembly, 0, octets)
}

/// Puts the segment of a command.
fn push_command(
    alloc: Global,
    assembly: &mut Assembly,
    sync: bool,
    command: &Command,
) -> Result<(), NoMemory>
    requires { command_fine command.now ≡ true }
    ensures { OnOk result (assembly.new ≡ assembly.old ++ record { kind = 1; octets = command_octets sync command.now } ∷ []) }
{
    let mut octets = Vec::new(alloc);
    put_command(alloc, &mut octets, sync, command)?;
    push(assembly, 1, octets)
}

/// Puts the segment of a header.
fn push_header(alloc: Global, assembly: &mut Assembly, header: &Header) -> Result<(), NoMemory>
    requires { list_all has_spelling header.now ≡ true }
    ensures { OnOk result (assembly.new ≡ assembly.old ++ record { kind = 2; octets = header_octets header.now } ∷ []) }
{
    let mut octets = Vec::new(alloc);
    put_structs(&mut octets, header.as_slice())?;
    push(assembly, 2, octets)
}

/// Puts the segment of a body.
fn push_body(alloc: Global, assembly: &mut Assembly, body: &Octets) -> Result<(), NoMemory>
    ensures { OnOk result (assembly.new ≡ assembly.old ++ record { kind = 3; octets = body.now } ∷ []) }
{
    let octets = body.to_bytes(alloc)?;
    assembly.push(Segment { kind: 3, octets })
}

/// Puts the segments of a command's content.
fn push_content(
    alloc: Global,
    assembly: &mut Assembly,
    content: &Option<Content>,
) -> Result<(), NoMemory>
    requires { content_sound content.now ≡ true }
    ensures { OnOk result (assembly.new ≡ assembly.old ++ content_segments content.now) }
{
    match content {
        None => Ok(()),
        Some(Content { header, body }) => {
            if let Some(header) = header {
                push_header(alloc, assembly, header)?;
            }
            if let Some(body) = body {
                push_body(alloc, assembly, body)?;
            }
            Ok(())
        }
    }
}
