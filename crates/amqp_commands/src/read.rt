//! Units out of assemblies.
ghost use Rattle.std.specs.Prelude.{◌≡◌, true, Ok, IfOk, List, [], length};
ghost use Rattle.octet_reading.specs.Reading.{Gives, Within, IsBytes};
ghost use Rattle.amqp_frames.specs.Assembly.{IsPlaced};
ghost use Rattle.amqp_structs.specs.Header.{header_in};
ghost use Rattle.amqp_terms.specs.declared.unit.Unit.{Unit as AnyUnit};
ghost use Rattle.amqp_commands.specs.Units.{control_in, session_header_at, command_of, command_in, takes_content, body_of, content_in, in_segment, control_unit, after_command, command_unit, unit_in, unit_segments, unit_fine, FaultIs, Answers};
ghost use Rattle.amqp_commands.specs.Spelled.{AllBytes, AllShort, UnitSpelled};

use crate::commands::{CommandKind, command_kind, is_command_class};
use crate::controls::{control_kind, is_control_class};
use crate::error::{UnitError, UnitFault};
use crate::made::{command_by, control_by};
use amqp_frames::{Assembly, Segment};
use amqp_packed::{all_fields_of, discard_fields};
use amqp_structs::header_of;
use amqp_terms::{Command, Content, Control, Header, Unit};
use octet_reading::{NoMemory, Octets, ReadError, Why, part_of, refused};
use std::alloc::Global;

/// Reads the unit of a placed assembly. A body is shared, not copied.
pub fn read_unit(alloc: Global, assembly: &Assembly) -> Result<Unit, UnitError>
    requires { IsPlaced assembly.now }
    // The unit, or the first fault.
    ensures exact { Answers result (unit_in assembly.now) }
    // What was read has spellings in its fields, and the segments spell it.
    ensures found { IfOk result (λ unit. UnitSpelled unit assembly.now) }
    // What was read of segments with fewer than 2^31 octets each can be written.
    ensures fine { AllShort assembly.now → IfOk result (λ unit. unit_fine unit ≡ true) }
    // What is written is read.
    ensures only { (unit : AnyUnit) → unit_fine unit ≡ true → assembly.now ≡ unit_segments unit → Answers result (Ok unit) }
{
    let segments = assembly.as_slice();
    are_octets(segments);
    unit_of(alloc, segments)
}

/// That each octet is below 256, which shared octets tell only where they are lent.
fn are_octets(segments: &[Segment])
    ensures { AllBytes segments.now }
{
    if let Some((segment, rest)) = segments.split_first() {
        are_small(segment.octets.as_slice());
        are_octets(rest);
    }
}

/// Reads it, as reading is defined.
fn unit_of(alloc: Global, segments: &[Segment]) -> Result<Unit, UnitError>
    ensures { Answers result (unit_in segments.now) }
{
    match segments.split_first() {
        None => command_unit(alloc, &[], &[]),
        Some((first, rest)) => {
            if first.kind == 0 {
                control_unit(alloc, first.octets.as_slice())
            } else {
                command_unit(alloc, first.octets.as_slice(), rest)
            }
        }
    }
}

/// That each octet is below 256.
fn are_small(_octets: &[u8])
    ensures { IsBytes _octets.now }
{}

/// The error of a segment, by its number and the index within it.
fn fault_of(segment: u32, octets: &[u8], error: ReadError) -> UnitError
    ensures { FaultIs segment octets.now error result }
{
    match error {
        ReadError::Memory => UnitError::NoMemory,
        ReadError::Flaw(flaw) => UnitError::Bad(UnitFault {
            segment,
            at: octets.len().saturating_sub(flaw.left) as u64,
            why: flaw.why,
        }),
    }
}

/// A control.
fn control_unit(alloc: Global, octets: &[u8]) -> Result<Unit, UnitError>
    ensures { Answers result (control_unit (in_segment 0 octets.now (control_in octets.now))) }
{
    match control_of(alloc, octets) {
        Ok(control) => Ok(Unit::Control(control)),
        Err(error) => Err(fault_of(0, octets, error)),
    }
}

/// A command with its content.
fn command_unit(alloc: Global, octets: &[u8], segments: &[Segment]) -> Result<Unit, UnitError>
    ensures { Answers result (command_unit segments.now (in_segment 0 octets.now (command_in octets.now))) }
{
    match synced_of(alloc, octets) {
        Ok((sync, command)) => content_unit(alloc, sync, command, segments),
        Err(error) => Err(fault_of(0, octets, error)),
    }
}

/// A command that was read, with its content.
fn content_unit(
    alloc: Global,
    sync: bool,
    command: Command,
    segments: &[Segment],
) -> Result<Unit, UnitError>
    ensures { Answers result (after_command sync command segments.now) }
{
    if !segments.is_empty() && !takes_content(&command) {
        drop(command);
        return Err(UnitError::Bad(UnitFault {
            segment: 1,
            at: 0,
            why: Why::ContentNotAllowed,
        }));
    }
    match content_of(alloc, segments) {
        Ok(content) => Ok(Unit::Command {
            sync,
            command,
            content,
        }),
        Err(error) => {
            drop(command);
            Err(error)
        }
    }
}

/// Whether a command may have content.
fn takes_content(command: &Command) -> bool
    ensures { result ≡ takes_content command.now }
{
    matches!(
        command,
        Command::MessageTransfer { .. } | Command::Unknown { .. }
    )
}

/// The octets of a segment, shared.
fn shared(segment: &Segment) -> Result<Octets, NoMemory>
    ensures { IfOk result (λ octets. octets ≡ segment.now.octets) }
{
    Ok(Octets::from_bytes(segment.octets.clone()?))
}

/// The body, if there is one.
fn body_of(segments: &[Segment]) -> Result<Option<Octets>, NoMemory>
    ensures { IfOk result (λ body. body ≡ body_of segments.now) }
{
    match segments.first() {
        Some(segment) => Ok(Some(shared(segment)?)),
        None => Ok(None),
    }
}

/// The structs of a header segment.
fn header_segment(alloc: Global, octets: &[u8]) -> Result<Header, UnitError>
    ensures { Answers result (in_segment 1 octets.now (header_in octets.now)) }
{
    match header_of(alloc, octets) {
        Ok(header) => Ok(header),
        Err(error) => Err(fault_of(1, octets, error)),
    }
}

/// What the segments after a command's first hold.
fn content_of(alloc: Global, segments: &[Segment]) -> Result<Option<Content>, UnitError>
    ensures { Answers result (content_in segments.now) }
{
    let Some((first, rest)) = segments.split_first() else {
        return Ok(None);
    };
    if first.kind != 2 {
        return match shared(first) {
            Ok(body) => Ok(Some(Content {
                header: None,
                body: Some(body),
            })),
            Err(NoMemory) => Err(UnitError::NoMemory),
        };
    }
    let Ok(body) = body_of(rest) else {
        return Err(UnitError::NoMemory);
    };
    match header_segment(alloc, first.octets.as_slice()) {
        Ok(header) => Ok(Some(Content {
            header: Some(header),
            body,
        })),
        Err(error) => Err(error),
    }
}

/// The segment of a control.
#[tactic(auto, unfolding(crate::specs::Units::control_in))]
fn control_of(alloc: Global, octets: &[u8]) -> Result<Control, ReadError>
    ensures gives { Gives (λ x. x) result (control_in octets.now) }
    ensures within { Within (λ x. []) (length octets.now) result }
{
    let (_, rest) = part_of(octets, octets, 2)?;
    if !is_control_class(octets[0]) {
        return Err(refused(Why::UnknownClass, octets));
    }
    let Some(kind) = control_kind(octets[0], octets[1]) else {
        return Err(refused(Why::UnknownControl, &octets[1..]));
    };
    let mut fields = all_fields_of(alloc, kind.table(), Why::TrailingOctets, rest)?;
    let control = control_by(kind, &mut fields);
    discard_fields(fields);
    Ok(control)
}

/// The session header, and what follows it.
#[tactic(auto, unfolding(crate::specs::Units::session_header_at))]
fn session_header_of(octets: &[u8]) -> Result<(bool, &[u8]), ReadError>
    ensures gives { Gives (λ x. (x.0, x.1.now)) result (session_header_at octets.now) }
    ensures within { Within (λ x. x.1.now) (length octets.now) result }
{
    let (_, rest) = part_of(octets, octets, 2)?;
    if !(octets[0] == 1 && octets[1] < 2) {
        return Err(refused(Why::BadSessionHeader, octets));
    }
    Ok((octets[1] == 1, rest))
}

/// The command of a kind, or an unknown one.
#[tactic(auto, unfolding(crate::specs::Units::command_of))]
fn command_of(
    alloc: Global,
    class: u8,
    code: u8,
    kind: Option<CommandKind>,
    octets: &[u8],
) -> Result<Command, ReadError>
    ensures gives { Gives (λ x. x) result (command_of class code octets.now kind) }
    ensures within { Within (λ x. []) (length octets.now) result }
{
    match kind {
        None => Ok(Command::Unknown {
            class,
            code,
            rest: Octets::from_slice(alloc, octets)?,
        }),
        Some(kind) => {
            let mut fields = all_fields_of(alloc, kind.table(), Why::TrailingOctets, octets)?;
            let command = command_by(kind, &mut fields);
            discard_fields(fields);
            Ok(command)
        }
    }
}

/// The segment of a command, and whether completion is asked for at once.
#[tactic(auto, unfolding(crate::specs::Units::command_in))]
fn synced_of(alloc: Global, octets: &[u8]) -> Result<(bool, Command), ReadError>
    ensures gives { Gives (λ x. x) result (command_in octets.now) }
    ensures within { Within (λ x. []) (length octets.now) result }
{
    let (_, rest) = part_of(octets, octets, 2)?;
    let (class, code) = (octets[0], octets[1]);
    if !is_command_class(class) {
        return Err(refused(Why::UnknownClass, octets));
    }
    let (sync, rest) = session_header_of(rest)?;
    let command = command_of(alloc, class, code, command_kind(class, code), rest)?;
    Ok((sync, command))
}
