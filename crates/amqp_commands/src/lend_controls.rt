//! The fields of controls, lent.
ghost use Rattle.std.specs.Prelude.{◌≡◌, ◌≤◌, length, map, IfOk};
ghost use Rattle.amqp_packed.specs.Lent.{lent};
ghost use Rattle.amqp_commands.specs.Terms.{control_fields};

use crate::refs::refs_of;
use amqp_packed::FieldRef;
use amqp_terms::Control;
use amqp_values::NoMemory;
use std::alloc::Global;

/// The fields of a control in the order of its table, absent ones too.
pub fn control_refs(alloc: Global, control: &Control) -> Result<Vec<FieldRef<'_>>, NoMemory>
    ensures fields { IfOk result (λ refs. map lent refs.items ≡ control_fields control.now) }
    ensures few { IfOk result (λ refs. length refs.items ≤ 16) }
{
    match control {
        Control::ConnectionStart {
            server_properties,
            mechanisms,
            locales,
        } => {
            refs_of(
                alloc,
                &[
                    FieldRef::of_map(server_properties),
                    FieldRef::of_array(mechanisms),
                    FieldRef::of_array(locales),
                ],
            )
        }
        Control::ConnectionStartOk {
            client_properties,
            mechanism,
            response,
            locale,
        } => {
            refs_of(
                alloc,
                &[
                    FieldRef::of_map(client_properties),
                    FieldRef::of_str8(mechanism),
                    FieldRef::of_vbin32(response),
                    FieldRef::of_str8(locale),
                ],
            )
        }
        Control::ConnectionSecure { challenge } => {
            refs_of(alloc, &[FieldRef::of_vbin32(challenge)])
        }
        Control::ConnectionSecureOk { response } => {
            refs_of(alloc, &[FieldRef::of_vbin32(response)])
        }
        Control::ConnectionTune {
            channel_max,
            max_frame_size,
            heartbeat_min,
            heartbeat_max,
        } => {
            refs_of(
                alloc,
                &[
                    FieldRef::of_u16(channel_max),
                    FieldRef::of_u16(max_frame_size),
                    FieldRef::of_u16(heartbeat_min),
                    FieldRef::of_u16(heartbeat_max),
                ],
            )
        }
        Control::ConnectionTuneOk {
            channel_max,
            max_frame_size,
            heartbeat,
        } => {
            refs_of(
                alloc,
                &[
                    FieldRef::of_u16(channel_max),
                    FieldRef::of_u16(max_frame_size),
                    FieldRef::of_u16(heartbeat),
                ],
            )
        }
        Control::ConnectionOpen {
            virtual_host,
            capabilities,
            insist,
        } => {
            refs_of(
                alloc,
                &[
                    FieldRef::of_str8(virtual_host),
                    FieldRef::of_array(capabilities),
                    FieldRef::of_bit(*insist),
                ],
            )
        }
        Control::ConnectionOpenOk { known_hosts } => {
            refs_of(alloc, &[FieldRef::of_array(known_hosts)])
        }
        Control::ConnectionHeartbeat => { refs_of(alloc, &[]) }
        Control::ConnectionClose {
            reply_code,
            reply_text,
        } => {
            refs_of(
                alloc,
                &[FieldRef::of_u16(reply_code), FieldRef::of_str8(reply_text)],
            )
        }
        Control::ConnectionCloseOk => { refs_of(alloc, &[]) }
        Control::SessionAttach { name, force } => {
            refs_of(
                alloc,
                &[FieldRef::of_vbin16(name), FieldRef::of_bit(*force)],
            )
        }
        Control::SessionAttached { name } => { refs_of(alloc, &[FieldRef::of_vbin16(name)]) }
        Control::SessionDetach { name } => { refs_of(alloc, &[FieldRef::of_vbin16(name)]) }
        Control::SessionDetached { name, code } => {
            refs_of(alloc, &[FieldRef::of_vbin16(name), FieldRef::of_u8(code)])
        }
        Control::SessionRequestTimeout { timeout } => {
            refs_of(alloc, &[FieldRef::of_u32(timeout)])
        }
        Control::SessionTimeout { timeout } => { refs_of(alloc, &[FieldRef::of_u32(timeout)]) }
        Control::SessionCommandPoint {
            command_id,
            command_offset,
        } => {
            refs_of(
                alloc,
                &[
                    FieldRef::of_u32(command_id),
                    FieldRef::of_u64(command_offset),
                ],
            )
        }
        Control::SessionExpected {
            commands,
            fragments,
        } => {
            refs_of(
                alloc,
                &[FieldRef::of_ranges(commands), FieldRef::of_array(fragments)],
            )
        }
        Control::SessionConfirmed {
            commands,
            fragments,
        } => {
            refs_of(
                alloc,
                &[FieldRef::of_ranges(commands), FieldRef::of_array(fragments)],
            )
        }
        Control::SessionCompleted {
            commands,
            timely_reply,
        } => {
            refs_of(
                alloc,
                &[
                    FieldRef::of_ranges(commands),
                    FieldRef::of_bit(*timely_reply),
                ],
            )
        }
        Control::SessionKnownCompleted { commands } => {
            refs_of(alloc, &[FieldRef::of_ranges(commands)])
        }
        Control::SessionFlush {
            expected,
            confirmed,
            completed,
        } => {
            refs_of(
                alloc,
                &[
                    FieldRef::of_bit(*expected),
                    FieldRef::of_bit(*confirmed),
                    FieldRef::of_bit(*completed),
                ],
            )
        }
        Control::SessionGap { commands } => { refs_of(alloc, &[FieldRef::of_ranges(commands)]) }
    }
}
