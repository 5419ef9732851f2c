//! The closing lines.
ghost use Rattle.std.specs.Prelude.{◌≡◌, ℕ, ◌+◌, ◌++◌, List, IfOk, OnOk, string_bytes, flat_map, codes};
ghost use Rattle.std.specs.Fmt.{decimal};
ghost use Rattle.history_model.specs.Life.{Heard};
ghost use Rattle.history_model.specs.Pairs.{Paired};
ghost use Rattle.history_model.specs.Report.{session_front, session_counts, session_place, session_line, queue_line, shown, trace_number};
ghost use Rattle.hub_core.specs.Stands.{Sits};
ghost use Rattle.hub_core.specs.Rows.{row_text, stand_text};

use crate::session::Session;
use amqp_values::{NoMemory, Octets, Text};
use history_model::ConnName;
use std::alloc::Global;
use std::collections::{BTreeMap, BTreeSet};

/// A name in lower-case hex, an empty one as `-`.
fn shown(alloc: Global, name: &[u8]) -> Result<String, NoMemory>
    ensures { IfOk result (λ text. string_bytes text ≡ shown name.now) }
{
    match name {
        [] => Ok(String::from_str(alloc, "-")?),
        [_, ..] => Ok(hex::encode(alloc, name)?),
    }
}

/// The trace's number of a connection.
fn name_of(names: &[ConnName], connection: u64) -> u32
    ensures { result ≡ trace_number names.now connection }
{
    let mut rest = names;
    while let Some((first, more)) = rest.split_first() {
        if first.number == connection {
            return first.name;
        }
        rest = more;
    }
    0
}

/// Puts the line of a queue at the text's end.
fn push_queue(alloc: Global, text: &mut Vec<u8>, name: &[u8]) -> Result<(), NoMemory>
    ensures { OnOk result (text.new.items ≡ text.old.items ++ queue_line name.now) }
{
    let name = shown(alloc, name)?;
    let name = name.as_str();
    let line = format!(in alloc; "queue {name} 0 0\n")?;
    text.extend_from_slice(line.as_str().as_bytes())?;
    Ok(())
}

/// Puts the lines of the queues at the text's end.
pub(crate) fn push_queues(
    alloc: Global,
    text: &mut Vec<u8>,
    queues: &BTreeSet<Text>,
) -> Result<(), NoMemory>
    ensures { OnOk result (text.new.items ≡ text.old.items ++ flat_map queue_line queues.now.keys) }
{
    for name in queues.iter() {
        push_queue(alloc, text, name.as_slice())?;
    }
    Ok(())
}

/// Puts what a session received at the text's end.
fn push_front(alloc: Global, text: &mut Vec<u8>, name: &str, received: u64) -> Result<(), NoMemory>
    ensures { OnOk result (text.new.items ≡ text.old.items ++ session_front name.now received) }
{
    let part = format!(in alloc; "session {name} received {received}")?;
    text.extend_from_slice(part.as_str().as_bytes())?;
    Ok(())
}

/// Puts what a session gave and keeps at the text's end.
fn push_counts(alloc: Global, text: &mut Vec<u8>, sent: u64, kept: u64) -> Result<(), NoMemory>
    ensures { OnOk result (text.new.items ≡ text.old.items ++ session_counts sent kept) }
{
    let part = format!(in alloc; " sent {sent} kept {kept}")?;
    text.extend_from_slice(part.as_str().as_bytes())?;
    Ok(())
}

/// Puts where a session stands at the text's end.
fn push_place(
    alloc: Global,
    text: &mut Vec<u8>,
    connection: u32,
    channel: u16,
) -> Result<(), NoMemory>
    ensures { OnOk result (text.new.items ≡ text.old.items ++ session_place connection channel) }
{
    let part = format!(in alloc; " on {connection}/{channel}\n")?;
    text.extend_from_slice(part.as_str().as_bytes())?;
    Ok(())
}

/// Puts when a loose session ends at the text's end.
fn push_deadline(
    alloc: Global,
    text: &mut Vec<u8>,
    since: u64,
    timeout: u32,
) -> Result<(), NoMemory>
    ensures { OnOk result (text.new.items ≡ text.old.items ++ (codes " loose " ++ decimal (since + timeout) ++ codes "\n")) }
{
    let deadline = u128::from(since) + u128::from(timeout);
    let part = format!(in alloc; " loose {deadline}\n")?;
    text.extend_from_slice(part.as_str().as_bytes())?;
    Ok(())
}

/// Puts where a session stands, or when it ends, at the text's end.
fn push_stand(
    alloc: Global,
    text: &mut Vec<u8>,
    session: &Session,
    names: &[ConnName],
) -> Result<(), NoMemory>
    ensures { OnOk result (text.new.items ≡ text.old.items ++ stand_text names.now session.now session.now.loose) }
{
    match session.loose {
        None => push_place(
            alloc,
            text,
            name_of(names, session.connection),
            session.channel,
        ),
        Some(since) => push_deadline(alloc, text, since, session.timeout),
    }
}

/// Puts the line of a session at the text's end.
fn push_session(
    alloc: Global,
    text: &mut Vec<u8>,
    name: &[u8],
    session: &Session,
    names: &[ConnName],
) -> Result<(), NoMemory>
    ensures { OnOk result (text.new.items ≡ text.old.items ++ row_text names.now (name.now, session.now)) }
{
    let name = shown(alloc, name)?;
    push_front(alloc, text, name.as_str(), session.receiver.next())?;
    push_counts(alloc, text, session.sender.sent(), session.sender.kept())?;
    push_stand(alloc, text, session, names)
}

/// Puts the lines of the sessions at the text's end, by the code's table.
fn push_rows(
    alloc: Global,
    text: &mut Vec<u8>,
    sessions: &BTreeMap<Octets, Session>,
    names: &[ConnName],
) -> Result<(), NoMemory>
    ensures { OnOk result (text.new.items ≡ text.old.items ++ flat_map (row_text names.now) sessions.now.entries) }
{
    for (name, session) in sessions.iter() {
        push_session(alloc, text, name.as_slice(), session, names)?;
    }
    Ok(())
}

/// Puts the lines of the sessions at the text's end.
pub(crate) fn push_sessions(
    alloc: Global,
    text: &mut Vec<u8>,
    sessions: &BTreeMap<Octets, Session>,
    names: &[ConnName],
) -> Result<(), NoMemory>
    ensures { (lives : List (List ℕ × List Heard)) → Paired Sits sessions.now.entries lives
        → OnOk result (text.new.items ≡ text.old.items ++ flat_map (session_line names.now) lives) }
{
    push_rows(alloc, text, sessions, names)
}
