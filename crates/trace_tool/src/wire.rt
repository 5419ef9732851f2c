//! A connection of a trace, and the lines that are written of it.
ghost use Rattle.std.specs.Prelude.{◌≡◌, ◌++◌, IfOk, OnOk, codes};
ghost use Rattle.std.specs.Fmt.{decimal};
ghost use Rattle.octet_reading.specs.Words.{word_of};
ghost use Rattle.broker_engine.specs.Trace.{to_line, refused_front, segment_text, refused_line};
ghost use Rattle.trace_tool.specs.Replay.{went_lines};

use amqp_values::{NoMemory, Octets, Why};
use broker_engine::{Closing, Conn};
use std::alloc::Global;

/// A connection: its number in the hub, and its octets.
#[derive(Drop)]
pub(crate) struct Wire {
    pub(crate) number: u64,
    pub(crate) conn: Conn,
}

/// Puts what was sent at the text's end, in hex.
fn push_hex(alloc: Global, text: &mut Vec<u8>, connection: u32, sent: &str) -> Result<(), NoMemory>
    ensures { OnOk result (text.new.items ≡ text.old.items ++ (codes "to " ++ decimal connection ++ codes " " ++ sent.now ++ codes "\n")) }
{
    let line = format!(in alloc; "to {connection} {sent}\n")?;
    text.extend_from_slice(line.as_str().as_bytes())?;
    Ok(())
}

/// Puts the line of what was sent at the text's end, if anything was.
#[tactic(auto, unfolding(broker_engine::specs::Trace::to_line))]
fn push_sent(
    alloc: Global,
    text: &mut Vec<u8>,
    connection: u32,
    sent: &[u8],
) -> Result<(), NoMemory>
    ensures { OnOk result (text.new.items ≡ text.old.items ++ to_line connection sent.now) }
{
    match sent {
        [] => Ok(()),
        [_, ..] => {
            let hex = hex::encode(alloc, sent)?;
            push_hex(alloc, text, connection, hex.as_str())
        }
    }
}

/// Puts where a connection was refused at the text's end.
fn push_front(alloc: Global, text: &mut Vec<u8>, connection: u32, at: u64) -> Result<(), NoMemory>
    ensures { OnOk result (text.new.items ≡ text.old.items ++ refused_front connection at) }
{
    let part = format!(in alloc; "refused {connection} {at}")?;
    text.extend_from_slice(part.as_str().as_bytes())?;
    Ok(())
}

/// Puts a segment and an index at the text's end.
fn push_place(alloc: Global, text: &mut Vec<u8>, segment: u32, at: u64) -> Result<(), NoMemory>
    ensures { OnOk result (text.new.items ≡ text.old.items ++ (codes " " ++ decimal segment ++ codes " " ++ decimal at ++ codes " ")) }
{
    let part = format!(in alloc; " {segment} {at} ")?;
    text.extend_from_slice(part.as_str().as_bytes())?;
    Ok(())
}

/// Puts the segment and the index of a unit's fault at the text's end, if it is one.
fn push_segment(
    alloc: Global,
    text: &mut Vec<u8>,
    segment: Option<(u32, u64)>,
) -> Result<(), NoMemory>
    ensures { OnOk result (text.new.items ≡ text.old.items ++ segment_text segment) }
{
    match segment {
        None => {
            text.extend_from_slice(b" - - ".as_slice())?;
            Ok(())
        }
        Some((segment, at)) => push_place(alloc, text, segment, at),
    }
}

/// Puts a reason at the text's end, and ends the line.
fn push_why(text: &mut Vec<u8>, why: Why) -> Result<(), NoMemory>
    ensures { OnOk result (text.new.items ≡ text.old.items ++ (word_of why ++ codes "\n")) }
{
    text.extend_from_slice(why.word().as_bytes())?;
    text.extend_from_slice(b"\n".as_slice())?;
    Ok(())
}

/// Puts the line of a connection that was refused at the text's end, if it was.
fn push_refused(
    alloc: Global,
    text: &mut Vec<u8>,
    connection: u32,
    refused: Option<Closing>,
) -> Result<(), NoMemory>
    ensures { OnOk result (text.new.items ≡ text.old.items ++ refused_line connection refused) }
{
    match refused {
        None => Ok(()),
        Some(closing) => match closing.why {
            None => Ok(()),
            Some(why) => {
                push_front(alloc, text, connection, closing.at)?;
                push_segment(alloc, text, closing.segment)?;
                push_why(text, why)
            }
        },
    }
}

/// The lines of what was sent on a connection, and of its end.
pub(crate) fn lines_of(
    alloc: Global,
    connection: u32,
    sent: &[u8],
    refused: Option<Closing>,
) -> Result<Octets, NoMemory>
    ensures { IfOk result (λ text. text ≡ went_lines connection sent.now refused) }
{
    let mut text = Vec::new(alloc);
    push_sent(alloc, &mut text, connection, sent)?;
    push_refused(alloc, &mut text, connection, refused)?;
    Ok(Octets::from_vec(text))
}
