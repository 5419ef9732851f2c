//! The lines of a trace.
ghost use Rattle.std.specs.Prelude.{◌≡◌, IfOk};
ghost use Rattle.std.specs.Option.{option_copied};
ghost use Rattle.trace_tool.specs.Line.{one_number, bytes_line, other_line, is_skipped, parsed};

use amqp_values::NoMemory;
use history_model::TraceEvent;
use line_runs::TraceWhy;
use std::alloc::Global;
use trace_words::{hex_octets, number_upto, rest, word};

/// What a line says by itself.
#[derive(Debug, Drop)]
pub(crate) enum Parsed {
    /// An empty line or a comment.
    Skipped,
    Event(TraceEvent),
    Bad(TraceWhy),
}

/// The greatest number of a connection.
const LAST_CONNECTION: u64 = 4_294_967_295;

/// The one number that follows a word.
fn number_after(rest_of_line: Option<&[u8]>, greatest: u64) -> Result<u64, TraceWhy>
    ensures { result ≡ one_number greatest (option_copied rest_of_line.entry) }
{
    let Some(number) = rest_of_line else {
        return Err(TraceWhy::Unknown);
    };
    if rest(number).is_some() {
        return Err(TraceWhy::Unknown);
    }
    match number_upto(number, greatest) {
        Some(number) => Ok(number),
        None => Err(TraceWhy::BadNumber),
    }
}

/// The lines `ready`, `open`, `lose`, `quiet`, `tick` and `restart`.
#[tactic(auto, unfolding(crate::specs::Line::other_line))]
fn other_line_of(word: &[u8], rest_of_line: Option<&[u8]>) -> Parsed
    ensures { result ≡ other_line word.now (option_copied rest_of_line.entry) }
{
    if word == b"ready".as_slice() {
        return match connection_after(rest_of_line) {
            Ok(connection) => Parsed::Event(TraceEvent::Ready { connection }),
            Err(why) => Parsed::Bad(why),
        };
    }
    if word == b"open".as_slice() {
        return match connection_after(rest_of_line) {
            Ok(connection) => Parsed::Event(TraceEvent::Open { connection }),
            Err(why) => Parsed::Bad(why),
        };
    }
    if word == b"lose".as_slice() {
        return match connection_after(rest_of_line) {
            Ok(connection) => Parsed::Event(TraceEvent::Lose { connection }),
            Err(why) => Parsed::Bad(why),
        };
    }
    if word == b"quiet".as_slice() {
        return match connection_after(rest_of_line) {
            Ok(connection) => Parsed::Event(TraceEvent::Quiet { connection }),
            Err(why) => Parsed::Bad(why),
        };
    }
    if word == b"tick".as_slice() {
        return match number_after(rest_of_line, u64::MAX) {
            Ok(now) => Parsed::Event(TraceEvent::Tick { now }),
            Err(why) => Parsed::Bad(why),
        };
    }
    if word == b"restart".as_slice() && rest_of_line.is_none() {
        return Parsed::Event(TraceEvent::Restart);
    }
    Parsed::Bad(TraceWhy::Unknown)
}

/// The connection's number that follows a word.
fn connection_after(rest_of_line: Option<&[u8]>) -> Result<u32, TraceWhy>
    ensures { result ≡ one_number 4294967295 (option_copied rest_of_line.entry) }
{
    match number_after(rest_of_line, LAST_CONNECTION) {
        Ok(number) => Ok(number as u32),
        Err(why) => Err(why),
    }
}

/// The line `bytes`.
fn bytes_line_of(alloc: Global, rest_of_line: Option<&[u8]>) -> Result<Parsed, NoMemory>
    ensures { IfOk result (λ p. p ≡ bytes_line (option_copied rest_of_line.entry)) }
{
    let Some(words) = rest_of_line else {
        return Ok(Parsed::Bad(TraceWhy::Unknown));
    };
    let Some(hex) = rest(words) else {
        return Ok(Parsed::Bad(TraceWhy::Unknown));
    };
    if rest(hex).is_some() {
        return Ok(Parsed::Bad(TraceWhy::Unknown));
    }
    let Some(number) = number_upto(word(words), LAST_CONNECTION) else {
        return Ok(Parsed::Bad(TraceWhy::BadNumber));
    };
    match hex_octets(alloc, hex)? {
        Some(octets) => Ok(Parsed::Event(TraceEvent::Bytes {
            connection: number as u32,
            octets,
        })),
        None => Ok(Parsed::Bad(TraceWhy::BadHex)),
    }
}

/// What a line says.
#[tactic(auto, unfolding(crate::specs::Line::parsed))]
pub(crate) fn parse(alloc: Global, line: &[u8]) -> Result<Parsed, NoMemory>
    ensures { IfOk result (λ p. p ≡ parsed line.now) }
{
    if is_skipped(line) {
        return Ok(Parsed::Skipped);
    }
    let first = word(line);
    if first == b"bytes".as_slice() {
        return bytes_line_of(alloc, rest(line));
    }
    Ok(other_line_of(first, rest(line)))
}

/// An empty line, or a comment.
fn is_skipped(line: &[u8]) -> bool
    ensures { result ≡ is_skipped line.now }
{
    match line {
        [] => true,
        [first, ..] => *first == b'#',
    }
}
