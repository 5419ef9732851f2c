//! `amqp_broker WORDS..`: the broker's tools.
#![tactic(auto)]

mod help;
#[cfg(test)]
mod octet_rows;
#[cfg(test)]
mod rows;
#[cfg(test)]
mod session_rows;
mod streams;

use crate::help::{HELP, VERSION};
use crate::streams::{Input, Output};
use amqp_values::NoMemory;
use keeper_core::{Calls, MapKeeper};
use line_runs::{Written, write_all};
use outside_core::Sink;
use std::alloc::Global;
use std::env;
use std::env::Args;
use std::io::ErrorKind;
use std::process::ExitCode;
use trace_tool::{Status, run_tool};

/// A keeper for where no store is named: without rows, and none of its calls fails.
fn keeper_of(alloc: Global) -> MapKeeper {
    let applies = Calls::from_vec(Vec::new(alloc));
    let lists = Calls::from_vec(Vec::new(alloc));
    MapKeeper::new(alloc, applies, lists)
}

/// The words after the program's own name.
fn words_of(alloc: Global, mut args: Args) -> Result<Vec<String>, NoMemory> {
    args.next();
    let mut words = Vec::new(alloc);
    for word in args {
        words.push(word)?;
    }
    Ok(words)
}

/// What the program says of itself, where the words ask for it.
fn own_text(words: &[String]) -> Option<&'static str> {
    match words {
        [word] if word.as_str() == "--help" => Some(HELP),
        [word] if word.as_str() == "--version" => Some(VERSION),
        _ => None,
    }
}

/// Writes a text.
fn show<B: Sink>(out: &mut B, text: &str) -> Status {
    match write_all(out, text.as_bytes()) {
        Written::All => Status::Ok,
        Written::Failed => Status::WriteFault,
        Written::NoMemory => Status::NoMemory,
    }
}

fn main(rt: HostRuntime) -> ExitCode {
    let alloc = rt.alloc();
    let status = match env::args(&rt) {
        Ok(args) => match words_of(alloc, args) {
            Ok(words) => {
                let mut input = Input::new(rt.stdin());
                let mut out = Output::new(rt.stdout());
                match own_text(words.as_slice()) {
                    Some(text) => show(&mut out, text),
                    None => {
                        let keeper = keeper_of(alloc);
                        let (status, _) = run_tool(
                            alloc,
                            words.as_slice(),
                            &mut input,
                            &mut out,
                            keeper,
                        );
                        status
                    }
                }
            }
            Err(NoMemory) => Status::NoMemory,
        },
        Err(error) if error.kind() == ErrorKind::OutOfMemory => Status::NoMemory,
        Err(_) => Status::Usage,
    };
    if status != Status::Ok {
        let _ = eprintln!(rt; "amqp_broker: {status}");
    }
    ExitCode::from(status.code())
}
