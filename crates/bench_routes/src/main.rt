//! `bench_routes KIND BINDINGS ROUTES`, for a benchmark to time: an exchange of that kind, `direct`, `fanout`, `topic` or
//! `headers`, with so many queues bound, each in a way of its own, routes so many messages. Each goes to one queue, at a
//! fanout to all. It prints how many names of queues came.
#![tactic(auto)]

use amqp_values::{Items, Pair, Value};
use exchange_core::{Binding, ExchangeMarks, Exchanges, Kind};
use octet_reading::{NoMemory, Octets, Text};
use std::alloc::Global;
use std::env;
use std::env::Args;
use std::process::ExitCode;

/// The name of the queue with a number.
fn queue_of(alloc: Global, number: u32) -> Result<Text, NoMemory> {
    Ok(Text::from_string(format!(in alloc; "queue.{number}")?))
}

/// A key of three words, of which the second has the number.
fn key_of(alloc: Global, number: u32) -> Result<Text, NoMemory> {
    Ok(Text::from_string(format!(in alloc; "stock.{number}.nyse")?))
}

/// A map with the number under one key.
fn map_of(alloc: Global, number: u32) -> Result<Value, NoMemory> {
    let key = Text::from_text(alloc, "number")?;
    let value = Value::Fixed {
        code: 0x22,
        octets: Octets::from_slice(alloc, &number.to_be_bytes())?,
    };
    let mut pairs = Items::new(alloc);
    pairs.push(Pair { key, value })?;
    Ok(Value::Map(pairs))
}

/// Declares the exchange, where it isn't there.
fn declare(
    exchanges: &mut Exchanges,
    alloc: Global,
    name: &Text,
    kind: Kind,
) -> Result<(), NoMemory> {
    let marks = ExchangeMarks {
        kind,
        durable: false,
        auto_delete: false,
        alternate: Text::from_text(alloc, "")?,
        arguments: None,
    };
    if exchanges.marks(name).is_some() {
        drop(marks);
        return Ok(());
    }
    exchanges.declare(name, marks)
}

/// Binds the queue with a number, where the exchange is there.
fn bind(
    exchanges: &mut Exchanges,
    alloc: Global,
    name: &Text,
    number: u32,
) -> Result<(), NoMemory> {
    let queue = queue_of(alloc, number)?;
    let key = key_of(alloc, number)?;
    let arguments = Some(map_of(alloc, number)?);
    let binding = Binding {
        queue,
        key,
        arguments,
    };
    if exchanges.marks(name).is_none() {
        drop(binding);
        return Ok(());
    }
    exchanges.bind(name, binding)
}

/// Routes the message for the queue with a number; gives how many queues it goes to.
fn route(exchanges: &Exchanges, alloc: Global, name: &Text, number: u32) -> Result<u64, NoMemory> {
    let key = key_of(alloc, number)?;
    let headers = map_of(alloc, number)?;
    let names = exchanges.route(name, &key, Some(&headers))?;
    Ok(names.len() as u64)
}

fn run(
    exchanges: &mut Exchanges,
    alloc: Global,
    name: &Text,
    kind: Kind,
    bindings: u32,
    routes: u32,
) -> Result<u64, NoMemory> {
    declare(exchanges, alloc, name, kind)?;
    for number in 0..bindings {
        bind(exchanges, alloc, name, number)?;
    }
    let mut reached: u64 = 0;
    for turn in 0..routes {
        let number = if bindings == 0 { 0 } else { turn % bindings };
        reached = reached.saturating_add(route(exchanges, alloc, name, number)?);
    }
    Ok(reached)
}

fn reached(alloc: Global, kind: Kind, bindings: u32, routes: u32) -> Result<u64, NoMemory> {
    let name = Text::from_text(alloc, "bench")?;
    let mut exchanges = Exchanges::new(alloc)?;
    run(&mut exchanges, alloc, &name, kind, bindings, routes)
}

fn kind_of(word: &str) -> Option<Kind> {
    match word {
        "direct" => Some(Kind::Direct),
        "fanout" => Some(Kind::Fanout),
        "topic" => Some(Kind::Topic),
        "headers" => Some(Kind::Headers),
        _ => None,
    }
}

/// The three words after the program's own name.
fn words_of(mut args: Args) -> Option<(String, u32, u32)> {
    args.next()?;
    let word = args.next()?;
    let bindings = args.next()?;
    let routes = args.next()?;
    let bindings = bindings.as_str().parse::<u32>().ok()?;
    let routes = routes.as_str().parse::<u32>().ok()?;
    Some((word, bindings, routes))
}

fn main(rt: HostRuntime) -> ExitCode {
    let alloc = rt.alloc();
    let Ok(args) = env::args(&rt) else {
        return ExitCode::from(1);
    };
    let Some((word, bindings, routes)) = words_of(args) else {
        return ExitCode::from(1);
    };
    let word = word.as_str();
    let Some(kind) = kind_of(word) else {
        return ExitCode::from(1);
    };
    match reached(alloc, kind, bindings, routes) {
        Ok(names) => {
            let _ = println!(rt; "{word} {bindings} {routes}: {names}");
            ExitCode::from(0)
        }
        Err(_) => ExitCode::from(1),
    }
}
