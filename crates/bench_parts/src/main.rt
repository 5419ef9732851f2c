//! `bench_parts WORD N`, for a benchmark to time: `arrivals`, N commands in order; `gaps`, N gaps that name every second
//! number, then a command for each number between; `sends`, N commands given, of which the last 8,192 are kept;
//! `turns`, N deliveries over four subscriptions; `numbers`, N numbers taken from the front, put back in another order,
//! each time with the first one asked for, and taken again; `copies`, N copies of a queue added, acquired, released in
//! another order, each time with the first available one asked for, and accepted; `leaves`, N copies that a session holds
//! at its end, added and acquired before. It prints how far it came.
#![tactic(auto)]

mod copies;

use amqp_terms::{Control, Unit};
use amqp_values::{NoMemory, Range, Ranges};
use credit_core::{Offers, Sub, Subs};
use number_tree::{Numbers, Slot};
use octet_reading::Text;
use serial_ranges::RangeSet;
use session_core::{Receiver, Sender};
use std::alloc::Global;
use std::env;
use std::env::Args;
use std::process::ExitCode;

/// The end of a session's numbers.
const FAR_END: u64 = 4_611_686_018_427_387_904;

/// How many commands a sender keeps here.
const KEPT: u64 = 8_192;

/// A range of one number.
fn one(alloc: Global, number: u64) -> Result<Ranges, NoMemory> {
    let mut items = Vec::new(alloc);
    let serial = (number % 4_294_967_296) as u32;
    items.push(Range {
        lower: serial,
        upper: serial,
    })?;
    Ok(Ranges::from_vec(items))
}

/// Takes a command, and tells whether it is new.
fn arrive(receiver: &mut Receiver) -> bool {
    receiver.next() < FAR_END && receiver.arrive().new
}

/// So many commands in order; gives the next number.
fn arrivals(alloc: Global, rounds: u32) -> u64 {
    let mut receiver = Receiver::new(alloc);
    for _ in 0..rounds {
        if !arrive(&mut receiver) {
            break;
        }
    }
    receiver.next()
}

/// Names every second number in a gap, and takes a command for each number between; gives the next number.
fn gaps(alloc: Global, rounds: u32) -> Result<u64, NoMemory> {
    let mut receiver = Receiver::new(alloc);
    for round in 0..rounds {
        let named = one(alloc, 2 * u64::from(round) + 1)?;
        if receiver.next() < FAR_END {
            receiver.gap(&named)?;
        }
    }
    for round in 0..rounds {
        let serial = ((2 * u64::from(round)) % 4_294_967_296) as u32;
        if receiver.point(serial, 0).is_err() || !arrive(&mut receiver) {
            break;
        }
    }
    Ok(receiver.next())
}

/// Gives a command.
fn give(sender: &mut Sender) -> Result<(), NoMemory> {
    sender.reserve(1)?;
    if sender.sent() < FAR_END {
        let _ = sender.give(Unit::Control(Control::ConnectionHeartbeat));
    }
    Ok(())
}

/// Takes a completed of one number.
fn complete(sender: &mut Sender, named: &Ranges) -> Result<(), NoMemory> {
    let firsts: RangeSet = sender.firsts(named)?;
    sender.completed(named, &firsts);
    Ok(())
}

/// Gives so many commands, and has the oldest completed where too many are kept; gives the number of kept ones.
fn sends(alloc: Global, rounds: u32) -> Result<u64, NoMemory> {
    let mut sender = Sender::new(alloc);
    for round in 0..rounds {
        give(&mut sender)?;
        if sender.kept() > KEPT {
            let named = one(alloc, u64::from(round) - KEPT.min(u64::from(round)))?;
            complete(&mut sender, &named)?;
        }
    }
    Ok(sender.kept())
}

/// Adds a subscription with unlimited credit.
fn subscribe(alloc: Global, subs: &mut Subs, name: &str) -> Result<(), NoMemory> {
    let destination = Text::from_text(alloc, name)?;
    let sub = Sub {
        destination: Text::from_text(alloc, name)?,
        queue: Text::from_text(alloc, "q")?,
        accept_mode: 0,
        acquire_mode: 0,
        exclusive: false,
    };
    if !subs.has(&sub.destination) {
        subs.add(sub)?;
    }
    let _ = subs.flow(&destination, 0, u32::MAX);
    let _ = subs.flow(&destination, 1, u32::MAX);
    Ok(())
}

/// Delivers by the subscription whose turn it is, and tells whether there was one.
fn deliver(alloc: Global, subs: &mut Subs, offers: &Offers) -> Result<bool, NoMemory> {
    match subs.next_ready(offers) {
        Some(place) => {
            if place >= subs.len() {
                return Ok(false);
            }
            let destination = subs.at(place).sub.destination.copied(alloc)?;
            if !subs.can_spend(&destination, 100) {
                return Ok(false);
            }
            let _ = subs.spend(&destination, 100);
            Ok(true)
        }
        None => Ok(false),
    }
}

/// So many deliveries; gives their number.
fn turns(alloc: Global, rounds: u32) -> Result<u64, NoMemory> {
    let mut subs = Subs::new(alloc);
    for name in ["a", "b", "c", "d"] {
        subscribe(alloc, &mut subs, name)?;
    }
    let mut items = Vec::new(alloc);
    for _ in 0..4u8 {
        items.push(Some(100))?;
    }
    let offers = Offers::from_vec(items);
    let mut delivered: u64 = 0;
    for _ in 0..rounds {
        if !deliver(alloc, &mut subs, &offers)? {
            break;
        }
        delivered = delivered.saturating_add(1);
    }
    Ok(delivered)
}

/// Puts a number in that isn't there.
fn put(numbers: &mut Numbers, number: u64, slot: Slot) {
    if !numbers.has(number) {
        numbers.put(number, slot);
    }
}

/// The number that comes so many-th in another order, from 1 to that of the rounds.
fn shuffled(round: u32, rounds: u32) -> u64 {
    if rounds == 0 {
        return 1;
    }
    (u64::from(round) * 7_919) % u64::from(rounds) + 1
}

/// So many numbers taken from the front, put back in another order, and taken again; gives how many that were.
fn numbers(alloc: Global, rounds: u32) -> Result<u64, NoMemory> {
    let mut numbers = Numbers::new();
    for round in 0..rounds {
        let slot = Slot::new(alloc)?;
        put(&mut numbers, u64::from(round) + 1, slot);
    }
    let mut slots = Vec::new(alloc);
    for _ in 0..rounds {
        let Some(first) = numbers.first_above(0) else {
            break;
        };
        if let Some(slot) = numbers.take(first) {
            slots.push(slot)?;
        }
    }
    for round in 0..rounds {
        if let Some(slot) = slots.pop() {
            put(&mut numbers, shuffled(round, rounds), slot);
            let _ = numbers.first_above(0);
        }
    }
    let mut taken: u64 = 0;
    for round in 0..rounds {
        if numbers.take(shuffled(round, rounds)).is_some() {
            taken = taken.saturating_add(1);
        }
    }
    Ok(taken)
}

/// Does what a word asks for; none where it asks for nothing, or memory is wanting.
fn run(alloc: Global, word: &str, rounds: u32) -> Option<u64> {
    match word {
        "arrivals" => Some(arrivals(alloc, rounds)),
        "gaps" => gaps(alloc, rounds).ok(),
        "sends" => sends(alloc, rounds).ok(),
        "turns" => turns(alloc, rounds).ok(),
        "numbers" => numbers(alloc, rounds).ok(),
        "copies" => copies::circle(alloc, rounds).ok(),
        "leaves" => copies::leaves(alloc, rounds).ok(),
        _ => None,
    }
}

/// The two words after the program's own name.
fn words_of(mut args: Args) -> Option<(String, u32)> {
    args.next()?;
    let word = args.next()?;
    let rounds = args.next()?;
    let rounds = rounds.as_str().parse::<u32>().ok()?;
    Some((word, rounds))
}

fn main(rt: HostRuntime) -> ExitCode {
    let alloc = rt.alloc();
    let Ok(args) = env::args(&rt) else {
        return ExitCode::from(1);
    };
    let Some((word, rounds)) = words_of(args) else {
        return ExitCode::from(1);
    };
    let word = word.as_str();
    match run(alloc, word, rounds) {
        Some(end) => {
            let _ = println!(rt; "{word} {rounds}: {end}");
            ExitCode::from(0)
        }
        None => ExitCode::from(1),
    }
}
