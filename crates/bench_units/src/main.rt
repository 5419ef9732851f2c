//! `bench_units read N` and `bench_units write N`: a transfer with both structs of a header, a map of 20
//! entries and a body, read or written N times. `bench_units feed-P N`: its frames in a row, N times, fed to an
//! assembler in pieces of P octets, 1, 64, 1500 or 65536. It prints how many octets that were; who times it,
//! divides.
#![tactic(auto)]

ghost use Rattle.std.specs.Prelude.{◌≡◌, ◌<◌, true, length, IfSome};
ghost use Rattle.amqp_frames.specs.Assembly.{IsPlaced};
ghost use Rattle.amqp_commands.specs.Spelled.{AllShort};
ghost use Rattle.amqp_commands.specs.Units.{unit_fine};

use amqp_commands::{read_unit, write_unit};
use amqp_frames::{Assembler, Assembly, Fed, Segment, write_frames};
use amqp_terms::Unit;
use bytes::Bytes;
use std::alloc::Global;
use std::env;
use std::env::Args;
use std::process::ExitCode;

/// The segments of the transfer, in hex.
const COMMAND: &str = "04010101070001610707";

const HEADER: &str =
    "0000002d0401ff0f0707010203040506070801020304050607080102030405060708016101610001610102030405060708000001c20403ff010102030405060708000102030405060708090a0b0c0d0e0f0002ff000006030001610162016101610002ff000002ff000000018a00000014096865616465722d30302200000000096865616465722d303195000b76616c7565206f66203031096865616465722d30322200000002096865616465722d303395000b76616c7565206f66203033096865616465722d30342200000004096865616465722d303595000b76616c7565206f66203035096865616465722d30362200000006096865616465722d303795000b76616c7565206f66203037096865616465722d30382200000008096865616465722d303995000b76616c7565206f66203039096865616465722d3130220000000a096865616465722d313195000b76616c7565206f66203131096865616465722d3132220000000c096865616465722d313395000b76616c7565206f66203133096865616465722d3134220000000e096865616465722d313595000b76616c7565206f66203135096865616465722d31362200000010096865616465722d313795000b76616c7565206f66203137096865616465722d31382200000012096865616465722d313995000b76616c7565206f66203139";

const BODY: &str =
    "61616161616161616161616161616161616161616161616161616161616161616161616161616161616161616161616161616161616161616161616161616161616161616161616161616161616161616161616161616161616161616161616161616161";

/// One more than the most octets that a segment here may have.
const TOO_MANY: usize = 2_147_483_648;

/// The octets of hex digits, where memory is there and they are not too many.
fn octets_of(alloc: Global, text: &str) -> Option<Bytes>
    ensures { IfSome result (λ octets. length octets < 2147483648) }
{
    let Ok(octets) = hex::decode(alloc, text.as_bytes()) else {
        return None;
    };
    if octets.len() >= TOO_MANY {
        return None;
    }
    match Bytes::from_vec(octets) {
        Ok(octets) => Some(octets),
        Err(_) => None,
    }
}

/// The transfer.
fn transfer(alloc: Global) -> Option<Assembly>
    ensures placed { IfSome result (λ assembly. IsPlaced assembly) }
    ensures short { IfSome result (λ assembly. AllShort assembly) }
{
    let command = octets_of(alloc, COMMAND)?;
    let header = octets_of(alloc, HEADER)?;
    let body = octets_of(alloc, BODY)?;
    let mut assembly = Assembly::new(alloc);
    if assembly
        .push(Segment {
            kind: 1,
            octets: command,
        })
        .is_err()
        || assembly
            .push(Segment {
                kind: 2,
                octets: header,
            })
            .is_err()
        || assembly
            .push(Segment {
                kind: 3,
                octets: body,
            })
            .is_err()
    {
        return None;
    }
    Some(assembly)
}

/// How many octets an assembly has.
fn size_of(assembly: &Assembly) -> u64 {
    let mut size: u64 = 0;
    for segment in assembly.as_slice() {
        size = size.saturating_add(segment.octets.len() as u64);
    }
    size
}

/// Reads the unit so many times, and tells whether it is one.
fn reads(alloc: Global, assembly: &Assembly, rounds: u32) -> bool
    requires { IsPlaced assembly.now }
{
    for _ in 0..rounds {
        match read_unit(alloc, assembly) {
            Ok(unit) => drop(unit),
            Err(_) => return false,
        }
    }
    true
}

/// Writes the unit so many times, and tells whether there was memory.
fn writes(alloc: Global, unit: &Unit, rounds: u32) -> bool
    requires { unit_fine unit.now ≡ true }
{
    for _ in 0..rounds {
        match write_unit(alloc, unit) {
            Ok(assembly) => drop(assembly),
            Err(_) => return false,
        }
    }
    true
}

/// Feeds a piece, and tells whether it was taken.
fn feeds_piece(assembler: &mut Assembler, piece: &[u8]) -> bool {
    let mut rest = piece;
    while !rest.is_empty() {
        match assembler.feed(rest) {
            Ok(fed) => {
                let Fed { taken, done } = fed;
                drop(done);
                let (_, after) = rest.split_at(taken);
                rest = after;
            }
            Err(_) => return false,
        }
    }
    true
}

/// Feeds the octets in pieces of such a size, and tells whether they were taken.
fn feeds(assembler: &mut Assembler, octets: &[u8], size: usize) -> bool {
    for piece in octets.chunks(size.max(1)) {
        if !feeds_piece(assembler, piece) {
            return false;
        }
    }
    true
}

/// The frames of the assembly so many times; none without memory.
fn frames_of(alloc: Global, assembly: &Assembly, rounds: u32) -> Option<Vec<u8>> {
    let mut octets = Vec::new(alloc);
    for _ in 0..rounds {
        if write_frames(alloc, 1, assembly, 65_535, &mut octets).is_err() {
            return None;
        }
    }
    Some(octets)
}

/// Feeds the frames of the assembly so many times in pieces of such a size, and tells whether they were taken.
fn feeds_all(alloc: Global, assembly: &Assembly, size: usize, rounds: u32) -> bool {
    let Ok(mut assembler) = Assembler::new(alloc, 65_535, 0) else {
        return false;
    };
    match frames_of(alloc, assembly, rounds) {
        Some(octets) => feeds(&mut assembler, octets.as_slice(), size),
        None => false,
    }
}

/// Does what a word asks for so many times; where it can't, gives nothing.
fn run(alloc: Global, word: &str, rounds: u32) -> Option<u64> {
    let assembly = transfer(alloc)?;
    let size = size_of(&assembly);
    let done = match word {
        "read" => reads(alloc, &assembly, rounds),
        "write" => match read_unit(alloc, &assembly) {
            Ok(unit) => {
                let done = writes(alloc, &unit, rounds);
                drop(unit);
                done
            }
            Err(_) => false,
        },
        "feed-1" => feeds_all(alloc, &assembly, 1, rounds),
        "feed-64" => feeds_all(alloc, &assembly, 64, rounds),
        "feed-1500" => feeds_all(alloc, &assembly, 1_500, rounds),
        "feed-65536" => feeds_all(alloc, &assembly, 65_536, rounds),
        _ => false,
    };
    if done { Some(size) } else { None }
}

/// The two words after the program's own name.
fn words_of(mut args: Args) -> Option<(String, u32)> {
    args.next()?;
    let word = args.next()?;
    let rounds = args.next()?;
    let rounds = rounds.as_str().parse::<u32>().ok()?;
    Some((word, rounds))
}

fn main(rt: HostRuntime) -> ExitCode {
    let alloc = rt.alloc();
    let Ok(args) = env::args(&rt) else {
        return ExitCode::from(1);
    };
    let Some((word, rounds)) = words_of(args) else {
        return ExitCode::from(1);
    };
    let word = word.as_str();
    match run(alloc, word, rounds) {
        Some(size) => {
            let _ = println!(rt; "{word} {rounds} units of {size} octets");
            ExitCode::from(0)
        }
        None => ExitCode::from(1),
    }
}
