//! Numbers and octets, put at a text's end.
ghost use Rattle.std.specs.Prelude.{◌≡◌, ◌++◌, OnOk, decimal};
ghost use Rattle.hex.specs.Hex.{encode_lower};
ghost use Rattle.octet_tools.specs.Show.{shown};

use octet_reading::{NoMemory, put};
use std::alloc::Global;

/// Puts a number in decimal.
pub(crate) fn push_number(alloc: Global, text: &mut Vec<u8>, number: u64) -> Result<(), NoMemory>
    ensures { OnOk result (text.new.items ≡ text.old.items ++ decimal number) }
{
    let digits = number.to_string(alloc)?;
    put(text, digits.as_str().as_bytes())
}

/// Puts octets in lower-case hex.
pub(crate) fn push_hex(alloc: Global, text: &mut Vec<u8>, octets: &[u8]) -> Result<(), NoMemory>
    ensures { OnOk result (text.new.items ≡ text.old.items ++ encode_lower octets.now) }
{
    let digits = hex::encode(alloc, octets)?;
    put(text, digits.as_str().as_bytes())
}

/// Puts octets in lower-case hex, none as `-`.
pub(crate) fn push_shown(alloc: Global, text: &mut Vec<u8>, octets: &[u8]) -> Result<(), NoMemory>
    ensures { OnOk result (text.new.items ≡ text.old.items ++ shown octets.now) }
{
    match octets {
        [] => put(text, b"-"),
        [_, ..] => push_hex(alloc, text, octets),
    }
}
