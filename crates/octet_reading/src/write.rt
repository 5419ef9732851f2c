//! Octets at the end of those that were written.
ghost use Rattle.std.specs.Prelude.{◌≡◌, ◌++◌, true, length, OnOk};
ghost use Rattle.std.specs.Int.{to_be_bytes};
ghost use Rattle.octet_reading.specs.Reading.{width_of};
ghost use Rattle.octet_reading.specs.Spelling.{fits, sized};

use crate::{NoMemory, SizeWidth};

/// Puts octets at the octets' end.
pub fn put(out: &mut Vec<u8>, octets: &[u8]) -> Result<(), NoMemory>
    ensures { OnOk result (out.new.items ≡ out.old.items ++ octets.now) }
{
    out.extend_from_slice(octets)?;
    Ok(())
}

/// Puts a size at the octets' end. Without memory a part of it may stand there.
pub fn put_size(out: &mut Vec<u8>, width: SizeWidth, size: usize) -> Result<(), NoMemory>
    requires { fits width size ≡ true }
    ensures { OnOk result (out.new.items ≡ out.old.items ++ to_be_bytes (width_of width) size) }
{
    match width {
        SizeWidth::One => out.extend_from_slice((size as u8).to_be_bytes().as_slice())?,
        SizeWidth::Two => out.extend_from_slice((size as u16).to_be_bytes().as_slice())?,
        SizeWidth::Four => out.extend_from_slice((size as u32).to_be_bytes().as_slice())?,
    }
    Ok(())
}

/// Puts octets behind their size. Without memory a part of them may stand there.
pub fn put_sized(out: &mut Vec<u8>, width: SizeWidth, octets: &[u8]) -> Result<(), NoMemory>
    requires { fits width (length octets.now) ≡ true }
    ensures { OnOk result (out.new.items ≡ out.old.items ++ sized width octets.now) }
{
    put_size(out, width, octets.len())?;
    out.extend_from_slice(octets)?;
    Ok(())
}
