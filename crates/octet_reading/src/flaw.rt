//! The first flaw of octets, or want of memory.
ghost use Rattle.std.specs.Prelude.{◌≡◌};
ghost use Rattle.octet_reading.specs.declared.flaw.ReadError.TheVariants.{Memory};
ghost use Rattle.octet_reading.specs.Reading.{flaw_at};

use crate::{NoMemory, Why};
use std::alloc::{AllocError, AllocFailed};

/// Why octets were refused, and where.
#[derive(Clone, Copy, Debug, PartialEq, Eq)]
pub struct Flaw {
    /// How many octets are left from the place on.
    pub left: usize,
    pub why: Why,
}

/// Why nothing was read.
#[derive(Clone, Copy, Debug, PartialEq, Eq)]
pub enum ReadError {
    Memory,
    Flaw(Flaw),
}

impl From<AllocError> for ReadError {
    ghost from_gives = { λ _ e. e ≡ Memory };

    fn from(_error: AllocError) -> ReadError {
        ReadError::Memory
    }
}

impl<T: Drop> From<AllocFailed<T>> for ReadError {
    ghost from_gives = { λ _ e. e ≡ Memory };

    fn from(_error: AllocFailed<T>) -> ReadError {
        ReadError::Memory
    }
}

impl From<NoMemory> for ReadError {
    ghost from_gives = { λ _ e. e ≡ Memory };

    fn from(_error: NoMemory) -> ReadError {
        ReadError::Memory
    }
}

/// The flaw at the front of these octets.
pub fn refused(why: Why, octets: &[u8]) -> ReadError
    ensures { result ≡ ReadError.Flaw (flaw_at why octets.now) }
{
    ReadError::Flaw(Flaw {
        left: octets.len(),
        why,
    })
}
