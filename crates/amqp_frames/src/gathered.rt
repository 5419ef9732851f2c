//! The octets of a segment while its frames come, and shared once it is handed out.
ghost use Rattle.std.specs.Prelude.{◌≡◌, ◌++◌, [], length, take, IfOk, OnOk, OnErr};

use bytes::Bytes;
use octet_reading::NoMemory;
use std::alloc::Global;
use std::marker::Model;
use std::mem;

/// Octets that grow at their end, seen as a list.
#[derive(Drop)]
pub(crate) struct Gathered {
    held: Held,
}

/// Octets that only this assembler has, or that it made ready to be shared.
#[derive(Drop)]
enum Held {
    Growing(Vec<u8>),
    Shared(Bytes),
}

impl Model for Gathered {
    ghost use Rattle.std.specs.Prelude.{ℕ, List};
    ghost use Rattle.std.specs.Coded.{coded_list, coded_ℕ};
    ghost use Rattle.amqp_frames.specs.Gathered.{octets_held};

    ghost Value = { List ℕ };

    ghost coded = { coded_list coded_ℕ };

    ghost view = { λ g. octets_held g.held };
}

impl Gathered {
    /// No octets. Takes no memory.
    pub(crate) fn new(alloc: Global) -> Gathered
        ensures { result ≡ [] }
    {
        Gathered {
            held: Held::Growing(Vec::new(alloc)),
        }
    }

    /// How many octets there are.
    pub(crate) fn len(&self) -> usize
        ensures { result ≡ length self.now }
    {
        match &self.held {
            Held::Growing(octets) => octets.len(),
            Held::Shared(octets) => octets.len(),
        }
    }

    /// Puts octets at the end.
    pub(crate) fn push(&mut self, alloc: Global, octets: &[u8]) -> Result<(), NoMemory>
        ensures ok { OnOk result (self.new ≡ self.old ++ octets.now) }
        ensures err { OnErr result (self.new ≡ self.old) }
    {
        match &mut self.held {
            Held::Growing(before) => {
                before.extend_from_slice(octets)?;
                Ok(())
            }
            // What was made ready to be shared wasn't handed out, for want of memory.
            Held::Shared(before) => {
                let mut copy = Vec::from_slice(alloc, before.as_slice())?;
                copy.extend_from_slice(octets)?;
                self.held = Held::Growing(copy);
                Ok(())
            }
        }
    }

    /// Lets go of all octets but so many.
    pub(crate) fn truncate(&mut self, len: usize)
        ensures { self.new ≡ take len self.old }
    {
        match &mut self.held {
            Held::Growing(octets) => octets.truncate(len),
            Held::Shared(octets) => octets.truncate(len),
        }
    }

    /// The octets, shared; none is copied. They stay here too.
    pub(crate) fn share(&mut self, alloc: Global) -> Result<Bytes, NoMemory>
        ensures shared { IfOk result (λ octets. octets ≡ self.old) }
        ensures kept { self.new ≡ self.old }
    {
        let held = mem::replace(&mut self.held, Held::Growing(Vec::new(alloc)));
        let octets = match held {
            Held::Growing(octets) => match Bytes::from_vec(octets) {
                Ok(octets) => octets,
                Err(failed) => {
                    self.held = Held::Growing(failed.value);
                    return Err(NoMemory);
                }
            },
            Held::Shared(octets) => octets,
        };
        let handed: Result<Bytes, _> = octets.clone();
        self.held = Held::Shared(octets);
        match handed {
            Ok(octets) => Ok(octets),
            Err(_) => Err(NoMemory),
        }
    }
}
