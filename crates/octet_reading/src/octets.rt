//! A run of octets, owned or shared, compared octet by octet: names of sessions, contents of segments, keys of rows.
ghost use Rattle.std.specs.Prelude.{◌≡◌, Some, refl, bytes_eq, length, IfOk, IsTrue, ◌↔◌, []};
ghost use Rattle.std.specs.Ordering.{nat_cmp};
ghost use Rattle.std.specs.Cmp.{on_equiv, on_total, on_po, on_per, partial_equiv_from_equiv};
ghost use Rattle.std.specs.Cmp.Lexicographic.{slice_cmp, nat_list_eq_equiv, nat_list_cmp_total, texts_ties, texts_po};

use crate::NoMemory;
use bytes::Bytes;
use std::alloc::Global;
use std::cmp::Ordering;
use std::marker::Model;

/// Octets that contracts see as a list of numbers below 256. Those made of `Bytes` share them with
/// every copy; others are copied.
#[derive(Debug)]
pub struct Octets {
    held: Held,
}

#[derive(Debug, Drop)]
enum Held {
    Own(Vec<u8>),
    Shared(Bytes),
}

impl Model for Octets {
    ghost use Rattle.std.specs.Prelude.{ℕ, List};
    ghost use Rattle.std.specs.Coded.{coded_list, coded_ℕ};
    ghost use Rattle.octet_reading.specs.Held.{octets_held};

    ghost Value = { List ℕ };

    ghost coded = { coded_list coded_ℕ };

    ghost view = { λ o. octets_held o.held };
}

impl Octets {
    /// No octets. Takes no memory.
    pub fn new(alloc: Global) -> Octets
        ensures { result ≡ [] }
    {
        Octets::from_vec(Vec::new(alloc))
    }

    /// Takes a vector over. Takes no memory.
    pub fn from_vec(items: Vec<u8>) -> Octets
        ensures { result ≡ items.items }
    {
        Octets {
            held: Held::Own(items),
        }
    }

    /// Takes shared octets over. Takes no memory.
    pub fn from_bytes(bytes: Bytes) -> Octets
        ensures { result ≡ bytes }
    {
        Octets {
            held: Held::Shared(bytes),
        }
    }

    /// Gives the octets up to be shared; none is copied.
    pub fn into_bytes(self) -> Result<Bytes, NoMemory>
        ensures { IfOk result (λ bytes. bytes ≡ self) }
    {
        let Octets { held } = self;
        match held {
            Held::Own(items) => match Bytes::from_vec(items) {
                Ok(bytes) => Ok(bytes),
                Err(_) => Err(NoMemory),
            },
            Held::Shared(bytes) => Ok(bytes),
        }
    }

    /// The octets, shared; those that aren't yet are copied.
    pub fn to_bytes(&self, alloc: Global) -> Result<Bytes, NoMemory>
        ensures { IfOk result (λ bytes. bytes ≡ self.now) }
    {
        match &self.held {
            Held::Own(items) => Ok(Bytes::copy_from_slice(alloc, items.as_slice())?),
            Held::Shared(bytes) => Ok(bytes.clone()?),
        }
    }

    /// A copy of octets that are lent.
    pub fn from_slice(alloc: Global, octets: &[u8]) -> Result<Octets, NoMemory>
        ensures { IfOk result (λ copy. copy ≡ octets.now) }
    {
        let items = Vec::from_slice(alloc, octets)?;
        Ok(Octets::from_vec(items))
    }

    /// A copy, equal to its source. Shared octets are shared once more.
    pub fn copied(&self, alloc: Global) -> Result<Octets, NoMemory>
        ensures { IfOk result (λ copy. copy ≡ self.now) }
    {
        match &self.held {
            Held::Own(items) => Octets::from_slice(alloc, items.as_slice()),
            Held::Shared(bytes) => Ok(Octets::from_bytes(bytes.clone()?)),
        }
    }

    /// The octets, lent.
    pub fn as_slice(&self) -> &[u8]
        ensures { result.now ≡ self.now }
    {
        match &self.held {
            Held::Own(items) => items.as_slice(),
            Held::Shared(bytes) => bytes.as_slice(),
        }
    }

    /// How many octets there are.
    pub fn len(&self) -> usize
        ensures { result ≡ length self.now }
    {
        self.as_slice().len()
    }

    /// Whether there are none.
    pub fn is_empty(&self) -> bool
        ensures { IsTrue result ↔ (self.now ≡ []) }
    {
        self.as_slice().is_empty()
    }
}

// By hand, so that whoever lets octets go has one call to prove and not a case for each way of holding them.
impl Drop for Octets {
    fn drop(self) {
        let Octets { held } = self;
        drop(held);
    }
}

impl PartialEq for Octets {
    ghost eq = { λ a b. bytes_eq a b };

    ghost laws = { partial_equiv_from_equiv nat_list_eq_equiv };

    fn eq(&self, other: &Octets) -> bool {
        self.as_slice() == other.as_slice()
    }
}

impl Eq for Octets {
    ghost laws = { nat_list_eq_equiv };
}

impl PartialOrd for Octets {
    ghost partial_cmp = { λ a b. Some (slice_cmp nat_cmp a b) };

    ghost laws = { texts_po };

    fn partial_cmp(&self, other: &Octets) -> Option<Ordering> {
        Some(self.cmp(other))
    }
}

impl Ord for Octets {
    ghost cmp = { λ a b. slice_cmp nat_cmp a b };

    ghost total = { nat_list_cmp_total };

    ghost matches_partial_cmp = { λ a b. refl };

    ghost matches_eq = { λ a b. texts_ties a b };

    fn cmp(&self, other: &Octets) -> Ordering {
        self.as_slice().cmp(other.as_slice())
    }
}
