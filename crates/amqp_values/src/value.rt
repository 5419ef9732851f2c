//! The values of AMQP 0-10, "types", and the types that packed structs are made of.
ghost use Rattle.std.specs.Prelude.{◌≡◌};

use octet_reading::{Octets, Text};
use std::marker::Model;

/// An entry of a map.
#[derive(Debug, Drop)]
pub struct Pair<V> {
    pub key: Text,
    pub value: V,
}

/// A list whose items may be values again.
pub type Items<T> = sqlite_items::Items<T>;

/// The entries of a map, in order.
pub type Pairs = Items<Pair<Value>>;

/// A value, with its type code where the variant leaves it open.
#[derive(Debug, Drop)]
pub enum Value {
    /// A number, a time or another value of fixed width, as its octets.
    Fixed { code: u8, octets: Octets },
    /// str8.
    Text8(Text),
    /// str16.
    Text16(Text),
    /// Binary, or a text in another encoding, as its octets.
    Bin { code: u8, octets: Octets },
    Map(Pairs),
    List(Items<Value>),
    /// Items that share one type code.
    Array { code: u8, items: Items<Value> },
    /// A packed struct with its size, as its octets.
    Struct32(Octets),
    /// A map, list or array of size 0, without a count.
    Bare { code: u8 },
    Void,
    Bit,
}

/// The name of a distributed transaction's branch.
#[derive(Debug, Drop, PartialEq, Eq, PartialOrd, Ord)]
pub struct Xid {
    pub format: u32,
    pub global: Octets,
    pub branch: Octets,
}

/// Where a reply goes.
#[derive(Debug, Drop)]
pub struct ReplyTo {
    pub exchange: Text,
    pub routing_key: Text,
}

/// A pair of serial numbers, both included.
#[derive(Clone, Copy, Debug, PartialEq, Eq)]
pub struct Range {
    pub lower: u32,
    pub upper: u32,
}

/// Pairs of serial numbers, in the order of the octets.
#[derive(Debug, Drop)]
pub struct Ranges {
    items: Vec<Range>,
}

impl Model for Ranges {
    ghost use Rattle.std.specs.Prelude.{List};
    ghost use Rattle.amqp_values.specs.declared.value.Range.{Range};

    ghost Value = { List Range };

    ghost view = { λ r. r.items.items };
}

impl Ranges {
    /// Takes a vector over. Takes no memory.
    pub fn from_vec(items: Vec<Range>) -> Ranges
        ensures { result ≡ items.items }
    {
        Ranges { items }
    }

    /// Gives the vector back. Takes no memory.
    pub fn into_vec(self) -> Vec<Range>
        ensures { result.items ≡ self }
    {
        let Ranges { items } = self;
        items
    }

    /// The pairs, lent.
    pub fn as_slice(&self) -> &[Range]
        ensures { result.now ≡ self.now }
    {
        self.items.as_slice()
    }
}
