//! Copies of values.
ghost use Rattle.std.specs.Prelude.{◌≡◌, IfOk};

use crate::value::{Items, Pair, Pairs, Ranges, ReplyTo, Value, Xid};
use octet_reading::NoMemory;
use std::alloc::Global;

impl Value {
    /// A copy, equal to its source.
    #[cycle(copies)]
    pub fn copied(&self, alloc: Global) -> Result<Value, NoMemory>
        ensures { IfOk result (λ copy. copy ≡ self.now) }
    {
        match self {
            Value::Fixed { code, octets } => Ok(Value::Fixed {
                code: *code,
                octets: octets.copied(alloc)?,
            }),
            Value::Text8(text) => Ok(Value::Text8(text.copied(alloc)?)),
            Value::Text16(text) => Ok(Value::Text16(text.copied(alloc)?)),
            Value::Bin { code, octets } => Ok(Value::Bin {
                code: *code,
                octets: octets.copied(alloc)?,
            }),
            Value::Map(pairs) => Ok(Value::Map(pairs_copied(alloc, pairs.as_slice())?)),
            Value::List(items) => Ok(Value::List(items_copied(alloc, items.as_slice())?)),
            Value::Array { code, items } => Ok(Value::Array {
                code: *code,
                items: items_copied(alloc, items.as_slice())?,
            }),
            Value::Struct32(octets) => Ok(Value::Struct32(octets.copied(alloc)?)),
            Value::Bare { code } => Ok(Value::Bare { code: *code }),
            Value::Void => Ok(Value::Void),
            Value::Bit => Ok(Value::Bit),
        }
    }
}

#[cycle(copies)]
fn items_copied(alloc: Global, items: &[Value]) -> Result<Items<Value>, NoMemory>
    ensures { IfOk result (λ copies. copies ≡ items.now) }
{
    let mut copies = Items::new(alloc);
    for item in items {
        copies.push(item.copied(alloc)?)?;
    }
    Ok(copies)
}

#[cycle(copies)]
fn pairs_copied(alloc: Global, pairs: &[Pair<Value>]) -> Result<Pairs, NoMemory>
    ensures { IfOk result (λ copies. copies ≡ pairs.now) }
{
    let mut copies = Items::new(alloc);
    for pair in pairs {
        let key = pair.key.copied(alloc)?;
        let value = pair.value.copied(alloc)?;
        copies.push(Pair { key, value })?;
    }
    Ok(copies)
}

impl Xid {
    /// A copy, equal to its source.
    pub fn copied(&self, alloc: Global) -> Result<Xid, NoMemory>
        ensures { IfOk result (λ copy. copy ≡ self.now) }
    {
        let global = self.global.copied(alloc)?;
        let branch = self.branch.copied(alloc)?;
        Ok(Xid {
            format: self.format,
            global,
            branch,
        })
    }
}

impl ReplyTo {
    /// A copy, equal to its source.
    pub fn copied(&self, alloc: Global) -> Result<ReplyTo, NoMemory>
        ensures { IfOk result (λ copy. copy ≡ self.now) }
    {
        let exchange = self.exchange.copied(alloc)?;
        let routing_key = self.routing_key.copied(alloc)?;
        Ok(ReplyTo {
            exchange,
            routing_key,
        })
    }
}

impl Ranges {
    /// A copy, equal to its source.
    pub fn copied(&self, alloc: Global) -> Result<Ranges, NoMemory>
        ensures { IfOk result (λ copy. copy ≡ self.now) }
    {
        Ok(Ranges::from_vec(Vec::from_slice(alloc, self.as_slice())?))
    }
}
