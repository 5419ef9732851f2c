//! What a transaction will do.
ghost use Rattle.std.specs.Prelude.{◌≡◌, ◌+◌, ◌<◌, ◌≤◌, ◌++◌, ◌∷◌, [], not, filter, OnOk, IfOk};
ghost use Rattle.std.specs.List.{list_any};
ghost use Rattle.branch_intents.specs.Intents.{names, is_on};

use amqp_terms::Header;
use bytes::Bytes;
use octet_reading::{NoMemory, Text};
use std::alloc::Global;
use std::marker::Model;
use std::mem;

/// What a transaction does when it is committed.
#[derive(Debug, Drop)]
pub enum Intent {
    /// A message goes to a queue.
    Publish {
        queue: Text,
        /// The exchange that it was published to.
        exchange: Text,
        header: Option<Header>,
        body: Option<Bytes>,
    },
    /// The copy with this number leaves its queue.
    Accept {
        queue: Text,
        number: u64,
    },
}

impl Intent {
    /// A copy, equal to its source.
    pub fn copied(&self, alloc: Global) -> Result<Intent, NoMemory>
        ensures { IfOk result (λ copy. copy ≡ self.now) }
    {
        match self {
            Intent::Publish {
                queue,
                exchange,
                header,
                body,
            } => {
                let queue = queue.copied(alloc)?;
                let exchange = exchange.copied(alloc)?;
                let header = header_copied(alloc, header)?;
                let body = body_copied(body)?;
                Ok(Intent::Publish {
                    queue,
                    exchange,
                    header,
                    body,
                })
            }
            Intent::Accept { queue, number } => Ok(Intent::Accept {
                queue: queue.copied(alloc)?,
                number: *number,
            }),
        }
    }
}

fn header_copied(alloc: Global, header: &Option<Header>) -> Result<Option<Header>, NoMemory>
    ensures { IfOk result (λ copy. copy ≡ header.now) }
{
    match header {
        Some(header) => Ok(Some(header.copied(alloc)?)),
        None => Ok(None),
    }
}

fn body_copied(body: &Option<Bytes>) -> Result<Option<Bytes>, NoMemory>
    ensures { IfOk result (λ copy. copy ≡ body.now) }
{
    match body {
        Some(body) => Ok(Some(body.clone()?)),
        None => Ok(None),
    }
}

/// Intents in the order in which they act.
#[derive(Debug, Drop)]
pub struct Intents {
    items: Vec<Intent>,
}

impl Model for Intents {
    ghost use Rattle.std.specs.Prelude.{◌-◌};
    ghost use Rattle.std.specs.Coded.{codes};
    ghost use Rattle.std.specs.Vec.{vec_len, vec_capacity};
    ghost use Rattle.amqp_values.specs.contracts.value.Value as e;
    ghost use Rattle.branch_intents.specs.Intents.{Intended};

    ghost Value = { Intended };

    ghost coded = { Prim.hlevel (codes, e.the_row.coded) };

    ghost view = { λ i. record { items = i.items.items; room = vec_capacity i.items - vec_len i.items } };
}

impl Intents {
    /// No intents. Takes no memory.
    pub fn new(alloc: Global) -> Intents
        ensures { result.items ≡ [] }
    {
        Intents {
            items: Vec::new(alloc),
        }
    }

    /// The intents, lent.
    pub fn as_slice(&self) -> &[Intent]
        ensures { result.now ≡ self.now.items }
    {
        self.items.as_slice()
    }

    /// Gives the vector up. Takes no memory.
    pub fn into_vec(self) -> Vec<Intent>
        ensures { result.items ≡ self.items }
    {
        let Intents { items } = self;
        items
    }

    /// A copy, equal to its source.
    pub fn copied(&self, alloc: Global) -> Result<Intents, NoMemory>
        ensures { IfOk result (λ copy. copy.items ≡ self.now.items) }
    {
        let mut items = Vec::new(alloc);
        for intent in self.items.as_slice() {
            items.push(intent.copied(alloc)?)?;
        }
        Ok(Intents { items })
    }

    /// Makes room for so many more. Nothing else changes.
    pub fn reserve(&mut self, more: usize) -> Result<(), NoMemory>
        ensures items { self.new.items ≡ self.old.items }
        ensures ok { OnOk result (more ≤ self.new.room) }
    {
        self.items.reserve(more)?;
        Ok(())
    }

    /// Puts an intent last. Takes no memory.
    pub fn put(&mut self, intent: Intent)
        requires { 0 < self.old.room }
        ensures items { self.new.items ≡ self.old.items ++ intent ∷ [] }
        ensures room { self.new.room + 1 ≡ self.old.room }
    {
        self.items.push_reserved(intent);
    }

    /// Takes all intents out, in order. Takes no memory.
    pub fn take(&mut self, alloc: Global) -> Intents
        ensures intents { result.items ≡ self.old.items }
        ensures items { self.new.items ≡ [] }
    {
        let empty = Intents::new(alloc);
        let mut all = empty;
        mem::swap(self, &mut all);
        all
    }

    /// Whether one of them names a queue. Takes no memory.
    pub fn names(&self, queue: &Text) -> bool
        ensures { result ≡ list_any (names queue.now) self.now.items }
    {
        let mut rest = self.items.as_slice();
        while let Some((intent, more)) = rest.split_first() {
            if names(intent, queue) {
                return true;
            }
            rest = more;
        }
        false
    }

    /// Drops those on a copy, by its number, or on a whole queue where no number is given: the copy or the queue is gone.
    /// Takes no memory.
    pub fn gone(&mut self, queue: &Text, number: Option<u64>)
        ensures items { self.new.items ≡ filter (λ intent. not (is_on queue.now number intent)) self.old.items }
        ensures room { self.old.room ≤ self.new.room }
    {
        self.items.retain(
            |intent: &Intent| -> bool
                ensures { result ≡ not (is_on queue.entry.now number intent.now) }
            { !is_on(intent, queue, number) },
        );
    }
}

/// Whether an intent names a queue.
fn names(intent: &Intent, queue: &Text) -> bool
    ensures { result ≡ names queue.now intent.now }
{
    match intent {
        Intent::Publish { queue: named, .. } => named == queue,
        Intent::Accept { queue: named, .. } => named == queue,
    }
}

/// Whether an intent is on a copy of a queue, or on the queue where no number is given.
fn is_on(intent: &Intent, queue: &Text, number: Option<u64>) -> bool
    ensures { result ≡ is_on queue.now number intent.now }
{
    match number {
        Some(number) => match intent {
            Intent::Publish { .. } => false,
            Intent::Accept {
                queue: named,
                number: other,
            } => named == queue && *other == number,
        },
        None => names(intent, queue),
    }
}
