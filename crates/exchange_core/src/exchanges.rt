//! Exchanges by name.
ghost use Rattle.std.specs.Prelude.{◌≡◌, ◌+◌, ◌<◌, ◌≤◌, ℕ, ◌&&◌, [], length, filter, None, Some, OnOk, OnErr, IfOk, IsSome, IsTrue, ◌↔◌};
ghost use Rattle.std.specs.Cmp.Lexicographic.{slice_cmp};
ghost use Rattle.std.specs.List.Sorted.{IsStrictlySortedBy};
ghost use Rattle.std.specs.Option.{option_copied};
ghost use Rattle.std.specs.Ordering.{nat_cmp};
ghost use Rattle.name_map.specs.Named.{Sorted, find, put, out};
ghost use Rattle.binding_table.specs.Rows.{is_of};
ghost use Rattle.exchange_core.specs.Exchanges.{marks_in, rows_in, rows_without, names_of, has_alternate, routed, counting, bound_bits, with_binding, without_binding, is_there, after_unbinding, OwnRows, is_other, stays, first_marks, IsFirst, pairs_of};

use crate::iter::{ExchangeBindings, ExchangeNames};
use crate::marks::{Binding, BoundBits, ExchangeMarks, Kind, Names};
use crate::routes::{any_asked, has_entry, is_empty, queues_of};
use amqp_values::Value;
use binding_table::{Bindings, Rows};
use named_lists::NamedLists;
use octet_reading::{NoMemory, Text};
use std::alloc::Global;
use std::marker::Model;

/// Exchanges by name, each with its bindings. Queues are known by their names alone.
#[derive(Debug, Drop)]
pub struct Exchanges {
    alloc: Global,
    names: NamedLists<ExchangeMarks>,
    bindings: Bindings<Option<Value>>,
}

impl Model for Exchanges {
    ghost use Rattle.std.specs.Prelude.{length};
    ghost use Rattle.std.specs.Coded.{codes};
    ghost use Rattle.amqp_values.specs.contracts.value.Value as e;
    ghost use Rattle.exchange_core.specs.Exchanges.{Exchanged, OwnRows};

    ghost Value = { Exchanged };

    ghost coded = { Prim.hlevel (codes, e.the_row.coded) };

    ghost view = { λ e. record { entries = e.names.entries; rows = e.bindings.rows; room = length e.names.free; spare = e.bindings.room } };

    ghost invariant = { λ e. OwnRows e.names.entries e.bindings.rows };
}

/// Whether one of the exchanges has this alternate exchange.
fn is_among(entries: &[(Text, (ExchangeMarks, usize))], exchange: &Text) -> bool
    ensures { result ≡ has_alternate exchange.now entries.now }
{
    let mut rest = entries;
    while let Some((entry, others)) = rest.split_first() {
        if entry.1.0.alternate == *exchange {
            return true;
        }
        rest = others;
    }
    false
}

/// Takes the bindings of a queue at all exchanges away, and the exchanges that end so.
fn unbind_all(
    names: &mut NamedLists<ExchangeMarks>,
    bindings: &mut Bindings<Option<Value>>,
    queue: &Text,
)
    requires { OwnRows names.old.entries bindings.old.rows }
    ensures owns { OwnRows names.new.entries bindings.new.rows }
    ensures rows { bindings.new.rows ≡ filter (is_other queue.now) bindings.old.rows }
    ensures entries { names.new.entries ≡ filter (stays queue.now bindings.old.rows) names.old.entries }
    ensures free { length names.old.free ≤ length names.new.free }
    ensures room { bindings.old.room ≤ bindings.new.room }
{
    let mut index = 0;
    while index < names.entries().len() {
        let exchange = &names.entries()[index].1;
        let ends = exchange.0.auto_delete;
        let number = exchange.1;
        let bound = !is_empty(bindings.of_queue(number, queue));
        bindings.clear_queue(number, queue);
        let unused = is_empty(bindings.of_exchange(number));
        if goes(ends, bound, unused) {
            drop(names.take_at(index));
        } else {
            index += 1;
        }
    }
}

/// Whether an exchange goes: it ends with its last binding, had one, and has none now.
fn goes(ends: bool, bound: bool, unused: bool) -> bool
    ensures { result ≡ (ends && (bound && unused)) }
{
    ends && (bound && unused)
}

/// Declares one of the exchanges that are there from the start.
fn start(made: &mut Exchanges, name: &str, kind: Kind) -> Result<(), NoMemory>
    requires { find name.now made.old.entries ≡ None }
    ensures ok { OnOk result ((n : ℕ) × (made.new.entries ≡ put name.now (first_marks kind, n) made.old.entries)) }
    ensures rows { made.new.rows ≡ made.old.rows }
{
    let name = Text::from_text(made.alloc, name)?;
    let marks = ExchangeMarks {
        kind,
        durable: true,
        auto_delete: false,
        alternate: Text::from_text(made.alloc, "")?,
        arguments: None,
    };
    made.declare(&name, marks)
}

impl Exchanges {
    /// The exchanges that are there from the start: `amq.direct`, `amq.fanout`, `amq.topic` and `amq.match`, which is one
    /// for headers. They are durable.
    pub fn new(alloc: Global) -> Result<Exchanges, NoMemory>
        ensures names { IfOk result (λ made. IsFirst made.entries) }
        ensures rows { IfOk result (λ made. made.rows ≡ []) }
    {
        let mut made = Exchanges {
            alloc,
            names: NamedLists::new(alloc),
            bindings: Bindings::new(alloc),
        };
        start(&mut made, "amq.direct", Kind::Direct)?;
        start(&mut made, "amq.fanout", Kind::Fanout)?;
        start(&mut made, "amq.topic", Kind::Topic)?;
        start(&mut made, "amq.match", Kind::Headers)?;
        Ok(made)
    }

    /// Makes room for so many exchanges, and for so many bindings. No exchange and no binding changes.
    pub fn room(&mut self, exchanges: usize, bindings: usize) -> Result<(), NoMemory>
        ensures room { OnOk result (exchanges ≤ self.new.room) }
        ensures spare { OnOk result (bindings ≤ self.new.spare) }
        ensures kept_room { self.old.room ≤ self.new.room }
        ensures kept_spare { self.old.spare ≤ self.new.spare }
        ensures entries { self.new.entries ≡ self.old.entries }
        ensures rows { self.new.rows ≡ self.old.rows }
    {
        self.bindings.reserve(bindings)?;
        let more = exchanges.saturating_sub(self.names.free());
        self.names.reserve(more)?;
        match self.names.count().checked_add(more) {
            Some(count) => {
                self.names.widen(count);
                Ok(())
            }
            None => Err(NoMemory),
        }
    }

    /// Makes an exchange without bindings.
    pub fn declare(&mut self, name: &Text, marks: ExchangeMarks) -> Result<(), NoMemory>
        requires { find name.now self.old.entries ≡ None }
        ensures ok { OnOk result ((n : ℕ) × (self.new.entries ≡ put name.now (marks, n) self.old.entries) × (filter (is_of n) self.new.rows ≡ [])) }
        ensures err { OnErr result (self.new.entries ≡ self.old.entries) }
        ensures rows { self.new.rows ≡ self.old.rows }
    {
        let name = name.copied(self.alloc)?;
        self.room(1, 0)?;
        self.place(name, marks);
        Ok(())
    }

    /// Makes an exchange without bindings. Takes no memory.
    pub fn place(&mut self, name: Text, marks: ExchangeMarks)
        requires new { find name self.old.entries ≡ None }
        requires room { 0 < self.old.room }
        ensures entries { (n : ℕ) × (self.new.entries ≡ put name (marks, n) self.old.entries) × (filter (is_of n) self.new.rows ≡ []) }
        ensures rows { self.new.rows ≡ self.old.rows }
        ensures room { self.new.room + 1 ≡ self.old.room }
        ensures spare { self.new.spare ≡ self.old.spare }
    {
        let _ = self.names.put(name, marks);
    }

    /// Deletes an exchange with its bindings. Takes no memory.
    pub fn delete(&mut self, name: &Text)
        ensures entries { self.new.entries ≡ out name.now self.old.entries }
        ensures rows { self.new.rows ≡ rows_without (find name.now self.old.entries) self.old.rows }
        ensures room { self.old.room ≤ self.new.room }
        ensures spare { self.old.spare ≤ self.new.spare }
    {
        if let Some(taken) = self.names.take(name) {
            let number = taken.1.1;
            drop(taken);
            self.bindings.clear(number);
        }
    }

    /// The marks of an exchange; none where it isn't there. Takes no memory.
    pub fn marks(&self, name: &Text) -> Option<&ExchangeMarks>
        ensures { option_copied result ≡ marks_in (find name.now self.now.entries) }
    {
        match self.names.get(name) {
            Some(exchange) => Some(&exchange.0),
            None => None,
        }
    }

    /// The names of the exchanges, in order. Takes no memory.
    pub fn names(&self) -> ExchangeNames<'_>
        ensures names { result ≡ names_of self.now.entries }
        ensures sorted { Sorted self.now.entries }
    {
        ExchangeNames::new(self.names.entries())
    }

    /// Whether an exchange has this alternate exchange. Takes no memory.
    pub fn is_alternate(&self, exchange: &Text) -> bool
        ensures { result ≡ has_alternate exchange.now self.now.entries }
    {
        is_among(self.names.entries(), exchange)
    }

    /// How many exchanges and how many bindings there are. Takes no memory.
    pub fn sizes(&self) -> (u64, u64)
        ensures exchanges { result.0 ≡ length self.now.entries }
        ensures bindings { result.1 ≡ length self.now.rows }
    {
        (
            self.names.entries().len() as u64,
            self.bindings.len() as u64,
        )
    }

    /// Whether an exchange has a binding. Takes no memory.
    pub fn used(&self, name: &Text) -> bool
        ensures { IsTrue result ↔ (0 < length (rows_in (find name.now self.now.entries) self.now.rows)) }
    {
        match self.names.get(name) {
            Some(exchange) => self.bindings.of_exchange(exchange.1).next().is_some(),
            None => false,
        }
    }

    /// Whether a queue is bound to an exchange with a key. Takes no memory.
    pub fn has(&self, exchange: &Text, queue: &Text, key: &Text) -> bool
        ensures { result ≡ is_there (find exchange.now self.now.entries) queue.now key.now self.now.rows }
    {
        match self.names.get(exchange) {
            Some(entry) => self.bindings.get(entry.1, queue, key).is_some(),
            None => false,
        }
    }

    /// The queues that a message with this routing key and these application-headers goes to by an exchange's own
    /// bindings, in order, each once; none where the exchange isn't there.
    pub fn route(
        &self,
        exchange: &Text,
        key: &Text,
        headers: Option<&Value>,
    ) -> Result<Names, NoMemory>
        ensures names { IfOk result (λ names. names.items ≡ routed (find exchange.now self.now.entries) key.now (option_copied headers.entry) self.now.rows) }
        ensures sorted { IfOk result (λ names. IsStrictlySortedBy (slice_cmp nat_cmp) names.items) }
    {
        // What is said of the order of all bindings is what puts the names in order.
        let _ = self.bindings.rows();
        self.routes(exchange, key, headers)
    }

    /// The queues that a message goes to.
    fn routes(
        &self,
        exchange: &Text,
        key: &Text,
        headers: Option<&Value>,
    ) -> Result<Names, NoMemory>
        ensures { IfOk result (λ names. names.items ≡ routed (find exchange.now self.now.entries) key.now (option_copied headers.entry) self.now.rows) }
    {
        match self.names.get(exchange) {
            Some(entry) => match entry.0.kind {
                Kind::Direct => queues_of(
                    self.alloc,
                    self.bindings.of_key(entry.1, key),
                    Kind::Direct,
                    key,
                    headers,
                ),
                kind => queues_of(
                    self.alloc,
                    self.bindings.of_exchange(entry.1),
                    kind,
                    key,
                    headers,
                ),
            },
            None => Ok(Vec::new(self.alloc)),
        }
    }

    /// What exchange.bound answers of an exchange's bindings, as where a queue that is given is there: its
    /// `queue_not_found` is false. The nameless exchange is never missing and has no binding; a queue is given where its
    /// name isn't empty. Takes no memory.
    pub fn bound(
        &self,
        exchange: &Text,
        queue: &Text,
        key: Option<&Text>,
        arguments: Option<&Value>,
    ) -> BoundBits
        ensures { result ≡ bound_bits exchange.now (find exchange.now self.now.entries) queue.now (option_copied key.entry) (option_copied arguments.entry) self.now.rows }
    {
        let number = match self.names.get(exchange) {
            Some(entry) => entry.1,
            None => {
                let nameless = exchange.as_slice().is_empty();
                return BoundBits {
                    exchange_not_found: !nameless,
                    queue_not_found: false,
                    queue_not_matched: nameless && !queue.as_slice().is_empty(),
                    key_not_matched: nameless && key.is_some(),
                    args_not_matched: nameless && has_entry(arguments),
                };
            }
        };
        let given = !queue.as_slice().is_empty();
        BoundBits {
            exchange_not_found: false,
            queue_not_found: false,
            queue_not_matched: given && !any_asked(self.counting(number, queue), None, None),
            key_not_matched: key.is_some() && !any_asked(self.counting(number, queue), key, None),
            args_not_matched: has_entry(arguments)
                && !any_asked(self.counting(number, queue), key, arguments),
        }
    }

    /// The bindings of an exchange that count where a queue is given, by its name.
    fn counting(&self, number: usize, queue: &Text) -> Rows<'_, Option<Value>>
        ensures { result ≡ counting number queue.now self.now.rows }
    {
        if queue.as_slice().is_empty() {
            self.bindings.of_exchange(number)
        } else {
            self.bindings.of_queue(number, queue)
        }
    }

    /// Binds a queue to an exchange, or changes nothing where it is bound so already.
    pub fn bind(&mut self, exchange: &Text, binding: Binding) -> Result<(), NoMemory>
        requires { IsSome (find exchange.now self.old.entries) }
        ensures ok { OnOk result (self.new.rows ≡ with_binding (find exchange.now self.old.entries) binding self.old.rows) }
        ensures err { OnErr result (self.new.rows ≡ self.old.rows) }
        ensures entries { self.new.entries ≡ self.old.entries }
    {
        self.room(0, 1)?;
        self.tie(exchange, binding);
        Ok(())
    }

    /// Binds a queue to an exchange, or changes nothing where it is bound so already. Takes no memory.
    pub fn tie(&mut self, exchange: &Text, binding: Binding)
        requires exchange { IsSome (find exchange.now self.old.entries) }
        requires room { 0 < self.old.spare }
        ensures rows { self.new.rows ≡ with_binding (find exchange.now self.old.entries) binding self.old.rows }
        ensures entries { self.new.entries ≡ self.old.entries }
        ensures room { self.new.room ≡ self.old.room }
        ensures spare { self.old.spare ≤ self.new.spare + 1 }
    {
        match self.names.get(exchange) {
            Some(entry) => {
                if self
                    .bindings
                    .get(entry.1, &binding.queue, &binding.key)
                    .is_none()
                {
                    self.bindings.put(entry.1, binding);
                } else {
                    drop(binding);
                }
            }
            None => unreachable!(),
        }
    }

    /// Takes a binding away; false where it isn't there. An exchange that ends with its last binding ends so. Takes no
    /// memory.
    pub fn unbind(&mut self, exchange: &Text, queue: &Text, key: &Text) -> bool
        ensures there { result ≡ is_there (find exchange.now self.old.entries) queue.now key.now self.old.rows }
        ensures rows { self.new.rows ≡ without_binding (find exchange.now self.old.entries) queue.now key.now self.old.rows }
        ensures entries { self.new.entries ≡ after_unbinding exchange.now (find exchange.now self.old.entries) queue.now key.now self.old.rows self.old.entries }
        ensures room { self.old.room ≤ self.new.room }
        ensures spare { self.old.spare ≤ self.new.spare }
    {
        let (ends, number) = match self.names.get(exchange) {
            Some(entry) => (entry.0.auto_delete, entry.1),
            None => return false,
        };
        match self.bindings.take(number, queue, key) {
            Some(binding) => drop(binding),
            None => return false,
        }
        if ends && is_empty(self.bindings.of_exchange(number)) {
            drop(self.names.take(exchange));
        }
        true
    }

    /// Takes the bindings of a queue at all exchanges away. Exchanges that end with their last binding and lose it here end
    /// so. Takes no memory.
    pub fn unbind_queue(&mut self, queue: &Text)
        ensures rows { self.new.rows ≡ filter (is_other queue.now) self.old.rows }
        ensures entries { self.new.entries ≡ filter (stays queue.now self.old.rows) self.old.entries }
        ensures room { self.old.room ≤ self.new.room }
        ensures spare { self.old.spare ≤ self.new.spare }
    {
        unbind_all(&mut self.names, &mut self.bindings, queue);
    }

    /// All bindings, each with the name of its exchange, by that name, the queue and the key. Takes no memory.
    pub fn bindings(&self) -> ExchangeBindings<'_>
        ensures { result ≡ pairs_of self.now.entries self.now.rows }
    {
        ExchangeBindings::new(self.names.entries(), &self.bindings)
    }
}
