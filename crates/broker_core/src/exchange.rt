//! The commands of the class exchange (AMQP 0-10, "exchange").
ghost use Rattle.std.specs.Prelude.{◌≡◌, true, is_some, IfOk, None};
ghost use Rattle.std.specs.Option.{option_copied};
ghost use Rattle.amqp_structs.specs.Results.{result_fine};
ghost use Rattle.broker_core.specs.State.{exchange_marks, only};
ghost use Rattle.broker_core.specs.Commands.{exchange_declare, exchange_bind};
ghost use Rattle.broker_core.specs.Sound.{map_fine};
ghost use Rattle.broker_core.specs.Verdict.{answered, unless};
ghost use Rattle.broker_core.specs.Exchange.{kind_name, kind_named, is_other_kind, has_other_alternate, lacks_alternate, declare_passive_stop, declare_stop, declared, is_used, is_alternate, delete_stop, query_result, is_bound, bind_stop, unbind_stop, bound_bits, bound_result};
ghost use Rattle.broker_core.specs.declared.edit.Edit.TheVariants as edit;

use crate::answer::{Asker, Stop, copied, is_empty, is_reserved};
use crate::broker::Broker;
use crate::edit::Edit;
use crate::plan::Plan;
use amqp_terms::ResultValue;
use amqp_values::{NoMemory, Text, Value};
use exchange_core::{Binding, BoundBits, ExchangeMarks, Kind};
use std::alloc::Global;

/// How many exchanges there may be, with those that are there from the start.
const MOST: u64 = 4_096;

/// How many bindings there may be.
const MOST_BINDINGS: u64 = 65_536;

/// What an exchange is declared with.
#[derive(Clone, Copy)]
pub(crate) struct Asked<'a> {
    pub(crate) name: &'a Text,
    pub(crate) kind: &'a Text,
    pub(crate) alternate: &'a Text,
    pub(crate) passive: bool,
    pub(crate) durable: bool,
    pub(crate) auto_delete: bool,
    pub(crate) arguments: &'a Option<Value>,
}

/// The word of a type.
fn kind_name(kind: Kind) -> &'static str
    ensures { result.now ≡ kind_name kind }
{
    match kind {
        Kind::Direct => "direct",
        Kind::Fanout => "fanout",
        Kind::Topic => "topic",
        Kind::Headers => "headers",
    }
}

/// The type that a word names.
fn kind_named(word: &Text) -> Option<Kind>
    ensures { result ≡ kind_named word.now }
{
    let octets = word.as_slice();
    if octets == b"direct".as_slice() {
        Some(Kind::Direct)
    } else if octets == b"fanout".as_slice() {
        Some(Kind::Fanout)
    } else if octets == b"topic".as_slice() {
        Some(Kind::Topic)
    } else if octets == b"headers".as_slice() {
        Some(Kind::Headers)
    } else {
        None
    }
}

impl Broker {
    /// exchange.declare.
    pub(crate) fn exchange_declare(&self, asker: Asker, asked: Asked<'_>) -> Result<Plan, NoMemory>
        requires { map_fine asked.arguments.now ≡ true }
        ensures { IfOk result (λ plan. plan ≡ exchange_declare asker self.now asked.entry.name.now asked.entry.kind.now asked.entry.alternate.now asked.entry.passive asked.entry.durable asked.entry.auto_delete asked.entry.arguments.now) }
    {
        if asked.passive {
            return match self.exchange_passive_stop(asked.name, asked.kind) {
                Some(stop) => asker.stopped(self.alloc, stop),
                None => Ok(Plan::nothing(self.alloc)),
            };
        }
        match self.exchange_declare_stop(asked.name, asked.kind, asked.alternate) {
            Some(stop) => asker.stopped(self.alloc, stop),
            None => placed(self.alloc, kind_named(asked.kind), asked),
        }
    }

    /// exchange.delete.
    pub(crate) fn exchange_delete(
        &self,
        asker: Asker,
        name: &Text,
        if_unused: bool,
    ) -> Result<Plan, NoMemory>
        ensures { IfOk result (λ plan. plan ≡ unless asker (delete_stop name.now if_unused self.now) (only (edit.DropExchange name.now))) }
    {
        match self.exchange_delete_stop(name, if_unused) {
            Some(stop) => asker.stopped(self.alloc, stop),
            None => {
                let name = name.copied(self.alloc)?;
                Plan::only(self.alloc, Edit::DropExchange { name })
            }
        }
    }

    /// exchange.query.
    pub(crate) fn exchange_query(&self, asker: Asker, name: &Text) -> Result<Plan, NoMemory>
        ensures { IfOk result (λ plan. plan ≡ answered asker (query_result (exchange_marks name.now self.now))) }
    {
        let value = self.exchange_result(name)?;
        asker.answered(self.alloc, &value)
    }

    /// exchange.bind.
    pub(crate) fn exchange_bind(
        &self,
        asker: Asker,
        exchange: &Text,
        queue: &Text,
        key: &Text,
        arguments: &Option<Value>,
    ) -> Result<Plan, NoMemory>
        ensures { IfOk result (λ plan. plan ≡ exchange_bind asker self.now exchange.now queue.now key.now arguments.now) }
    {
        match self.bind_stop(asker.session, exchange, queue, key) {
            Some(stop) => asker.stopped(self.alloc, stop),
            None => bound(self.alloc, exchange, queue, key, arguments),
        }
    }

    /// exchange.unbind.
    pub(crate) fn exchange_unbind(
        &self,
        asker: Asker,
        exchange: &Text,
        queue: &Text,
        key: &Text,
    ) -> Result<Plan, NoMemory>
        ensures { IfOk result (λ plan. plan ≡ unless asker (unbind_stop exchange.now queue.now key.now self.now) (only (edit.Unbind exchange.now queue.now key.now))) }
    {
        match self.unbind_stop(exchange, queue, key) {
            Some(stop) => asker.stopped(self.alloc, stop),
            None => {
                let exchange = exchange.copied(self.alloc)?;
                let queue = queue.copied(self.alloc)?;
                let key = key.copied(self.alloc)?;
                Plan::only(
                    self.alloc,
                    Edit::Unbind {
                        exchange,
                        queue,
                        key,
                    },
                )
            }
        }
    }

    /// exchange.bound.
    pub(crate) fn exchange_bound(
        &self,
        asker: Asker,
        exchange: &Text,
        queue: &Text,
        key: Option<&Text>,
        arguments: Option<&Value>,
    ) -> Result<Plan, NoMemory>
        ensures { IfOk result (λ plan. plan ≡ answered asker (bound_result (bound_bits exchange.now queue.now (option_copied key.entry) (option_copied arguments.entry) self.now))) }
    {
        let bits = self.bound_bits(exchange, queue, key, arguments);
        let value = ResultValue::ExchangeBoundResult {
            exchange_not_found: bits.exchange_not_found,
            queue_not_found: bits.queue_not_found,
            queue_not_matched: bits.queue_not_matched,
            key_not_matched: bits.key_not_matched,
            args_not_matched: bits.args_not_matched,
        };
        asker.answered(self.alloc, &value)
    }

    fn bound_bits(
        &self,
        exchange: &Text,
        queue: &Text,
        key: Option<&Text>,
        arguments: Option<&Value>,
    ) -> BoundBits
        ensures { result ≡ bound_bits exchange.now queue.now (option_copied key.entry) (option_copied arguments.entry) self.now }
    {
        if !is_empty(queue) && !self.has_queue(queue) {
            return BoundBits {
                exchange_not_found: !is_empty(exchange) && !self.has_exchange(exchange),
                queue_not_found: true,
                queue_not_matched: false,
                key_not_matched: false,
                args_not_matched: false,
            };
        }
        self.exchanges.bound(exchange, queue, key, arguments)
    }

    /// What exchange.query answers.
    fn exchange_result(&self, name: &Text) -> Result<ResultValue, NoMemory>
        ensures is { IfOk result (λ value. value ≡ query_result (exchange_marks name.now self.now)) }
        ensures fine { IfOk result (λ value. result_fine value ≡ true) }
    {
        let Some(marks) = self.exchanges.marks(name) else {
            return Ok(ResultValue::ExchangeQueryResult {
                kind: None,
                durable: false,
                not_found: true,
                arguments: None,
            });
        };
        let kind = Text::from_text(self.alloc, kind_name(marks.kind))?;
        let arguments = copied(self.alloc, &marks.arguments)?;
        Ok(ResultValue::ExchangeQueryResult {
            kind: Some(kind),
            durable: marks.durable,
            not_found: false,
            arguments,
        })
    }

    /// Whether an exchange is there.
    pub(crate) fn has_exchange(&self, name: &Text) -> bool
        ensures { result ≡ is_some (exchange_marks name.now self.now) }
    {
        self.exchanges.marks(name).is_some()
    }

    /// Whether an alternate exchange is given and isn't there.
    pub(crate) fn lacks_alternate(&self, alternate: &Text) -> bool
        ensures { result ≡ lacks_alternate alternate.now self.now }
    {
        !is_empty(alternate) && !self.has_exchange(alternate)
    }

    /// Whether an exchange is there that is of another type than the word says.
    fn is_other_kind(&self, name: &Text, word: &Text) -> bool
        ensures { result ≡ is_other_kind word.now (exchange_marks name.now self.now) }
    {
        match self.exchanges.marks(name) {
            Some(marks) => kind_name(marks.kind).as_bytes() != word.as_slice(),
            None => false,
        }
    }

    /// Whether an exchange is there whose alternate exchange isn't the one that is given.
    fn has_other_alternate(&self, name: &Text, alternate: &Text) -> bool
        ensures { result ≡ has_other_alternate alternate.now (exchange_marks name.now self.now) }
    {
        match self.exchanges.marks(name) {
            Some(marks) => !is_empty(alternate) && marks.alternate != *alternate,
            None => false,
        }
    }

    /// Whether a queue or an exchange has it as its alternate exchange.
    fn is_alternate(&self, name: &Text) -> bool
        ensures { result ≡ is_alternate name.now self.now }
    {
        self.queues.is_alternate(name) || self.exchanges.is_alternate(name)
    }

    /// Whether an exchange has a binding.
    fn is_used(&self, name: &Text) -> bool
        ensures { result ≡ is_used name.now self.now }
    {
        self.exchanges.used(name)
    }

    fn exchange_passive_stop(&self, name: &Text, word: &Text) -> Option<Stop>
        ensures { result ≡ declare_passive_stop name.now word.now self.now }
    {
        if !self.has_exchange(name) {
            return Some(Stop::Refuse(404));
        }
        if !is_empty(word) && self.is_other_kind(name, word) {
            return Some(Stop::Refuse(530));
        }
        None
    }

    fn exchange_declare_stop(&self, name: &Text, word: &Text, alternate: &Text) -> Option<Stop>
        ensures { result ≡ declare_stop name.now word.now alternate.now self.now }
    {
        if is_empty(name) {
            return Some(Stop::Refuse(542));
        }
        if self.is_other_kind(name, word) || self.has_other_alternate(name, alternate) {
            return Some(Stop::Refuse(530));
        }
        if self.has_exchange(name) {
            return Some(Stop::Skip);
        }
        if is_reserved(name) {
            return Some(Stop::Refuse(530));
        }
        if kind_named(word).is_none() {
            return Some(Stop::Refuse(404));
        }
        if self.lacks_alternate(alternate) {
            return Some(Stop::Refuse(404));
        }
        if self.exchanges.sizes().0 >= MOST {
            return Some(Stop::Refuse(506));
        }
        None
    }

    fn exchange_delete_stop(&self, name: &Text, if_unused: bool) -> Option<Stop>
        ensures { result ≡ delete_stop name.now if_unused self.now }
    {
        if is_empty(name) {
            return Some(Stop::Refuse(542));
        }
        if is_reserved(name) {
            return Some(Stop::Refuse(530));
        }
        if !self.has_exchange(name) {
            return Some(Stop::Refuse(404));
        }
        if self.is_alternate(name) {
            return Some(Stop::Refuse(530));
        }
        if if_unused && self.is_used(name) {
            return Some(Stop::Refuse(406));
        }
        None
    }

    fn bind_stop(&self, session: u64, exchange: &Text, queue: &Text, key: &Text) -> Option<Stop>
        ensures { result ≡ bind_stop session exchange.now queue.now key.now self.now }
    {
        if is_empty(exchange) {
            return Some(Stop::Refuse(530));
        }
        if !self.has_queue(queue) {
            return Some(Stop::Refuse(404));
        }
        if !self.has_exchange(exchange) {
            return Some(Stop::Refuse(404));
        }
        if self.is_foreign(session, queue) {
            return Some(Stop::Refuse(405));
        }
        if self.exchanges.has(exchange, queue, key) {
            return Some(Stop::Skip);
        }
        if self.exchanges.sizes().1 >= MOST_BINDINGS {
            return Some(Stop::Refuse(506));
        }
        None
    }

    fn unbind_stop(&self, exchange: &Text, queue: &Text, key: &Text) -> Option<Stop>
        ensures { result ≡ unbind_stop exchange.now queue.now key.now self.now }
    {
        if !self.has_queue(queue) {
            return Some(Stop::Refuse(404));
        }
        if !self.has_exchange(exchange) {
            return Some(Stop::Refuse(404));
        }
        if !self.exchanges.has(exchange, queue, key) {
            return Some(Stop::Refuse(404));
        }
        None
    }
}

/// An exchange is made.
fn placed(alloc: Global, kind: Option<Kind>, asked: Asked<'_>) -> Result<Plan, NoMemory>
    requires { map_fine asked.arguments.now ≡ true }
    ensures { IfOk result (λ plan. plan ≡ declared asked.entry.name.now kind asked.entry.durable asked.entry.auto_delete asked.entry.alternate.now asked.entry.arguments.now) }
{
    let Some(kind) = kind else {
        return Ok(Plan::nothing(alloc));
    };
    let name = asked.name.copied(alloc)?;
    let marks = ExchangeMarks {
        kind,
        durable: asked.durable,
        auto_delete: asked.auto_delete,
        alternate: asked.alternate.copied(alloc)?,
        arguments: copied(alloc, asked.arguments)?,
    };
    Plan::only(alloc, Edit::PlaceExchange { name, marks })
}

/// A queue is bound.
fn bound(
    alloc: Global,
    exchange: &Text,
    queue: &Text,
    key: &Text,
    arguments: &Option<Value>,
) -> Result<Plan, NoMemory>
    ensures { IfOk result (λ plan. plan ≡ only (edit.Bind exchange.now (record { queue = queue.now; key = key.now; arguments = arguments.now }))) }
{
    let exchange = exchange.copied(alloc)?;
    let binding = Binding {
        queue: queue.copied(alloc)?,
        key: key.copied(alloc)?,
        arguments: copied(alloc, arguments)?,
    };
    Plan::only(alloc, Edit::Bind { exchange, binding })
}
