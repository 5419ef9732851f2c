//! The commands of the class queue (AMQP 0-10, "queue").
ghost use Rattle.std.specs.Prelude.{◌≡◌, true, is_some, IfOk, None};
ghost use Rattle.octet_reading.specs.declared.part.SizeWidth.TheVariants.{One};
ghost use Rattle.amqp_packed.specs.Spelling.{text_fine};
ghost use Rattle.amqp_structs.specs.Results.{result_fine};
ghost use Rattle.queue_core.specs.Queues.{counts_in};
ghost use Rattle.broker_core.specs.State.{queue_of, queue_marks, is_foreign, only};
ghost use Rattle.broker_core.specs.Commands.{queue_declare};
ghost use Rattle.broker_core.specs.Sound.{map_fine};
ghost use Rattle.broker_core.specs.Verdict.{answered, unless};
ghost use Rattle.broker_core.specs.Queue.{is_unlike, declare_passive_stop, declare_stop, declared, has_copies, delete_stop, purge_stop, query_result, available_in};
ghost use Rattle.broker_core.specs.declared.edit.Edit.TheVariants as edit;

use crate::answer::{Asker, Stop, copied, is_empty, is_reserved};
use crate::broker::Broker;
use crate::edit::Edit;
use crate::plan::Plan;
use amqp_terms::ResultValue;
use amqp_values::{NoMemory, Text, Value};
use queue_core::QueueMarks;
use std::alloc::Global;

/// How many queues there may be.
const MOST: usize = 65_536;

/// What a queue is declared with.
#[derive(Clone, Copy)]
pub(crate) struct Asked<'a> {
    pub(crate) name: &'a Text,
    pub(crate) alternate: &'a Text,
    pub(crate) passive: bool,
    pub(crate) durable: bool,
    pub(crate) exclusive: bool,
    pub(crate) auto_delete: bool,
    pub(crate) arguments: &'a Option<Value>,
}

impl Broker {
    /// queue.declare.
    pub(crate) fn queue_declare(&self, asker: Asker, asked: Asked<'_>) -> Result<Plan, NoMemory>
        requires alternate { text_fine One asked.alternate.now ≡ true }
        requires arguments { map_fine asked.arguments.now ≡ true }
        ensures { IfOk result (λ plan. plan ≡ queue_declare asker self.now asked.entry.name.now asked.entry.alternate.now asked.entry.passive asked.entry.durable asked.entry.exclusive asked.entry.auto_delete asked.entry.arguments.now) }
    {
        if asked.passive {
            return match self.queue_passive_stop(asker.session, asked.name) {
                Some(stop) => asker.stopped(self.alloc, stop),
                None => Ok(Plan::nothing(self.alloc)),
            };
        }
        match self.queue_declare_stop(asker.session, asked.name, asked.alternate, asked.exclusive) {
            Some(stop) => asker.stopped(self.alloc, stop),
            None => placed(self.alloc, asker.session, asked),
        }
    }

    /// queue.delete.
    pub(crate) fn queue_delete(
        &self,
        asker: Asker,
        name: &Text,
        if_empty: bool,
    ) -> Result<Plan, NoMemory>
        ensures { IfOk result (λ plan. plan ≡ unless asker (delete_stop asker.session name.now if_empty self.now) (only (edit.DropQueue name.now))) }
    {
        match self.queue_delete_stop(asker.session, name, if_empty) {
            Some(stop) => asker.stopped(self.alloc, stop),
            None => {
                let name = name.copied(self.alloc)?;
                Plan::only(self.alloc, Edit::DropQueue { name })
            }
        }
    }

    /// queue.purge.
    pub(crate) fn queue_purge(&self, asker: Asker, name: &Text) -> Result<Plan, NoMemory>
        ensures { IfOk result (λ plan. plan ≡ unless asker (purge_stop asker.session name.now self.now) (only (edit.Purge name.now))) }
    {
        match self.queue_purge_stop(asker.session, name) {
            Some(stop) => asker.stopped(self.alloc, stop),
            None => {
                let name = name.copied(self.alloc)?;
                Plan::only(self.alloc, Edit::Purge { name })
            }
        }
    }

    /// queue.query.
    pub(crate) fn queue_query(&self, asker: Asker, name: &Text) -> Result<Plan, NoMemory>
        requires { text_fine One name.now ≡ true }
        ensures { IfOk result (λ plan. plan ≡ answered asker (query_result name.now self.now)) }
    {
        let value = self.queue_result(name)?;
        asker.answered(self.alloc, &value)
    }

    /// What queue.query answers.
    fn queue_result(&self, name: &Text) -> Result<ResultValue, NoMemory>
        requires { text_fine One name.now ≡ true }
        ensures is { IfOk result (λ value. value ≡ query_result name.now self.now) }
        ensures fine { IfOk result (λ value. result_fine value ≡ true) }
    {
        let Some(marks) = self.queues.marks(name) else {
            return Ok(ResultValue::QueueQueryResult {
                queue: None,
                alternate_exchange: None,
                durable: false,
                exclusive: false,
                auto_delete: false,
                arguments: None,
                message_count: None,
                subscriber_count: None,
            });
        };
        let queue = name.copied(self.alloc)?;
        let alternate = marks.alternate.copied(self.alloc)?;
        let arguments = copied(self.alloc, &marks.arguments)?;
        Ok(ResultValue::QueueQueryResult {
            queue: Some(queue),
            alternate_exchange: Some(alternate),
            durable: marks.durable,
            exclusive: marks.exclusive.is_some(),
            auto_delete: marks.auto_delete,
            arguments,
            message_count: Some(self.available(name)),
            subscriber_count: Some(0),
        })
    }

    /// How many copies of a queue are available, at most the greatest u32.
    fn available(&self, name: &Text) -> u32
        ensures { result ≡ available_in (counts_in (queue_of name.now self.now) self.now.queues.lists) }
    {
        match self.queues.counts(name) {
            Some((available, _)) => {
                if available > 4_294_967_295 {
                    4_294_967_295
                } else {
                    available as u32
                }
            }
            None => 0,
        }
    }

    /// Whether a queue is another session's own.
    pub(crate) fn is_foreign(&self, session: u64, name: &Text) -> bool
        ensures { result ≡ is_foreign session (queue_marks name.now self.now) }
    {
        match self.queues.marks(name) {
            Some(marks) => match marks.exclusive {
                Some(owner) => owner != session,
                None => false,
            },
            None => false,
        }
    }

    /// Whether a queue is there.
    pub(crate) fn has_queue(&self, name: &Text) -> bool
        ensures { result ≡ is_some (queue_marks name.now self.now) }
    {
        self.queues.marks(name).is_some()
    }

    /// Whether a queue is there that differs from what is declared.
    fn is_unlike(&self, name: &Text, alternate: &Text, exclusive: bool) -> bool
        ensures { result ≡ is_unlike alternate.now exclusive (queue_marks name.now self.now) }
    {
        match self.queues.marks(name) {
            Some(marks) => {
                (!is_empty(alternate) && marks.alternate != *alternate)
                    || (exclusive && marks.exclusive.is_none())
            }
            None => false,
        }
    }

    /// Whether a queue has a copy.
    fn has_copies(&self, name: &Text) -> bool
        ensures { result ≡ has_copies name.now self.now }
    {
        match self.queues.counts(name) {
            Some((available, others)) => available != 0 || others != 0,
            None => false,
        }
    }

    fn queue_passive_stop(&self, session: u64, name: &Text) -> Option<Stop>
        ensures { result ≡ declare_passive_stop session name.now self.now }
    {
        if !self.has_queue(name) {
            return Some(Stop::Refuse(404));
        }
        if self.is_foreign(session, name) {
            return Some(Stop::Refuse(405));
        }
        None
    }

    fn queue_declare_stop(
        &self,
        session: u64,
        name: &Text,
        alternate: &Text,
        exclusive: bool,
    ) -> Option<Stop>
        ensures { result ≡ declare_stop session name.now alternate.now exclusive self.now }
    {
        if is_empty(name) {
            return Some(Stop::Refuse(531));
        }
        if self.is_foreign(session, name) {
            return Some(Stop::Refuse(405));
        }
        if self.is_unlike(name, alternate, exclusive) {
            return Some(Stop::Refuse(530));
        }
        if self.has_queue(name) {
            return Some(Stop::Skip);
        }
        if is_reserved(name) {
            return Some(Stop::Refuse(530));
        }
        if self.lacks_alternate(alternate) {
            return Some(Stop::Refuse(404));
        }
        if self.queues.len() >= MOST {
            return Some(Stop::Refuse(506));
        }
        None
    }

    fn queue_delete_stop(&self, session: u64, name: &Text, if_empty: bool) -> Option<Stop>
        ensures { result ≡ delete_stop session name.now if_empty self.now }
    {
        if is_empty(name) {
            return Some(Stop::Refuse(542));
        }
        if !self.has_queue(name) {
            return Some(Stop::Refuse(404));
        }
        if self.is_foreign(session, name) {
            return Some(Stop::Refuse(405));
        }
        if if_empty && self.has_copies(name) {
            return Some(Stop::Refuse(406));
        }
        None
    }

    fn queue_purge_stop(&self, session: u64, name: &Text) -> Option<Stop>
        ensures { result ≡ purge_stop session name.now self.now }
    {
        if is_empty(name) {
            return Some(Stop::Refuse(542));
        }
        if !self.has_queue(name) {
            return Some(Stop::Refuse(404));
        }
        if self.is_foreign(session, name) {
            return Some(Stop::Refuse(405));
        }
        None
    }
}

/// A queue is made.
fn placed(alloc: Global, session: u64, asked: Asked<'_>) -> Result<Plan, NoMemory>
    requires alternate { text_fine One asked.alternate.now ≡ true }
    requires arguments { map_fine asked.arguments.now ≡ true }
    ensures { IfOk result (λ plan. plan ≡ declared session asked.entry.name.now asked.entry.exclusive asked.entry.durable asked.entry.auto_delete asked.entry.alternate.now asked.entry.arguments.now) }
{
    let name = asked.name.copied(alloc)?;
    let marks = QueueMarks {
        durable: asked.durable,
        exclusive: if asked.exclusive { Some(session) } else { None },
        auto_delete: asked.auto_delete,
        alternate: asked.alternate.copied(alloc)?,
        arguments: copied(alloc, asked.arguments)?,
    };
    if !asked.exclusive {
        return Plan::only(alloc, Edit::PlaceQueue { name, marks });
    }
    let again = name.copied(alloc)?;
    Plan::only(
        alloc,
        Edit::PlaceOwn {
            name,
            again,
            session,
            marks,
        },
    )
}
