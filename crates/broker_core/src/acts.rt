//! Doing what was decided.
ghost use Rattle.std.specs.Prelude.{◌≡◌, ◌+◌, ◌∷◌, ◌<◌, ◌≤◌, ◌==◌, List, [], false, max, position, None, Some, IfSome, IsTrue, length};
ghost use Rattle.std.specs.Ordering.{nat_cmp};
ghost use Rattle.sorted_map.specs.Map.{changed};
ghost use Rattle.exchange_core.specs.Exchanges.{with_binding};
ghost use Rattle.name_map.specs.Named as named;
ghost use Rattle.broker_core.specs.declared.edit.Edit.{Edit as AnyEdit};
ghost use Rattle.broker_core.specs.State.{Stand};
ghost use Rattle.broker_core.specs.Ends.{own_names, drops, DropsFirst, Ended, Passes};
ghost use Rattle.broker_core.specs.Sound.{EditFine, AllFine};
ghost use Rattle.broker_core.specs.Edits.{as_failed, as_completed, as_given, given_all, PlacesExchange, PlacesQueue, Acted, ActedAll, Applied, HasRoom, with_owned};

use crate::broker::Broker;
use crate::edit::Edit;
use crate::plan::{Given, Moment, Plan};
use crate::session::Session;
use amqp_terms::Unit;
use exchange_core::{Binding, ExchangeMarks, Exchanges};
use name_map::NameMap;
use octet_reading::Text;
use queue_core::{QueueMarks, Queues};
use sorted_map::SortedMap;

/// A session fails.
fn fail(sessions: &mut SortedMap<u64, Session>, session: u64)
    ensures { sessions.new.entries ≡ changed nat_cmp session as_failed sessions.old.entries }
{
    if let Some(index) = sessions.index_of(&session) {
        sessions.value_mut(index).failed = true;
    }
}

/// So many of a session's commands are completed.
fn complete(sessions: &mut SortedMap<u64, Session>, session: u64, count: u64)
    ensures { sessions.new.entries ≡ changed nat_cmp session (as_completed count) sessions.old.entries }
{
    if let Some(index) = sessions.index_of(&session) {
        let state = sessions.value_mut(index);
        state.uncompleted = state.uncompleted.saturating_sub(count);
    }
}

/// A queue is one session's own from now on.
fn own(owned: &mut NameMap<u64>, name: Text, session: u64)
    requires { 0 < owned.old.room }
    ensures entries { owned.new.entries ≡ with_owned (named.find name owned.old.entries) name session owned.old.entries }
    ensures room { owned.old.room ≤ owned.new.room + 1 }
{
    match owned.get(&name) {
        Some(_) => drop(name),
        None => owned.put(name, session),
    }
}

/// An exchange is there, without bindings; one that is there stays.
fn place_exchange(exchanges: &mut Exchanges, name: Text, marks: ExchangeMarks)
    requires { 0 < exchanges.old.room }
    ensures places { PlacesExchange (named.find name exchanges.old.entries) name marks exchanges.old exchanges.new }
    ensures room { exchanges.old.room ≤ exchanges.new.room + 1 }
    ensures spare { exchanges.old.spare ≤ exchanges.new.spare }
{
    match exchanges.marks(&name) {
        Some(_) => drop((name, marks)),
        None => exchanges.place(name, marks),
    }
}

/// A queue is bound, where the exchange is there.
fn bind(exchanges: &mut Exchanges, exchange: &Text, binding: Binding)
    requires { 0 < exchanges.old.spare }
    ensures entries { exchanges.new.entries ≡ exchanges.old.entries }
    ensures rows { exchanges.new.rows ≡ with_binding (named.find exchange.now exchanges.old.entries) binding exchanges.old.rows }
    ensures room { exchanges.old.room ≤ exchanges.new.room }
    ensures spare { exchanges.old.spare ≤ exchanges.new.spare + 1 }
{
    match exchanges.marks(exchange) {
        Some(_) => exchanges.tie(exchange, binding),
        None => drop(binding),
    }
}

/// A queue is there, without copies; one that is there stays.
fn place_queue(queues: &mut Queues, name: Text, marks: QueueMarks)
    requires { 0 < queues.old.room }
    ensures places { PlacesQueue (named.find name queues.old.entries) name marks queues.old queues.new }
    ensures room { queues.old.room ≤ queues.new.room + 1 }
{
    match queues.marks(&name) {
        Some(_) => drop((name, marks)),
        None => queues.place(name, marks),
    }
}

/// A session was given a command more.
fn give(sessions: &mut SortedMap<u64, Session>, session: u64)
    ensures { sessions.new.entries ≡ changed nat_cmp session as_given sessions.old.entries }
{
    if let Some(index) = sessions.index_of(&session) {
        let state = sessions.value_mut(index);
        state.given = state.given.saturating_add(1);
        state.uncompleted = state.uncompleted.saturating_add(1);
    }
}

/// Sessions were given these commands.
fn give_all(sessions: &mut SortedMap<u64, Session>, given: &[(u64, Unit)])
    ensures { sessions.new.entries ≡ given_all given.now sessions.old.entries }
{
    let mut rest = given;
    while let Some((first, others)) = rest.split_first() {
        give(sessions, first.0);
        rest = others;
    }
}

impl Broker {
    /// One change.
    fn act(&mut self, edit: Edit)
        requires fine { EditFine edit }
        requires room { HasRoom (edit ∷ []) self.old }
        ensures acted { Acted edit self.old self.new }
        ensures room { (edits : List AnyEdit) → HasRoom (edit ∷ edits) self.old → HasRoom edits self.new }
    {
        match edit {
            Edit::Fail { session } => fail(&mut self.sessions, session),
            Edit::Complete { session, count } => complete(&mut self.sessions, session, count),
            Edit::PlaceExchange { name, marks } => place_exchange(&mut self.exchanges, name, marks),
            Edit::DropExchange { name } => self.exchanges.delete(&name),
            Edit::Bind { exchange, binding } => bind(&mut self.exchanges, &exchange, binding),
            Edit::Unbind {
                exchange,
                queue,
                key,
            } => {
                let _ = self.exchanges.unbind(&exchange, &queue, &key);
            }
            Edit::PlaceQueue { name, marks } => place_queue(&mut self.queues, name, marks),
            Edit::PlaceOwn {
                name,
                again,
                session,
                marks,
            } => {
                place_queue(&mut self.queues, name, marks);
                own(&mut self.owned, again, session);
            }
            Edit::DropQueue { name } => {
                self.exchanges.unbind_queue(&name);
                self.queues.delete(&name);
                drop(self.owned.take(&name));
            }
            Edit::Purge { name } => {
                let _ = self.queues.purge(&name);
            }
        }
    }

    /// Changes, one after another.
    fn act_all(&mut self, edits: Vec<Edit>)
        requires fine { AllFine edits.items }
        requires room { HasRoom edits.items self.old }
        ensures { ActedAll edits.items self.old self.new }
    {
        for edit in edits {
            self.act(edit);
        }
    }

    /// Does what was decided: the commands that it gives. Takes no memory.
    pub fn apply(&mut self, plan: Plan) -> Given
        requires { HasRoom plan.edits self.old }
        ensures applied { (next : Stand) × Applied plan self.old next × Passes plan.moment next self.new }
        ensures given { result.items ≡ plan.given }
    {
        let Plan {
            edits,
            given,
            moment,
        } = plan;
        self.act_all(edits);
        self.give_all(given.as_slice());
        self.pass(moment);
        given
    }

    /// Sessions were given these commands.
    fn give_all(&mut self, given: &[(u64, Unit)])
        ensures exchanges { self.new.exchanges ≡ self.old.exchanges }
        ensures queues { self.new.queues ≡ self.old.queues }
        ensures sessions { self.new.sessions.entries ≡ given_all given.now self.old.sessions.entries }
        ensures owned { self.new.owned ≡ self.old.owned }
        ensures time { self.new.time ≡ self.old.time }
    {
        give_all(&mut self.sessions, given);
    }

    /// A session ends, or the time has come.
    fn pass(&mut self, moment: Option<Moment>)
        ensures { Passes moment self.old self.new }
    {
        match moment {
            Some(Moment::End { session }) => self.end(session),
            Some(Moment::Tick { now }) => self.tick(now),
            None => {}
        }
    }

    /// A session ends, and its own queues with it.
    fn end(&mut self, session: u64)
        ensures { Ended session self.old self.new }
    {
        self.drop_all(session);
        drop(self.sessions.take(&session));
    }

    /// Drops the queues that are a session's own.
    fn drop_all(&mut self, session: u64)
        ensures { ActedAll (drops (own_names session self.old.owned.entries)) self.old self.new }
    {
        let mut more = true;
        while more {
            more = self.drop_first(session);
        }
    }

    /// Drops the first queue that is a session's own; false where none is.
    fn drop_first(&mut self, session: u64) -> bool
        ensures some { IsTrue result → DropsFirst session self.old self.new }
        ensures none { result ≡ false → own_names session self.old.owned.entries ≡ [] }
        ensures same { result ≡ false → self.new ≡ self.old }
    {
        let Some(index) = first_own(self.owned.entries(), session) else {
            return false;
        };
        let (name, _) = self.owned.take_at(index);
        self.exchanges.unbind_queue(&name);
        self.queues.delete(&name);
        true
    }

    /// The time has come.
    fn tick(&mut self, now: u64)
        ensures { self.new ≡ record self.old { time = max self.old.time now } }
    {
        if self.time < now {
            self.time = now;
        }
    }
}

/// The first queue that is a session's own.
fn first_own(owned: &[(Text, u64)], session: u64) -> Option<usize>
    ensures place { result ≡ position (λ e. e.1 == session) owned.now }
    ensures bound { IfSome result (λ index. index < length owned.now) }
{
    owned.iter().position(|entry| entry.1 == session)
}
