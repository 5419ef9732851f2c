//! The one state: connections, sessions and the broker's objects.
ghost use Rattle.std.specs.Prelude.{◌≡◌, ◌==◌, ℕ, List, [], ◌∷◌, ◌++◌, Some, None, true, not, filter, if◌then◌else◌, IfOk, IsOk, OnOk, OnErr};
ghost use Rattle.std.specs.BTreeMap.{insert_entry};
ghost use Rattle.std.specs.Cmp.Lexicographic.{slice_cmp};
ghost use Rattle.std.specs.Map.{lookup};
ghost use Rattle.std.specs.Option.{option_copied};
ghost use Rattle.std.specs.Ordering.{nat_cmp};
ghost use Rattle.history_model.specs.Life.{Heard, Point, Does, place};
ghost use Rattle.history_model.specs.Pairs.{Both, Paired};
ghost use Rattle.history_model.specs.Standing.{World, life_at, may_attach, begins, heard_at, point_at, pointed, hears_in, hears_control, hears_unit, after_event, is_name, is_on, loses};
ghost use Rattle.history_model.specs.State.{does, queues_by, queues_after, may_arrive, may_point, is_within, covers_control, covered};
ghost use Rattle.history_model.specs.Answers.{answers, attach_answers, command_answers, control_answers, joined_as, outs};
ghost use Rattle.history_model.specs.Report.{closing_lines};
ghost use Rattle.hub_core.specs.Stands.{Sits, StandsAs, Comes, next_in};

use crate::answers::{Why, attached, completed, detached, resumed, sent};
use crate::places::Places;
use crate::report::{push_queues, push_sessions};
use crate::session::{Course, FAR_END, Session};
use amqp_terms::{Command, Control, Unit, discard_units};
use amqp_values::{NoMemory, Octets, Text};
use history_model::{ConnName, HubEvent, Out, Outs};
use session_core::Arrival;
use sqlite_items::Items;
use std::alloc::Global;
use std::collections::{BTreeMap, BTreeSet};
use std::mem;

/// By channel, the names of the sessions that were moved away from it.
pub(crate) type Moved = BTreeMap<u16, Octets>;

/// Connections, sessions and the broker's objects.
#[derive(Drop)]
pub struct State {
    pub(crate) alloc: Global,
    joined: u64,
    /// The greatest time, in seconds, that was told.
    time: u64,
    pub(crate) places: Places,
    pub(crate) sessions: BTreeMap<Octets, Session>,
    /// By connection, the sessions that were moved away from it since its last step.
    notices: BTreeMap<u64, Moved>,
    pub(crate) queues: BTreeSet<Text>,
}

/// Adds a session.
fn add(
    sessions: &mut BTreeMap<Octets, Session>,
    name: Octets,
    session: Session,
) -> Result<(), NoMemory>
    ensures ok { OnOk result (sessions.new.entries ≡ insert_entry (slice_cmp nat_cmp) sessions.old.entries name session) }
    ensures err { OnErr result (sessions.new.entries ≡ sessions.old.entries) }
{
    sessions.insert(name, session)?;
    Ok(())
}

/// Lets the session of a name take a command.
fn arrive_in(sessions: &mut BTreeMap<Octets, Session>, name: &Octets)
    ensures { (lives : List (List ℕ × List Heard)) → Paired Sits sessions.old.entries lives → may_arrive (lookup (is_name name.now) lives) ≡ true
        → Paired Sits sessions.new.entries (hears_in lives name.now (lookup (is_name name.now) lives) Does) }
{
    match sessions.get_mut(name) {
        Some(session) => {
            if session.receiver.next() < FAR_END {
                let _ = session.receiver.arrive();
            }
        }
        None => {}
    }
}

/// Lets the session of a name take a command-point.
fn point_in(sessions: &mut BTreeMap<Octets, Session>, name: &Octets, number: u64)
    ensures { (lives : List (List ℕ × List Heard)) → Paired Sits sessions.old.entries lives
        → is_within (Some number) (next_in (lookup (is_name name.now) lives)) ≡ true
        → Paired Sits sessions.new.entries (hears_in lives name.now (lookup (is_name name.now) lives) (Point number)) }
{
    match sessions.get_mut(name) {
        Some(session) => {
            if number <= session.receiver.next() {
                session.receiver.point_at(number);
                session.pointed = true;
            }
        }
        None => {}
    }
}

/// Whether a session lives on where a connection is lost. One on it is loose from now on, and without a timeout it ends.
fn lives_on(session: &mut Session, connection: u64, now: u64) -> bool
    ensures lives { (h : List Heard) → Sits session.old h → result ≡ not (is_on connection (place h)) }
    ensures same { (h : List Heard) → Sits session.old h → result ≡ true → session.new ≡ session.old }
{
    if session.loose.is_some() || session.connection != connection {
        return true;
    }
    if session.timeout == 0 {
        return false;
    }
    session.loose = Some(now);
    true
}

/// A connection is lost to the sessions on it. Takes no memory.
fn part_on(sessions: &mut BTreeMap<Octets, Session>, connection: u64, now: u64)
    ensures { (lives : List (List ℕ × List Heard)) → Paired Sits sessions.old.entries lives
        → Paired Sits sessions.new.entries (filter (λ row. not (is_on connection (place row.1))) lives) }
{
    sessions.retain(|_, session| lives_on(session, connection, now));
}

/// Ends the sessions whose time without a connection is over. Takes no memory.
fn end_due(sessions: &mut BTreeMap<Octets, Session>, now: u64) {
    sessions.retain(|_, session| !session.is_due(now));
}

/// The session of a name is loose from now on, and without a timeout it ends. Takes no memory.
fn part(sessions: &mut BTreeMap<Octets, Session>, name: &Octets, now: u64) {
    let ends = match sessions.get_mut(name) {
        Some(session) => {
            session.loose = Some(now);
            session.timeout == 0
        }
        None => false,
    };
    if ends {
        sessions.remove(name);
    }
}

/// The session of a name stands on another channel, as a resumption. Takes no memory.
fn move_in(sessions: &mut BTreeMap<Octets, Session>, name: &Octets, connection: u64, channel: u16) {
    if let Some(session) = sessions.get_mut(name) {
        session.move_to(connection, channel);
    }
}

/// Takes the notices of a connection out, for its step.
fn take_notices(notices: &mut BTreeMap<u64, Moved>, alloc: Global, connection: u64) -> Option<Moved>
    ensures none { notices.old.entries ≡ [] → result ≡ None }
    ensures same { notices.old.entries ≡ [] → notices.new.entries ≡ [] }
{
    match notices.get_mut(&connection) {
        Some(moved) => Some(mem::replace(moved, BTreeMap::new(alloc))),
        None => None,
    }
}

/// Puts the notices of a connection back, as its step was left out.
fn return_notices(notices: &mut BTreeMap<u64, Moved>, connection: u64, taken: Option<Moved>)
    ensures { notices.old.entries ≡ [] → notices.new.entries ≡ [] }
{
    if let Some(taken) = taken {
        if let Some(moved) = notices.get_mut(&connection) {
            *moved = taken;
        }
    }
}

/// Lets the row of a connection go that has no notice.
fn tidy_notices(notices: &mut BTreeMap<u64, Moved>, connection: u64)
    ensures { notices.old.entries ≡ [] → notices.new.entries ≡ [] }
{
    let none = match notices.get(&connection) {
        Some(moved) => moved.is_empty(),
        None => false,
    };
    if none {
        notices.remove(&connection);
    }
}

/// Notes that a session was moved away from a channel.
fn notice(
    notices: &mut BTreeMap<u64, Moved>,
    alloc: Global,
    connection: u64,
    channel: u16,
    name: &Octets,
) -> Result<(), NoMemory> {
    let name = name.copied(alloc)?;
    match notices.get_mut(&connection) {
        Some(moved) => {
            moved.insert(channel, name)?;
            Ok(())
        }
        None => {
            let mut moved = BTreeMap::new(alloc);
            moved.insert(channel, name)?;
            notices.insert(connection, moved)?;
            Ok(())
        }
    }
}

/// Forgets that a session was moved away from a channel. Takes no memory.
fn forget(notices: &mut BTreeMap<u64, Moved>, connection: u64, channel: u16) {
    if let Some(moved) = notices.get_mut(&connection) {
        moved.remove(&channel);
    }
}

/// Tells a connection which sessions were moved away from it, by rising channel.
fn told(alloc: Global, moved: &Option<Moved>) -> Result<Items<Out>, NoMemory>
    ensures { moved.now ≡ None → IfOk result (λ units. units ≡ []) }
{
    match moved {
        Some(moved) => detached_all(alloc, moved),
        None => Ok(Items::new(alloc)),
    }
}

fn detached_all(alloc: Global, moved: &Moved) -> Result<Items<Out>, NoMemory> {
    let mut units = Items::new(alloc);
    for (channel, name) in moved.iter() {
        units = detached(alloc, units, *channel, name, Why::Busy)?;
    }
    Ok(units)
}

impl State {
    /// Nothing was heard yet.
    pub(crate) fn new(alloc: Global) -> State
        ensures { StandsAs result (record { joined = 0; holder = (λ c k. None); lives = [] }) [] }
    {
        State {
            alloc,
            joined: 0,
            time: 0,
            places: Places::new(alloc),
            sessions: BTreeMap::new(alloc),
            notices: BTreeMap::new(alloc),
            queues: BTreeSet::new(alloc),
        }
    }

    /// The session that has a channel of a connection.
    pub(crate) fn session_at(&self, connection: u64, channel: u16) -> Option<&Session>
        ensures { (w : World) (queues : List (List ℕ)) → StandsAs self.now w queues
            → Both Sits (option_copied result) (life_at w (w.holder connection channel)) }
    {
        let Some(name) = self.places.get(connection, channel) else {
            return None;
        };
        self.sessions.get(name)
    }

    /// The command that would come on a channel.
    fn coming(&self, connection: u64, channel: u16) -> Option<Arrival>
        ensures { (w : World) (queues : List (List ℕ)) → StandsAs self.now w queues
            → Both Comes result (life_at w (w.holder connection channel)) }
    {
        match self.session_at(connection, channel) {
            Some(session) => Some(session.receiver.coming()),
            None => None,
        }
    }

    /// Takes a command on a channel.
    fn arrive(&mut self, connection: u64, channel: u16)
        ensures { (w : World) (queues : List (List ℕ)) → StandsAs self.old w queues → may_arrive (life_at w (w.holder connection channel)) ≡ true
            → StandsAs self.new (heard_at w (w.holder connection channel) Does) queues }
    {
        if let Some(name) = self.places.get(connection, channel) {
            arrive_in(&mut self.sessions, name);
        }
    }

    /// The number that a command-point names on a channel.
    fn pointed_at(&self, connection: u64, channel: u16, id: u32, offset: u64) -> Option<u64>
        ensures { (w : World) (queues : List (List ℕ)) → StandsAs self.now w queues
            → result ≡ pointed (life_at w (w.holder connection channel)) id offset }
    {
        match self.session_at(connection, channel) {
            Some(session) => session.receiver.pointed(id, offset),
            None => None,
        }
    }

    /// Takes a command-point on a channel.
    fn point(&mut self, connection: u64, channel: u16, id: u32, offset: u64)
        ensures { (w : World) (queues : List (List ℕ)) → StandsAs self.old w queues
            → may_point (life_at w (w.holder connection channel)) id offset ≡ true
            → StandsAs self.new (point_at w (w.holder connection channel) (pointed (life_at w (w.holder connection channel)) id offset)) queues }
    {
        match self.pointed_at(connection, channel, id, offset) {
            Some(number) => match self.places.get(connection, channel) {
                Some(name) => point_in(&mut self.sessions, name, number),
                None => {}
            },
            None => {}
        }
    }

    /// Begins a session's life on a channel.
    fn seat(&mut self, connection: u64, channel: u16, name: &Octets) -> Result<(), NoMemory>
        ensures seated { (w : World) (queues : List (List ℕ)) → StandsAs self.old w queues → OnOk result (StandsAs self.new (begins w connection channel name.now) queues) }
        ensures unchanged { (w : World) (queues : List (List ℕ)) → StandsAs self.old w queues → may_attach w connection channel name.now ≡ true
            → OnErr result (StandsAs self.new w queues) }
    {
        let key = name.copied(self.alloc)?;
        let holder = name.copied(self.alloc)?;
        self.places.put(connection, channel, holder)?;
        let session = Session::begun(self.alloc, connection, channel);
        match add(&mut self.sessions, key, session) {
            Ok(()) => Ok(()),
            Err(NoMemory) => {
                self.places.clear(connection, channel);
                Err(NoMemory)
            }
        }
    }

    /// Takes an attach of a new session, and answers it.
    fn attach(
        &mut self,
        units: Items<Out>,
        connection: u64,
        channel: u16,
        name: &Octets,
    ) -> Result<Items<Out>, NoMemory>
        ensures attached { (w : World) (queues : List (List ℕ)) → StandsAs self.old w queues
            → IfOk result (λ all. (all ≡ units ++ attach_answers channel name.now) × StandsAs self.new (begins w connection channel name.now) queues) }
        ensures unchanged { (w : World) (queues : List (List ℕ)) → StandsAs self.old w queues → may_attach w connection channel name.now ≡ true
            → OnErr result (StandsAs self.new w queues) }
    {
        let units = attached(self.alloc, units, channel, name)?;
        match self.seat(connection, channel, name) {
            Ok(()) => Ok(units),
            Err(NoMemory) => {
                discard_units(units);
                Err(NoMemory)
            }
        }
    }

    /// Takes an attach of a session that stands already, or that can't stand on the channel.
    fn attach_again(
        &mut self,
        units: Items<Out>,
        connection: u64,
        channel: u16,
        name: &Octets,
        force: bool,
    ) -> Result<Items<Out>, NoMemory> {
        if self.places.get(connection, channel).is_some() {
            return detached(self.alloc, units, channel, name, Why::Refused);
        }
        match self.sessions.get(name) {
            Some(session) => {
                if session.is_attached() && !force {
                    return detached(self.alloc, units, channel, name, Why::Busy);
                }
                let units = resumed(self.alloc, units, channel, name, session.receiver.next())?;
                let left = if session.is_attached() {
                    Some((session.connection, session.channel))
                } else {
                    None
                };
                self.resume(units, left, connection, channel, name)
            }
            None => detached(self.alloc, units, channel, name, Why::Refused),
        }
    }

    /// Lets a session stand on a channel, and no longer where it stood.
    fn resume(
        &mut self,
        units: Items<Out>,
        left: Option<(u64, u16)>,
        connection: u64,
        channel: u16,
        name: &Octets,
    ) -> Result<Items<Out>, NoMemory> {
        let holder = name.copied(self.alloc)?;
        if let Some((from, old)) = left {
            notice(&mut self.notices, self.alloc, from, old, name)?;
        }
        if self.places.put(connection, channel, holder).is_err() {
            if let Some((from, old)) = left {
                forget(&mut self.notices, from, old);
                tidy_notices(&mut self.notices, from);
            }
            return Err(NoMemory);
        }
        if let Some((from, old)) = left {
            self.places.clear(from, old);
        }
        move_in(&mut self.sessions, name, connection, channel);
        Ok(units)
    }

    /// Takes an attach on a channel.
    fn hear_attach(
        &mut self,
        units: Items<Out>,
        connection: u64,
        channel: u16,
        name: &Octets,
        force: bool,
    ) -> Result<Items<Out>, NoMemory>
        ensures attached { (w : World) (queues : List (List ℕ)) → StandsAs self.old w queues → may_attach w connection channel name.now ≡ true
            → IfOk result (λ all. (all ≡ units ++ attach_answers channel name.now) × StandsAs self.new (begins w connection channel name.now) queues) }
        ensures unchanged { (w : World) (queues : List (List ℕ)) → StandsAs self.old w queues → may_attach w connection channel name.now ≡ true
            → OnErr result (StandsAs self.new w queues) }
    {
        if self.may_attach(connection, channel, name) {
            return self.attach(units, connection, channel, name);
        }
        self.attach_again(units, connection, channel, name, force)
    }

    /// The session on a channel no longer stands there. Takes no memory.
    fn part_from(&mut self, connection: u64, channel: u16) {
        if let Some(name) = self.places.get(connection, channel) {
            part(&mut self.sessions, name, self.time);
        }
        self.places.clear(connection, channel);
    }

    /// Says that no session stands on a channel.
    fn unheld(&self, units: Items<Out>, channel: u16) -> Result<Items<Out>, NoMemory> {
        let empty = Octets::new(self.alloc);
        detached(self.alloc, units, channel, &empty, Why::Missing)
    }

    /// Lets the session on a channel take a control; attach aside.
    fn hear_session(
        &mut self,
        units: Items<Out>,
        connection: u64,
        channel: u16,
        control: &Control,
    ) -> Result<Items<Out>, NoMemory> {
        let Some(name) = self.places.get(connection, channel) else {
            return match control {
                Control::SessionAttached { .. } | Control::SessionDetached { .. } => Ok(units),
                _ => self.unheld(units, channel),
            };
        };
        let Some(session) = self.sessions.get_mut(name) else {
            return Ok(units);
        };
        let (units, course) = session.hear(self.alloc, units, name, control)?;
        match course {
            Course::Stays => Ok(units),
            Course::Parts => {
                self.part_from(connection, channel);
                Ok(units)
            }
            Course::Unknown => self.unknown_ids(units, connection, channel),
        }
    }

    /// Refuses what the peer named on a channel: its session no longer stands there.
    fn unknown_ids(
        &mut self,
        units: Items<Out>,
        connection: u64,
        channel: u16,
    ) -> Result<Items<Out>, NoMemory> {
        let Some(name) = self.places.get(connection, channel) else {
            return self.unheld(units, channel);
        };
        let units = detached(self.alloc, units, channel, name, Why::UnknownIds)?;
        self.part_from(connection, channel);
        Ok(units)
    }

    /// Takes a command-point on a channel.
    fn hear_point(
        &mut self,
        units: Items<Out>,
        connection: u64,
        channel: u16,
        id: u32,
        offset: u64,
    ) -> Result<Items<Out>, NoMemory>
        ensures points { (w : World) (queues : List (List ℕ)) → StandsAs self.old w queues
            → may_point (life_at w (w.holder connection channel)) id offset ≡ true
            → IfOk result (λ all. (all ≡ units) × StandsAs self.new (point_at w (w.holder connection channel) (pointed (life_at w (w.holder connection channel)) id offset)) queues) }
        ensures unchanged { (w : World) (queues : List (List ℕ)) → StandsAs self.old w queues
            → may_point (life_at w (w.holder connection channel)) id offset ≡ true → OnErr result (StandsAs self.new w queues) }
    {
        if self.may_point(connection, channel, id, offset) {
            self.point(connection, channel, id, offset);
            return Ok(units);
        }
        self.unknown_ids(units, connection, channel)
    }

    /// Does a command, where it is new.
    fn act(&mut self, new: bool, command: &Command) -> Result<(), NoMemory>
        ensures acts { (w : World) (queues : List (List ℕ)) → StandsAs self.old w queues
            → OnOk result (StandsAs self.new w (if new then (does (record { queues = queues }) command.now).queues else queues)) }
        ensures unchanged { (w : World) (queues : List (List ℕ)) → StandsAs self.old w queues → OnErr result (StandsAs self.new w queues) }
    {
        match command {
            Command::QueueDeclare {
                queue: Some(name),
                ..
            } if new => {
                self.queues.insert(name.copied(self.alloc)?)?;
                Ok(())
            }
            _ => Ok(()),
        }
    }

    /// Takes a command on a channel, does it, and completes it.
    fn hear_command(
        &mut self,
        units: Items<Out>,
        connection: u64,
        channel: u16,
        command: &Command,
    ) -> Result<Items<Out>, NoMemory>
        ensures heard { (w : World) (queues : List (List ℕ)) → StandsAs self.old w queues → may_arrive (life_at w (w.holder connection channel)) ≡ true
            → IfOk result (λ all. (all ≡ units ++ command_answers channel (life_at w (w.holder connection channel)))
            × StandsAs self.new (heard_at w (w.holder connection channel) Does) (queues_by (life_at w (w.holder connection channel)) queues command.now)) }
        ensures unchanged { (w : World) (queues : List (List ℕ)) → StandsAs self.old w queues → may_arrive (life_at w (w.holder connection channel)) ≡ true
            → OnErr result (StandsAs self.new w queues) }
    {
        if !self.takes_command(connection, channel) {
            return self.unknown_ids(units, connection, channel);
        }
        match self.coming(connection, channel) {
            Some(coming) => {
                let units = completed(self.alloc, units, channel, coming.number)?;
                match self.act(coming.new, command) {
                    Ok(()) => {
                        self.arrive(connection, channel);
                        Ok(units)
                    }
                    Err(NoMemory) => {
                        discard_units(units);
                        Err(NoMemory)
                    }
                }
            }
            None => Ok(units),
        }
    }

    /// Takes a control on a channel.
    fn hear_control(
        &mut self,
        units: Items<Out>,
        connection: u64,
        channel: u16,
        control: &Control,
    ) -> Result<Items<Out>, NoMemory>
        ensures heard { (w : World) (queues : List (List ℕ)) → StandsAs self.old w queues → covers_control w connection channel control.now ≡ true
            → IfOk result (λ all. (all ≡ units ++ control_answers w connection channel control.now)
            × StandsAs self.new (hears_control w connection channel control.now) queues) }
        ensures unchanged { (w : World) (queues : List (List ℕ)) → StandsAs self.old w queues → covers_control w connection channel control.now ≡ true
            → OnErr result (StandsAs self.new w queues) }
    {
        match control {
            Control::SessionAttach { name, force } => match name {
                Some(name) => self.hear_attach(units, connection, channel, name, *force),
                None => {
                    let empty = Octets::new(self.alloc);
                    self.hear_attach(units, connection, channel, &empty, *force)
                }
            },
            Control::SessionCommandPoint {
                command_id,
                command_offset,
            } => {
                let id = command_id.unwrap_or(0);
                let offset = command_offset.unwrap_or(0);
                self.hear_point(units, connection, channel, id, offset)
            }
            _ => self.hear_session(units, connection, channel, control),
        }
    }

    /// Draws a connection's number.
    fn join(&mut self) -> Option<u64>
        ensures { (w : World) (queues : List (List ℕ)) → StandsAs self.old w queues
            → (result ≡ joined_as w HubEvent.Join) × StandsAs self.new (after_event w HubEvent.Join) queues }
    {
        if self.joined < FAR_END {
            self.joined += 1;
            Some(self.joined)
        } else {
            None
        }
    }

    /// A connection is lost: its channels are free, and the sessions on it are loose, or end.
    fn lose(&mut self, connection: u64)
        ensures { (w : World) (queues : List (List ℕ)) → StandsAs self.old w queues → StandsAs self.new (loses w connection) queues }
    {
        self.places.lose(connection);
        part_on(&mut self.sessions, connection, self.time);
        self.notices.remove(&connection);
    }

    /// The time has come; sessions end that were loose for long.
    fn tick(&mut self, now: u64) {
        if self.time < now {
            self.time = now;
        }
        end_due(&mut self.sessions, self.time);
    }

    /// Takes a unit on a channel; what goes out for it follows these units.
    fn hear(
        &mut self,
        units: Items<Out>,
        connection: u64,
        channel: u16,
        unit: &Unit,
    ) -> Result<Items<Out>, NoMemory>
        ensures heard { (w : World) (queues : List (List ℕ)) → StandsAs self.old w queues → covered w (record { queues = queues }) (HubEvent.Unit connection channel unit.now) ≡ true
            → IfOk result (λ all. (all ≡ units ++ answers w (HubEvent.Unit connection channel unit.now))
            × StandsAs self.new (hears_unit w connection channel unit.now) (queues_after w queues (HubEvent.Unit connection channel unit.now))) }
        ensures unchanged { (w : World) (queues : List (List ℕ)) → StandsAs self.old w queues → covered w (record { queues = queues }) (HubEvent.Unit connection channel unit.now) ≡ true
            → OnErr result (StandsAs self.new w queues) }
    {
        match unit {
            Unit::Control(control) => self.hear_control(units, connection, channel, control),
            Unit::Command { command, .. } => {
                self.hear_command(units, connection, channel, command)
            }
        }
    }

    /// Takes the notices of a connection out, for its step.
    fn take_notices(&mut self, connection: u64) -> Option<Moved>
        ensures none { (w : World) (queues : List (List ℕ)) → StandsAs self.old w queues → result ≡ None }
        ensures same { (w : World) (queues : List (List ℕ)) → StandsAs self.old w queues → StandsAs self.new w queues }
    {
        take_notices(&mut self.notices, self.alloc, connection)
    }

    /// Puts the notices of a connection back, as its step was left out.
    fn return_notices(&mut self, connection: u64, taken: Option<Moved>)
        ensures { (w : World) (queues : List (List ℕ)) → StandsAs self.old w queues → StandsAs self.new w queues }
    {
        return_notices(&mut self.notices, connection, taken);
    }

    /// Lets the row of a connection go that has no notice.
    fn tidy_notices(&mut self, connection: u64)
        ensures { (w : World) (queues : List (List ℕ)) → StandsAs self.old w queues → StandsAs self.new w queues }
    {
        tidy_notices(&mut self.notices, connection);
    }

    /// Takes a unit on a channel; the connection's notices go out before its answers.
    fn turn(&mut self, connection: u64, channel: u16, unit: &Unit) -> Result<Items<Out>, NoMemory>
        ensures heard { (w : World) (queues : List (List ℕ)) → StandsAs self.old w queues → covered w (record { queues = queues }) (HubEvent.Unit connection channel unit.now) ≡ true
            → IfOk result (λ all. (all ≡ answers w (HubEvent.Unit connection channel unit.now))
            × StandsAs self.new (hears_unit w connection channel unit.now) (queues_after w queues (HubEvent.Unit connection channel unit.now))) }
        ensures unchanged { (w : World) (queues : List (List ℕ)) → StandsAs self.old w queues → covered w (record { queues = queues }) (HubEvent.Unit connection channel unit.now) ≡ true
            → OnErr result (StandsAs self.new w queues) }
    {
        let taken = self.take_notices(connection);
        match self.hear_after(&taken, connection, channel, unit) {
            Ok(units) => {
                self.tidy_notices(connection);
                Ok(units)
            }
            Err(NoMemory) => {
                self.return_notices(connection, taken);
                Err(NoMemory)
            }
        }
    }

    /// Takes a unit on a channel; notices go out before its answers.
    fn hear_after(
        &mut self,
        notices: &Option<Moved>,
        connection: u64,
        channel: u16,
        unit: &Unit,
    ) -> Result<Items<Out>, NoMemory>
        ensures heard { (w : World) (queues : List (List ℕ)) → StandsAs self.old w queues → covered w (record { queues = queues }) (HubEvent.Unit connection channel unit.now) ≡ true
            → notices.now ≡ None → IfOk result (λ all. (all ≡ answers w (HubEvent.Unit connection channel unit.now))
            × StandsAs self.new (hears_unit w connection channel unit.now) (queues_after w queues (HubEvent.Unit connection channel unit.now))) }
        ensures unchanged { (w : World) (queues : List (List ℕ)) → StandsAs self.old w queues → covered w (record { queues = queues }) (HubEvent.Unit connection channel unit.now) ≡ true
            → OnErr result (StandsAs self.new w queues) }
    {
        let units = told(self.alloc, notices)?;
        self.hear(units, connection, channel, unit)
    }

    /// Lets a connection's notices go out; deliveries there are none.
    fn drain(&mut self, connection: u64) -> Result<Items<Out>, NoMemory>
        ensures drains { (w : World) (queues : List (List ℕ)) → StandsAs self.old w queues → IfOk result (λ all. (all ≡ []) × StandsAs self.new w queues) }
        ensures unchanged { (w : World) (queues : List (List ℕ)) → StandsAs self.old w queues → OnErr result (StandsAs self.new w queues) }
    {
        let taken = self.take_notices(connection);
        match told(self.alloc, &taken) {
            Ok(units) => {
                self.tidy_notices(connection);
                Ok(units)
            }
            Err(NoMemory) => {
                self.return_notices(connection, taken);
                Err(NoMemory)
            }
        }
    }

    /// Takes an event.
    pub(crate) fn step(&mut self, event: &HubEvent) -> Result<Outs, NoMemory>
        ensures steps { (w : World) (queues : List (List ℕ)) → StandsAs self.old w queues → covered w (record { queues = queues }) event.now ≡ true
            → IfOk result (λ o. (o ≡ outs w event.now) × StandsAs self.new (after_event w event.now) (queues_after w queues event.now)) }
        ensures unchanged { (w : World) (queues : List (List ℕ)) → StandsAs self.old w queues → covered w (record { queues = queues }) event.now ≡ true
            → OnErr result (StandsAs self.new w queues) }
        ensures lost { (connection : ℕ) → event.now ≡ HubEvent.Lost connection → IsOk result }
    {
        match event {
            HubEvent::Join => {
                let joined = self.join();
                Ok(Outs {
                    joined,
                    units: Items::new(self.alloc),
                    asked: None,
                })
            }
            HubEvent::Unit {
                conn,
                channel,
                unit,
            } => {
                let units = self.turn(*conn, *channel, unit)?;
                Ok(sent(units))
            }
            HubEvent::Drain { conn } => {
                let units = self.drain(*conn)?;
                Ok(sent(units))
            }
            HubEvent::Lost { conn } => {
                self.lose(*conn);
                Ok(sent(Items::new(self.alloc)))
            }
            HubEvent::Tick { now } => {
                self.tick(*now);
                Ok(sent(Items::new(self.alloc)))
            }
        }
    }

    /// The closing lines.
    pub(crate) fn report(&self, names: &[ConnName]) -> Result<Octets, NoMemory>
        ensures { (w : World) (queues : List (List ℕ)) → StandsAs self.now w queues
            → IfOk result (λ text. text ≡ closing_lines names.now w (record { queues = queues })) }
    {
        let mut text = Vec::new(self.alloc);
        push_queues(self.alloc, &mut text, &self.queues)?;
        push_sessions(self.alloc, &mut text, &self.sessions, names)?;
        text.extend_from_slice(b"end\n".as_slice())?;
        Ok(Octets::from_vec(text))
    }
}
