//! `replay`: the broker over the lines of a trace.
ghost use Rattle.std.specs.Prelude.{◌≡◌, ◌==◌, ◌++◌, ℕ, List, [], Bool, if◌then◌else◌, map, is_some, true, IfOk, IfSome, OnOk, Some};
ghost use Rattle.std.specs.Io.KnownBytes.{IsAtEnd};
ghost use Rattle.history_model.specs.declared.trace.TraceEvent.TheVariants as trace;
ghost use Rattle.history_model.specs.Arrivals.{Arrival};
ghost use Rattle.history_model.specs.Pairs.{Paired};
ghost use Rattle.broker_engine.specs.Trace.{Past, Link};
ghost use Rattle.hub_core.specs.Hub.{Serves, keeper_of as hub_keeper};
ghost use Rattle.line_runs.specs.Run.{Reports, ReadHasCause, WriteHasCause};
ghost use Rattle.trace_tool.specs.Tool.{is_covered};
ghost use Rattle.trace_tool.specs.Replay.{IsLink, StandsFor, Happens, conn_name, line_step, past_lines, closing_of, known, keeper_of};
ghost use Rattle.std.specs.BTreeMap.{insert_entry};
ghost use Rattle.std.specs.Map.{lookup, remove_entry};
ghost use Rattle.std.specs.Option.{option_map};
ghost use Rattle.std.specs.Ordering.{nat_cmp};
ghost use Rattle.broker_engine.specs.Feeds.{Talks};
ghost use Rattle.trace_tool.specs.Linked.{Linked, Drained, wire_name};

use crate::hearing::{drain, hear_piece, join, lose, tick};
use crate::line::{Parsed, parse};
use crate::wire::{Wire, lines_of};
use amqp_values::{NoMemory, Octets};
use broker_engine::{Closing, Conn};
use history_model::{ConnName, TraceEvent};
use hub_core::Hub;
use keeper_core::{Keeper, OpenFault};
use line_runs::{Ended, LineTool, Stop, TraceWhy, run_lines};
use outside_core::{Sink, Source};
use std::alloc::Global;
use std::collections::BTreeMap;

/// A broker that takes the lines of a trace.
///
/// Contracts speak of it by the lines that it took, the newest first.
#[derive(Drop)]
pub struct Replay<K> {
    hub: Hub<K>,
    /// The trace's connections.
    connections: BTreeMap<u32, Wire>,
    /// The greatest time, in seconds, that was told.
    time: u64,
}

/// Whether the trace has such a connection.
fn has(connections: &BTreeMap<u32, Wire>, connection: u32) -> bool
    ensures { (links : List (ℕ × Link)) → Paired IsLink connections.now.entries links → result ≡ is_some (lookup (λ n. n == connection) links) }
{
    connections.contains_key(&connection)
}

/// The connections' numbers in the hub, and in the trace.
fn names_of(alloc: Global, connections: &BTreeMap<u32, Wire>) -> Result<Vec<ConnName>, NoMemory>
    ensures { IfOk result (λ names. names.items ≡ map wire_name connections.now.entries) }
{
    let mut names = Vec::new(alloc);
    for (name, wire) in connections.iter() {
        names.push(ConnName {
            number: wire.number,
            name: *name,
        })?;
    }
    Ok(names)
}

/// Adds a connection that heard nothing yet.
fn add(
    connections: &mut BTreeMap<u32, Wire>,
    connection: u32,
    number: u64,
    conn: Conn,
) -> Result<(), NoMemory>
    ensures { (links : List (ℕ × Link)) → Paired IsLink connections.old.entries links → Talks conn []
        → OnOk result (Paired IsLink connections.new.entries (insert_entry nat_cmp links connection (record { number = number; heard = [] }))) }
{
    connections.insert(connection, Wire { number, conn })?;
    Ok(())
}

/// Takes a connection away, and gives its number in the hub.
fn take(connections: &mut BTreeMap<u32, Wire>, connection: u32) -> Option<u64>
    ensures number { (links : List (ℕ × Link)) → Paired IsLink connections.old.entries links
        → result ≡ option_map (λ link. link.number) (lookup (λ n. n == connection) links) }
    ensures gone { (links : List (ℕ × Link)) → Paired IsLink connections.old.entries links
        → Paired IsLink connections.new.entries (remove_entry (λ n. n == connection) links) }
{
    match connections.remove(&connection) {
        Some(wire) => {
            let Wire { number, conn: _ } = wire;
            Some(number)
        }
        None => None,
    }
}

/// Hears a piece on a connection, if it is there; gives where the piece closes it.
fn hear_on<K: Keeper>(
    hub: &mut Hub<K>,
    connections: &mut BTreeMap<u32, Wire>,
    connection: u32,
    octets: &[u8],
    sent: &mut Vec<u8>,
) -> Result<Option<Closing>, Stop>
    ensures heard { (h : List Arrival) (links : List (ℕ × Link)) → Serves hub.old h → Paired IsLink connections.old.entries links
        → Linked hub.new connections.new.entries h links connection octets.now sent.old.items sent.new.items result }
    ensures keeper { hub_keeper hub.new ≡ hub_keeper hub.old }
{
    match connections.get_mut(&connection) {
        Some(wire) => hear_piece(hub, wire.number, &mut wire.conn, octets, sent),
        None => Err(Stop::BadLine(TraceWhy::NoSuchConnection)),
    }
}

/// Lets deliveries go out on a connection, if it is there; on a Closed one none do.
fn drain_on<K: Keeper>(
    hub: &mut Hub<K>,
    connections: &BTreeMap<u32, Wire>,
    connection: u32,
    sent: &mut Vec<u8>,
) -> Result<(), Stop>
    ensures drained { (h : List Arrival) (links : List (ℕ × Link)) → Serves hub.old h → Paired IsLink connections.now.entries links
        → Drained hub.new h (lookup (λ n. n == connection) links) sent.old.items sent.new.items result }
    ensures keeper { hub_keeper hub.new ≡ hub_keeper hub.old }
{
    match connections.get(&connection) {
        Some(wire) => {
            if wire.conn.is_closed() {
                return Ok(());
            }
            match drain(hub, wire.number, &wire.conn, sent) {
                Ok(()) => Ok(()),
                Err(NoMemory) => Err(Stop::NoMemory),
            }
        }
        None => Err(Stop::BadLine(TraceWhy::NoSuchConnection)),
    }
}

/// Tells a connection the time; gives the lines of what it sent and of its end.
fn tell<K: Keeper>(
    hub: &mut Hub<K>,
    alloc: Global,
    connection: u32,
    wire: &mut Wire,
    now: u64,
) -> Result<Octets, NoMemory>
    ensures { hub_keeper hub.new ≡ hub_keeper hub.old }
{
    let mut sent = Vec::new(alloc);
    let closed = wire.conn.moment(now, &mut sent)?;
    if closed.is_some() {
        lose(hub, wire.number)?;
    }
    lines_of(alloc, connection, sent.as_slice(), closed)
}

/// Tells all connections the time, by rising number.
fn tell_all<K: Keeper>(
    hub: &mut Hub<K>,
    alloc: Global,
    connections: &mut BTreeMap<u32, Wire>,
    now: u64,
) -> Result<Octets, NoMemory>
    ensures { hub_keeper hub.new ≡ hub_keeper hub.old }
{
    let mut text = Vec::new(alloc);
    for (connection, wire) in connections.iter_mut() {
        let lines = tell(hub, alloc, *connection, wire, now)?;
        text.extend_from_slice(lines.as_slice())?;
    }
    Ok(Octets::from_vec(text))
}

impl<K: Keeper> Replay<K> {
    ghost use Rattle.trace_tool.specs.Replay.{Begins, keeper_of};

    /// A broker that no line came to yet, over this keeper.
    pub fn open(alloc: Global, keeper: K) -> Result<Replay<K>, (OpenFault, K)>
        ensures { Begins keeper result }
    {
        match Hub::open(alloc, keeper) {
            Ok(hub) => Ok(Replay {
                hub,
                connections: BTreeMap::new(alloc),
                time: 0,
            }),
            Err(refused) => Err(refused),
        }
    }

    /// Gives the keeper back.
    pub fn close(self) -> K
        ensures { result ≡ keeper_of self }
    {
        let Replay {
            hub,
            connections: _,
            time: _,
        } = self;
        hub.close()
    }

    /// A connection whose negotiation is done joins.
    fn ready(&mut self, alloc: Global, connection: u32) -> Result<Octets, Stop>
        ensures happens { (p : Past) → StandsFor self.old p → Happens self.new p (trace.Ready connection) result }
        ensures keeper { keeper_of self.new ≡ keeper_of self.old }
    {
        if has(&self.connections, connection) {
            return Err(Stop::BadLine(TraceWhy::InUse));
        }
        let Ok(conn) = Conn::ready(alloc) else {
            return Err(Stop::NoMemory);
        };
        match join(&mut self.hub) {
            Ok(Some(number)) => match add(&mut self.connections, connection, number, conn) {
                Ok(()) => Ok(Octets::new(alloc)),
                Err(NoMemory) => Err(Stop::NoMemory),
            },
            Ok(None) => Ok(Octets::new(alloc)),
            Err(NoMemory) => Err(Stop::NoMemory),
        }
    }

    /// A connection that begins with its protocol header joins.
    fn open_one(&mut self, alloc: Global, connection: u32) -> Result<(), NoMemory>
        ensures { keeper_of self.new ≡ keeper_of self.old }
    {
        let mut conn = Conn::open(alloc)?;
        let mut sent = Vec::new(alloc);
        let _ = conn.moment(self.time, &mut sent)?;
        match join(&mut self.hub) {
            Ok(Some(number)) => add(&mut self.connections, connection, number, conn),
            Ok(None) => Ok(()),
            Err(NoMemory) => Err(NoMemory),
        }
    }

    /// A connection that begins with its protocol header joins, unless its number is in use.
    fn begin(&mut self, alloc: Global, connection: u32) -> Result<Octets, Stop>
        ensures happens { (p : Past) → StandsFor self.old p → Happens self.new p (trace.Open connection) result }
        ensures keeper { keeper_of self.new ≡ keeper_of self.old }
    {
        if has(&self.connections, connection) {
            return Err(Stop::BadLine(TraceWhy::InUse));
        }
        match self.open_one(alloc, connection) {
            Ok(()) => Ok(Octets::new(alloc)),
            Err(NoMemory) => Err(Stop::NoMemory),
        }
    }

    /// A connection's octets come.
    fn bytes(&mut self, alloc: Global, connection: u32, octets: &Octets) -> Result<Octets, Stop>
        ensures happens { (p : Past) → StandsFor self.old p → Happens self.new p (trace.Bytes connection octets.now) result }
        ensures keeper { keeper_of self.new ≡ keeper_of self.old }
    {
        let mut sent = Vec::new(alloc);
        match hear_on(
            &mut self.hub,
            &mut self.connections,
            connection,
            octets.as_slice(),
            &mut sent,
        ) {
            Ok(refused) => match lines_of(alloc, connection, sent.as_slice(), refused) {
                Ok(lines) => Ok(lines),
                Err(NoMemory) => Err(Stop::NoMemory),
            },
            Err(stop) => Err(stop),
        }
    }

    /// A connection is lost.
    fn lose(&mut self, alloc: Global, connection: u32) -> Result<Octets, Stop>
        ensures happens { (p : Past) → StandsFor self.old p → Happens self.new p (trace.Lose connection) result }
        ensures keeper { keeper_of self.new ≡ keeper_of self.old }
    {
        match take(&mut self.connections, connection) {
            Some(number) => match lose(&mut self.hub, number) {
                Ok(()) => Ok(Octets::new(alloc)),
                Err(NoMemory) => Err(Stop::NoMemory),
            },
            None => Err(Stop::BadLine(TraceWhy::NoSuchConnection)),
        }
    }

    /// Deliveries may go out on a connection.
    fn quiet(&mut self, alloc: Global, connection: u32) -> Result<Octets, Stop>
        ensures happens { (p : Past) → StandsFor self.old p → Happens self.new p (trace.Quiet connection) result }
        ensures keeper { keeper_of self.new ≡ keeper_of self.old }
    {
        let mut sent = Vec::new(alloc);
        match drain_on(&mut self.hub, &self.connections, connection, &mut sent) {
            Ok(()) => match lines_of(alloc, connection, sent.as_slice(), None) {
                Ok(lines) => Ok(lines),
                Err(NoMemory) => Err(Stop::NoMemory),
            },
            Err(stop) => Err(stop),
        }
    }

    /// The time has come.
    fn tick(&mut self, alloc: Global, now: u64) -> Result<Octets, Stop>
        ensures { keeper_of self.new ≡ keeper_of self.old }
    {
        if self.time < now {
            self.time = now;
        }
        if tick(&mut self.hub, now).is_err() {
            return Err(Stop::NoMemory);
        }
        match tell_all(&mut self.hub, alloc, &mut self.connections, self.time) {
            Ok(lines) => Ok(lines),
            Err(NoMemory) => Err(Stop::NoMemory),
        }
    }

    /// An event of the trace happens.
    fn happen(&mut self, alloc: Global, event: &TraceEvent) -> Result<Octets, Stop>
        ensures happens { (p : Past) → StandsFor self.old p → Happens self.new p event.now result }
        ensures keeper { keeper_of self.new ≡ keeper_of self.old }
    {
        match event {
            TraceEvent::Ready { connection } => self.ready(alloc, *connection),
            TraceEvent::Bytes { connection, octets } => self.bytes(alloc, *connection, octets),
            TraceEvent::Open { connection } => self.begin(alloc, *connection),
            TraceEvent::Lose { connection } => self.lose(alloc, *connection),
            TraceEvent::Quiet { connection } => self.quiet(alloc, *connection),
            TraceEvent::Tick { now } => self.tick(alloc, *now),
            TraceEvent::Restart => Err(Stop::Unbuilt),
        }
    }
}

impl<K: Keeper> LineTool for Replay<K> {
    ghost given = { λ now. [] };

    ghost stands = { λ now opened past. StandsFor now (past_lines past) };

    ghost rests = { λ now opened. keeper_of now ≡ keeper_of opened };

    ghost step = { λ opened given past line. line_step (past_lines past) line };

    ghost closing = { λ opened given past. closing_of (past_lines past) };

    fn take(&mut self, alloc: Global, line: &[u8]) -> Result<Octets, Stop> {
        match parse(alloc, line) {
            Ok(Parsed::Skipped) => Ok(Octets::new(alloc)),
            Ok(Parsed::Event(event)) => self.happen(alloc, &event),
            Ok(Parsed::Bad(why)) => Err(Stop::BadLine(why)),
            Err(NoMemory) => Err(Stop::NoMemory),
        }
    }

    fn close(&self, alloc: Global) -> Result<Octets, NoMemory> {
        let names = names_of(alloc, &self.connections)?;
        self.hub.report(names.as_slice())
    }
}

/// Runs the broker over a trace, and gives its keeper back.
///
/// What is written for each line is written before the next one is looked at.
pub fn run_replay<A: Source, B: Sink, K: Keeper>(
    alloc: Global,
    keeper: K,
    input: &mut A,
    out: &mut B,
) -> (Ended, K)
    ensures reports { IfSome (A.left input.old) (λ all. is_covered all ≡ true → Reports (λ past line. line_step (past_lines past) line) (λ past. closing_of (past_lines past))
        all (A.left input.old) (A.left input.new) (B.held out.old) (B.held out.new) result.0) }
    ensures keeper { result.1 ≡ keeper }
    ensures read_to_end { result.0 ≡ Ended.Ok → IsAtEnd (A.left input.new) }
    ensures read_cause { ReadHasCause (A.faults input.old) (A.faults input.new) (Some result.0) }
    ensures write_cause { WriteHasCause (B.faults out.old) (B.faults out.new) (Some result.0) }
{
    match Replay::open(alloc, keeper) {
        Ok(mut tool) => {
            let ended = run_lines(alloc, &mut tool, input, out);
            (ended, tool.close())
        }
        Err((_, keeper)) => (Ended::NoMemory, keeper),
    }
}
