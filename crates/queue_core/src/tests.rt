//! Queues as a broker has them: declared, filled, emptied by sessions and deleted.
ghost use Rattle.std.specs.Prelude.{◌≡◌, ◌<◌};

use crate::{Holder, QueueCopy, QueueMarks, Queues};
use node_list::Steps;
use octet_reading::{NoMemory, Text};
use std::alloc::Global;
use std::marker::Brand;
use std::sync::ledger::{Blank, Ledger};
use std::test::Fail;

fn marks(alloc: Global, alternate: &str) -> Result<QueueMarks, NoMemory> {
    Ok(QueueMarks {
        durable: true,
        exclusive: Some(7),
        auto_delete: true,
        alternate: Text::from_text(alloc, alternate)?,
        arguments: None,
    })
}

/// Declares a queue that isn't there.
fn declare(queues: &mut Queues, alloc: Global, name: &str) -> Result<(), NoMemory> {
    let name = Text::from_text(alloc, name)?;
    if queues.marks(&name).is_none() {
        queues.declare(&name, marks(alloc, name.as_text())?)?;
    }
    Ok(())
}

/// Adds a copy with the next number to a queue that is there.
fn add(queues: &mut Queues, alloc: Global, name: &str) -> Result<(), NoMemory> {
    queues.reserve(1)?;
    let name = Text::from_text(alloc, name)?;
    let last = queues.greatest();
    let copy = QueueCopy {
        number: last.saturating_add(1),
        redelivered: false,
        exchange: Text::from_text(alloc, "x")?,
        header: None,
        body: None,
    };
    if last < copy.number && queues.marks(&name).is_some() {
        queues.add(&name, copy);
    }
    Ok(())
}

/// Gives the first available copy of a queue to a session.
fn acquire<L: Ledger>(
    queues: &mut Queues,
    alloc: Global,
    name: &str,
    session: u64,
    steps: &mut Steps<L>,
) -> Result<(), NoMemory> {
    queues.room(0, 1)?;
    let name = Text::from_text(alloc, name)?;
    if let Some(number) = queues.first_available(&name, 0) {
        if queues.contains(number) {
            let holder = Holder::Session {
                session,
                transfer: 0,
            };
            queues.acquire(number, holder, steps);
        }
    }
    Ok(())
}

/// Releases all that a session holds, as its end does; gives how many copies that were.
fn leave<L: Ledger>(queues: &mut Queues, session: u64, steps: &mut Steps<L>) -> u64 {
    let mut released: u64 = 0;
    for _ in 0..100u8 {
        let Some(number) = queues.first_held(session) else {
            break;
        };
        if queues.contains(number) {
            queues.release(number, true, steps);
        }
        released = released.saturating_add(1);
    }
    released
}

fn counts(queues: &Queues, alloc: Global, name: &str) -> Result<Option<(u64, u64)>, NoMemory> {
    let name = Text::from_text(alloc, name)?;
    Ok(queues.counts(&name))
}

/// Two queues of five copies each, added to both in turn.
fn fill(queues: &mut Queues, alloc: Global) -> Result<(), NoMemory> {
    declare(queues, alloc, "one")?;
    declare(queues, alloc, "other")?;
    for _ in 0..5u8 {
        add(queues, alloc, "one")?;
        add(queues, alloc, "other")?;
    }
    Ok(())
}

/// What the queues count after each of: a session gets two copies of the one and one of the other, the one is purged, the
/// session ends, the one is deleted.
fn live<L: Ledger>(
    queues: &mut Queues,
    alloc: Global,
    steps: &mut Steps<L>,
) -> Result<[Option<(u64, u64)>; 5], NoMemory> {
    acquire(queues, alloc, "one", 7, steps)?;
    acquire(queues, alloc, "one", 7, steps)?;
    acquire(queues, alloc, "other", 7, steps)?;
    let held = counts(queues, alloc, "one")?;
    purge(queues, alloc, "one")?;
    let purged = counts(queues, alloc, "one")?;
    let released = leave(queues, 7, steps);
    let left = counts(queues, alloc, "one")?;
    delete(queues, alloc, "one")?;
    Ok([
        held,
        purged,
        Some((released, 0)),
        left,
        counts(queues, alloc, "one")?,
    ])
}

fn purge(queues: &mut Queues, alloc: Global, name: &str) -> Result<(), NoMemory> {
    let name = Text::from_text(alloc, name)?;
    let _ = queues.purge(&name);
    Ok(())
}

fn delete(queues: &mut Queues, alloc: Global, name: &str) -> Result<(), NoMemory> {
    let name = Text::from_text(alloc, name)?;
    queues.delete(&name);
    Ok(())
}

fn lived<L: Ledger>(alloc: Global, blank: Blank) -> Result<[Option<(u64, u64)>; 5], NoMemory>
    requires name { blank.name ≡ L.name }
    requires parts { blank.parts ≡ L.parts }
    requires some { 0 < L.parts }
{
    let mut steps = Steps::<L>::open(blank);
    let mut queues = Queues::new(alloc)?;
    fill(&mut queues, alloc)?;
    live(&mut queues, alloc, &mut steps)
}

#[test]
fn a_queue_has_its_copies_and_no_others(rt: HostRuntime) -> Result<(), Fail> {
    assert_eq!(rt;
        lived::<Brand>(rt.alloc(), Blank::new(1))?,
        [Some((3, 2)), Some((0, 2)), Some((3, 0)), Some((2, 0)), None]
    );
    Ok(())
}

/// How many octets the names of the queues have, as digits of a number.
fn names(queues: &Queues) -> u64 {
    let mut digits: u64 = 0;
    for name in queues.names() {
        let len = name.as_slice().len() as u64;
        digits = digits.saturating_mul(10).saturating_add(len);
    }
    digits
}

/// Declares three queues, each with its own name as alternate exchange.
fn three(queues: &mut Queues, alloc: Global) -> Result<(), NoMemory> {
    declare(queues, alloc, "bb")?;
    declare(queues, alloc, "aaa")?;
    declare(queues, alloc, "c")
}

/// Whether the queue is no longer durable, exclusive or auto-delete.
fn is_plain(queues: &Queues, name: &Text) -> bool {
    match queues.marks(name) {
        Some(marks) => !marks.durable && marks.exclusive.is_none() && !marks.auto_delete,
        None => false,
    }
}

#[test]
fn queues_come_by_name_and_keep_their_marks(rt: HostRuntime) -> Result<(), Fail> {
    let mut queues = Queues::new(rt.alloc())?;
    three(&mut queues, rt.alloc())?;
    assert_eq!(rt; queues.len(), 3);
    assert!(rt; queues.lists() > 2);
    let name = Text::from_text(rt.alloc(), "aaa")?;
    assert_eq!(rt; names(&queues), 321);
    queues.plain(&name);
    assert!(rt; is_plain(&queues, &name) && queues.is_alternate(&name));
    queues.delete(&name);
    assert!(rt; !queues.is_alternate(&name));
    assert_eq!(rt; names(&queues), 21);
    Ok(())
}

/// Accepts all that a session holds, and tells how many copies that were.
fn accept_all<L: Ledger>(queues: &mut Queues, session: u64, steps: &mut Steps<L>) -> u64 {
    let mut accepted: u64 = 0;
    for _ in 0..100u8 {
        let Some(number) = queues.first_held(session) else {
            break;
        };
        if queues.contains(number) {
            queues.accept(number, steps);
        }
        accepted = accepted.saturating_add(1);
    }
    accepted
}

/// Declares a queue where room was made first and it isn't there.
fn place(queues: &mut Queues, alloc: Global, name: &str) -> Result<(), NoMemory> {
    queues.room(1, 0)?;
    let marks = marks(alloc, name)?;
    let name = Text::from_text(alloc, name)?;
    match queues.marks(&name) {
        Some(_) => drop((name, marks)),
        None => queues.place(name, marks),
    }
    Ok(())
}

/// A queue of three copies, all held by a session.
fn hold_three<L: Ledger>(
    queues: &mut Queues,
    alloc: Global,
    steps: &mut Steps<L>,
) -> Result<(), NoMemory> {
    place(queues, alloc, "q")?;
    for _ in 0..3u8 {
        add(queues, alloc, "q")?;
        acquire(queues, alloc, "q", 7, steps)?;
    }
    Ok(())
}

/// How many copies a session accepted of three that it held, and what the queue counts then.
fn accepted<L: Ledger>(alloc: Global, blank: Blank) -> Result<(u64, Option<(u64, u64)>), NoMemory>
    requires name { blank.name ≡ L.name }
    requires parts { blank.parts ≡ L.parts }
    requires some { 0 < L.parts }
{
    let mut steps = Steps::<L>::open(blank);
    let mut queues = Queues::new(alloc)?;
    hold_three(&mut queues, alloc, &mut steps)?;
    let count = accept_all(&mut queues, 7, &mut steps);
    let counts = counts(&queues, alloc, "q")?;
    Ok((count, counts))
}

#[test]
fn a_wide_accept(rt: HostRuntime) -> Result<(), Fail> {
    assert_eq!(rt;
        accepted::<Brand>(rt.alloc(), Blank::new(1))?,
        (3, Some((0, 0)))
    );
    Ok(())
}
