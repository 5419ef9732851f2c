//! Transactions and branches of two sessions, step by step.
use crate::{BranchFault, Branches, End, Intent, Owner, Standing, Start};
use amqp_values::Xid;
use octet_reading::{NoMemory, Octets, Text};
use std::alloc::Global;
use std::test::Fail;

/// What is asked of the branches.
#[derive(Clone, Copy)]
enum Ask {
    Tx,
    Dtx,
    Start(Start),
    End(End),
    Accept(u64),
    Prepare,
    OnePhase,
    TwoPhase,
    Rollback,
    Time(u32),
    Expire(u64),
    Leave,
    Gone(u64),
    Standing,
    Owner,
    Timeout,
    Undo,
    List,
    Names,
    Place,
    Commit,
    Len,
    Format,
}

fn xid(alloc: Global) -> Result<Xid, NoMemory> {
    Ok(Xid {
        format: 1,
        global: Octets::from_slice(alloc, b"a".as_slice())?,
        branch: Octets::from_slice(alloc, b"b".as_slice())?,
    })
}

fn of(answer: Result<u16, BranchFault>) -> u32 {
    match answer {
        Ok(status) => u32::from(status),
        Err(BranchFault::Refused(code)) => u32::from(code),
        Err(BranchFault::NoMemory) => 1_000,
    }
}

fn of_unit(answer: Result<(), BranchFault>) -> u32 {
    match answer {
        Ok(()) => 0,
        Err(BranchFault::Refused(code)) => u32::from(code),
        Err(BranchFault::NoMemory) => 1_000,
    }
}

fn standing(standing: Standing) -> u32 {
    match standing {
        Standing::Missing => 0,
        Standing::Associated => 1,
        Standing::Idle => 2,
        Standing::RbRollback => 3,
        Standing::RbTimeout => 4,
        Standing::Prepared => 5,
    }
}

/// An accept of a copy in `q` goes where the session's go: 1 where it acts at once.
fn accept(branches: &mut Branches, alloc: Global, session: u64, number: u64) -> u32 {
    let queue = match Text::from_text(alloc, "q") {
        Ok(queue) => queue,
        Err(NoMemory) => return 1_000,
    };
    if branches.room(session, 1).is_err() {
        drop(queue);
        return 1_000;
    }
    let intent = Intent::Accept { queue, number };
    match branches.owner(session) {
        Owner::Now => {
            drop(intent);
            1
        }
        Owner::Tx => {
            branches.add(session, intent);
            0
        }
        Owner::Branch { .. } => {
            branches.add(session, intent);
            0
        }
    }
}

/// Prepares the branch and answers 0, or the code of the refusal.
fn prepare(branches: &mut Branches, xid: &Xid) -> u32 {
    match branches.prepare_plan(xid) {
        Ok(plan) => {
            drop(plan);
            if branches.standing(xid) == Standing::Idle {
                branches.prepared(xid);
            }
            0
        }
        Err(BranchFault::Refused(code)) => u32::from(code),
        Err(BranchFault::NoMemory) => 1_000,
    }
}

/// Ends the branch and answers how many intents it had, or the code of the refusal.
fn commit(branches: &mut Branches, xid: &Xid, one_phase: bool) -> u32 {
    match branches.commit_plan(xid, one_phase) {
        Ok(plan) => {
            let planned = plan.into_vec().len();
            let done = branches.finish(xid).into_vec().len();
            if planned == done && done < 100 {
                return 10 + done as u32;
            }
            1_001
        }
        Err(BranchFault::Refused(code)) => u32::from(code),
        Err(BranchFault::NoMemory) => 1_000,
    }
}

fn rollback(branches: &mut Branches, xid: &Xid) -> u32 {
    match branches.rollback_plan(xid) {
        Ok(plan) => {
            let planned = plan.into_vec().len();
            let done = branches.finish(xid).into_vec().len();
            if planned == done && done < 100 {
                return 10 + done as u32;
            }
            1_001
        }
        Err(BranchFault::Refused(code)) => u32::from(code),
        Err(BranchFault::NoMemory) => 1_000,
    }
}

fn undo(branches: &mut Branches) -> u32 {
    match branches.undo() {
        Some(intents) => {
            let undone = intents.into_vec().len();
            if undone < 100 {
                10 + undone as u32
            } else {
                1_001
            }
        }
        None => 0,
    }
}

fn list(branches: &Branches) -> u32 {
    match branches.list() {
        Ok(xids) => {
            let listed = xids.len();
            if listed < 100 { listed as u32 } else { 1_001 }
        }
        Err(NoMemory) => 1_000,
    }
}

fn owner(branches: &Branches, session: u64) -> u32 {
    match branches.owner(session) {
        Owner::Now => 0,
        Owner::Tx => match branches.tx(session) {
            Some(intents) => 10_u32.saturating_add(in_hundred(intents.as_slice().len())),
            None => 1_001,
        },
        Owner::Branch { place } => 20_u32.saturating_add(in_hundred(
            branches.intents_at(place).as_slice().len(),
        )),
    }
}

/// A new start without memory, with room made first.
fn place(branches: &mut Branches, alloc: Global, session: u64) -> u32 {
    let xid = match xid(alloc) {
        Ok(xid) => xid,
        Err(NoMemory) => return 1_000,
    };
    if branches.room(session, 0).is_err() {
        drop(xid);
        return 1_000;
    }
    if branches.dtx(session)
        && branches.owner(session) == Owner::Now
        && branches.standing(&xid) == Standing::Missing
        && branches.len() < 65_536
    {
        branches.place(session, xid);
        return 0;
    }
    drop(xid);
    409
}

/// Takes the tx's intents and answers how many there were; 409 without a tx.
fn take_tx(branches: &mut Branches, session: u64) -> u32 {
    if branches.tx(session).is_none() {
        return 409;
    }
    let intents = branches.take_tx(session);
    10_u32.saturating_add(in_hundred(intents.into_vec().len()))
}

fn in_hundred(count: usize) -> u32 {
    if count < 100 { count as u32 } else { 100 }
}

/// The answer of one call, as a number.
fn answer(branches: &mut Branches, alloc: Global, xid: &Xid, session: u64, ask: Ask) -> u32 {
    match ask {
        Ask::Tx => of_unit(branches.select(session, false)),
        Ask::Dtx => of_unit(branches.select(session, true)),
        Ask::Start(how) => of(branches.start(session, xid, how)),
        Ask::End(how) => of(branches.end(session, xid, how)),
        Ask::Accept(number) => accept(branches, alloc, session, number),
        Ask::Prepare => prepare(branches, xid),
        Ask::OnePhase => commit(branches, xid, true),
        Ask::TwoPhase => commit(branches, xid, false),
        Ask::Rollback => rollback(branches, xid),
        Ask::Time(seconds) => of_unit(branches.set_timeout(xid, seconds, 0)),
        Ask::Expire(now) => {
            branches.expire(now);
            0
        }
        Ask::Leave => {
            branches.leave(session);
            0
        }
        Ask::Gone(number) => match Text::from_text(alloc, "q") {
            Ok(queue) => {
                branches.gone(&queue, Some(number));
                0
            }
            Err(NoMemory) => 1_000,
        },
        Ask::Standing => standing(branches.standing(xid)),
        Ask::Owner => owner(branches, session),
        Ask::Timeout => branches.timeout(xid).unwrap_or(1_001),
        Ask::Undo => undo(branches),
        Ask::List => list(branches),
        Ask::Place => place(branches, alloc, session),
        Ask::Commit => take_tx(branches, session),
        Ask::Len => in_hundred(branches.len()),
        Ask::Format => {
            if branches.len() == 0 {
                return 1_001;
            }
            branches.xid_at(0).format
        }
        Ask::Names => match Text::from_text(alloc, "q") {
            Ok(queue) => u32::from(branches.names(&queue)),
            Err(NoMemory) => 1_000,
        },
    }
}

/// The index of the first step that is answered otherwise, counted from 0, or how many steps there are.
fn first_wrong(alloc: Global, steps: &[(u64, Ask, u32)]) -> usize {
    let xid = match xid(alloc) {
        Ok(xid) => xid,
        Err(NoMemory) => return 1_000,
    };
    let mut branches = Branches::new(alloc);
    for index in 0..steps.len() {
        let (session, ask, want) = steps[index];
        if answer(&mut branches, alloc, &xid, session, ask) != want {
            return index;
        }
    }
    steps.len()
}

#[test]
fn a_tx_gathers_and_is_kept_apart_from_dtx(rt: HostRuntime) {
    let steps = [
        (1, Ask::Owner, 0),
        (1, Ask::Accept(1), 1),
        (1, Ask::Tx, 0),
        (1, Ask::Tx, 409),
        (1, Ask::Dtx, 409),
        (1, Ask::Accept(1), 0),
        (1, Ask::Accept(2), 0),
        (1, Ask::Owner, 12),
        (1, Ask::Gone(1), 0),
        (1, Ask::Owner, 11),
        (2, Ask::Dtx, 0),
        (2, Ask::Dtx, 0),
        (2, Ask::Tx, 409),
        (1, Ask::Leave, 0),
        (1, Ask::Owner, 0),
    ];
    assert_eq!(rt; first_wrong(rt.alloc(), &steps), 15);
}

#[test]
fn a_prepared_branch_over_a_restart(rt: HostRuntime) {
    let steps = [
        (1, Ask::Start(Start::New), 409),
        (1, Ask::Dtx, 0),
        (1, Ask::Start(Start::New), 0),
        (1, Ask::Accept(1), 0),
        (1, Ask::Prepare, 409),
        (1, Ask::Standing, 1),
        (1, Ask::End(End::Success), 0),
        (1, Ask::Standing, 2),
        (1, Ask::TwoPhase, 409),
        (1, Ask::Prepare, 0),
        (1, Ask::Standing, 5),
        (1, Ask::Names, 1),
        (1, Ask::List, 1),
        (1, Ask::Prepare, 409),
        (1, Ask::OnePhase, 409),
        (1, Ask::Gone(1), 0),
        (1, Ask::Leave, 0),
        (1, Ask::Expire(1_000), 0),
        (2, Ask::TwoPhase, 11),
        (2, Ask::TwoPhase, 404),
        (2, Ask::List, 0),
        (2, Ask::Names, 0),
    ];
    assert_eq!(rt; first_wrong(rt.alloc(), &steps), 22);
}

#[test]
fn a_branch_that_times_out(rt: HostRuntime) {
    let steps = [
        (1, Ask::Time(10), 404),
        (1, Ask::Timeout, 1_001),
        (1, Ask::Dtx, 0),
        (1, Ask::Start(Start::New), 0),
        (1, Ask::Accept(1), 0),
        (1, Ask::End(End::Success), 0),
        (1, Ask::Time(10), 0),
        (1, Ask::Timeout, 10),
        (1, Ask::Expire(9), 0),
        (1, Ask::Standing, 2),
        (1, Ask::Expire(10), 0),
        (1, Ask::Standing, 4),
        (1, Ask::Undo, 11),
        (1, Ask::Undo, 0),
        (1, Ask::Start(Start::Join), 2),
        (1, Ask::Owner, 0),
        (1, Ask::TwoPhase, 409),
        (1, Ask::OnePhase, 10),
        (1, Ask::Standing, 0),
    ];
    assert_eq!(rt; first_wrong(rt.alloc(), &steps), 19);
}

#[test]
fn sessions_join_suspend_and_resume(rt: HostRuntime) {
    let steps = [
        (1, Ask::Dtx, 0),
        (2, Ask::Dtx, 0),
        (1, Ask::Start(Start::Join), 404),
        (1, Ask::Start(Start::New), 0),
        (2, Ask::Start(Start::New), 530),
        (2, Ask::Start(Start::Resume), 409),
        (2, Ask::End(End::Success), 409),
        (2, Ask::Start(Start::Join), 0),
        (2, Ask::Accept(1), 0),
        (1, Ask::Owner, 21),
        (1, Ask::End(End::Suspend), 0),
        (1, Ask::Owner, 0),
        (1, Ask::End(End::Suspend), 409),
        (1, Ask::Start(Start::Join), 409),
        (1, Ask::Start(Start::Resume), 0),
        (1, Ask::Start(Start::Resume), 409),
        (1, Ask::End(End::Fail), 1),
        (2, Ask::Rollback, 409),
        (2, Ask::Standing, 3),
        (2, Ask::End(End::Success), 1),
        (2, Ask::Rollback, 11),
    ];
    assert_eq!(rt; first_wrong(rt.alloc(), &steps), 21);
}

#[test]
fn a_session_that_ends_marks_its_branches(rt: HostRuntime) {
    let steps = [
        (1, Ask::Dtx, 0),
        (1, Ask::Start(Start::New), 0),
        (1, Ask::Accept(1), 0),
        (1, Ask::End(End::Suspend), 0),
        (1, Ask::Undo, 0),
        (1, Ask::Leave, 0),
        (1, Ask::Standing, 3),
        (1, Ask::Undo, 11),
        (1, Ask::Undo, 0),
        (2, Ask::OnePhase, 10),
    ];
    assert_eq!(rt; first_wrong(rt.alloc(), &steps), 10);
}

#[test]
fn a_start_with_room_and_a_commit_of_a_tx(rt: HostRuntime) {
    let steps = [
        (1, Ask::Place, 409),
        (1, Ask::Dtx, 0),
        (1, Ask::Len, 0),
        (1, Ask::Format, 1_001),
        (1, Ask::Place, 0),
        (1, Ask::Place, 409),
        (1, Ask::Len, 1),
        (1, Ask::Format, 1),
        (1, Ask::Accept(1), 0),
        (1, Ask::Owner, 21),
        (1, Ask::Commit, 409),
        (2, Ask::Tx, 0),
        (2, Ask::Accept(2), 0),
        (2, Ask::Accept(3), 0),
        (2, Ask::Commit, 12),
        (2, Ask::Owner, 10),
    ];
    assert_eq!(rt; first_wrong(rt.alloc(), &steps), 16);
}

#[test]
fn publishing_in_a_tx_over_a_lost_connection(rt: HostRuntime) {
    let steps = [
        (1, Ask::Tx, 0),
        (1, Ask::Accept(1), 0),
        (1, Ask::Accept(2), 0),
        (1, Ask::Accept(3), 0),
        (1, Ask::Expire(30), 0),
        (1, Ask::Owner, 13),
        (1, Ask::Commit, 13),
        (1, Ask::Owner, 10),
        (1, Ask::Accept(4), 0),
        (1, Ask::Commit, 11),
    ];
    assert_eq!(rt; first_wrong(rt.alloc(), &steps), 10);
}
