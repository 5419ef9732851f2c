//! Both halves as a session makes them.
use crate::{Arrival, Receiver, Sender, UnknownIds, UnknownSent};
use amqp_terms::{Control, Unit};
use amqp_values::{NoMemory, Range, Ranges};
use std::alloc::Global;
use std::test::Fail;

/// Ranges of serials.
fn ranges(alloc: Global, pairs: &[(u32, u32)]) -> Result<Ranges, NoMemory> {
    let mut items = Vec::new(alloc);
    for pair in pairs {
        items.push(Range {
            lower: pair.0,
            upper: pair.1,
        })?;
    }
    Ok(Ranges::from_vec(items))
}

/// Takes a gap while numbers are below their end.
fn skip(receiver: &mut Receiver, alloc: Global, pairs: &[(u32, u32)]) -> Result<(), NoMemory> {
    let named = ranges(alloc, pairs)?;
    if receiver.next() < 4_611_686_018_427_387_904 {
        receiver.gap(&named)?;
    }
    Ok(())
}

/// Takes a command while numbers are below their end.
fn take(receiver: &mut Receiver) -> Option<Arrival> {
    if receiver.next() < 4_611_686_018_427_387_904 {
        return Some(receiver.arrive());
    }
    None
}

/// A sender that gave so many commands.
fn giving(alloc: Global, count: usize) -> Result<Sender, NoMemory> {
    let mut sender = Sender::new(alloc);
    for _ in 0..count {
        give(&mut sender)?;
    }
    Ok(sender)
}

/// Gives a command while numbers are below their end.
fn give(sender: &mut Sender) -> Result<u64, NoMemory> {
    sender.reserve(1)?;
    if sender.sent() < 4_611_686_018_427_387_904 {
        return Ok(sender.give(Unit::Control(Control::SessionDetached {
            name: None,
            code: None,
        })));
    }
    Err(NoMemory)
}

/// Takes a completed, with the numbers that it names first; gives their runs.
fn complete(sender: &mut Sender, named: &Ranges) -> Result<usize, NoMemory> {
    let firsts = sender.firsts(named)?;
    sender.completed(named, &firsts);
    Ok(firsts.len())
}

#[test]
fn a_repeated_command_is_not_new(rt: HostRuntime) -> Result<(), Fail> {
    let mut receiver = Receiver::new(rt.alloc());
    assert!(rt;
        take(&mut receiver)
            == Some(Arrival {
                number: 0,
                new: true
            })
    );
    assert!(rt; receiver.point(0, 0) == Ok(()));
    assert!(rt; receiver.next() == 1);
    assert!(rt; receiver.pointed(1, 0) == Some(1) && receiver.pointed(1, 1) == None);
    if receiver.next() == 1 {
        receiver.point_at(1);
        assert!(rt;
            receiver.coming()
                == Arrival {
                    number: 1,
                    new: true
                }
        );
        receiver.point_at(0);
    }
    assert!(rt;
        receiver.coming()
            == Arrival {
                number: 0,
                new: false
            }
    );
    assert!(rt;
        take(&mut receiver)
            == Some(Arrival {
                number: 0,
                new: false
            })
    );
    assert!(rt;
        take(&mut receiver)
            == Some(Arrival {
                number: 1,
                new: true
            })
    );
    let unknown = UnknownIds {
        next: 2,
        got: 3,
        offset: 0,
    };
    assert!(rt; receiver.point(3, 0) == Err(unknown));
    assert!(rt; receiver.point(2, 1).is_err());
    assert!(rt; receiver.point(0xffff_ffff, 0).is_err());
    assert!(rt; receiver.next() == 2);
    Ok(())
}

#[test]
fn gaps(rt: HostRuntime) -> Result<(), Fail> {
    let alloc = rt.alloc();
    let mut receiver = Receiver::new(alloc);
    assert!(rt;
        take(&mut receiver)
            == Some(Arrival {
                number: 0,
                new: true
            })
    );
    let named = ranges(alloc, [(1, 4)].as_slice())?;
    assert_eq!(rt; receiver.next(), 1);
    skip(&mut receiver, alloc, [(1, 4)].as_slice())?;
    assert_eq!(rt; receiver.next(), 5);
    assert!(rt; receiver.point(5, 0) == Ok(()));
    assert!(rt;
        take(&mut receiver)
            == Some(Arrival {
                number: 5,
                new: true
            })
    );
    // A number that came isn't undone.
    skip(&mut receiver, alloc, [(0, 0)].as_slice())?;
    assert_eq!(rt; receiver.next(), 6);
    // Falling ranges beyond the next are passed once it comes to them.
    skip(&mut receiver, alloc, [(9, 9), (8, 8), (7, 7)].as_slice())?;
    assert_eq!(rt; receiver.next(), 6);
    let falling = ranges(alloc, [(12, 12), (11, 11), (6, 9)].as_slice())?;
    if receiver.next() < 4_611_686_018_427_387_904 {
        assert_eq!(rt; receiver.after_gap(&named), 6);
        assert_eq!(rt; receiver.after_gap(&falling), 10);
        assert_eq!(rt; receiver.after_arrive(), 10);
    }
    assert!(rt;
        take(&mut receiver)
            == Some(Arrival {
                number: 6,
                new: true
            })
    );
    assert_eq!(rt; receiver.next(), 10);
    Ok(())
}

#[test]
fn a_gap_of_half_of_the_circle(rt: HostRuntime) -> Result<(), Fail> {
    let alloc = rt.alloc();
    let mut receiver = Receiver::new(alloc);
    skip(&mut receiver, alloc, [(0, 0x7fff_ffff)].as_slice())?;
    assert!(rt; receiver.point(0x8000_0000, 0) == Ok(()));
    assert!(rt;
        take(&mut receiver)
            == Some(Arrival {
                number: 2_147_483_648,
                new: true
            })
    );
    assert_eq!(rt; receiver.next(), 2_147_483_649);
    Ok(())
}

#[test]
fn unwrapping_at_the_edges(rt: HostRuntime) -> Result<(), Fail> {
    let alloc = rt.alloc();
    let mut receiver = Receiver::new(alloc);
    skip(&mut receiver, alloc, [(0, 0x7fff_ffff)].as_slice())?;
    skip(
        &mut receiver,
        alloc,
        [(0x8000_0000, 0xffff_fffe)].as_slice(),
    )?;
    assert_eq!(rt; receiver.next(), 4_294_967_295);
    assert!(rt; receiver.point(0xffff_ffff, 0) == Ok(()));
    assert!(rt;
        take(&mut receiver)
            == Some(Arrival {
                number: 4_294_967_295,
                new: true
            })
    );
    assert!(rt; receiver.point(0, 0) == Ok(()));
    assert!(rt;
        take(&mut receiver)
            == Some(Arrival {
                number: 4_294_967_296,
                new: true
            })
    );
    Ok(())
}

#[test]
fn what_is_sent_is_kept_until_it_is_named(rt: HostRuntime) -> Result<(), Fail> {
    let alloc = rt.alloc();
    let mut sender = giving(alloc, 5)?;
    assert!(rt; sender.sent() == 5 && sender.kept() == 5);
    assert!(rt; sender.expected(2) == Ok(()));
    assert!(rt; sender.sent() == 5 && sender.kept() == 3);
    let unknown = UnknownSent {
        base: 2,
        sent: 5,
        got: 1,
    };
    assert!(rt; sender.expected(1) == Err(unknown));
    assert!(rt; sender.expected(6).is_err());
    // A range past the last one sent counts as far as that.
    sender.confirmed(&ranges(alloc, [(3, 3), (7, 9)].as_slice())?);
    assert!(rt; sender.sent() == 5 && sender.kept() == 1);
    if sender.sent() == 5 && sender.kept() == 1 {
        assert_eq!(rt; sender.from(4)?.as_slice().len(), 1);
        assert_eq!(rt; sender.from(5)?.as_slice().len(), 0);
    }
    Ok(())
}

#[test]
fn a_command_is_completed_once(rt: HostRuntime) -> Result<(), Fail> {
    let alloc = rt.alloc();
    let mut sender = giving(alloc, 10)?;
    // Confirmed commands are kept no more, and aren't completed.
    sender.confirmed(&ranges(alloc, [(0, 4)].as_slice())?);
    assert_eq!(rt;
        complete(&mut sender, &ranges(alloc, [(2, 3), (6, 6)].as_slice())?)?,
        2
    );
    assert!(rt; sender.sent() == 10 && sender.kept() == 3);
    assert_eq!(rt;
        complete(&mut sender, &ranges(alloc, [(2, 3)].as_slice())?)?,
        0
    );
    assert_eq!(rt;
        complete(&mut sender, &ranges(alloc, [(0, 0x7fff_fff0)].as_slice())?)?,
        3
    );
    assert!(rt; sender.sent() == 10 && sender.kept() == 0);
    assert_eq!(rt; give(&mut sender)?, 10);
    assert_eq!(rt;
        complete(&mut sender, &ranges(alloc, [(0, 10)].as_slice())?)?,
        1
    );
    Ok(())
}
