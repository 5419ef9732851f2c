//! Credit and turns as a session's subscriptions have them.
use crate::{Credit, Offers, Sub, Subs};
use octet_reading::{NoMemory, Text};
use std::alloc::Global;
use std::test::Fail;

fn name(alloc: Global, text: &str) -> Result<Text, NoMemory> {
    Text::from_text(alloc, text)
}

/// Subscriptions of these names, all on one queue; a name that is there already is passed over.
fn subs(alloc: Global, names: &[&str]) -> Result<Subs, NoMemory> {
    let mut subs = Subs::new(alloc);
    subs.room(names.len())?;
    for destination in names {
        let sub = Sub {
            destination: name(alloc, destination)?,
            queue: name(alloc, "q")?,
            accept_mode: 0,
            acquire_mode: 0,
            exclusive: false,
        };
        if !subs.has(&sub.destination) {
            subs.add(sub)?;
        }
    }
    Ok(subs)
}

/// The same offer at so many places.
fn offers(alloc: Global, octets: u64, places: usize) -> Result<Offers, NoMemory> {
    let mut items = Vec::new(alloc);
    for _ in 0..places {
        items.push(Some(octets))?;
    }
    Ok(Offers::from_vec(items))
}

/// Sends a body of so many octets by the subscription whose turn it is, and gives its name and epoch.
fn send(subs: &mut Subs, alloc: Global, octets: u64) -> Result<Option<(Text, u64)>, NoMemory> {
    let offers = offers(alloc, octets, subs.len())?;
    let Some(place) = subs.next_ready(&offers) else {
        return Ok(None);
    };
    if place >= subs.len() {
        return Ok(None);
    }
    let destination = subs.at(place).sub.destination.copied(alloc)?;
    if !subs.can_spend(&destination, octets) {
        return Ok(None);
    }
    let epoch = subs.spend(&destination, octets);
    Ok(Some((destination, epoch)))
}

/// The name of the subscription that sends next; `-` for none.
fn next(subs: &mut Subs, alloc: Global) -> Result<Text, NoMemory> {
    match send(subs, alloc, 10)? {
        Some((destination, _)) => Ok(destination),
        None => name(alloc, "-"),
    }
}

#[test]
fn credit_without_limit(rt: HostRuntime) -> Result<(), Fail> {
    let alloc = rt.alloc();
    let mut subs = subs(alloc, ["a"].as_slice())?;
    let a = name(alloc, "a")?;
    assert!(rt; subs.flow(&a, 0, 4_294_967_294));
    assert!(rt; subs.len() == 1);
    if subs.len() == 1 {
        assert!(rt; subs.at(0).messages == Credit::Left(4_294_967_294));
        assert!(rt; subs.flow(&a, 0, 1));
    }
    if subs.len() == 1 {
        assert!(rt; subs.at(0).messages == Credit::Unlimited);
        assert!(rt; subs.flow(&a, 1, 4_294_967_295));
    }
    if subs.len() == 1 {
        assert!(rt; subs.at(0).octets == Credit::Unlimited);
    }
    assert!(rt; subs.stop(&a));
    assert!(rt; next(&mut subs, alloc)? == name(alloc, "-")?);
    assert!(rt; !subs.stop(&name(alloc, "b")?));
    Ok(())
}

#[test]
fn two_subscriptions_take_turns(rt: HostRuntime) -> Result<(), Fail> {
    let alloc = rt.alloc();
    let mut subs = subs(alloc, ["a", "b"].as_slice())?;
    let a = name(alloc, "a")?;
    let b = name(alloc, "b")?;
    for destination in [&a, &b] {
        assert!(rt; subs.flow(destination, 0, 4_294_967_295));
        assert!(rt; subs.flow(destination, 1, 4_294_967_295));
    }
    assert!(rt; next(&mut subs, alloc)? == a);
    assert!(rt; next(&mut subs, alloc)? == b);
    assert!(rt; next(&mut subs, alloc)? == a);
    assert!(rt; subs.cancel(&b));
    assert!(rt; !subs.cancel(&b));
    assert!(rt; next(&mut subs, alloc)? == a);
    Ok(())
}

#[test]
fn window_credit(rt: HostRuntime) -> Result<(), Fail> {
    let alloc = rt.alloc();
    let mut subs = subs(alloc, ["a"].as_slice())?;
    let a = name(alloc, "a")?;
    assert!(rt; subs.set_mode(&a, 1));
    assert!(rt; subs.flow(&a, 0, 1));
    assert!(rt; subs.flow(&a, 1, 4_294_967_295));
    let epoch = match send(&mut subs, alloc, 10)? {
        Some((_, epoch)) => epoch,
        None => 0,
    };
    assert_eq!(rt; epoch, 1);
    assert!(rt; next(&mut subs, alloc)? == name(alloc, "-")?);
    subs.restore(&a, epoch, 10);
    assert!(rt; next(&mut subs, alloc)? == a);
    // What was sent before a stop gives nothing back after it; before a flush it does.
    assert!(rt; subs.empty(&a));
    subs.restore(&a, epoch, 10);
    assert!(rt; next(&mut subs, alloc)? == a);
    assert!(rt; subs.stop(&a));
    subs.restore(&a, epoch, 10);
    assert!(rt; next(&mut subs, alloc)? == name(alloc, "-")?);
    Ok(())
}

#[test]
fn octets_must_suffice_too(rt: HostRuntime) -> Result<(), Fail> {
    let alloc = rt.alloc();
    let mut subs = subs(alloc, ["a", "b"].as_slice())?;
    let a = name(alloc, "a")?;
    let b = name(alloc, "b")?;
    assert!(rt; subs.flow(&a, 0, 2) && subs.flow(&a, 1, 9));
    assert!(rt; subs.flow(&b, 0, 2) && subs.flow(&b, 1, 15));
    assert!(rt; next(&mut subs, alloc)? == b);
    assert!(rt; next(&mut subs, alloc)? == name(alloc, "-")?);
    if subs.len() == 2 {
        subs.browse(1, 7);
    }
    if subs.len() == 2 {
        assert!(rt; subs.at(1).browsed == 7 && subs.at(1).octets == Credit::Left(5));
    }
    let nothing = Offers::from_vec(Vec::new(alloc));
    assert!(rt; subs.next_ready(&nothing) == None);
    assert!(rt; nothing.as_slice().is_empty() && nothing.into_vec().is_empty());
    Ok(())
}
