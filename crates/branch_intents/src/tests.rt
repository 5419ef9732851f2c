//! Intents as a transaction gathers them.
use crate::{Intent, Intents};
use bytes::Bytes;
use octet_reading::{NoMemory, Text};
use std::alloc::Global;
use std::test::Fail;

fn publish(alloc: Global, queue: &str) -> Result<Intent, NoMemory> {
    Ok(Intent::Publish {
        queue: Text::from_text(alloc, queue)?,
        exchange: Text::from_text(alloc, "")?,
        header: None,
        body: Some(Bytes::copy_from_slice(alloc, b"a".as_slice())?),
    })
}

fn accept(alloc: Global, queue: &str, number: u64) -> Result<Intent, NoMemory> {
    Ok(Intent::Accept {
        queue: Text::from_text(alloc, queue)?,
        number,
    })
}

/// Puts an intent last, with room made first.
fn put(intents: &mut Intents, intent: Intent) -> Result<(), NoMemory> {
    match intents.reserve(1) {
        Ok(()) => {
            intents.put(intent);
            Ok(())
        }
        Err(fault) => {
            drop(intent);
            Err(fault)
        }
    }
}

/// The numbers of the copies that are accepted, and 0 for what is published, as digits.
fn digits(intents: &Intents) -> u64 {
    let mut digits: u64 = 0;
    for intent in intents.as_slice() {
        let number = match intent {
            Intent::Publish { .. } => 0,
            Intent::Accept { number, .. } => *number,
        };
        digits = digits.wrapping_mul(10).wrapping_add(number);
    }
    digits
}

/// Accepts 1 of `q`, publishes to `q`, and accepts 2 of `p` and 3 of `q`.
fn gathered(intents: &mut Intents, alloc: Global) -> Result<(), NoMemory> {
    put(intents, accept(alloc, "q", 1)?)?;
    put(intents, publish(alloc, "q")?)?;
    put(intents, accept(alloc, "p", 2)?)?;
    put(intents, accept(alloc, "q", 3)?)
}

#[test]
fn intents_keep_their_order(rt: HostRuntime) -> Result<(), Fail> {
    let alloc = rt.alloc();
    let mut intents = Intents::new(alloc);
    gathered(&mut intents, alloc)?;
    assert_eq!(rt; digits(&intents), 1023);
    let copy = intents.copied(alloc)?;
    assert_eq!(rt; digits(&copy), 1023);
    let taken = intents.take(alloc);
    assert_eq!(rt; digits(&taken), 1023);
    assert!(rt; intents.as_slice().is_empty());
    assert_eq!(rt; taken.into_vec().len(), 4);
    Ok(())
}

#[test]
fn what_is_gone_is_dropped(rt: HostRuntime) -> Result<(), Fail> {
    let alloc = rt.alloc();
    let mut intents = Intents::new(alloc);
    gathered(&mut intents, alloc)?;
    let q = Text::from_text(alloc, "q")?;
    intents.gone(&q, Some(2));
    assert_eq!(rt; digits(&intents), 1023);
    intents.gone(&q, Some(3));
    assert_eq!(rt; digits(&intents), 102);
    assert!(rt; intents.names(&q));
    intents.gone(&q, None);
    assert_eq!(rt; digits(&intents), 2);
    assert!(rt; !intents.names(&q));
    Ok(())
}
