//! Exchanges as traders and grids have them.
use crate::{Binding, ExchangeMarks, Exchanges, Kind, Names};
use amqp_values::{Value, read_value};
use octet_reading::{NoMemory, Text};
use std::alloc::Global;
use std::test::Fail;

fn marks(alloc: Global, kind: Kind, auto_delete: bool) -> Result<ExchangeMarks, NoMemory> {
    Ok(ExchangeMarks {
        kind,
        durable: false,
        auto_delete,
        alternate: Text::from_text(alloc, "amq.fanout")?,
        arguments: None,
    })
}

/// Declares an exchange that isn't there yet.
fn declare(
    exchanges: &mut Exchanges,
    alloc: Global,
    name: &str,
    kind: Kind,
    auto_delete: bool,
) -> Result<bool, NoMemory> {
    let name = Text::from_text(alloc, name)?;
    if exchanges.marks(&name).is_some() {
        return Ok(false);
    }
    exchanges.declare(&name, marks(alloc, kind, auto_delete)?)?;
    Ok(true)
}

/// Binds a queue to an exchange that is there, with the arguments that these octets spell, or none.
fn bind_one(
    exchanges: &mut Exchanges,
    alloc: Global,
    exchange: &str,
    queue: &str,
    key: &str,
    octets: &[u8],
) -> Result<bool, NoMemory> {
    let exchange = Text::from_text(alloc, exchange)?;
    let binding = Binding {
        queue: Text::from_text(alloc, queue)?,
        key: Text::from_text(alloc, key)?,
        arguments: map(alloc, octets),
    };
    if exchanges.marks(&exchange).is_none() {
        return Ok(false);
    }
    exchanges.bind(&exchange, binding)?;
    Ok(true)
}

/// The map that octets spell; none where they spell none.
fn map(alloc: Global, octets: &[u8]) -> Option<Value> {
    match read_value(alloc, 0xa8, octets, 0) {
        Ok((value, _)) => Some(value),
        Err(_) => None,
    }
}

/// Whether these are the names, each followed by a blank.
fn are(names: &Names, text: &[u8]) -> bool {
    let mut rest = text;
    for name in names.as_slice() {
        let octets = name.as_slice();
        if !rest.starts_with(octets) || rest.get(octets.len()) != Some(&b' ') {
            return false;
        }
        rest = rest.get(octets.len() + 1..).unwrap_or(&[]);
    }
    rest.is_empty()
}

/// Binds queues to exchanges: the exchange, the queue, the key, and the octets of the arguments. False where one of the
/// exchanges is missing.
fn bind(
    exchanges: &mut Exchanges,
    alloc: Global,
    bindings: &[(&str, &str, &str, &[u8])],
) -> Result<bool, NoMemory> {
    let mut there = true;
    for i in 0..bindings.len() {
        let (exchange, queue, key, octets) = bindings[i];
        if !bind_one(exchanges, alloc, exchange, queue, key, octets)? {
            there = false;
        }
    }
    Ok(there)
}

/// Whether a message with this key, and with the headers that these octets spell, goes to these queues.
fn goes_one(
    exchanges: &Exchanges,
    alloc: Global,
    exchange: &str,
    key: &str,
    octets: &[u8],
    queues: &str,
) -> Result<bool, NoMemory> {
    let exchange = Text::from_text(alloc, exchange)?;
    let key = Text::from_text(alloc, key)?;
    let headers = map(alloc, octets);
    let names = exchanges.route(&exchange, &key, headers.as_ref())?;
    Ok(are(&names, queues.as_bytes()))
}

/// Whether messages go where they should: the exchange, the key, the octets of the headers, and the queues.
fn go(
    exchanges: &Exchanges,
    alloc: Global,
    messages: &[(&str, &str, &[u8], &str)],
) -> Result<bool, NoMemory> {
    for i in 0..messages.len() {
        let (exchange, key, octets, queues) = messages[i];
        if !goes_one(exchanges, alloc, exchange, key, octets, queues)? {
            return Ok(false);
        }
    }
    Ok(true)
}

/// The bits of exchange.bound in the order of the standard, each as 1 or 0; no key where it is the text `-`.
fn bits_of(
    exchanges: &Exchanges,
    alloc: Global,
    exchange: &str,
    queue: &str,
    key: &str,
    octets: &[u8],
) -> Result<[u8; 5], NoMemory> {
    let exchange = Text::from_text(alloc, exchange)?;
    let queue = Text::from_text(alloc, queue)?;
    let given = Text::from_text(alloc, key)?;
    let arguments = map(alloc, octets);
    let key = if key == "-" { None } else { Some(&given) };
    let bound = exchanges.bound(&exchange, &queue, key, arguments.as_ref());
    Ok([
        bound.exchange_not_found as u8,
        bound.queue_not_found as u8,
        bound.queue_not_matched as u8,
        bound.key_not_matched as u8,
        bound.args_not_matched as u8,
    ])
}

/// Whether exchange.bound answers these bits: the exchange, the queue, the key, the octets of the arguments, and the bits.
fn answers(
    exchanges: &Exchanges,
    alloc: Global,
    asked: &[(&str, &str, &str, &[u8], [u8; 5])],
) -> Result<bool, NoMemory> {
    for i in 0..asked.len() {
        let (exchange, queue, key, octets, bits) = asked[i];
        if bits_of(exchanges, alloc, exchange, queue, key, octets)? != bits {
            return Ok(false);
        }
    }
    Ok(true)
}

/// Takes a binding away.
fn unbind(
    exchanges: &mut Exchanges,
    alloc: Global,
    exchange: &str,
    queue: &str,
    key: &str,
) -> Result<bool, NoMemory> {
    let exchange = Text::from_text(alloc, exchange)?;
    let queue = Text::from_text(alloc, queue)?;
    let key = Text::from_text(alloc, key)?;
    Ok(exchanges.unbind(&exchange, &queue, &key))
}

/// Whether an exchange is there, and whether it has a binding.
fn state(exchanges: &Exchanges, alloc: Global, name: &str) -> Result<(bool, bool), NoMemory> {
    let name = Text::from_text(alloc, name)?;
    Ok((exchanges.marks(&name).is_some(), exchanges.used(&name)))
}

/// Whether a queue is bound to an exchange with a key.
fn has(
    exchanges: &Exchanges,
    alloc: Global,
    exchange: &str,
    queue: &str,
    key: &str,
) -> Result<bool, NoMemory> {
    let exchange = Text::from_text(alloc, exchange)?;
    let queue = Text::from_text(alloc, queue)?;
    let key = Text::from_text(alloc, key)?;
    Ok(exchanges.has(&exchange, &queue, &key))
}

/// The octets of a map with the one entry `a`, the octet 1.
const ONE: &[u8] = b"\x00\x00\x00\x08\x00\x00\x00\x01\x01a\x02\x01";

/// No octets, which spell no map, and those of a map of size 0.
const NONE: &[u8] = b"";

const EMPTY: &[u8] = b"\x00\x00\x00\x00";

/// That of a binding that asks for any of its entries, with `urgent` void, and that of headers with `urgent`.
const ANY: &[u8] = b"\x00\x00\x00\x19\x00\x00\x00\x02\x07x-match\x85\x03any\x06urgent\xf0";

const URGENT: &[u8] = b"\x00\x00\x00\x0d\x00\x00\x00\x01\x06urgent\x02\x01";

#[test]
fn words_of_a_topic_key(rt: HostRuntime) -> Result<(), Fail> {
    let alloc = rt.alloc();
    let mut exchanges = Exchanges::new(alloc)?;
    assert!(rt; declare(&mut exchanges, alloc, "t", Kind::Topic, false)?);
    assert!(rt;
        bind(
            &mut exchanges,
            alloc,
            &[
                ("t", "y", "a.#", NONE),
                ("t", "x", "a.*", NONE),
                ("t", "x", "*.*", NONE)
            ]
        )?
    );
    assert!(rt;
        go(
            &exchanges,
            alloc,
            &[
                ("t", "a", NONE, "y "),
                ("t", "a.", NONE, "x y "),
                ("t", "b", NONE, "")
            ]
        )?
    );
    Ok(())
}

#[test]
fn an_exchange_ends_with_its_last_binding(rt: HostRuntime) -> Result<(), Fail> {
    let alloc = rt.alloc();
    let mut exchanges = Exchanges::new(alloc)?;
    assert!(rt; declare(&mut exchanges, alloc, "e", Kind::Direct, true)?);
    assert!(rt; declare(&mut exchanges, alloc, "f", Kind::Fanout, true)?);
    assert!(rt;
        bind(
            &mut exchanges,
            alloc,
            &[
                ("e", "q", "a", NONE),
                ("e", "q", "b", NONE),
                ("f", "q", "", NONE),
                ("f", "p", "", NONE)
            ]
        )?
    );
    assert!(rt; has(&exchanges, alloc, "e", "q", "a")?);
    assert!(rt; unbind(&mut exchanges, alloc, "e", "q", "a")?);
    assert!(rt; !has(&exchanges, alloc, "e", "q", "a")?);
    assert!(rt; !unbind(&mut exchanges, alloc, "e", "q", "a")?);
    let q = Text::from_text(alloc, "q")?;
    exchanges.unbind_queue(&q);
    assert_eq!(rt; state(&exchanges, alloc, "e")?, (false, false));
    assert_eq!(rt; state(&exchanges, alloc, "f")?, (true, true));
    assert_eq!(rt; exchanges.sizes(), (5, 1));
    assert!(rt; unbind(&mut exchanges, alloc, "f", "p", "")?);
    assert_eq!(rt; exchanges.sizes(), (4, 0));
    Ok(())
}

#[test]
fn what_is_bound(rt: HostRuntime) -> Result<(), Fail> {
    let alloc = rt.alloc();
    let mut exchanges = Exchanges::new(alloc)?;
    assert!(rt;
        bind(
            &mut exchanges,
            alloc,
            &[("amq.topic", "q", "k", ONE), ("amq.topic", "p", "j", NONE)]
        )?
    );
    assert!(rt;
        answers(
            &exchanges,
            alloc,
            &[
                ("amq.topic", "q", "k", ONE, [0, 0, 0, 0, 0]),
                ("amq.topic", "q", "j", NONE, [0, 0, 0, 1, 0]),
                ("amq.topic", "p", "-", ONE, [0, 0, 0, 0, 1]),
                ("amq.topic", "o", "k", ONE, [0, 0, 1, 1, 1]),
                ("amq.topic", "", "j", ONE, [0, 0, 0, 0, 1]),
                ("amq.topic", "", "-", EMPTY, [0, 0, 0, 0, 0]),
                ("e", "q", "k", ONE, [1, 0, 0, 0, 0]),
                ("", "q", "", ONE, [0, 0, 1, 1, 1]),
            ]
        )?
    );
    Ok(())
}

/// The names of the exchanges, and then of the exchange and the queue of each binding.
fn all_names(exchanges: &Exchanges, alloc: Global) -> Result<Names, NoMemory> {
    let mut names = Vec::new(alloc);
    for name in exchanges.names() {
        names.push(name.copied(alloc)?)?;
    }
    for (name, binding) in exchanges.bindings() {
        names.push(name.copied(alloc)?)?;
        names.push(binding.queue.copied(alloc)?)?;
    }
    Ok(names)
}

/// Binds where room was made first.
fn tie(exchanges: &mut Exchanges, exchange: &Text, binding: Binding) -> bool {
    if exchanges.room(0, 1).is_err() || exchanges.marks(exchange).is_none() {
        drop(binding);
        return false;
    }
    exchanges.tie(exchange, binding);
    true
}

/// Declares where room was made first.
fn place(exchanges: &mut Exchanges, name: Text, marks: ExchangeMarks) -> bool {
    if exchanges.room(1, 0).is_err() || exchanges.marks(&name).is_some() {
        drop((name, marks));
        return false;
    }
    exchanges.place(name, marks);
    true
}

#[test]
fn exchanges_and_bindings_by_name(rt: HostRuntime) -> Result<(), Fail> {
    let alloc = rt.alloc();
    let mut exchanges = Exchanges::new(alloc)?;
    let marks = marks(alloc, Kind::Direct, false)?;
    assert!(rt; place(&mut exchanges, Text::from_text(alloc, "a")?, marks));
    let topic = Text::from_text(alloc, "amq.topic")?;
    let queue = Text::from_text(alloc, "q")?;
    let key = Text::from_text(alloc, "k")?;
    let binding = Binding {
        queue,
        key,
        arguments: None,
    };
    assert!(rt; tie(&mut exchanges, &topic, binding));
    assert!(rt; bind(&mut exchanges, alloc, &[("a", "q", "k", NONE)])?);
    assert!(rt;
        are(
            &all_names(&exchanges, alloc)?,
            b"a amq.direct amq.fanout amq.match amq.topic a q amq.topic q "
        )
    );
    let fanout = Text::from_text(alloc, "amq.fanout")?;
    assert!(rt; exchanges.is_alternate(&fanout));
    exchanges.delete(&fanout);
    assert_eq!(rt; exchanges.sizes(), (4, 2));
    Ok(())
}

#[test]
fn no_queue_found_and_an_alternate_exchange(rt: HostRuntime) -> Result<(), Fail> {
    let alloc = rt.alloc();
    let mut exchanges = Exchanges::new(alloc)?;
    assert!(rt;
        bind(
            &mut exchanges,
            alloc,
            &[
                ("amq.direct", "q", "z", NONE),
                ("amq.direct", "p", "z", NONE),
                ("amq.direct", "o", "y", NONE),
                ("amq.fanout", "q", "1", NONE),
                ("amq.fanout", "q", "2", NONE),
            ]
        )?
    );
    assert!(rt; !bind(&mut exchanges, alloc, &[("e", "q", "", NONE)])?);
    assert!(rt;
        go(
            &exchanges,
            alloc,
            &[
                ("amq.direct", "z", NONE, "p q "),
                ("amq.direct", "x", NONE, ""),
                ("amq.fanout", "x", NONE, "q "),
                ("missing", "z", NONE, ""),
            ]
        )?
    );
    assert_eq!(rt; exchanges.sizes(), (4, 5));
    Ok(())
}

#[test]
fn publishing_in_a_tx_over_a_lost_connection(rt: HostRuntime) -> Result<(), Fail> {
    let alloc = rt.alloc();
    let mut exchanges = Exchanges::new(alloc)?;
    assert!(rt;
        bind(
            &mut exchanges,
            alloc,
            &[
                ("amq.topic", "nyse", "stock.*.nyse", NONE),
                ("amq.topic", "all", "#", NONE),
                ("amq.match", "hot", "", ANY),
            ]
        )?
    );
    assert!(rt;
        go(
            &exchanges,
            alloc,
            &[
                ("amq.topic", "stock.ibm.nyse", NONE, "all nyse "),
                ("amq.topic", "stock.ibm.lse", NONE, "all "),
                ("amq.match", "", URGENT, "hot "),
                ("amq.match", "", ONE, ""),
            ]
        )?
    );
    Ok(())
}
