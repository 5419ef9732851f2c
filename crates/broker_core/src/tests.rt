//! Exchanges and queues as sessions declare, bind, ask for and delete them.
ghost use Rattle.std.specs.Prelude.{◌≡◌, true, IfOk};
ghost use Rattle.amqp_packed.specs.Spelling.{is_fine};
ghost use Rattle.amqp_packed.specs.Typed.{of_str8};
ghost use Rattle.amqp_commands.specs.Units.{command_fine};
ghost use Rattle.broker_core.specs.Commands.{IsFine};

use crate::{Broker, Entry, Given};
use amqp_terms::{Command, Unit};
use amqp_values::{NoMemory, Text};
use std::alloc::Global;
use std::test::Fail;

/// A command, or the end of a session. Texts stand for themselves by a letter (`word`).
#[derive(Clone, Copy)]
enum Ask {
    Sync,
    Exception,
    End,
    /// The name, the type, and the alternate exchange.
    Exchange(u8, u8, u8),
    /// The name and the type, passive.
    IsExchange(u8, u8),
    DropUnusedExchange(u8),
    AskExchange(u8),
    /// The exchange, the queue, and the key.
    Bind(u8, u8, u8),
    Unbind(u8, u8, u8),
    AskBound(u8, u8, u8),
    /// The name and the alternate exchange.
    Queue(u8, u8),
    OwnQueue(u8),
    IsQueue(u8),
    DropQueue(u8),
    Purge(u8),
    AskQueue(u8),
}

/// No text.
const NONE: u8 = b' ';

/// The text that a letter stands for.
fn word(letter: u8) -> &'static str {
    match letter {
        b'd' => "amq.direct",
        b'f' => "amq.fanout",
        b't' => "topic",
        b'e' => "e",
        b'q' => "q",
        b'k' => "a.#",
        _ => "",
    }
}

/// A field; none where the text is too long for one.
fn field(alloc: Global, text: &str) -> Result<Option<Text>, NoMemory>
    ensures { IfOk result (λ field. is_fine (of_str8 field) ≡ true) }
{
    if text.len() > 255 {
        return Ok(None);
    }
    Ok(Some(Text::from_text(alloc, text)?))
}

fn exchange(
    alloc: Global,
    name: u8,
    kind: u8,
    alternate: u8,
    passive: bool,
) -> Result<Command, NoMemory>
    ensures { IfOk result (λ command. command_fine command ≡ true) }
{
    let exchange = field(alloc, word(name))?;
    let kind = field(alloc, word(kind))?;
    let alternate_exchange = field(alloc, word(alternate))?;
    Ok(Command::ExchangeDeclare {
        exchange,
        kind,
        alternate_exchange,
        passive,
        durable: true,
        auto_delete: false,
        arguments: None,
    })
}

fn queue(
    alloc: Global,
    name: u8,
    alternate: u8,
    passive: bool,
    exclusive: bool,
) -> Result<Command, NoMemory>
    ensures { IfOk result (λ command. command_fine command ≡ true) }
{
    let queue = field(alloc, word(name))?;
    let alternate_exchange = field(alloc, word(alternate))?;
    Ok(Command::QueueDeclare {
        queue,
        alternate_exchange,
        passive,
        durable: false,
        exclusive,
        auto_delete: false,
        arguments: None,
    })
}

/// A command of the class exchange by an exchange, a queue and a key.
fn of_binding(
    alloc: Global,
    ask: Ask,
    exchange: u8,
    queue: u8,
    key: u8,
) -> Result<Command, NoMemory>
    ensures { IfOk result (λ command. command_fine command ≡ true) }
{
    let exchange = field(alloc, word(exchange))?;
    let queue = field(alloc, word(queue))?;
    let binding_key = field(alloc, word(key))?;
    match ask {
        Ask::Bind(..) => Ok(Command::ExchangeBind {
            queue,
            exchange,
            binding_key,
            arguments: None,
        }),
        Ask::Unbind(..) => Ok(Command::ExchangeUnbind {
            queue,
            exchange,
            binding_key,
        }),
        _ => Ok(Command::ExchangeBound {
            exchange,
            queue,
            binding_key,
            arguments: None,
        }),
    }
}

/// A command of the class queue by a name alone.
fn of_queue(alloc: Global, ask: Ask, name: u8) -> Result<Command, NoMemory>
    ensures { IfOk result (λ command. command_fine command ≡ true) }
{
    let queue = field(alloc, word(name))?;
    match ask {
        Ask::DropQueue(_) => Ok(Command::QueueDelete {
            queue,
            if_unused: false,
            if_empty: true,
        }),
        Ask::Purge(_) => Ok(Command::QueuePurge { queue }),
        _ => Ok(Command::QueueQuery { queue }),
    }
}

/// A command of the class exchange by a name alone.
fn of_exchange(alloc: Global, ask: Ask, name: u8) -> Result<Command, NoMemory>
    ensures { IfOk result (λ command. command_fine command ≡ true) }
{
    let exchange = field(alloc, word(name))?;
    match ask {
        Ask::AskExchange(_) => Ok(Command::ExchangeQuery { name: exchange }),
        _ => Ok(Command::ExchangeDelete {
            exchange,
            if_unused: true,
        }),
    }
}

/// What is asked, as a command; a session's end is none.
fn command(alloc: Global, ask: Ask) -> Result<Command, NoMemory>
    ensures { IfOk result (λ command. command_fine command ≡ true) }
{
    match ask {
        Ask::Sync | Ask::End => Ok(Command::ExecutionSync),
        Ask::Exception => Ok(Command::ExecutionException {
            error_code: None,
            command_id: None,
            class_code: None,
            command_code: None,
            field_index: None,
            description: None,
            error_info: None,
        }),
        Ask::Exchange(name, kind, alternate) => exchange(alloc, name, kind, alternate, false),
        Ask::IsExchange(name, kind) => exchange(alloc, name, kind, NONE, true),
        Ask::AskExchange(name) | Ask::DropUnusedExchange(name) => of_exchange(alloc, ask, name),
        Ask::Bind(exchange, queue, key)
        | Ask::Unbind(exchange, queue, key)
        | Ask::AskBound(exchange, queue, key) => of_binding(alloc, ask, exchange, queue, key),
        Ask::Queue(name, alternate) => queue(alloc, name, alternate, false, false),
        Ask::OwnQueue(name) => queue(alloc, name, NONE, false, true),
        Ask::IsQueue(name) => queue(alloc, name, NONE, true, false),
        Ask::DropQueue(name) | Ask::Purge(name) | Ask::AskQueue(name) => of_queue(alloc, ask, name),
    }
}

/// The entry that a session's step is.
fn entry(alloc: Global, session: u64, ask: Ask) -> Result<Entry, NoMemory>
    ensures { IfOk result IsFine }
{
    if matches!(ask, Ask::End) {
        return Ok(Entry::End { session });
    }
    Ok(Entry::Do {
        session,
        number: 0,
        command: command(alloc, ask)?,
        content: None,
    })
}

/// Decides, makes room, and does it; tells what the step was answered by.
fn step(broker: &mut Broker, alloc: Global, session: u64, ask: Ask) -> Result<u16, NoMemory> {
    let entry = entry(alloc, session, ask)?;
    let plan = broker.decide(&entry)?;
    broker.reserve(&plan)?;
    Ok(answer(&broker.apply(plan)))
}

/// The code of an exception, 1 for a result, 0 for nothing, 2 for all else.
fn answer(given: &Given) -> u16 {
    match given.as_slice().first() {
        Some((_, Unit::Command { command, .. })) => match command {
            Command::ExecutionException { error_code, .. } => error_code.unwrap_or(2),
            Command::ExecutionResult { .. } => 1,
            _ => 2,
        },
        Some(_) => 2,
        None => 0,
    }
}

/// A broker with the sessions 1 to 3.
fn opened(alloc: Global) -> Result<Broker, NoMemory> {
    let mut broker = Broker::new(alloc)?;
    broker.begin(1)?;
    broker.begin(2)?;
    broker.begin(3)?;
    Ok(broker)
}

/// Takes the steps of the sessions 1 to 3, and tells the first that wasn't answered so, counted from 0.
fn first_wrong(alloc: Global, steps: &[(u64, Ask, u16)]) -> Result<usize, NoMemory> {
    let mut broker = opened(alloc)?;
    for i in 0..steps.len() {
        let (session, ask, code) = steps[i];
        if step(&mut broker, alloc, session, ask)? != code {
            return Ok(i);
        }
    }
    Ok(steps.len())
}

#[test]
fn a_command_is_refused_and_its_session_fails(rt: HostRuntime) -> Result<(), Fail> {
    let steps = [
        (1, Ask::Sync, 0),
        (1, Ask::IsQueue(b'q'), 404),
        (1, Ask::Queue(b'q', NONE), 0),
        (2, Ask::AskQueue(b'q'), 1),
        (2, Ask::IsExchange(b'e', NONE), 404),
        (3, Ask::Exception, 0),
        (3, Ask::IsExchange(b'e', NONE), 0),
        (4, Ask::IsExchange(b'e', NONE), 0),
    ];
    assert_eq!(rt; first_wrong(rt.alloc(), &steps)?, 8);
    Ok(())
}

#[test]
fn a_queue_of_one_session(rt: HostRuntime) -> Result<(), Fail> {
    let steps = [
        (1, Ask::OwnQueue(b'q'), 0),
        (1, Ask::OwnQueue(b'q'), 0),
        (1, Ask::Bind(b'd', b'q', b'k'), 0),
        (2, Ask::DropQueue(b'q'), 405),
        (1, Ask::End, 0),
        (3, Ask::Queue(b'q', b'f'), 0),
        (3, Ask::Queue(b'q', b'f'), 0),
        (3, Ask::OwnQueue(b'q'), 530),
    ];
    assert_eq!(rt; first_wrong(rt.alloc(), &steps)?, 8);
    Ok(())
}

#[test]
fn an_exchange_that_is_used(rt: HostRuntime) -> Result<(), Fail> {
    let steps = [
        (1, Ask::Exchange(b'e', b't', NONE), 0),
        (1, Ask::Queue(b'q', NONE), 0),
        (1, Ask::Bind(b'e', b'q', b'k'), 0),
        (1, Ask::Bind(b'e', b'q', b'k'), 0),
        (1, Ask::AskBound(b'e', b'q', b'k'), 1),
        (1, Ask::AskExchange(b'e'), 1),
        (2, Ask::DropUnusedExchange(b'e'), 406),
        (1, Ask::Unbind(b'e', b'q', b'k'), 0),
        (1, Ask::DropUnusedExchange(b'e'), 0),
        (1, Ask::Purge(b'q'), 0),
        (1, Ask::DropQueue(b'q'), 0),
        (1, Ask::AskQueue(b'q'), 1),
        (1, Ask::Unbind(b'e', b'q', b'k'), 404),
        (3, Ask::Exchange(b'k', b'q', NONE), 404),
    ];
    assert_eq!(rt; first_wrong(rt.alloc(), &steps)?, 14);
    Ok(())
}
