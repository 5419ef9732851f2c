//! Bindings as a broker has them: put in and taken out in any order.
use crate::{Binding, Bindings, Rows};
use octet_reading::{NoMemory, Text};
use std::alloc::Global;
use std::test::Fail;

/// Puts a binding in where it isn't there yet.
fn bind(
    table: &mut Bindings<u32>,
    alloc: Global,
    exchange: usize,
    queue: &str,
    key: &str,
    arguments: u32,
) -> Result<(), NoMemory> {
    let queue = Text::from_text(alloc, queue)?;
    let key = Text::from_text(alloc, key)?;
    table.reserve(1)?;
    if table.get(exchange, &queue, &key).is_none() {
        table.put(
            exchange,
            Binding {
                queue,
                key,
                arguments,
            },
        );
    }
    Ok(())
}

fn take(
    table: &mut Bindings<u32>,
    alloc: Global,
    exchange: usize,
    queue: &str,
    key: &str,
) -> Result<u32, NoMemory> {
    let queue = Text::from_text(alloc, queue)?;
    let key = Text::from_text(alloc, key)?;
    Ok(match table.take(exchange, &queue, &key) {
        Some(binding) => binding.arguments,
        None => 0,
    })
}

/// The arguments of bindings, one behind another in decimal digits.
fn digits(rows: Rows<'_, u32>) -> u32 {
    let mut digits: u32 = 0;
    for row in rows {
        digits = digits.wrapping_mul(10).wrapping_add(row.binding.arguments);
    }
    digits
}

/// Exchange 7 with four bindings of two queues, and exchange 3 with one.
fn bound(table: &mut Bindings<u32>, alloc: Global) -> Result<(), NoMemory> {
    bind(table, alloc, 7, "b", "x", 1)?;
    bind(table, alloc, 7, "a", "y", 2)?;
    bind(table, alloc, 3, "b", "x", 3)?;
    bind(table, alloc, 7, "a", "x", 4)?;
    bind(table, alloc, 7, "b", "w", 5)?;
    bind(table, alloc, 7, "b", "w", 6)?;
    Ok(())
}

#[test]
fn bindings_come_by_queue_and_by_key(rt: HostRuntime) -> Result<(), Fail> {
    let mut table = Bindings::new(rt.alloc());
    bound(&mut table, rt.alloc())?;
    let queue = Text::from_text(rt.alloc(), "b")?;
    let key = Text::from_text(rt.alloc(), "x")?;
    assert_eq!(rt; table.len(), 5);
    assert_eq!(rt; digits(table.rows()), 34251);
    assert_eq!(rt; digits(table.of_exchange(7)), 4251);
    assert_eq!(rt; digits(table.of_queue(7, &queue)), 51);
    assert_eq!(rt; digits(table.of_key(7, &key)), 41);
    assert_eq!(rt; digits(table.of_key(3, &key)), 3);
    assert_eq!(rt; digits(table.of_key(3, &queue)), 0);
    Ok(())
}

#[test]
fn bindings_are_taken_out_alone_and_together(rt: HostRuntime) -> Result<(), Fail> {
    let mut table = Bindings::new(rt.alloc());
    bound(&mut table, rt.alloc())?;
    let queue = Text::from_text(rt.alloc(), "b")?;
    assert_eq!(rt; take(&mut table, rt.alloc(), 7, "a", "x")?, 4);
    assert_eq!(rt; take(&mut table, rt.alloc(), 7, "a", "x")?, 0);
    assert_eq!(rt; digits(table.rows()), 3251);
    table.clear_queue(7, &queue);
    assert_eq!(rt; digits(table.rows()), 32);
    table.clear(3);
    assert_eq!(rt; digits(table.rows()), 2);
    Ok(())
}
