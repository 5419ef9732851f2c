//! Rows in two orders, and which part of them stands where.
ghost use Rattle.std.specs.Prelude.{◌≡◌, ◌+◌, ◌≤◌, length};
ghost use Rattle.std.specs.Ordering.{is_lt, is_le};
ghost use Rattle.std.specs.Ordering.{on};
ghost use Rattle.slab.specs.Slab.{get};
ghost use Rattle.binding_table.specs.Spots.{spot, order, first_of, second_of, side};
ghost use Rattle.binding_table.specs.declared.row.Row.{Row};
ghost use Rattle.sorted_map.specs.Cuts.{collect, before, within, slot_side, IsOrder};

use crate::row::Row;
use octet_reading::Text;
use slab::Slab;
use std::cmp::Ordering;

/// What comes behind the exchange: the queue and then the key, or the key and then the queue.
#[derive(Clone, Copy, Debug, PartialEq, Eq)]
pub(crate) enum By {
    Queue,
    Key,
}

/// Rows of an exchange, or those among them that begin alike in an order, or the one with both.
#[derive(Clone, Copy, Debug)]
pub(crate) enum Cut<'a> {
    Exchange(usize),
    First(usize, &'a Text),
    Both(usize, &'a Text, &'a Text),
}

/// What a row has first in an order, behind the exchange.
fn first<A>(by: By, row: &Row<A>) -> &Text
    ensures { result.now ≡ first_of by (spot row.now) }
{
    match by {
        By::Queue => &row.binding.queue,
        By::Key => &row.binding.key,
    }
}

/// What a row has second.
fn second<A>(by: By, row: &Row<A>) -> &Text
    ensures { result.now ≡ second_of by (spot row.now) }
{
    match by {
        By::Queue => &row.binding.key,
        By::Key => &row.binding.queue,
    }
}

/// Whether a row comes before those of the cut, is one of them, or comes behind.
fn side<A>(by: By, cut: Cut<'_>, row: &Row<A>) -> Ordering
    ensures { result ≡ side by cut.entry (spot row.now) }
{
    match cut {
        Cut::Exchange(exchange) => row.exchange.cmp(&exchange),
        Cut::First(exchange, name) => row.exchange.cmp(&exchange).then(first(by, row).cmp(name)),
        Cut::Both(exchange, name, other) => row
            .exchange
            .cmp(&exchange)
            .then(first(by, row).cmp(name))
            .then(second(by, row).cmp(other)),
    }
}

/// The side of the row under a key; a key without a row comes before.
fn side_at<A>(rows: &Slab<Row<A>>, by: By, cut: Cut<'_>, key: usize) -> Ordering
    ensures { result ≡ slot_side (λ (r : Row A). side by cut.entry (spot r)) (get rows.now key) }
{
    match rows.get(key) {
        Some(row) => side(by, cut, row),
        None => Ordering::Less,
    }
}

/// How many rows come before those of the cut, and how many with them.
pub(crate) fn part<A>(rows: &Slab<Row<A>>, keys: &[usize], by: By, cut: Cut<'_>) -> (usize, usize)
    requires { IsOrder (on spot (order by)) (get rows.now) keys.now }
    ensures before { result.0 ≡ length (before (λ (r : Row A). side by cut.entry (spot r)) (collect (get rows.now) keys.now)) }
    ensures bound { result.1 ≤ length keys.now }
    ensures within { result.1 ≡ result.0 + length (within (λ (r : Row A). side by cut.entry (spot r)) (collect (get rows.now) keys.now)) }
{
    let low = keys.partition_point(
        |key: &usize| -> bool
            ensures { result ≡ is_lt (slot_side (λ (r : Row A). side by cut.entry (spot r)) (get rows.entry.now key.now)) }
        { side_at(rows, by, cut, *key).is_lt() },
    );
    let high = keys.partition_point(
        |key: &usize| -> bool
            ensures { result ≡ is_le (slot_side (λ (r : Row A). side by cut.entry (spot r)) (get rows.entry.now key.now)) }
        { side_at(rows, by, cut, *key).is_le() },
    );
    (low, high)
}
