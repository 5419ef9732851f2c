//! The table.
ghost use Rattle.std.specs.Prelude.{◌≡◌, ◌+◌, ◌<◌, ◌≤◌, [], length, min, OnOk, slice_index_or, filter, not};
ghost use Rattle.std.specs.Ordering.{on};
ghost use Rattle.std.specs.List.{insert, remove};
ghost use Rattle.std.specs.List.Sorted.{IsStrictlySortedBy};
ghost use Rattle.std.specs.Option.{option_copied};
ghost use Rattle.std.specs.Vec.{vec_len, vec_capacity};
ghost use Rattle.slab.specs.Slab.{get, slab_len, HasRoomFor};
ghost use Rattle.binding_table.specs.declared.order.By.TheVariants as by;
ghost use Rattle.binding_table.specs.declared.row.Row.{Row};
ghost use Rattle.binding_table.specs.Spots.{spot, order, queue_order, side};
ghost use Rattle.sorted_map.specs.Cuts.{collect, within, outside, IsOrder};
ghost use Rattle.binding_table.specs.Rows.{Kept, find, at, put, out, is_of, is_of_queue, has_key};

use crate::order::{By, Cut, part};
use crate::row::{Binding, Row};
use crate::rows::Rows;
use octet_reading::{NoMemory, Text};
use slab::Slab;
use std::alloc::Global;
use std::marker::Model;

/// Bindings of exchanges, which have numbers here, in the order of exchange, queue and key. None is there twice. One is
/// found by what it begins with, also by exchange and key, at the cost of the logarithm of how many there are; putting one
/// in and taking one out move a word for each behind it.
#[derive(Debug, Drop)]
pub struct Bindings<A> {
    rows: Slab<Row<A>>,
    /// The keys of the rows, by exchange, queue and key.
    by_queue: Vec<usize>,
    /// The same keys, by exchange, key and queue.
    by_key: Vec<usize>,
}

impl<A> Model for Bindings<A> {
    ghost use Rattle.std.specs.Prelude.{◌-◌, min};
    ghost use Rattle.std.specs.Vec.{vec_len, vec_capacity};
    ghost use Rattle.slab.specs.Slab.{get, slab_len};
    ghost use Rattle.sorted_map.specs.Cuts.{collect};
    ghost use Rattle.binding_table.specs.Rows.{Bound, Kept, bound_code};

    ghost Value = { Bound A };

    ghost coded = { bound_code A.code };

    ghost view = { λ t. record { rows = collect (get t.rows) t.by_queue.items; room = min (t.rows.capacity - slab_len t.rows) (min (vec_capacity t.by_queue - vec_len t.by_queue) (vec_capacity t.by_key - vec_len t.by_key)) } };

    ghost invariant = { λ t. Kept (get t.rows) t.by_queue.items t.by_key.items };
}

/// Puts a key in at an index.
fn put_at(keys: &mut Vec<usize>, index: usize, key: usize)
    requires index { index ≤ length keys.old.items }
    requires room { vec_len keys.old < vec_capacity keys.old }
    ensures items { keys.new.items ≡ insert keys.old.items index key }
    ensures capacity { vec_capacity keys.new ≡ vec_capacity keys.old }
{
    match keys.insert(index, key) {
        Ok(()) => (),
        Err(_) => unreachable!(),
    }
}

/// Puts a row in where none stands.
fn put_row<A>(
    rows: &mut Slab<Row<A>>,
    by_queue: &mut Vec<usize>,
    by_key: &mut Vec<usize>,
    row: Row<A>,
)
    requires kept { Kept (get rows.old) by_queue.old.items by_key.old.items }
    requires new { at (spot row) (collect (get rows.old) by_queue.old.items) ≡ [] }
    requires room { HasRoomFor rows.old 1 }
    requires room_by_queue { vec_len by_queue.old < vec_capacity by_queue.old }
    requires room_by_key { vec_len by_key.old < vec_capacity by_key.old }
    ensures kept { Kept (get rows.new) by_queue.new.items by_key.new.items }
    ensures rows { collect (get rows.new) by_queue.new.items ≡ put row (collect (get rows.old) by_queue.old.items) }
    ensures len { slab_len rows.new ≡ slab_len rows.old + 1 }
    ensures len_by_queue { vec_len by_queue.new ≡ vec_len by_queue.old + 1 }
    ensures len_by_key { vec_len by_key.new ≡ vec_len by_key.old + 1 }
    ensures capacity { rows.new.capacity ≡ rows.old.capacity }
    ensures capacity_by_queue { vec_capacity by_queue.new ≡ vec_capacity by_queue.old }
    ensures capacity_by_key { vec_capacity by_key.new ≡ vec_capacity by_key.old }
{
    let place = Cut::Both(row.exchange, &row.binding.queue, &row.binding.key);
    let (index, _) = part(rows, by_queue.as_slice(), By::Queue, place);
    let place = Cut::Both(row.exchange, &row.binding.key, &row.binding.queue);
    let (other, _) = part(rows, by_key.as_slice(), By::Key, place);
    let key = rows.insert_reserved(row);
    put_at(by_queue, index, key);
    put_at(by_key, other, key);
}

/// Takes the row out that has an index by queue.
fn take_row<A>(
    rows: &mut Slab<Row<A>>,
    by_queue: &mut Vec<usize>,
    by_key: &mut Vec<usize>,
    index: usize,
) -> Row<A>
    requires kept { Kept (get rows.old) by_queue.old.items by_key.old.items }
    requires index { index < length by_queue.old.items }
    ensures kept { Kept (get rows.new) by_queue.new.items by_key.new.items }
    ensures rows { collect (get rows.new) by_queue.new.items ≡ remove (collect (get rows.old) by_queue.old.items) index }
    ensures row { result ≡ slice_index_or (collect (get rows.old) by_queue.old.items) index result }
    ensures len { slab_len rows.new + 1 ≡ slab_len rows.old }
    ensures len_by_queue { vec_len by_queue.new + 1 ≡ vec_len by_queue.old }
    ensures len_by_key { vec_len by_key.new + 1 ≡ vec_len by_key.old }
    ensures capacity { rows.new.capacity ≡ rows.old.capacity }
    ensures capacity_by_queue { vec_capacity by_queue.new ≡ vec_capacity by_queue.old }
    ensures capacity_by_key { vec_capacity by_key.new ≡ vec_capacity by_key.old }
{
    let key = by_queue.remove(index);
    let other = match rows.get(key) {
        Some(row) => {
            let place = Cut::Both(row.exchange, &row.binding.key, &row.binding.queue);
            part(rows, by_key.as_slice(), By::Key, place).0
        }
        None => unreachable!(),
    };
    let _ = by_key.remove(other);
    rows.remove(key)
}

/// Takes the rows of a cut out.
fn clear_cut<A: Drop>(
    rows: &mut Slab<Row<A>>,
    by_queue: &mut Vec<usize>,
    by_key: &mut Vec<usize>,
    cut: Cut<'_>,
)
    requires kept { Kept (get rows.old) by_queue.old.items by_key.old.items }
    ensures kept { Kept (get rows.new) by_queue.new.items by_key.new.items }
    ensures rows { collect (get rows.new) by_queue.new.items ≡ outside (λ (r : Row A). side by.Queue cut.entry (spot r)) (collect (get rows.old) by_queue.old.items) }
    ensures len { slab_len rows.new ≤ slab_len rows.old }
    ensures len_by_queue { vec_len by_queue.new ≤ vec_len by_queue.old }
    ensures len_by_key { vec_len by_key.new ≤ vec_len by_key.old }
    ensures capacity { rows.new.capacity ≡ rows.old.capacity }
    ensures capacity_by_queue { vec_capacity by_queue.new ≡ vec_capacity by_queue.old }
    ensures capacity_by_key { vec_capacity by_key.new ≡ vec_capacity by_key.old }
{
    let (low, high) = part(rows, by_queue.as_slice(), By::Queue, cut);
    for taken in 0..high - low {
        drop(take_row(rows, by_queue, by_key, low));
    }
}

/// The rows of a cut.
fn within<'a, A>(rows: &'a Slab<Row<A>>, keys: &'a [usize], by: By, cut: Cut<'_>) -> Rows<'a, A>
    requires { IsOrder (on spot (order by)) (get rows.now) keys.now }
    ensures { result ≡ within (λ (r : Row A). side by cut.entry (spot r)) (collect (get rows.now) keys.now) }
{
    let (low, high) = part(rows, keys, by, cut);
    Rows::new(rows, &keys[low..high])
}

impl<A> Bindings<A> {
    /// A table without bindings. Takes no memory.
    pub fn new(alloc: Global) -> Bindings<A>
        ensures { result.rows ≡ [] }
    {
        Bindings {
            rows: Slab::new(alloc),
            by_queue: Vec::new(alloc),
            by_key: Vec::new(alloc),
        }
    }

    /// Makes room for so many more bindings. Nothing else changes.
    pub fn reserve(&mut self, more: usize) -> Result<(), NoMemory>
        ensures rows { self.new.rows ≡ self.old.rows }
        ensures ok { OnOk result (more ≤ self.new.room) }
        ensures room { self.old.room ≤ self.new.room }
    {
        self.rows.reserve(more)?;
        self.by_queue.reserve(more)?;
        self.by_key.reserve(more)?;
        Ok(())
    }

    /// How many bindings there are. Takes no memory.
    pub fn len(&self) -> usize
        ensures { result ≡ length self.now.rows }
    {
        self.by_queue.len()
    }

    /// All bindings. Takes no memory.
    pub fn rows(&self) -> Rows<'_, A>
        ensures rows { result ≡ self.now.rows }
        ensures sorted { IsStrictlySortedBy (on spot queue_order) self.now.rows }
    {
        Rows::new(&self.rows, self.by_queue.as_slice())
    }

    /// The bindings of an exchange, by queue and key. Takes no memory.
    pub fn of_exchange(&self, exchange: usize) -> Rows<'_, A>
        ensures { result ≡ filter (is_of exchange) self.now.rows }
    {
        within(
            &self.rows,
            self.by_queue.as_slice(),
            By::Queue,
            Cut::Exchange(exchange),
        )
    }

    /// The bindings of a queue at an exchange, by key. Takes no memory.
    pub fn of_queue(&self, exchange: usize, queue: &Text) -> Rows<'_, A>
        ensures { result ≡ filter (is_of_queue exchange queue.now) self.now.rows }
    {
        within(
            &self.rows,
            self.by_queue.as_slice(),
            By::Queue,
            Cut::First(exchange, queue),
        )
    }

    /// The bindings with a key at an exchange, by queue. Takes no memory.
    pub fn of_key(&self, exchange: usize, key: &Text) -> Rows<'_, A>
        ensures { result ≡ filter (has_key exchange key.now) self.now.rows }
    {
        within(
            &self.rows,
            self.by_key.as_slice(),
            By::Key,
            Cut::First(exchange, key),
        )
    }

    /// The binding of a queue with a key at an exchange; none where it isn't there. Takes no memory.
    pub fn get(&self, exchange: usize, queue: &Text, key: &Text) -> Option<&Binding<A>>
        ensures { option_copied result ≡ find (record { exchange = exchange; queue = queue.now; key = key.now }) self.now.rows }
    {
        let mut rows = within(
            &self.rows,
            self.by_queue.as_slice(),
            By::Queue,
            Cut::Both(exchange, queue, key),
        );
        match rows.next() {
            Some(row) => Some(&row.binding),
            None => None,
        }
    }

    /// Puts a binding in that isn't there. Takes no memory.
    pub fn put(&mut self, exchange: usize, binding: Binding<A>)
        requires new { at (record { exchange = exchange; queue = binding.queue; key = binding.key }) self.old.rows ≡ [] }
        requires room { 0 < self.old.room }
        ensures rows { self.new.rows ≡ put (record { exchange = exchange; binding = binding }) self.old.rows }
        ensures room { self.old.room ≤ self.new.room + 1 }
    {
        put_row(
            &mut self.rows,
            &mut self.by_queue,
            &mut self.by_key,
            Row { exchange, binding },
        );
    }

    /// Takes a binding out; none where it isn't there. Takes no memory.
    pub fn take(&mut self, exchange: usize, queue: &Text, key: &Text) -> Option<Binding<A>>
        ensures rows { self.new.rows ≡ out (record { exchange = exchange; queue = queue.now; key = key.now }) self.old.rows }
        ensures binding { result ≡ find (record { exchange = exchange; queue = queue.now; key = key.now }) self.old.rows }
        ensures room { self.old.room ≤ self.new.room }
    {
        let (low, high) = part(
            &self.rows,
            self.by_queue.as_slice(),
            By::Queue,
            Cut::Both(exchange, queue, key),
        );
        if low == high {
            return None;
        }
        let row = take_row(&mut self.rows, &mut self.by_queue, &mut self.by_key, low);
        let Row {
            exchange: _,
            binding,
        } = row;
        Some(binding)
    }
}

impl<A: Drop> Bindings<A> {
    /// Takes all bindings of an exchange out. Takes no memory.
    pub fn clear(&mut self, exchange: usize)
        ensures rows { self.new.rows ≡ filter (λ r. not (is_of exchange r)) self.old.rows }
        ensures room { self.old.room ≤ self.new.room }
    {
        clear_cut(
            &mut self.rows,
            &mut self.by_queue,
            &mut self.by_key,
            Cut::Exchange(exchange),
        );
    }

    /// Takes all bindings of a queue at an exchange out. Takes no memory.
    pub fn clear_queue(&mut self, exchange: usize, queue: &Text)
        ensures rows { self.new.rows ≡ filter (λ r. not (is_of_queue exchange queue.now r)) self.old.rows }
        ensures room { self.old.room ≤ self.new.room }
    {
        clear_cut(
            &mut self.rows,
            &mut self.by_queue,
            &mut self.by_key,
            Cut::First(exchange, queue),
        );
    }
}
