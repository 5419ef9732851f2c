//! Exchanges and bindings, one after another.
ghost use Rattle.std.specs.Prelude.{◌≡◌, ◌++◌, IfSome, IfNone, [], length, ◌<◌, map, filter};
ghost use Rattle.std.specs.Iterator.{YieldsFirstRef, YieldsFirstBy, item_count};
ghost use Rattle.binding_table.specs.Rows.{is_of};
ghost use Rattle.exchange_core.specs.Exchanges.{names_of, pair_of, pairs_of};

use crate::marks::{Binding, ExchangeMarks};
use crate::routes::is_empty;
use amqp_values::Value;
use binding_table::{Bindings, Rows};
use octet_reading::Text;
use std::marker::Model;

/// The names of exchanges, in order.
#[derive(Debug, Drop)]
pub struct ExchangeNames<'a> {
    entries: &'a [(Text, (ExchangeMarks, usize))],
}

impl<'a> Model for ExchangeNames<'a> {
    ghost use Rattle.std.specs.Prelude.{List, ℕ};
    ghost use Rattle.exchange_core.specs.Exchanges.{names_of};

    ghost Value = { List (List ℕ) };

    ghost view = { λ n. names_of n.entries.now };
}

impl<'a> ExchangeNames<'a> {
    pub(crate) fn new(entries: &'a [(Text, (ExchangeMarks, usize))]) -> ExchangeNames<'a>
        ensures { result ≡ names_of entries.now }
    {
        ExchangeNames { entries }
    }
}

impl<'a> Iterator for ExchangeNames<'a> {
    type Item = &'a Text;

    ghost next_gives = { YieldsFirstRef (λ rest. rest) };

    ghost remaining = { item_count (λ rest. rest) };

    fn next(&mut self) -> Option<&'a Text> {
        let (entry, rest) = self.entries.split_first()?;
        self.entries = rest;
        Some(&entry.0)
    }
}

/// The bindings of all exchanges, by the name of the exchange, the queue and the key.
#[derive(Debug, Drop)]
pub struct ExchangeBindings<'a> {
    bindings: &'a Bindings<Option<Value>>,
    /// The exchanges that come later.
    entries: &'a [(Text, (ExchangeMarks, usize))],
    /// The exchange at hand, and what is left of its bindings.
    at_hand: Option<(&'a Text, Rows<'a, Option<Value>>)>,
}

impl<'a> Model for ExchangeBindings<'a> {
    ghost use Rattle.std.specs.Prelude.{List, ℕ, Option};
    ghost use Rattle.std.specs.Coded.{codes};
    ghost use Rattle.amqp_values.specs.declared.value.Value.{Value as V};
    ghost use Rattle.amqp_values.specs.contracts.value.Value as e;
    ghost use Rattle.binding_table.specs.declared.row.Binding.{Binding as B};
    ghost use Rattle.exchange_core.specs.Exchanges.{left_of};

    ghost Value = { List (List ℕ × B (Option V)) };

    ghost coded = { Prim.hlevel (codes, e.the_row.coded) };

    ghost view = { λ b. left_of b.at_hand b.entries.now b.bindings.now.rows };
}

/// The first exchange with bindings, those, and the exchanges behind it.
fn next_bound<'a>(
    entries: &'a [(Text, (ExchangeMarks, usize))],
    bindings: &'a Bindings<Option<Value>>,
) -> Option<
    (
        &'a Text,
        Rows<'a, Option<Value>>,
        &'a [(Text, (ExchangeMarks, usize))],
    ),
>
    ensures some { IfSome result (λ next. (0 < length next.1) × (pairs_of entries.now bindings.now.rows ≡ map (pair_of next.0.now) next.1 ++ pairs_of next.2.now bindings.now.rows)) }
    ensures none { IfNone result (pairs_of entries.now bindings.now.rows ≡ []) }
{
    let mut rest = entries;
    while let Some((entry, others)) = rest.split_first() {
        if !is_empty(bindings.of_exchange(entry.1.1)) {
            return Some((&entry.0, bindings.of_exchange(entry.1.1), others));
        }
        rest = others;
    }
    None
}

impl<'a> ExchangeBindings<'a> {
    pub(crate) fn new(
        entries: &'a [(Text, (ExchangeMarks, usize))],
        bindings: &'a Bindings<Option<Value>>,
    ) -> ExchangeBindings<'a>
        ensures { result ≡ pairs_of entries.now bindings.now.rows }
    {
        ExchangeBindings {
            bindings,
            entries,
            at_hand: None,
        }
    }
}

impl<'a> Iterator for ExchangeBindings<'a> {
    type Item = (&'a Text, &'a Binding);

    ghost next_gives = { YieldsFirstBy (λ item. (item.0.now, item.1.now)) (λ rest. rest) };

    ghost remaining = { item_count (λ rest. rest) };

    fn next(&mut self) -> Option<(&'a Text, &'a Binding)> {
        if let Some((name, mut rows)) = self.at_hand.take() {
            if let Some(row) = rows.next() {
                self.at_hand = Some((name, rows));
                return Some((name, &row.binding));
            }
        }
        let (name, mut rows, entries) = next_bound(self.entries, self.bindings)?;
        self.entries = entries;
        match rows.next() {
            Some(row) => {
                self.at_hand = Some((name, rows));
                Some((name, &row.binding))
            }
            None => unreachable!(),
        }
    }
}
