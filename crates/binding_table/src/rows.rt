//! Rows, one after another.
ghost use Rattle.std.specs.Prelude.{◌≡◌, map, Some};
ghost use Rattle.std.specs.Iterator.{YieldsFirstRef, item_count};
ghost use Rattle.slab.specs.Slab.{get};
ghost use Rattle.binding_table.specs.declared.row.Row.{Row};
ghost use Rattle.sorted_map.specs.Cuts.{collect};

use crate::row::Row;
use slab::Slab;
use std::marker::Model;

/// Bindings in the order of a table, each with the number of its exchange.
#[derive(Debug, Drop)]
pub struct Rows<'a, A> {
    rows: &'a Slab<Row<A>>,
    keys: &'a [usize],
}

impl<'a, A> Model for Rows<'a, A> {
    ghost use Rattle.std.specs.Prelude.{◌≡◌, List, Some, map};
    ghost use Rattle.std.specs.Coded.{coded_list};
    ghost use Rattle.slab.specs.Slab.{get};
    ghost use Rattle.binding_table.specs.declared.row.Row.{Row};
    ghost use Rattle.sorted_map.specs.Cuts.{collect};
    ghost use Rattle.binding_table.specs.Rows.{row_code};

    ghost Value = { List (Row A) };

    ghost coded = { coded_list (row_code A.code) };

    ghost view = { λ r. collect (get r.rows.now) r.keys.now };

    ghost invariant = { λ r. map (get r.rows.now) r.keys.now ≡ map Some (collect (get r.rows.now) r.keys.now) };
}

impl<'a, A> Rows<'a, A> {
    /// The rows under keys.
    pub(crate) fn new(rows: &'a Slab<Row<A>>, keys: &'a [usize]) -> Rows<'a, A>
        requires { map (get rows.now) keys.now ≡ map Some (collect (get rows.now) keys.now) }
        ensures { result ≡ collect (get rows.now) keys.now }
    {
        Rows { rows, keys }
    }
}

impl<'a, A> Iterator for Rows<'a, A> {
    type Item = &'a Row<A>;

    ghost next_gives = { YieldsFirstRef (λ rest. rest) };

    ghost remaining = { item_count (λ rest. rest) };

    fn next(&mut self) -> Option<&'a Row<A>> {
        let (key, rest) = self.keys.split_first()?;
        self.keys = rest;
        match self.rows.get(*key) {
            Some(row) => Some(row),
            None => unreachable!(),
        }
    }
}
