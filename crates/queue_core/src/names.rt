//! The names of queues, one after another.
ghost use Rattle.std.specs.Prelude.{◌≡◌};
ghost use Rattle.std.specs.Iterator.{YieldsFirstRef, item_count};
ghost use Rattle.queue_core.specs.Queues.{names_of};

use crate::marks::QueueMarks;
use octet_reading::Text;
use std::marker::Model;

/// The names of queues, in order.
#[derive(Debug, Drop)]
pub struct QueueNames<'a> {
    entries: &'a [(Text, (QueueMarks, usize))],
}

impl<'a> Model for QueueNames<'a> {
    ghost use Rattle.std.specs.Prelude.{List, ℕ};
    ghost use Rattle.queue_core.specs.Queues.{names_of};

    ghost Value = { List (List ℕ) };

    ghost view = { λ n. names_of n.entries.now };
}

impl<'a> QueueNames<'a> {
    pub(crate) fn new(entries: &'a [(Text, (QueueMarks, usize))]) -> QueueNames<'a>
        ensures { result ≡ names_of entries.now }
    {
        QueueNames { entries }
    }
}

impl<'a> Iterator for QueueNames<'a> {
    type Item = &'a Text;

    ghost next_gives = { YieldsFirstRef (λ rest. rest) };

    ghost remaining = { item_count (λ rest. rest) };

    fn next(&mut self) -> Option<&'a Text> {
        let (entry, rest) = self.entries.split_first()?;
        self.entries = rest;
        Some(&entry.0)
    }
}
