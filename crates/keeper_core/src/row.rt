//! Rows, and changes of them.
ghost use Rattle.std.specs.Prelude.{◌≡◌};

use octet_reading::Octets;
use std::marker::Model;

/// What a keeper holds under one key.
#[derive(Debug, Drop)]
pub struct Row {
    pub key: Octets,
    pub content: Octets,
}

/// Rows, in the order of their keys where a keeper gives them.
#[derive(Debug, Drop)]
pub struct Rows {
    items: Vec<Row>,
}

impl Model for Rows {
    ghost use Rattle.std.specs.Prelude.{List};
    ghost use Rattle.keeper_core.specs.declared.row.Row.{Row};

    ghost Value = { List Row };

    ghost view = { λ r. r.items.items };
}

impl Rows {
    /// Takes a vector over. Takes no memory.
    pub fn from_vec(items: Vec<Row>) -> Rows
        ensures { result ≡ items.items }
    {
        Rows { items }
    }

    /// Gives the vector back. Takes no memory.
    pub fn into_vec(self) -> Vec<Row>
        ensures { result.items ≡ self }
    {
        let Rows { items } = self;
        items
    }

    /// The rows, lent.
    pub fn as_slice(&self) -> &[Row]
        ensures { result.now ≡ self.now }
    {
        self.items.as_slice()
    }
}

/// A change of what a keeper holds.
#[derive(Debug, Drop)]
pub enum Change {
    /// The row stands under its key, in place of one that stood there.
    Put(Row),
    /// No row stands under the key.
    Drop(Octets),
}

/// Changes, in the order in which they act.
#[derive(Debug, Drop)]
pub struct Changes {
    items: Vec<Change>,
}

impl Model for Changes {
    ghost use Rattle.std.specs.Prelude.{List};
    ghost use Rattle.keeper_core.specs.declared.row.Change.{Change};

    ghost Value = { List Change };

    ghost view = { λ c. c.items.items };
}

impl Changes {
    /// Takes a vector over. Takes no memory.
    pub fn from_vec(items: Vec<Change>) -> Changes
        ensures { result ≡ items.items }
    {
        Changes { items }
    }

    /// Gives the vector back. Takes no memory.
    pub fn into_vec(self) -> Vec<Change>
        ensures { result.items ≡ self }
    {
        let Changes { items } = self;
        items
    }

    /// The changes, lent.
    pub fn as_slice(&self) -> &[Change]
        ensures { result.now ≡ self.now }
    {
        self.items.as_slice()
    }
}
