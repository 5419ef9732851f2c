//! A unit: what one assembly of segments stands for.
ghost use Rattle.std.specs.Prelude.{◌≡◌, ◌++◌, ◌∷◌, [], IfOk, OnOk, OnErr};

use crate::{Command, Content, Control};
use amqp_values::NoMemory;
use std::alloc::Global;
use std::marker::Model;

/// A control, or a command with its content.
#[derive(Debug, Drop)]
pub enum Unit {
    Control(Control),
    Command {
        /// Whether the session header asks for completion at once.
        sync: bool,
        command: Command,
        content: Option<Content>,
    },
}

impl Unit {
    /// A copy, equal to its source.
    pub fn copied(&self, alloc: Global) -> Result<Unit, NoMemory>
        ensures { IfOk result (λ copy. copy ≡ self.now) }
    {
        match self {
            Unit::Control(control) => Ok(Unit::Control(control.copied(alloc)?)),
            Unit::Command {
                sync,
                command,
                content,
            } => {
                let content = content_copied(alloc, content)?;
                let command = command.copied(alloc)?;
                Ok(Unit::Command {
                    sync: *sync,
                    command,
                    content,
                })
            }
        }
    }
}

fn content_copied(alloc: Global, content: &Option<Content>) -> Result<Option<Content>, NoMemory>
    ensures { IfOk result (λ copy. copy ≡ content.now) }
{
    match content {
        Some(content) => Ok(Some(content.copied(alloc)?)),
        None => Ok(None),
    }
}

/// Units in order.
#[derive(Debug, Drop)]
pub struct Units {
    items: Vec<Unit>,
}

impl Model for Units {
    ghost use Rattle.std.specs.Prelude.{List};
    ghost use Rattle.std.specs.Coded.{codes};
    ghost use Rattle.amqp_values.specs.contracts.value.Value as e;
    ghost use Rattle.amqp_terms.specs.declared.unit.Unit.{Unit};

    ghost Value = { List Unit };

    ghost coded = { Prim.hlevel (codes, e.the_row.coded) };

    ghost view = { λ u. u.items.items };
}

impl Units {
    /// No units. Takes no memory.
    pub fn new(alloc: Global) -> Units
        ensures { result ≡ [] }
    {
        Units {
            items: Vec::new(alloc),
        }
    }

    /// Puts a unit last. Without memory it is let go, and the units stay.
    pub fn push(&mut self, unit: Unit) -> Result<(), NoMemory>
        ensures ok { OnOk result (self.new ≡ self.old ++ unit ∷ []) }
        ensures err { OnErr result (self.new ≡ self.old) }
    {
        self.items.push(unit)?;
        Ok(())
    }

    /// The units, lent.
    pub fn as_slice(&self) -> &[Unit]
        ensures { result.now ≡ self.now }
    {
        self.items.as_slice()
    }

    /// A copy, equal to its source.
    pub fn copied(&self, alloc: Global) -> Result<Units, NoMemory>
        ensures { IfOk result (λ copy. copy ≡ self.now) }
    {
        let mut copy = Units::new(alloc);
        for unit in self.items.as_slice() {
            copy.push(unit.copied(alloc)?)?;
        }
        Ok(copy)
    }
}
