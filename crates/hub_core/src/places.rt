//! Which session has a channel of a connection.
ghost use Rattle.std.specs.Prelude.{◌≡◌, ◌==◌, ◌&&◌, ℕ, Some, None, OnOk, OnErr, if◌then◌else◌, [], List};
ghost use Rattle.std.specs.Option.{option_copied};
ghost use Rattle.hub_core.specs.Places.{holder_in};

use amqp_values::{NoMemory, Octets};
use std::alloc::Global;
use std::collections::BTreeMap;
use std::marker::Model;

/// A channel of a connection.
#[derive(Clone, Copy, Debug, PartialEq, Eq, PartialOrd, Ord)]
pub(crate) struct Place {
    pub(crate) connection: u64,
    pub(crate) channel: u16,
}

/// The names of the sessions that have a channel.
#[derive(Drop)]
pub(crate) struct Places {
    names: BTreeMap<Place, Octets>,
}

impl Model for Places {
    ghost use Rattle.std.specs.Prelude.{List, ℕ};
    ghost use Rattle.hub_core.specs.declared.places.Place.{Place};

    ghost Value = { List (Place × List ℕ) };

    ghost view = { λ p. p.names.entries };
}

impl Places {
    pub(crate) fn new(alloc: Global) -> Places
        ensures { result ≡ [] }
    {
        Places {
            names: BTreeMap::new(alloc),
        }
    }

    /// The name of the session that has the channel.
    pub(crate) fn get(&self, connection: u64, channel: u16) -> Option<&Octets>
        ensures { option_copied result ≡ holder_in self.now connection channel }
    {
        self.names.get(&Place {
            connection,
            channel,
        })
    }

    /// Gives the channel to the session.
    pub(crate) fn put(
        &mut self,
        connection: u64,
        channel: u16,
        name: Octets,
    ) -> Result<(), NoMemory>
        ensures ok { OnOk result ((c k : ℕ) → holder_in self.new c k
            ≡ (if (c == connection) && (k == channel) then Some name else holder_in self.old c k)) }
        ensures err { OnErr result (self.new ≡ self.old) }
    {
        let place = Place {
            connection,
            channel,
        };
        self.names.insert(place, name)?;
        Ok(())
    }

    /// Takes the channel from its session.
    pub(crate) fn clear(&mut self, connection: u64, channel: u16)
        ensures { (c k : ℕ) → holder_in self.new c k
            ≡ (if (c == connection) && (k == channel) then None else holder_in self.old c k) }
    {
        self.names.remove(&Place {
            connection,
            channel,
        });
    }

    /// Takes all channels of a connection from their sessions. Takes no memory.
    pub(crate) fn lose(&mut self, connection: u64)
        ensures { (c k : ℕ) → holder_in self.new c k ≡ (if c == connection then None else holder_in self.old c k) }
    {
        self.names.retain(|place, _| place.connection != connection);
    }
}
