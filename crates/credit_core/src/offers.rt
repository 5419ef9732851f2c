//! What queues offer to subscriptions.
ghost use Rattle.std.specs.Prelude.{◌≡◌};

use std::marker::Model;

/// For each place in turn the octets of the body that its queue offers; none where it offers nothing.
#[derive(Debug, Drop)]
pub struct Offers {
    items: Vec<Option<u64>>,
}

impl Model for Offers {
    ghost use Rattle.std.specs.Prelude.{ℕ, List, Option};

    ghost Value = { List (Option ℕ) };

    ghost view = { λ o. o.items.items };
}

impl Offers {
    /// Takes a vector over. Takes no memory.
    pub fn from_vec(items: Vec<Option<u64>>) -> Offers
        ensures { result ≡ items.items }
    {
        Offers { items }
    }

    /// Gives the vector back. Takes no memory.
    pub fn into_vec(self) -> Vec<Option<u64>>
        ensures { result.items ≡ self }
    {
        let Offers { items } = self;
        items
    }

    /// The offers, lent.
    pub fn as_slice(&self) -> &[Option<u64>]
        ensures { result.now ≡ self.now }
    {
        self.items.as_slice()
    }
}
