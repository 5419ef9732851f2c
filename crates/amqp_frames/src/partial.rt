//! The octets of a frame's header as they come.
ghost use Rattle.std.specs.Prelude.{◌≡◌, ◌+◌, ◌<◌, ◌++◌, ◌∷◌, [], length};
ghost use Rattle.amqp_frames.specs.Partial.{Grows};

use std::marker::Model;

/// Fewer than twelve octets, seen as a list.
#[derive(Drop)]
pub(crate) struct Partial {
    octets: [u8; 12],
    len: usize,
}

impl Model for Partial {
    ghost use Rattle.std.specs.Prelude.{ℕ, List, take, ◌<◌};

    ghost Value = { List ℕ };

    ghost view = { λ p. take p.len p.octets };

    ghost invariant = { λ p. p.len < 12 };
}

impl Partial {
    /// No octets.
    pub(crate) fn new() -> Partial
        ensures { result ≡ [] }
    {
        Partial {
            octets: [0; 12],
            len: 0,
        }
    }

    /// A copy.
    pub(crate) fn copied(&self) -> Partial
        ensures { result ≡ self.now }
    {
        Partial {
            octets: self.octets,
            len: self.len,
        }
    }

    /// Takes an octet; the twelfth gives all of them, and none is left.
    pub(crate) fn push(&mut self, octet: u8) -> Option<[u8; 12]>
        ensures { Grows self.old octet self.new result }
    {
        self.octets[self.len] = octet;
        if self.len < 11 {
            self.len += 1;
            return None;
        }
        self.len = 0;
        Some(self.octets)
    }
}
