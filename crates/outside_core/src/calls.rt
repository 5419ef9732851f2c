//! Which calls of an object in memory fail.
ghost use Rattle.std.specs.Prelude.{◌≡◌, ◌==◌};
ghost use Rattle.std.specs.List.{list_any};

use std::marker::Model;

/// The numbers of the calls that fail, counted from 1.
#[derive(Debug, Drop)]
pub struct Calls {
    numbers: Vec<u64>,
}

impl Model for Calls {
    ghost use Rattle.std.specs.Prelude.{ℕ, List};
    ghost use Rattle.std.specs.Coded.{coded_list, coded_ℕ};

    ghost Value = { List ℕ };

    ghost coded = { coded_list coded_ℕ };

    ghost view = { λ c. c.numbers.items };
}

impl Calls {
    /// Takes a vector over. Takes no memory.
    pub fn from_vec(numbers: Vec<u64>) -> Calls
        ensures { result ≡ numbers.items }
    {
        Calls { numbers }
    }

    /// Whether the call of this number fails.
    pub fn contains(&self, number: u64) -> bool
        ensures { result ≡ list_any (λ n. n == number) self.now }
    {
        self.numbers.contains(&number)
    }
}
