//! What keeps rows from one run to the next.
ghost use Rattle.std.specs.Prelude.{◌≡◌, ℕ, Bool, List, Option, None};
ghost use Rattle.keeper_core.specs.declared.row.Row.{Row};
ghost use Rattle.keeper_core.specs.Keeper.{Gives, Applies, Answered, Writes, FailsWithCause};

use crate::row::{Changes, Rows};
use octet_reading::Octets;

/// Why a keeper didn't do what it was asked. It then changed nothing that it holds.
#[derive(Clone, Copy, Debug, PartialEq, Eq)]
pub enum KeeperFault {
    Failed,
    NoMemory,
}

/// Why a broker was not opened over a keeper.
#[derive(Debug, Drop)]
pub enum OpenFault {
    /// The keeper failed at its list, or at the apply of an opening.
    KeeperFault,
    /// The first bad row has this key.
    BadRow { key: Octets },
    NoMemory,
}

/// A store of rows by key.
///
/// Each kind of call has a count of faults that never falls and stands still at the greatest u64.
pub trait Keeper {
    ghost use Rattle.std.specs.Prelude.{◌≡◌, ℕ, Bool, List, Option, None};
    ghost use Rattle.keeper_core.specs.declared.row.Row.{Row};
    ghost use Rattle.keeper_core.specs.Keeper.{Gives, Applies, Answered, Writes, FailsWithCause};

    /// The rows by rising key, where the keeper tells them.
    ghost rows: { Self → Option (List Row) };

    /// Which rows a list call may give.
    ghost may_give: { Self → List Row → Type 0 };

    /// The answers of its apply calls so far, the oldest first, where the keeper tells them: whether
    /// they came to Ok. One that lacked memory is none of them.
    ghost answers: { Self → Option (List Bool) };

    /// How many list calls failed.
    ghost list_faults: { Self → ℕ };

    /// How many apply calls failed.
    ghost apply_faults: { Self → ℕ };

    /// How many apply calls took effect. Stands still at the greatest u64.
    ghost writes: { Self → ℕ };

    /// Gives all rows, by rising key.
    fn list(&mut self) -> Result<Rows, KeeperFault>
        ensures gives { Gives (rows self.old) (may_give self.old) result }
        ensures cause { FailsWithCause (list_faults self.old) (list_faults self.new) result }
        ensures rows_stay { rows self.new ≡ rows self.old }
        ensures test_stays { (given : List Row) → may_give self.new given → may_give self.old given }
        ensures answers_stay { answers self.new ≡ answers self.old }
        ensures apply_faults_stay { apply_faults self.new ≡ apply_faults self.old }
        ensures writes_stay { writes self.new ≡ writes self.old };

    /// Does all the changes, in their order, or none.
    fn apply(&mut self, changes: &Changes) -> Result<(), KeeperFault>
        ensures applies { Applies (rows self.old) (rows self.new) changes.now result }
        ensures answered { Answered (answers self.old) (answers self.new) result }
        ensures writes { Writes (writes self.old) (writes self.new) result }
        ensures cause { FailsWithCause (apply_faults self.old) (apply_faults self.new) result }
        ensures test_stays { rows self.old ≡ None → (given : List Row) → may_give self.new given → may_give self.old given }
        ensures list_faults_stay { list_faults self.new ≡ list_faults self.old };
}
