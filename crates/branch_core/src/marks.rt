//! What is asked of branches, and what they answer.
ghost use Rattle.std.specs.Prelude.{◌≡◌};
ghost use Rattle.branch_core.specs.declared.marks.BranchFault.TheVariants.{NoMemory};

use amqp_values::Xid;
use octet_reading::NoMemory;

/// What the result of a dtx command says: 0 for xa-ok, 1 for xa-rbrollback, 2 for xa-rbtimeout (AMQP 0-10,
/// "dtx.xa-status").
pub type Status = u16;

/// Names of branches.
pub type Xids = Vec<Xid>;

/// How a session begins work on a branch (AMQP 0-10, "dtx.start").
#[derive(Clone, Copy, Debug, PartialEq, Eq)]
pub enum Start {
    /// The branch is a new one.
    New,
    /// The branch is there, and the session isn't associated with it.
    Join,
    /// The session's association was suspended.
    Resume,
}

/// How a session ends work on a branch (AMQP 0-10, "dtx.end").
#[derive(Clone, Copy, Debug, PartialEq, Eq)]
pub enum End {
    Success,
    /// The branch can only be rolled back.
    Fail,
    /// The session stays associated, and resumes later.
    Suspend,
}

/// Where the publishes and accepts of a session go.
#[derive(Clone, Copy, Debug, PartialEq, Eq)]
pub enum Owner {
    /// They act at once.
    Now,
    /// Into the session's tx.
    Tx,
    /// Into the branch at this place in order of xid, counted from 0.
    Branch { place: usize },
}

/// How far a branch has come.
#[derive(Clone, Copy, Debug, PartialEq, Eq)]
pub enum Standing {
    /// There is no such branch.
    Missing,
    /// A session is associated with it, be the association active or suspended.
    Associated,
    Idle,
    /// It is marked, and can only be rolled back.
    RbRollback,
    /// It is marked since its time ran out.
    RbTimeout,
    Prepared,
}

/// Why a call on branches did nothing.
#[derive(Clone, Copy, Debug, PartialEq, Eq)]
pub enum BranchFault {
    /// The command is refused with this code (AMQP 0-10, "execution.error-code").
    Refused(u16),
    NoMemory,
}

impl From<NoMemory> for BranchFault {
    ghost from_gives = { λ _ e. e ≡ NoMemory };

    fn from(_: NoMemory) -> BranchFault {
        BranchFault::NoMemory
    }
}
