//! Room for what a plan puts in, so that doing it takes no memory.
ghost use Rattle.std.specs.Prelude.{◌≡◌, ◌≤◌, OnOk};
ghost use Rattle.std.specs.List.{count_by};
ghost use Rattle.broker_core.specs.Edits.{is_exchange, is_binding, is_queue, is_own, HasRoom};
ghost use Rattle.broker_core.specs.Rooms.{Same};

use crate::broker::Broker;
use crate::edit::Edit;
use crate::plan::Plan;
use octet_reading::NoMemory;

/// How much of each kind a plan puts in.
#[derive(Clone, Copy)]
struct Counts {
    exchanges: usize,
    bindings: usize,
    queues: usize,
    own: usize,
}

/// How much of each kind changes put in.
fn counts_of(edits: &[Edit]) -> Counts
    ensures exchanges { result.exchanges ≡ count_by is_exchange edits.now }
    ensures bindings { result.bindings ≡ count_by is_binding edits.now }
    ensures queues { result.queues ≡ count_by is_queue edits.now }
    ensures own { result.own ≡ count_by is_own edits.now }
{
    let mut counts = Counts {
        exchanges: 0,
        bindings: 0,
        queues: 0,
        own: 0,
    };
    for index in 0..edits.len() {
        let edit = &edits[index];
        counts.exchanges += is_exchange(edit) as usize;
        counts.bindings += is_binding(edit) as usize;
        counts.queues += is_queue(edit) as usize;
        counts.own += is_own(edit) as usize;
    }
    counts
}

/// Whether an exchange is put in.
fn is_exchange(edit: &Edit) -> bool
    ensures { result ≡ is_exchange edit.now }
{
    matches!(edit, Edit::PlaceExchange { .. })
}

/// Whether a binding is put in.
fn is_binding(edit: &Edit) -> bool
    ensures { result ≡ is_binding edit.now }
{
    matches!(edit, Edit::Bind { .. })
}

/// Whether a queue is put in.
fn is_queue(edit: &Edit) -> bool
    ensures { result ≡ is_queue edit.now }
{
    matches!(edit, Edit::PlaceQueue { .. } | Edit::PlaceOwn { .. })
}

/// Whether a queue of one session is put in.
fn is_own(edit: &Edit) -> bool
    ensures { result ≡ is_own edit.now }
{
    matches!(edit, Edit::PlaceOwn { .. })
}

impl Broker {
    /// Makes room for all that a plan puts in. What the broker holds stays.
    pub fn reserve(&mut self, plan: &Plan) -> Result<(), NoMemory>
        ensures ok { OnOk result (HasRoom plan.now.edits self.new) }
        ensures same { Same self.old self.new }
    {
        let counts = counts_of(plan.edits.as_slice());
        self.exchanges.room(counts.exchanges, counts.bindings)?;
        self.queues.room(counts.queues, 0)?;
        self.owned.reserve(counts.own)?;
        Ok(())
    }
}
