//! The hub: what the broker's connections share, over its store.
ghost use Rattle.std.specs.Prelude.{◌≡◌, ℕ, List, ◌∷◌, true, IfOk, IsOk, OnErr};
ghost use Rattle.history_model.specs.Arrivals.{Arrival, Hears};
ghost use Rattle.history_model.specs.Answers.{outs};
ghost use Rattle.history_model.specs.Report.{closing_lines};
ghost use Rattle.history_model.specs.Standing.{world};
ghost use Rattle.history_model.specs.State.{state, covered};

use crate::state::State;
use amqp_terms::discard_event;
use amqp_values::{NoMemory, Octets};
use history_model::{ConnName, HubEvent, Outs};
use keeper_core::{Keeper, OpenFault};
use std::alloc::Global;

/// Sessions and broker over a keeper of the caller's choice.
///
/// Contracts speak of it by the arrivals that it stands for, the newest first.
#[derive(Drop)]
pub struct Hub<K> {
    state: State,
    keeper: K,
}

impl<K: Keeper> Hub<K> {
    ghost use Rattle.hub_core.specs.Hub.{Serves, Opens, keeper_of};

    /// A hub that heard nothing yet. Nothing is stored yet, and the keeper isn't asked.
    pub fn open(alloc: Global, keeper: K) -> Result<Hub<K>, (OpenFault, K)>
        ensures { Opens keeper result }
    {
        Ok(Hub {
            state: State::new(alloc),
            keeper,
        })
    }

    /// Gives the keeper back.
    pub fn close(self) -> K
        ensures { result ≡ keeper_of self }
    {
        let Hub { state: _, keeper } = self;
        keeper
    }

    /// Whether the event is built. What its step promises is the whole truth where the definitions cover it.
    pub fn builds(&self, event: &HubEvent) -> bool
        ensures { (h : List Arrival) → Serves self.now h → covered (world h) (state h) event.now ≡ true → result ≡ true }
    {
        self.state.builds(event)
    }

    /// Takes an event, and gives what goes out for it on its connection.
    ///
    /// A `Join` draws a connection's number, from 1. Without memory the event is left out; a `Lost` takes none.
    pub fn step(&mut self, event: HubEvent) -> Result<Outs, NoMemory>
        ensures steps { (h : List Arrival) → Serves self.old h → covered (world h) (state h) event ≡ true
            → IfOk result (λ o. (o ≡ outs (world h) event) × Serves self.new (Hears event ∷ h)) }
        ensures unchanged { (h : List Arrival) → Serves self.old h → covered (world h) (state h) event ≡ true
            → OnErr result (Serves self.new h) }
        ensures lost { (connection : ℕ) → event ≡ HubEvent.Lost connection → IsOk result }
        ensures keeper { keeper_of self.new ≡ keeper_of self.old }
    {
        let outs = self.state.step(&event);
        discard_event(event);
        outs
    }

    /// The closing lines. Each connection that holds a session has its trace's number in `names`.
    pub fn report(&self, names: &[ConnName]) -> Result<Octets, NoMemory>
        ensures { (h : List Arrival) → Serves self.now h → IfOk result (λ text. text ≡ closing_lines names.now (world h) (state h)) }
    {
        self.state.report(names)
    }
}
