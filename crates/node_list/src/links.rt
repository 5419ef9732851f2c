//! Places of nodes, linked by key.
ghost use Rattle.std.specs.Prelude.{◌≡◌, ◌<◌, ℕ, length, Some};
ghost use Rattle.slab.specs.Slab.{get, ContainsKey, slab_len};
ghost use Rattle.node_list.specs.Links.{place_at, item_slots, placed, with_next, first_set, with_previous, last_set, joined, ends_joined, put_in, ends_put, IsListed};

use slab::Slab;

/// The lane of the place in a list.
pub(crate) const LISTED: usize = 0;

/// The lane of the place in a holder's list.
pub(crate) const HELD: usize = 1;

/// A place in a list.
#[derive(Clone, Copy, Debug, PartialEq, Eq)]
pub(crate) struct Place {
    /// The list, counted from 0.
    pub(crate) list: usize,
    pub(crate) previous: Option<usize>,
    pub(crate) next: Option<usize>,
}

/// The first and the last key of a list.
#[derive(Clone, Copy, Debug, PartialEq, Eq)]
pub(crate) struct Ends {
    pub(crate) first: Option<usize>,
    pub(crate) last: Option<usize>,
}

/// An item and its places, by lane.
#[derive(Debug, Drop)]
pub(crate) struct Node<T> {
    pub(crate) item: T,
    pub(crate) places: [Option<Place>; 2],
}

/// The place of a key.
pub(crate) fn place_of<T>(nodes: &Slab<Node<T>>, lane: usize, key: usize) -> Option<Place>
    requires { lane < 2 }
    ensures { result ≡ place_at nodes.now lane key }
{
    match nodes.get(key) {
        Some(node) => node.places[lane],
        None => None,
    }
}

/// Gives a key this place.
pub(crate) fn set_place<T>(nodes: &mut Slab<Node<T>>, lane: usize, key: usize, place: Option<Place>)
    requires lane { lane < 2 }
    requires key { ContainsKey nodes.old key }
    ensures set { (j : ℕ) → place_at nodes.new lane j ≡ placed key place (place_at nodes.old lane) j }
    ensures lanes { (other : ℕ) → (other ≡ lane → ⊥) → (j : ℕ) → place_at nodes.new other j ≡ place_at nodes.old other j }
    ensures items { item_slots nodes.new ≡ item_slots nodes.old }
    ensures capacity { nodes.new.capacity ≡ nodes.old.capacity }
    ensures len { slab_len nodes.new ≡ slab_len nodes.old }
{
    if let Some(node) = nodes.get_mut(key) {
        node.places[lane] = place;
    }
}

/// After a spot of a list comes this one; none is the list's end.
fn set_next<T>(
    nodes: &mut Slab<Node<T>>,
    ends: &mut Vec<Ends>,
    lane: usize,
    list: usize,
    spot: Option<usize>,
    next: Option<usize>,
)
    requires lane { lane < 2 }
    requires list { list < length ends.old.items }
    ensures places { (j : ℕ) → place_at nodes.new lane j ≡ with_next spot next (place_at nodes.old lane) j }
    ensures lanes { (other : ℕ) → (other ≡ lane → ⊥) → (j : ℕ) → place_at nodes.new other j ≡ place_at nodes.old other j }
    ensures items { item_slots nodes.new ≡ item_slots nodes.old }
    ensures capacity { nodes.new.capacity ≡ nodes.old.capacity }
    ensures len { slab_len nodes.new ≡ slab_len nodes.old }
    ensures ends { ends.new.items ≡ first_set ends.old.items list spot next }
{
    match spot {
        Some(key) => {
            if let Some(place) = place_of(nodes, lane, key) {
                set_place(
                    nodes,
                    lane,
                    key,
                    Some(Place {
                        list: place.list,
                        previous: place.previous,
                        next,
                    }),
                );
            }
        }
        None => ends[list].first = next,
    }
}

/// Before a spot of a list comes this one; none is the list's end.
fn set_previous<T>(
    nodes: &mut Slab<Node<T>>,
    ends: &mut Vec<Ends>,
    lane: usize,
    list: usize,
    spot: Option<usize>,
    previous: Option<usize>,
)
    requires lane { lane < 2 }
    requires list { list < length ends.old.items }
    ensures places { (j : ℕ) → place_at nodes.new lane j ≡ with_previous spot previous (place_at nodes.old lane) j }
    ensures lanes { (other : ℕ) → (other ≡ lane → ⊥) → (j : ℕ) → place_at nodes.new other j ≡ place_at nodes.old other j }
    ensures items { item_slots nodes.new ≡ item_slots nodes.old }
    ensures capacity { nodes.new.capacity ≡ nodes.old.capacity }
    ensures len { slab_len nodes.new ≡ slab_len nodes.old }
    ensures ends { ends.new.items ≡ last_set ends.old.items list spot previous }
{
    match spot {
        Some(key) => {
            if let Some(place) = place_of(nodes, lane, key) {
                set_place(
                    nodes,
                    lane,
                    key,
                    Some(Place {
                        list: place.list,
                        previous,
                        next: place.next,
                    }),
                );
            }
        }
        None => ends[list].last = previous,
    }
}

/// Links the neighbours of a place that is gone, where there was one.
pub(crate) fn join<T>(
    nodes: &mut Slab<Node<T>>,
    ends: &mut Vec<Ends>,
    lane: usize,
    place: Option<Place>,
)
    requires lane { lane < 2 }
    requires list { IsListed place (length ends.old.items) }
    ensures places { (j : ℕ) → place_at nodes.new lane j ≡ joined place (place_at nodes.old lane) j }
    ensures lanes { (other : ℕ) → (other ≡ lane → ⊥) → (j : ℕ) → place_at nodes.new other j ≡ place_at nodes.old other j }
    ensures items { item_slots nodes.new ≡ item_slots nodes.old }
    ensures capacity { nodes.new.capacity ≡ nodes.old.capacity }
    ensures len { slab_len nodes.new ≡ slab_len nodes.old }
    ensures ends { ends.new.items ≡ ends_joined place ends.old.items }
{
    if let Some(place) = place {
        set_next(nodes, ends, lane, place.list, place.previous, place.next);
        set_previous(nodes, ends, lane, place.list, place.next, place.previous);
    }
}

/// Gives a key this place, and lets its neighbours know.
pub(crate) fn put<T>(
    nodes: &mut Slab<Node<T>>,
    ends: &mut Vec<Ends>,
    lane: usize,
    key: usize,
    place: Place,
)
    requires lane { lane < 2 }
    requires list { place.list < length ends.old.items }
    requires key { ContainsKey nodes.old key }
    ensures places { (j : ℕ) → place_at nodes.new lane j ≡ put_in key place (place_at nodes.old lane) j }
    ensures lanes { (other : ℕ) → (other ≡ lane → ⊥) → (j : ℕ) → place_at nodes.new other j ≡ place_at nodes.old other j }
    ensures items { item_slots nodes.new ≡ item_slots nodes.old }
    ensures capacity { nodes.new.capacity ≡ nodes.old.capacity }
    ensures len { slab_len nodes.new ≡ slab_len nodes.old }
    ensures ends { ends.new.items ≡ ends_put key place ends.old.items }
{
    set_place(nodes, lane, key, Some(place));
    set_next(nodes, ends, lane, place.list, place.previous, Some(key));
    set_previous(nodes, ends, lane, place.list, place.next, Some(key));
}
