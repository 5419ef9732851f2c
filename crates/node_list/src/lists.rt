//! Lists of nodes.
ghost use Rattle.std.specs.Vec.{vec_len, vec_capacity};
ghost use Rattle.std.specs.Prelude.{◌≡◌, ◌+◌, ◌<◌, ◌≤◌, ◌++◌, ◌∷◌, ℕ, [], map, length, replicate, Some, None, IsSome, OnOk, OnErr, IfOk, IfSome, IfNone, is_some, true, slice_set};
ghost use Rattle.node_list.specs.Keys.{has, without, put_before, first_of, next_in, list_at};
ghost use Rattle.node_list.specs.Links.{no_ends};
ghost use Rattle.node_list.specs.Lists.{item_at, IsLive, Puts, IsFree};

use crate::links::{Ends, HELD, LISTED, Node, Place, join, place_of, put, set_place};
use crate::steps::Steps;
use octet_reading::NoMemory;
use slab::Slab;
use std::alloc::Global;
use std::marker::Model;
use std::sync::ledger::Ledger;

/// Lists of nodes. A node lies in one list, and in one holder's list at most. Lists and holders are counted from 0, and
/// there are as many of both. A node keeps its key until it is unlinked.
#[derive(Debug, Drop)]
pub struct Lists<T> {
    nodes: Slab<Node<T>>,
    /// The ends of each list.
    ends: Vec<Ends>,
    /// The ends of each holder's list.
    held_ends: Vec<Ends>,
}

impl<T> Model for Lists<T> {
    ghost use Rattle.node_list.specs.Lists.{Listed, listed_code, listed, IsSound};

    ghost Value = { Listed T };

    ghost coded = { listed_code T.code };

    ghost view = { λ l. listed l.nodes l.ends.items l.held_ends.items };

    ghost invariant = { λ l. IsSound l.nodes l.ends.items l.held_ends.items };
}

/// The ends of so many empty lists.
fn empty_ends(alloc: Global, lists: usize) -> Result<Vec<Ends>, NoMemory>
    ensures { IfOk result (λ ends. ends.items ≡ replicate lists no_ends) }
{
    let mut ends = Vec::new(alloc);
    ends.reserve(lists)?;
    push_empty(&mut ends, lists);
    Ok(ends)
}

/// Adds the ends of so many empty lists.
fn push_empty(ends: &mut Vec<Ends>, lists: usize)
    requires { vec_len ends.old + lists ≤ vec_capacity ends.old }
    ensures { ends.new.items ≡ ends.old.items ++ replicate lists no_ends }
{
    for _ in 0..lists {
        ends.push_reserved(Ends {
            first: None,
            last: None,
        });
    }
}

impl<T> Lists<T> {
    /// So many empty lists, and as many holders with nothing.
    pub fn new(alloc: Global, lists: usize) -> Result<Lists<T>, NoMemory>
        ensures items { IfOk result (λ made. (key : ℕ) → item_at made key ≡ None) }
        ensures lists { IfOk result (λ made. made.lists ≡ replicate lists []) }
        ensures held { IfOk result (λ made. made.held ≡ replicate lists []) }
        ensures spare { IfOk result (λ made. made.spare ≡ 0) }
    {
        let ends = empty_ends(alloc, lists)?;
        let held_ends = empty_ends(alloc, lists)?;
        Ok(Lists {
            nodes: Slab::new(alloc),
            ends,
            held_ends,
        })
    }

    /// Adds so many empty lists, and as many holders with nothing. Nothing else changes.
    pub fn widen(&mut self, lists: usize) -> Result<(), NoMemory>
        ensures lists { OnOk result (self.new.lists ≡ self.old.lists ++ replicate lists []) }
        ensures held { OnOk result (self.new.held ≡ self.old.held ++ replicate lists []) }
        ensures err { OnErr result (self.new ≡ self.old) }
        ensures items { self.new.items ≡ self.old.items }
        ensures spare { self.new.spare ≡ self.old.spare }
    {
        self.ends.reserve(lists)?;
        self.held_ends.reserve(lists)?;
        push_empty(&mut self.ends, lists);
        push_empty(&mut self.held_ends, lists);
        Ok(())
    }

    /// Makes room for so many more nodes. Nothing else changes.
    pub fn reserve(&mut self, more: usize) -> Result<(), NoMemory>
        ensures room { OnOk result (more ≤ self.new.spare) }
        ensures spare { self.old.spare ≤ self.new.spare }
        ensures kept { self.new ≡ record self.old { spare = self.new.spare } }
    {
        self.nodes.reserve(more)?;
        Ok(())
    }

    /// How many lists there are, and as many holders. Takes no memory.
    pub fn lists(&self) -> usize
        ensures lists { result ≡ length self.now.lists }
        ensures held { result ≡ length self.now.held }
    {
        self.ends.len()
    }

    /// Whether the key is one of a node. Takes no memory.
    pub fn contains(&self, key: usize) -> bool
        ensures { result ≡ is_some (item_at self.now key) }
    {
        self.nodes.contains(key)
    }

    /// Who holds a node. Takes no memory.
    pub fn holder<L: Ledger>(&self, key: usize, steps: &mut Steps<L>) -> Option<usize>
        ensures some { IfSome result (λ holder. has key (list_at self.now.held holder) ≡ true) }
        ensures none { IfNone result (IsFree self.now key) }
        ensures steps { steps.new ≡ steps.old + 1 }
    {
        steps.tick();
        match place_of(&self.nodes, HELD, key) {
            Some(place) => Some(place.list),
            None => None,
        }
    }

    /// The first node of a list. Takes no memory.
    pub fn first(&self, list: usize) -> Option<usize>
        requires { list < length self.now.lists }
        ensures first { result ≡ first_of (list_at self.now.lists list) }
        ensures live { IfSome result (λ key. IsLive self.now key) }
    {
        self.ends[list].first
    }

    /// The node that a holder has had longest. Takes no memory.
    pub fn first_held(&self, holder: usize) -> Option<usize>
        requires { holder < length self.now.held }
        ensures first { result ≡ first_of (list_at self.now.held holder) }
        ensures live { IfSome result (λ key. IsLive self.now key) }
    {
        self.held_ends[holder].first
    }

    /// The node behind this one in its list. Takes no memory.
    pub fn next<L: Ledger>(&self, key: usize, steps: &mut Steps<L>) -> Option<usize>
        requires { IsLive self.now key }
        ensures next { (list : ℕ) → has key (list_at self.now.lists list) ≡ true → result ≡ next_in key (list_at self.now.lists list) }
        ensures live { IfSome result (λ other. IsLive self.now other) }
        ensures steps { steps.new ≡ steps.old + 1 }
    {
        steps.tick();
        match place_of(&self.nodes, LISTED, key) {
            Some(place) => place.next,
            None => None,
        }
    }

    /// The item of a node. Takes no memory.
    pub fn get<L: Ledger>(&self, key: usize, steps: &mut Steps<L>) -> &T
        requires { IsLive self.now key }
        ensures item { item_at self.now key ≡ Some result.now }
        ensures steps { steps.new ≡ steps.old + 1 }
    {
        steps.tick();
        match self.nodes.get(key) {
            Some(node) => &node.item,
            None => unreachable!(),
        }
    }

    /// Puts a node last in a list; nobody holds it. Takes no memory.
    pub fn push_back<L: Ledger>(&mut self, list: usize, item: T, steps: &mut Steps<L>) -> usize
        requires list { list < length self.old.lists }
        requires spare { 1 ≤ self.old.spare }
        ensures item { Puts self.old self.new result item }
        ensures lists { self.new.lists ≡ slice_set self.old.lists list (list_at self.old.lists list ++ result ∷ []) }
        ensures held { self.new.held ≡ self.old.held }
        ensures spare { self.new.spare + 1 ≡ self.old.spare }
        ensures steps { steps.new ≡ steps.old + 1 }
    {
        steps.tick();
        let place = Place {
            list,
            previous: self.ends[list].last,
            next: None,
        };
        let key = self.nodes.insert_reserved(Node {
            item,
            places: [None, None],
        });
        put(&mut self.nodes, &mut self.ends, LISTED, key, place);
        key
    }

    /// Puts a node before another one, in its list; nobody holds it. Takes no memory.
    pub fn insert_before<L: Ledger>(&mut self, key: usize, item: T, steps: &mut Steps<L>) -> usize
        requires key { IsLive self.old key }
        requires spare { 1 ≤ self.old.spare }
        ensures item { Puts self.old self.new result item }
        ensures lists { self.new.lists ≡ map (λ keys. put_before key result keys) self.old.lists }
        ensures held { self.new.held ≡ self.old.held }
        ensures spare { self.new.spare + 1 ≡ self.old.spare }
        ensures steps { steps.new ≡ steps.old + 1 }
    {
        steps.tick();
        match place_of(&self.nodes, LISTED, key) {
            Some(other) => {
                let place = Place {
                    list: other.list,
                    previous: other.previous,
                    next: Some(key),
                };
                let made = self.nodes.insert_reserved(Node {
                    item,
                    places: [None, None],
                });
                put(&mut self.nodes, &mut self.ends, LISTED, made, place);
                made
            }
            None => unreachable!(),
        }
    }

    /// Takes a node out of its list, and out of its holder's list where it has a holder. Its key is gone. Takes no memory.
    pub fn unlink<L: Ledger>(&mut self, key: usize, steps: &mut Steps<L>) -> T
        requires { IsLive self.old key }
        ensures item { item_at self.old key ≡ Some result }
        ensures items { self.new.items ≡ slice_set self.old.items key None }
        ensures lists { self.new.lists ≡ map (λ keys. without key keys) self.old.lists }
        ensures held { self.new.held ≡ map (λ keys. without key keys) self.old.held }
        ensures spare { self.new.spare ≡ self.old.spare + 1 }
        ensures steps { steps.new ≡ steps.old + 1 }
    {
        steps.tick();
        let node = self.nodes.remove(key);
        join(&mut self.nodes, &mut self.ends, LISTED, node.places[LISTED]);
        join(
            &mut self.nodes,
            &mut self.held_ends,
            HELD,
            node.places[HELD],
        );
        node.item
    }

    /// Puts a node that nobody holds last in a holder's list. Takes no memory.
    pub fn hold<L: Ledger>(&mut self, key: usize, holder: usize, steps: &mut Steps<L>)
        requires key { IsLive self.old key }
        requires holder { holder < length self.old.held }
        requires free { IsFree self.old key }
        ensures held { self.new.held ≡ slice_set self.old.held holder (list_at self.old.held holder ++ key ∷ []) }
        ensures lists { self.new.lists ≡ self.old.lists }
        ensures items { self.new.items ≡ self.old.items }
        ensures spare { self.new.spare ≡ self.old.spare }
        ensures steps { steps.new ≡ steps.old + 1 }
    {
        steps.tick();
        let place = Place {
            list: holder,
            previous: self.held_ends[holder].last,
            next: None,
        };
        put(&mut self.nodes, &mut self.held_ends, HELD, key, place);
    }

    /// Takes a node out of its holder's list; one that nobody holds stays as it is. Takes no memory.
    pub fn let_go<L: Ledger>(&mut self, key: usize, steps: &mut Steps<L>)
        requires { IsLive self.old key }
        ensures held { self.new.held ≡ map (λ keys. without key keys) self.old.held }
        ensures lists { self.new.lists ≡ self.old.lists }
        ensures items { self.new.items ≡ self.old.items }
        ensures spare { self.new.spare ≡ self.old.spare }
        ensures steps { steps.new ≡ steps.old + 1 }
    {
        steps.tick();
        let place = place_of(&self.nodes, HELD, key);
        set_place(&mut self.nodes, HELD, key, None);
        join(&mut self.nodes, &mut self.held_ends, HELD, place);
    }
}

impl<T> Lists<T> {
    ghost use Rattle.std.specs.Borrow.{sem};
    ghost use Rattle.node_list.specs.Lending.{lends_item};

    /// The item of a node for writing. Takes no memory.
    pub fn get_mut<L: Ledger>(&mut self, key: usize, steps: &mut Steps<L>) -> &mut T
        requires { IsLive self.old key }
        ensures* writes_back { sem 𝓛 (lends_item T.row self.entry key result) }
        ensures value { item_at self.old key ≡ Some result.now }
        ensures steps { steps.new ≡ steps.old + 1 }
    {
        steps.tick();
        match self.nodes.get_mut(key) {
            Some(node) => &mut node.item,
            None => unreachable!(),
        }
    }
}
