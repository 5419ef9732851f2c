//! The copies of a list, one after another.
ghost use Rattle.std.specs.Prelude.{◌≡◌, ◌<◌, ℕ, Some, true};
ghost use Rattle.queue_copies.specs.Copied.{holder_of};
ghost use Rattle.queue_copies.specs.Sound.{seen_hold};
ghost use Rattle.queue_copies.specs.Iter.{rest, Stands};
ghost use Rattle.std.specs.Option.{option_copied};
ghost use Rattle.std.specs.Iterator.{YieldsFirstBy, item_count};
ghost use Rattle.node_list.specs.Keys.{has, next_in, list_at};
ghost use Rattle.node_list.specs.Lists.{item_at, IsLive};

use crate::entry::{Entry, Holder, QueueCopy};
use node_list::{Lists, Steps};
use std::marker::{Brand, Model};
use std::sync::ledger::{Blank, Ledger};

/// The copies of a list by rising number, each with its holder.
#[derive(Debug, Drop)]
pub struct CopiesIter<'a> {
    nodes: &'a Lists<Entry>,
    list: usize,
    /// The node of the next copy.
    next: Option<usize>,
}

impl<'a> Model for CopiesIter<'a> {
    ghost use Rattle.std.specs.Prelude.{List, Option};
    ghost use Rattle.std.specs.Coded.{codes};
    ghost use Rattle.amqp_values.specs.contracts.value.Value as e;
    ghost use Rattle.queue_copies.specs.declared.entry.Holder.{Holder};
    ghost use Rattle.queue_copies.specs.declared.entry.QueueCopy.{QueueCopy};
    ghost use Rattle.queue_copies.specs.Copied.{holder_of};
    ghost use Rattle.queue_copies.specs.Sound.{seen_hold};
    ghost use Rattle.queue_copies.specs.Iter.{rest, Stands};

    ghost Value = { List (QueueCopy × Option Holder) };

    ghost coded = { Prim.hlevel (codes, e.the_row.coded) };

    ghost view = { λ it. rest it.nodes.now it.list it.next };

    ghost invariant = { λ it. Stands it.nodes.now it.list it.next };
}

/// An entry, and the node behind it.
fn read_by<L: Ledger>(nodes: &Lists<Entry>, key: usize, blank: Blank) -> (&Entry, Option<usize>)
    requires name { blank.name ≡ L.name }
    requires parts { blank.parts ≡ L.parts }
    requires some { 0 < L.parts }
    requires live { IsLive nodes.now key }
    ensures item { item_at nodes.now key ≡ Some result.0.now }
    ensures next { (list : ℕ) → has key (list_at nodes.now.lists list) ≡ true → result.1 ≡ next_in key (list_at nodes.now.lists list) }
{
    let mut steps = Steps::<L>::open(blank);
    let entry = nodes.get(key, &mut steps);
    (entry, nodes.next(key, &mut steps))
}

fn holder_of(entry: &Entry) -> Option<&Holder>
    ensures { option_copied result ≡ holder_of (seen_hold entry.now.held) }
{
    match &entry.held {
        Some(held) => Some(&held.holder),
        None => None,
    }
}

impl<'a> CopiesIter<'a> {
    /// From a list's first node on.
    pub(crate) fn new(nodes: &'a Lists<Entry>, list: usize, next: Option<usize>) -> CopiesIter<'a>
        requires { Stands nodes.now list next }
        ensures { result ≡ rest nodes.now list next }
    {
        CopiesIter { nodes, list, next }
    }
}

impl<'a> Iterator for CopiesIter<'a> {
    type Item = (&'a QueueCopy, Option<&'a Holder>);

    ghost next_gives = { YieldsFirstBy (λ item. (item.0.now, option_copied item.1)) (λ rest. rest) };

    ghost remaining = { item_count (λ rest. rest) };

    fn next(&mut self) -> Option<(&'a QueueCopy, Option<&'a Holder>)> {
        let key = self.next?;
        let (entry, next) = read_by::<Brand>(self.nodes, key, Blank::new(1));
        self.next = next;
        Some((&entry.copy, holder_of(entry)))
    }
}
