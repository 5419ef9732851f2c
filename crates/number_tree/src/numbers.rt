//! Sets of numbers.
ghost use Rattle.std.specs.Prelude.{◌≡◌, [], false, is_some, IfOk};
ghost use Rattle.number_tree.specs.Numbers.{has, with_number, without, first_of, first_above};

use crate::tree::{Node, Tree, is_there, least, least_above, put, take};
use octet_reading::NoMemory;
use std::alloc::Global;
use std::boxed::Box;
use std::marker::Model;
use std::mem;

/// Room for one number: a node that is in no tree.
#[derive(Debug, Drop)]
pub struct Slot {
    node: Box<Node>,
}

impl Slot {
    /// Room for one number more.
    pub fn new(alloc: Global) -> Result<Slot, NoMemory> {
        let node = Box::new(
            alloc,
            Node {
                left: Tree::Empty,
                number: 0,
                right: Tree::Empty,
            },
        )?;
        Ok(Slot { node })
    }
}

/// A set of numbers. What is put in comes with its room, and what is taken out gives it back, so that no call here takes
/// memory. A call takes steps as the tree is deep: about the logarithm of how many numbers there are.
#[derive(Debug, Drop)]
pub struct Numbers {
    root: Tree,
}

impl Model for Numbers {
    ghost use Rattle.std.specs.Prelude.{ℕ, List};
    ghost use Rattle.number_tree.specs.Numbers.{Rising};
    ghost use Rattle.number_tree.specs.Trees.{numbers};

    ghost Value = { List ℕ };

    ghost view = { λ n. numbers n.root };

    ghost invariant = { λ n. Rising (numbers n.root) };
}

impl Numbers {
    /// No numbers.
    pub fn new() -> Numbers
        ensures { result ≡ [] }
    {
        Numbers { root: Tree::Empty }
    }

    /// Puts a number in that isn't there.
    pub fn put(&mut self, number: u64, slot: Slot)
        requires { has number self.old ≡ false }
        ensures { self.new ≡ with_number number self.old }
    {
        let Slot { node } = slot;
        let mut node = node;
        node.number = number;
        let root = mem::replace(&mut self.root, Tree::Empty);
        self.root = put(root, node);
    }

    /// Takes a number out, and gives its room back; none where it isn't there.
    pub fn take(&mut self, number: u64) -> Option<Slot>
        ensures numbers { self.new ≡ without number self.old }
        ensures there { is_some result ≡ has number self.old }
    {
        let root = mem::replace(&mut self.root, Tree::Empty);
        let (root, found) = take(root, number);
        self.root = root;
        match found {
            Some(node) => Some(Slot { node }),
            None => None,
        }
    }

    /// Whether a number is there.
    pub fn has(&self, number: u64) -> bool
        ensures { result ≡ has number self.now }
    {
        is_there(&self.root, number)
    }

    /// The least number.
    pub fn first(&self) -> Option<u64>
        ensures { result ≡ first_of self.now }
    {
        least(&self.root)
    }

    /// The least number above this one.
    pub fn first_above(&self, number: u64) -> Option<u64>
        ensures { result ≡ first_above number self.now }
    {
        least_above(&self.root, number)
    }
}
