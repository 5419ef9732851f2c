//! A tree of numbers: those to the left are below a node's number, those to the right above, and a node's rank is at
//! least those of its children. Ranks are as good as random, so that a tree of n numbers is about as deep as the logarithm of n.
ghost use Rattle.std.specs.Prelude.{◌≡◌, ◌++◌, ◌∷◌, is_some};
ghost use Rattle.number_tree.specs.Numbers.{Rising, has, below, from, with_number, without, first_of, first_above};
ghost use Rattle.number_tree.specs.Trees.{numbers};

use std::boxed::Box;
use std::mem;

#[cycle(tree)]
#[derive(Debug, Drop)]
pub(crate) enum Tree {
    Empty,
    Fork(Box<Node>),
}

#[cycle(tree)]
#[derive(Debug, Drop)]
pub(crate) struct Node {
    pub(crate) left: Tree,
    pub(crate) number: u64,
    pub(crate) right: Tree,
}

/// The rank of a number: its bits, well mixed.
fn rank(number: u64) -> u64 {
    let mixed = (number ^ (number >> 31)).wrapping_mul(0x9e37_79b9_7f4a_7c15);
    (mixed ^ (mixed >> 29)).wrapping_mul(0xbf58_476d_1ce4_e5b9)
}

/// Takes what is below a node out.
fn halves(node: &mut Node) -> (Tree, Tree)
    ensures left { result.0 ≡ node.old.left }
    ensures right { result.1 ≡ node.old.right }
    ensures number { node.new.number ≡ node.old.number }
{
    let left = mem::replace(&mut node.left, Tree::Empty);
    let right = mem::replace(&mut node.right, Tree::Empty);
    (left, right)
}

/// A node with these below it, in place of what was.
fn fork(node: Box<Node>, left: Tree, right: Tree) -> Tree
    ensures { numbers result ≡ numbers left ++ node.value.number ∷ numbers right }
{
    let mut node = node;
    drop(mem::replace(&mut node.left, left));
    drop(mem::replace(&mut node.right, right));
    Tree::Fork(node)
}

/// The numbers below this one, and the others.
#[tactic(auto, using(crate::proofs::Places::places))]
fn split(tree: Tree, number: u64) -> (Tree, Tree)
    requires { Rising (numbers tree) }
    ensures low { numbers result.0 ≡ below number (numbers tree) }
    ensures high { numbers result.1 ≡ from number (numbers tree) }
{
    match tree {
        Tree::Empty => (Tree::Empty, Tree::Empty),
        Tree::Fork(node) => {
            let mut node = node;
            let (left, right) = halves(&mut node);
            if node.number < number {
                let (low, high) = split(right, number);
                (fork(node, left, low), high)
            } else {
                let (low, high) = split(left, number);
                (low, fork(node, high, right))
            }
        }
    }
}

/// All numbers of two trees, those of the first first.
#[tactic(auto, using(crate::proofs::Places::places))]
fn join(left: Tree, right: Tree) -> Tree
    ensures { numbers result ≡ numbers left ++ numbers right }
{
    match left {
        Tree::Empty => right,
        Tree::Fork(first) => match right {
            Tree::Empty => Tree::Fork(first),
            Tree::Fork(second) => {
                let mut first = first;
                let mut second = second;
                if rank(first.number) < rank(second.number) {
                    let (low, high) = halves(&mut second);
                    let low = join(Tree::Fork(first), low);
                    fork(second, low, high)
                } else {
                    let (low, high) = halves(&mut first);
                    let high = join(high, Tree::Fork(second));
                    fork(first, low, high)
                }
            }
        },
    }
}

/// Puts a node in that has this number.
#[tactic(auto, using(crate::proofs::Places::places))]
pub(crate) fn put(tree: Tree, node: Box<Node>) -> Tree
    requires { Rising (numbers tree) }
    ensures { numbers result ≡ with_number node.value.number (numbers tree) }
{
    match tree {
        Tree::Empty => fork(node, Tree::Empty, Tree::Empty),
        Tree::Fork(root) => {
            let mut root = root;
            if rank(root.number) < rank(node.number) {
                let (low, high) = split(Tree::Fork(root), node.number);
                fork(node, low, high)
            } else {
                let (low, high) = halves(&mut root);
                if root.number < node.number {
                    fork(root, low, put(high, node))
                } else {
                    fork(root, put(low, node), high)
                }
            }
        }
    }
}

/// Takes the node of a number out, where there is one.
#[tactic(auto, using(crate::proofs::Places::places))]
pub(crate) fn take(tree: Tree, number: u64) -> (Tree, Option<Box<Node>>)
    requires { Rising (numbers tree) }
    ensures numbers { numbers result.0 ≡ without number (numbers tree) }
    ensures there { is_some result.1 ≡ has number (numbers tree) }
{
    match tree {
        Tree::Empty => (Tree::Empty, None),
        Tree::Fork(root) => {
            let mut root = root;
            let (low, high) = halves(&mut root);
            if root.number < number {
                let (high, found) = take(high, number);
                (fork(root, low, high), found)
            } else if number < root.number {
                let (low, found) = take(low, number);
                (fork(root, low, high), found)
            } else {
                (join(low, high), Some(root))
            }
        }
    }
}

/// Whether a number is there.
#[tactic(auto, using(crate::proofs::Places::places))]
pub(crate) fn is_there(tree: &Tree, number: u64) -> bool
    requires { Rising (numbers tree.now) }
    ensures { result ≡ has number (numbers tree.now) }
{
    match tree {
        Tree::Empty => false,
        Tree::Fork(root) => {
            if root.number < number {
                is_there(right_of(root), number)
            } else if number < root.number {
                is_there(left_of(root), number)
            } else {
                true
            }
        }
    }
}

fn left_of(node: &Node) -> &Tree
    ensures { result.now ≡ node.now.left }
{
    &node.left
}

fn right_of(node: &Node) -> &Tree
    ensures { result.now ≡ node.now.right }
{
    &node.right
}

/// The least number.
pub(crate) fn least(tree: &Tree) -> Option<u64>
    ensures { result ≡ first_of (numbers tree.now) }
{
    match tree {
        Tree::Empty => None,
        Tree::Fork(root) => match least(left_of(root)) {
            Some(number) => Some(number),
            None => Some(root.number),
        },
    }
}

/// The least number above this one.
#[tactic(auto, using(crate::proofs::Places::places))]
pub(crate) fn least_above(tree: &Tree, number: u64) -> Option<u64>
    requires { Rising (numbers tree.now) }
    ensures { result ≡ first_above number (numbers tree.now) }
{
    match tree {
        Tree::Empty => None,
        Tree::Fork(root) => {
            if root.number <= number {
                least_above(right_of(root), number)
            } else {
                match least_above(left_of(root), number) {
                    Some(least) => Some(least),
                    None => Some(root.number),
                }
            }
        }
    }
}
