//! A list in a balanced tree, in which each node counts the items below it.
//! Allocates.
ghost use Rattle.std.specs.Prelude.{◌≡◌, ◌+◌, ◌^◌, ◌<◌, ◌≤◌, [], ◌∷◌, ◌++◌, length, reverse, slice_get, is_ok, if◌then◌else◌, IfOk, IfNone, OnOk};
ghost use Rattle.std.specs.List.{prefix_len, insert, remove};
ghost use Rattle.std.specs.List.Sorted.{IsStrictlySortedBy};
ghost use Rattle.std.specs.Option.{option_to_list};
ghost use Rattle.std.specs.Ordering.{is_lt};
ghost use Rattle.ranked_set.specs.Nodes.{items, without_top, left_items, CountsItems};
ghost use Rattle.ranked_set.specs.Windows.{seen_by};
ghost use Rattle.ranked_set.specs.declared.tree.Node.TheVariants.{Fork};

use crate::window::Window;
use arch_base::NoMemory;
use std::alloc::Global;
use std::marker::Model;
use std::mem;

/// A list in a tree. At each node, one side with one item more is at most three times as long as the
/// other side with one item more.
#[cycle(tree)]
#[derive(Drop)]
pub(crate) struct Tree<T> {
    node: Node<T>,
}

/// The items of a tree: none; or those on the left, one in the middle, and those on the right, with
/// their count.
#[cycle(tree)]
#[derive(Drop)]
enum Node<T> {
    Leaf,
    Fork(Box<Tree<T>>, T, usize, Box<Tree<T>>),
}

// A clause sees the items in order. Each node has their right count.
impl<T> Model for Tree<T> {
    ghost use Rattle.std.specs.Prelude.{List, length};

    ghost Value = { List T };

    ghost use Rattle.ranked_set.specs.Nodes.{items, CountsItems};

    ghost view = { λ t. items t.node };

    ghost invariant = { λ t. CountsItems t.node };

    ghost size = { length };

    ghost use Rattle.std.proofs.Common.{arith, length-append};

    ghost size_decreases = { λ t h. Prim.grind (arith, length-append) };
}

impl<T: Copy> Tree<T> {
    /// Returns an empty list. Allocates nothing.
    pub(crate) fn new() -> Self
        ensures { result ≡ [] }
    {
        Tree { node: Node::Leaf }
    }

    /// Returns the number of items.
    pub(crate) fn len(&self) -> usize
        ensures { result ≡ length self.now }
    {
        match self.node {
            Node::Leaf => 0,
            Node::Fork(_, _, len, _) => len,
        }
    }

    /// Returns the node.
    fn open(self) -> Node<T>
        ensures same { items result ≡ self }
        ensures counted { CountsItems result }
    {
        self.node
    }

    /// Returns the tree of a node.
    fn close(node: Node<T>) -> Self
        requires { CountsItems node }
        ensures { result ≡ items node }
    {
        Tree { node }
    }

    /// Returns the item at an index, or `None` past the end.
    pub(crate) fn get(&self, index: usize) -> Option<T>
        ensures { result ≡ slice_get self.now index }
    {
        match &self.node {
            Node::Leaf => None,
            Node::Fork(left, item, _, right) => {
                let len = left.len();
                if index < len {
                    left.get(index)
                } else if index > len {
                    right.get(index - len - 1)
                } else {
                    Some(*item)
                }
            }
        }
    }

    /// Inserts an item before the one at an index, or at the end.
    ///
    /// `NoMemory` leaves the list unchanged.
    pub(crate) fn insert(&mut self, alloc: Global, index: usize, item: T) -> Result<(), NoMemory>
        requires within { index ≤ length self.old }
        requires room { length self.old < 2 ^ 63 }
        ensures { self.new ≡ (if is_ok result then insert self.old index item else self.old) }
    {
        match &mut self.node {
            Node::Leaf => {
                self.node = single(alloc, item)?;
                return Ok(());
            }
            Node::Fork(left, _, _, right) => {
                let len = left.len();
                if index <= len {
                    left.insert(alloc, index, item)?;
                } else {
                    right.insert(alloc, index - len - 1, item)?;
                }
            }
        }
        rebalance(&mut self.node);
        Ok(())
    }

    /// Removes the item at an index.
    pub(crate) fn remove(&mut self, index: usize)
        requires { index < length self.old }
        ensures { self.new ≡ remove self.old index }
    {
        match &mut self.node {
            Node::Leaf => unreachable!(),
            Node::Fork(left, _, _, right) => {
                let len = left.len();
                if index < len {
                    left.remove(index);
                    rebalance(&mut self.node);
                } else if index > len {
                    right.remove(index - len - 1);
                    rebalance(&mut self.node);
                } else {
                    remove_top(&mut self.node);
                }
            }
        }
    }

    /// Removes the last item and returns it, or `None` if there is none.
    fn pop_last(&mut self) -> Option<T>
        ensures items { self.old ≡ self.new ++ option_to_list result }
        ensures none { IfNone result (self.old ≡ []) }
    {
        match &mut self.node {
            Node::Leaf => None,
            Node::Fork(_, item, _, right) => {
                let item = *item;
                match right.pop_last() {
                    Some(last) => {
                        rebalance(&mut self.node);
                        Some(last)
                    }
                    None => {
                        keep_left(&mut self.node);
                        Some(item)
                    }
                }
            }
        }
    }

    /// Appends the items that a window shows of the list from its end on, the last item first.
    ///
    /// `NoMemory` may leave some of them appended.
    pub(crate) fn push_last(&self, window: Window, into: &mut Vec<T>) -> Result<(), NoMemory>
        ensures { OnOk result (into.new.items
            ≡ into.old.items ++ seen_by window (reverse self.now)) }
    {
        match &self.node {
            Node::Leaf => Ok(()),
            Node::Fork(left, item, len, right) => {
                if window.is_past(*len) {
                    return Ok(());
                }
                right.push_last(window, into)?;
                let here = window.after(right.len());
                here.push_item(*item, into)?;
                left.push_last(here.after(1), into)
            }
        }
    }
}

impl<T: Ord + Copy> Tree<T> {
    /// Returns how many items at the front are less than a key, of items in order.
    pub(crate) fn rank(&self, key: &T) -> usize
        requires { IsStrictlySortedBy T.cmp self.now }
        ensures value { result ≡ prefix_len (λ item. is_lt (T.cmp item key.now)) self.now }
        ensures within { result ≤ length self.now }
    {
        match &self.node {
            Node::Leaf => 0,
            Node::Fork(left, item, _, right) => {
                if item.cmp(key).is_lt() {
                    self.len() - right.len() + right.rank(key)
                } else {
                    left.rank(key)
                }
            }
        }
    }
}

/// Returns the node of one item.
fn single<T: Copy>(alloc: Global, item: T) -> Result<Node<T>, NoMemory>
    ensures items { IfOk result (λ node. items node ≡ item ∷ []) }
    ensures counted { IfOk result CountsItems }
{
    let left = Box::new(alloc, Tree::new())?;
    let right = Box::new(alloc, Tree::new())?;
    Ok(Node::Fork(left, item, 1, right))
}

/// Joins a left side, an item and a right side.
fn fork<T: Copy>(left: Box<Tree<T>>, item: T, right: Box<Tree<T>>) -> Node<T>
    requires { length left.value + length right.value + 1 < 2 ^ 64 }
    ensures { result ≡ Fork left item (length left.value + length right.value + 1) right }
{
    let len = left.len() + right.len() + 1;
    Node::Fork(left, item, len, right)
}

/// Balances a node, whose count may be wrong, after one item more or less on one of its sides.
fn rebalance<T: Copy>(node: &mut Node<T>)
    requires { length (items node.old) < 2 ^ 64 }
    ensures items { items node.new ≡ items node.old }
    ensures counted { CountsItems node.new }
{
    *node = match mem::replace(node, Node::Leaf) {
        Node::Leaf => Node::Leaf,
        Node::Fork(left, item, _, right) => balanced(left, item, right),
    };
}

/// Removes the item in the middle of a node.
fn remove_top<T: Copy>(node: &mut Node<T>)
    requires { length (items node.old) < 2 ^ 64 }
    ensures items { items node.new ≡ without_top node.old }
    ensures counted { CountsItems node.new }
{
    *node = match mem::replace(node, Node::Leaf) {
        Node::Leaf => Node::Leaf,
        Node::Fork(left, _, _, right) => joined(left, right),
    };
}

/// Keeps the left side of a node alone.
fn keep_left<T: Copy>(node: &mut Node<T>)
    ensures items { items node.new ≡ left_items node.old }
    ensures counted { CountsItems node.new }
{
    *node = match mem::replace(node, Node::Leaf) {
        Node::Leaf => Node::Leaf,
        Node::Fork(left, _, _, _) => Box::into_inner(left).open(),
    };
}

/// Joins two sides that were those of one balanced node.
fn joined<T: Copy>(mut left: Box<Tree<T>>, right: Box<Tree<T>>) -> Node<T>
    requires { length left.value + length right.value < 2 ^ 64 }
    ensures items { items result ≡ left.value ++ right.value }
    ensures counted { CountsItems result }
{
    match left.pop_last() {
        Some(last) => balanced(left, last, right),
        None => Box::into_inner(right).open(),
    }
}

/// Joins a left side, an item and a right side into a balanced node. The sides were those of one with
/// one item more or less.
fn balanced<T: Copy>(left: Box<Tree<T>>, item: T, right: Box<Tree<T>>) -> Node<T>
    requires { length left.value + length right.value + 1 < 2 ^ 64 }
    ensures items { items result ≡ left.value ++ item ∷ right.value }
    ensures counted { CountsItems result }
{
    if left.len() / 3 > right.len() {
        return lean_left(left, item, right);
    }
    if right.len() / 3 > left.len() {
        return lean_right(left, item, right);
    }
    fork(left, item, right)
}

/// Joins a left side that is too long, an item and a right side.
fn lean_left<T: Copy>(mut left: Box<Tree<T>>, item: T, right: Box<Tree<T>>) -> Node<T>
    requires some { 0 < length left.value }
    requires room { length left.value + length right.value + 1 < 2 ^ 64 }
    ensures items { items result ≡ left.value ++ item ∷ right.value }
    ensures counted { CountsItems result }
{
    let Node::Fork(outer, middle, _, mut inner) = mem::replace(&mut *left, Tree::new()).open()
    else {
        unreachable!()
    };
    if inner.len().saturating_sub(outer.len()) <= outer.len() {
        *left = Tree::close(fork(inner, item, right));
        return fork(outer, middle, left);
    }
    let Node::Fork(near, top, _, far) = mem::replace(&mut *inner, Tree::new()).open() else {
        unreachable!()
    };
    *inner = Tree::close(fork(outer, middle, near));
    *left = Tree::close(fork(far, item, right));
    fork(inner, top, left)
}

/// Joins a left side, an item and a right side that is too long.
fn lean_right<T: Copy>(left: Box<Tree<T>>, item: T, mut right: Box<Tree<T>>) -> Node<T>
    requires some { 0 < length right.value }
    requires room { length left.value + length right.value + 1 < 2 ^ 64 }
    ensures items { items result ≡ left.value ++ item ∷ right.value }
    ensures counted { CountsItems result }
{
    let Node::Fork(mut inner, middle, _, outer) = mem::replace(&mut *right, Tree::new()).open()
    else {
        unreachable!()
    };
    if inner.len().saturating_sub(outer.len()) <= outer.len() {
        *right = Tree::close(fork(left, item, inner));
        return fork(right, middle, outer);
    }
    let Node::Fork(far, top, _, near) = mem::replace(&mut *inner, Tree::new()).open() else {
        unreachable!()
    };
    *right = Tree::close(fork(left, item, far));
    *inner = Tree::close(fork(near, middle, outer));
    fork(right, top, inner)
}
