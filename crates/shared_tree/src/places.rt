//! Places for the nodes that a call holds.
ghost use Rattle.std.specs.Prelude.{◌≡◌, ◌≢◌, ◌↔◌, ◌<◌, ◌+◌, ℕ, Option, Some, None, IsTrue, IsSome};
ghost use Rattle.std.specs.Borrow.{sem};
ghost use Rattle.rbg_nodes.specs.Views.{NodeView};
ghost use Rattle.tree_acts.specs.Lent.{LendsNode};

use crate::boxed::Boxed;
use rbg_nodes::Node;

pub trait Places: Drop {
    // The node that is held at a slot.
    ghost at: { Self → ℕ → Option NodeView };

    // The same places with another node at a slot.
    ghost with: { Self → ℕ → NodeView → Self };

    // How many places are free.
    ghost room: { Self → ℕ };

    fn has(&self, slot: u16) -> bool
        ensures { IsTrue result ↔ IsSome (at self.now slot) };

    fn is_full(&self) -> bool
        ensures { IsTrue result ↔ (room self.now ≡ 0) };

    fn node(&self, slot: u16) -> &Node
        requires { IsSome (at self.now slot) }
        ensures { at self.now slot ≡ Some result.now };

    fn node_mut(&mut self, slot: u16) -> &mut Node
        requires { IsSome (at self.old slot) }
        ensures* after { sem 𝓛 (LendsNode Self.row self.entry result (λ w. with self.old slot w)) }
        ensures value { at self.old slot ≡ Some result.now };

    fn put(&mut self, slot: u16, node: Boxed<Node>)
        requires room { 0 < room self.old }
        requires free { at self.old slot ≡ None }
        ensures there { at self.new slot ≡ Some node }
        ensures others { (k : ℕ) → k ≢ slot → at self.new k ≡ at self.old k }
        ensures room { room self.new + 1 ≡ room self.old };

    fn take(&mut self, slot: u16) -> Boxed<Node>
        requires { IsSome (at self.old slot) }
        ensures there { at self.old slot ≡ Some result }
        ensures others { (k : ℕ) → k ≢ slot → at self.new k ≡ at self.old k };

    ghost put_there: { (h : Self) (k : ℕ) (w : NodeView) → IsSome (at h k) → at (with h k w) k ≡ Some w };

    ghost put_else: { (h : Self) (j k : ℕ) (w : NodeView) → IsSome (at h k) → j ≢ k → at (with h k w) j ≡ at h j };
}

#[derive(Drop)]
pub enum Place {
    Empty,
    Holds { slot: u16, node: Boxed<Node> },
}

impl Places for Place {
    ghost use Rattle.shared_tree.specs.One.{node_in, with_node, room_in};
    ghost use Rattle.shared_tree.specs.OneLaws.{there, elsewhere};

    ghost at = { node_in };

    ghost with = { with_node };

    ghost room = { room_in };

    fn has(&self, slot: u16) -> bool {
        match self {
            Place::Empty => false,
            Place::Holds { slot: own, node: _ } => *own == slot,
        }
    }

    fn is_full(&self) -> bool {
        match self {
            Place::Empty => false,
            Place::Holds { slot: _, node: _ } => true,
        }
    }

    fn node(&self, slot: u16) -> &Node {
        match self {
            Place::Empty => unreachable!(),
            Place::Holds { slot: _, node } => node.get(),
        }
    }

    fn node_mut(&mut self, slot: u16) -> &mut Node {
        match self {
            Place::Empty => unreachable!(),
            Place::Holds { slot: _, node } => node.get_mut(),
        }
    }

    fn put(&mut self, slot: u16, node: Boxed<Node>) {
        *self = Place::Holds { slot, node };
    }

    fn take(&mut self, slot: u16) -> Boxed<Node> {
        match std::mem::replace(self, Place::Empty) {
            Place::Empty => unreachable!(),
            Place::Holds { slot: _, node } => node,
        }
    }

    ghost put_there = { there };

    ghost put_else = { elsewhere };
}

#[derive(Drop)]
pub struct Two<P: Places> {
    pub(crate) one: P,
    pub(crate) other: P,
}

impl<P: Places> Places for Two<P> {
    ghost use Rattle.std.specs.Prelude.{◌+◌};
    ghost use Rattle.shared_tree.specs.Both.{in_both, with_both};
    ghost use Rattle.shared_tree.specs.BothLaws.{there, elsewhere};

    ghost at = { in_both P.at };

    ghost with = { with_both P.at P.with };

    ghost room = { λ h. P.room h.one + P.room h.other };

    fn has(&self, slot: u16) -> bool {
        self.one.has(slot) || self.other.has(slot)
    }

    fn is_full(&self) -> bool {
        self.one.is_full() && self.other.is_full()
    }

    fn node(&self, slot: u16) -> &Node {
        if self.one.has(slot) {
            self.one.node(slot)
        } else {
            self.other.node(slot)
        }
    }

    fn node_mut(&mut self, slot: u16) -> &mut Node {
        if self.one.has(slot) {
            self.one.node_mut(slot)
        } else {
            self.other.node_mut(slot)
        }
    }

    fn put(&mut self, slot: u16, node: Boxed<Node>) {
        if self.one.is_full() {
            self.other.put(slot, node);
        } else {
            self.one.put(slot, node);
        }
    }

    fn take(&mut self, slot: u16) -> Boxed<Node> {
        if self.one.has(slot) {
            self.one.take(slot)
        } else {
            self.other.take(slot)
        }
    }

    ghost put_there = { there P.at P.with P.put_there P.put_else };

    ghost put_else = { elsewhere P.at P.with P.put_there P.put_else };
}
