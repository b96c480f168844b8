// What a call holds.
ghost use Rattle.std.specs.Prelude.{◌≡◌, ℕ, IsSome, IsTrue, Some, ◌↔◌};
ghost use Rattle.std.specs.Borrow.{sem};
ghost use Rattle.rbg_nodes.specs.Views.{NodeView};
ghost use Rattle.tree_acts.specs.Hold.{Hold, IsHeld, PutsNode, PutsSource};
ghost use Rattle.tree_acts.specs.Lent.{LendsNode, LendsSource};

use rbg_nodes::Node;

/// Nodes and sources of a tree, each at its slot.
pub trait Holdings<E> {
    /// What is held at each slot.
    ghost what: { Self → Hold E };

    /// The same with another node, or another source, at a slot.
    ghost with_node: { Self → ℕ → NodeView → Self };

    ghost with_source: { Self → ℕ → E → Self };

    /// Whether something is held at a slot.
    fn held(&self, slot: u16) -> bool
        ensures { IsTrue result ↔ IsHeld (what self.now) slot };

    fn node(&self, slot: u16) -> &Node
        requires { IsSome ((what self.now).nodes slot) }
        ensures { (what self.now).nodes slot ≡ Some result.now };

    fn node_mut(&mut self, slot: u16) -> &mut Node
        requires { IsSome ((what self.old).nodes slot) }
        ensures* after { sem 𝓛 (LendsNode Self.row self.entry result (λ w. with_node self.old slot w)) }
        ensures value { (what self.old).nodes slot ≡ Some result.now };

    fn source(&self, slot: u16) -> &E
        requires { IsSome ((what self.now).sources slot) }
        ensures { (what self.now).sources slot ≡ Some result.now };

    fn source_mut(&mut self, slot: u16) -> &mut E
        requires { IsSome ((what self.old).sources slot) }
        ensures* after { sem 𝓛 (LendsSource Self.row E.row self.entry result (λ w. with_source self.old slot w)) }
        ensures value { (what self.old).sources slot ≡ Some result.now };

    ghost puts_node: { (h : Self) (k : ℕ) (w : NodeView) → IsSome ((what h).nodes k) → PutsNode (what h) (what (with_node h k w)) k w };

    ghost puts_source: { (h : Self) (k : ℕ) (w : E) → IsSome ((what h).sources k) → PutsSource (what h) (what (with_source h k w)) k w };
}
