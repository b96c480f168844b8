// The nodes that a call needs, one by one.
ghost use Rattle.std.specs.Prelude.{◌≡◌, ◌≤◌, ◌<◌, ◌∷◌, ◌&&◌, ℕ, List, length, Some, slice_get, IfSome};
ghost use Rattle.tree_config.specs.declared.plan.Origin.{Origin};
ghost use Rattle.tree_config.specs.Tree.{parent_in};
ghost use Rattle.rbg_nodes.specs.Node.{entropy_len, is_due};
ghost use Rattle.tree_rules.specs.Slots.{node_plan};
ghost use Rattle.tree_rules.specs.Links.{is_alive, must_seed, seeding_len};
ghost use Rattle.tree_acts.specs.Plain.{node_of, task_in, link_of};

use crate::plain::PlainNode;
use rbg_nodes::NodeRow;
use tree_config::{NodeKind, Origin, TreePlan};

/// What a call asks of a node.
#[derive(Clone, Copy)]
pub enum Asked {
    Instantiate,
    Reseed,
    Give { len: u32 },
    Rest,
}

/// A node as a call finds it, and what is asked of it.
#[derive(Clone, Copy)]
pub struct Step {
    pub slot: u16,
    pub row: NodeRow,
    pub node: PlainNode,
    pub asked: Asked,
}

impl Step {
    /// Whether it is instantiated, or about to be.
    pub fn is_alive(self) -> bool
        ensures { (o : Origin) → result ≡ is_alive (link_of self o) }
    {
        match self.asked {
            Asked::Instantiate => true,
            _ => self.node.live,
        }
    }

    /// Whether its reseed counter is above its interval.
    pub fn is_due(self) -> bool
        ensures { result ≡ is_due self.row (node_of self.node) }
    {
        self.node.counter > self.row.interval
    }

    /// Whether it must be seeded.
    pub fn must_seed(self, pr: bool) -> bool
        ensures { (o : Origin) → result ≡ must_seed pr (link_of self o) }
    {
        match self.asked {
            Asked::Instantiate => true,
            Asked::Reseed => true,
            Asked::Give { len: _ } => {
                self.is_due() || pr || matches!(self.row.kind, NodeKind::Rbg3Rs)
            }
            Asked::Rest => false,
        }
    }

    /// Whether its seeding comes from its origin now: it is alive, and must be seeded.
    pub fn asks(self, pr: bool) -> bool
        ensures { (o : Origin) → result ≡ (is_alive (link_of self o) && must_seed pr (link_of self o)) }
    {
        self.is_alive() && self.must_seed(pr)
    }

    /// The bytes of entropy of its seedings.
    pub fn entropy_len(self) -> u32
        ensures len { result ≡ entropy_len self.row }
        ensures range { (16 ≤ result) × (result ≤ 32) }
    {
        u32::from(self.row.drbg.strength()) / 8
    }

    /// The bytes that its seeding takes.
    pub fn seeding_len(self) -> u32
        ensures len { (o : Origin) → result ≡ seeding_len (link_of self o) }
        ensures range { result ≤ 48 }
    {
        match self.asked {
            Asked::Instantiate => { self.entropy_len() + u32::from(self.row.drbg.strength()) / 16 }
            _ => self.entropy_len(),
        }
    }
}

/// The parent of node n, which is a node of the plan.
pub fn parent(plan: &TreePlan, n: u16) -> Option<u16>
    requires there { n < length plan.now.nodes }
    ensures parent { result ≡ parent_in (node_plan plan.now n).origin }
    ensures there { IfSome result (λ q. q < length plan.now.nodes) }
{
    let _tree = plan.nodes();
    match &plan.node(n).origin {
        Origin::Parent(q) => Some(*q),
        _ => None,
    }
}
