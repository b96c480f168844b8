// Following parents from node to node.
ghost use Rattle.std.specs.Prelude.{◌≡◌, ◌<◌, ◌↔◌, IsTrue, length};
ghost use Rattle.tree_config.specs.Graph.{parent_at, LacksParent, IsOnCycle, HasDepth, IsNever, FindsLeast};
ghost use Rattle.tree_config.specs.Tree.{parents, parent_in};
ghost use Rattle.tree_config.specs.Walks.{Walks};

use crate::plan::{NodePlan, Origin};

/// Where following parents leads from a node: to a node without a parent, back, or neither in as many steps as
/// there are nodes.
#[derive(Clone, Copy, Drop)]
pub(crate) enum Way {
    Root { depth: usize },
    Back,
    Lost,
}

// The number of a node's parent.
fn parent_of(node: &NodePlan) -> Option<usize>
    ensures { result ≡ parent_in node.now.origin }
{
    match node.origin {
        Origin::Parent(p) => Some(usize::from(p)),
        _ => None,
    }
}

/// The parent of node n.
pub(crate) fn parent(nodes: &[NodePlan], n: usize) -> Option<usize>
    requires { n < length nodes.now }
    ensures { result ≡ parent_at (parents nodes.now) n }
{
    parent_of(&nodes[n])
}

// Follows parents from node n.
fn way_from(nodes: &[NodePlan], n: usize) -> Way
    requires known { IsNever (LacksParent (parents nodes.now)) }
    requires within { n < length nodes.now }
    ensures { Walks (parents nodes.now) n result }
{
    let mut at = n;
    for edges in 0..nodes.len() {
        match parent(nodes, at) {
            None => return Way::Root { depth: edges + 1 },
            Some(p) => {
                if p == n {
                    return Way::Back;
                }
                at = p;
            }
        }
    }
    Way::Lost
}

// Whether following parents from node n comes back to it: not where it only leads into a cycle of other nodes.
fn comes_back(nodes: &[NodePlan], n: usize) -> bool
    requires known { IsNever (LacksParent (parents nodes.now)) }
    requires within { n < length nodes.now }
    ensures { IsTrue result ↔ IsOnCycle (parents nodes.now) n }
{
    match way_from(nodes, n) {
        Way::Back => true,
        Way::Root { .. } => false,
        Way::Lost => false,
    }
}

/// The least node on a cycle.
pub(crate) fn first_cycle(nodes: &[NodePlan]) -> Option<usize>
    requires known { IsNever (LacksParent (parents nodes.now)) }
    ensures { FindsLeast (IsOnCycle (parents nodes.now)) result }
{
    for n in 0..nodes.len() {
        if comes_back(nodes, n) {
            return Some(n);
        }
    }
    None
}

/// How deep node n stands, where no node is on a cycle.
pub(crate) fn depth_of(nodes: &[NodePlan], n: usize) -> usize
    requires known { IsNever (LacksParent (parents nodes.now)) }
    requires tree { IsNever (IsOnCycle (parents nodes.now)) }
    requires within { n < length nodes.now }
    ensures { HasDepth (parents nodes.now) n result }
{
    match way_from(nodes, n) {
        Way::Root { depth } => depth,
        Way::Back | Way::Lost => unreachable!(),
    }
}
