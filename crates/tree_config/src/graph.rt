// Whether nodes make a tree, and the first fault of those that do not.
ghost use Rattle.std.specs.Prelude.{◌≡◌, ◌<◌, ◌≤◌, length, MatchResult};
ghost use Rattle.tree_config.specs.Graph.{LacksParent, IsOnCycle, IsDeeper, IsNever};
ghost use Rattle.tree_config.specs.Tree.{parents, strength_at, Rises, IsTree, GraphFault};
ghost use Rattle.tree_config.specs.Walks.{HaveDepths};
ghost use Rattle.tree_config.specs.Rows.{FaultIs};

use crate::fault::{ConfigFault, PlanRefusal};
use crate::plan::NodePlan;
use crate::ways::{depth_of, first_cycle, parent};
use std::alloc::Global;

/// No node is on a cycle, or the least that is.
fn no_cycle(nodes: &[NodePlan], limit: u8) -> Result<(), PlanRefusal>
    requires known { IsNever (LacksParent (parents nodes.now)) }
    requires few { length nodes.now ≤ 63 }
    ensures { MatchResult result (λ _. IsNever (IsOnCycle (parents nodes.now))) (FaultIs (GraphFault limit nodes.now)) }
{
    match first_cycle(nodes) {
        None => Ok(()),
        Some(n) => Err(PlanRefusal::Fault(ConfigFault::Cycle { node: n as u16 })),
    }
}

/// The depths of the nodes, or the least node that stands too deep.
fn depths(alloc: Global, nodes: &[NodePlan], limit: u8) -> Result<Vec<u8>, PlanRefusal>
    requires known { IsNever (LacksParent (parents nodes.now)) }
    requires tree { IsNever (IsOnCycle (parents nodes.now)) }
    requires few { length nodes.now ≤ 63 }
    requires some { 1 ≤ limit }
    ensures { MatchResult result
        (λ v. HaveDepths limit (parents nodes.now) v.items × IsNever (IsDeeper limit (parents nodes.now)))
        (FaultIs (GraphFault limit nodes.now)) }
{
    let mut depths = Vec::new(alloc);
    for n in 0..nodes.len() {
        let depth = depth_of(nodes, n);
        if depth > usize::from(limit) {
            return Err(PlanRefusal::Fault(ConfigFault::TooDeep { node: n as u16 }));
        }
        if depths.push(depth as u8).is_err() {
            return Err(PlanRefusal::OutOfMemory);
        }
    }
    Ok(depths)
}

// The strength of node n in bits.
fn strength(nodes: &[NodePlan], n: usize) -> u16
    requires { n < length nodes.now }
    ensures { result ≡ strength_at nodes.now n }
{
    let node = &nodes[n];
    node.drbg.strength()
}

/// No node is stronger than its parent, or the least that is.
fn no_rise(nodes: &[NodePlan], limit: u8) -> Result<(), PlanRefusal>
    requires known { IsNever (LacksParent (parents nodes.now)) }
    requires tree { IsNever (IsOnCycle (parents nodes.now)) }
    requires flat { IsNever (IsDeeper limit (parents nodes.now)) }
    requires few { length nodes.now ≤ 63 }
    ensures { MatchResult result (λ _. IsNever (Rises nodes.now)) (FaultIs (GraphFault limit nodes.now)) }
{
    for n in 0..nodes.len() {
        match parent(nodes, n) {
            Some(p) => {
                let own = strength(nodes, n);
                let above = strength(nodes, p);
                if above < own {
                    return Err(PlanRefusal::Fault(ConfigFault::StrengthRises {
                        node: n as u16,
                        own,
                        parent: above,
                    }));
                }
            }
            None => {}
        }
    }
    Ok(())
}

/// The depths of nodes that make a tree, or the first fault of others.
pub(crate) fn tree(alloc: Global, nodes: &[NodePlan], limit: u8) -> Result<Vec<u8>, PlanRefusal>
    requires known { IsNever (LacksParent (parents nodes.now)) }
    requires few { length nodes.now ≤ 63 }
    requires some { 1 ≤ limit }
    ensures { MatchResult result
        (λ v. IsTree limit nodes.now × HaveDepths limit (parents nodes.now) v.items)
        (FaultIs (GraphFault limit nodes.now)) }
{
    no_cycle(nodes, limit)?;
    let depths = depths(alloc, nodes, limit)?;
    no_rise(nodes, limit)?;
    Ok(depths)
}
