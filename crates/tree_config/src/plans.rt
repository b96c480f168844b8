// Rows as planned nodes.
ghost use Rattle.std.specs.Prelude.{◌≡◌, ◌<◌, ◌≤◌, Some, length, map, IfSome, MatchResult};
ghost use Rattle.tree_config.specs.Graph.{LacksParent, IsNever};
ghost use Rattle.tree_config.specs.Tree.{parents, parent_in, node_of_row, GraphFault};
ghost use Rattle.tree_config.specs.Rows.{FaultIs};

use crate::fault::{ConfigFault, PlanRefusal};
use crate::plan::{NodePlan, Origin};
use crate::row::{NodeRow, RowOrigin};
use std::alloc::Global;

// Node n as a plan, or the number of its parent, which isn't there.
fn plan_of(row: NodeRow, count: usize) -> Result<NodePlan, u64>
    requires { count ≤ 63 }
    ensures { MatchResult result
        (λ p. (p ≡ node_of_row row) × IfSome (parent_in p.origin) (λ q. q < count))
        (λ q. (parent_in (node_of_row row).origin ≡ Some q) × (count ≤ q)) }
{
    let NodeRow {
        kind,
        drbg,
        interval,
        origin,
    } = row;
    let origin = match origin {
        RowOrigin::SeedFile(name) => Origin::SeedFile(name),
        RowOrigin::Source(n) => Origin::Source(n),
        RowOrigin::Parent(p) => {
            if p >= count as u64 {
                return Err(p);
            }
            Origin::Parent(p as u16)
        }
    };
    Ok(NodePlan {
        kind,
        drbg,
        interval,
        origin,
    })
}

/// The rows as plans, or the least whose parent isn't there.
pub(crate) fn plans(
    alloc: Global,
    rows: Vec<NodeRow>,
    limit: u8,
) -> Result<Vec<NodePlan>, PlanRefusal>
    requires { length rows.items ≤ 63 }
    ensures { MatchResult result
        (λ v. (v.items ≡ map node_of_row rows.items) × IsNever (LacksParent (parents v.items)))
        (FaultIs (GraphFault limit (map node_of_row rows.items))) }
{
    let count = rows.len();
    let mut plans = Vec::new(alloc);
    let mut n: u16 = 0;
    for row in rows {
        match plan_of(row, count) {
            Ok(plan) => {
                if plans.push(plan).is_err() {
                    return Err(PlanRefusal::OutOfMemory);
                }
            }
            Err(parent) => return Err(PlanRefusal::Fault(ConfigFault::NoSuchParent {
                node: n,
                parent,
            })),
        }
        n += 1;
    }
    Ok(plans)
}
