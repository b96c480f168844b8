// The trees whose calls are timed.
ghost use Rattle.std.specs.Prelude.{◌≡◌, ◌≤◌, ◌<◌, All, IfOk, IfSome, length};
ghost use Rattle.shared_tree.specs.Passes.{AreReady};

use sample_source::Recorded;
use shared_tree::{SharedTree, TreePass};
use std::alloc::{AllocError, Global};
use tree_config::TreePlan;
use tree_core::SoloTree;

// A seed of 48 bytes, 0, 1, 2 and so on, for each node of a plan.
fn seeds_of(alloc: Global, plan: &TreePlan) -> Result<Vec<Vec<u8>>, AllocError>
    ensures { IfOk result (λ seeds. length seeds.items ≡ length plan.now.nodes) }
{
    let mut seeds = Vec::new(alloc);
    for n in 0..plan.nodes() {
        let mut seed = Vec::new(alloc);
        for byte in 0..48u8 {
            seed.push(byte)?;
        }
        seeds.push(seed)?;
    }
    Ok(seeds)
}

// The tree of one caller, where the plan has no sources and there is memory.
pub fn solo(alloc: Global, plan: TreePlan) -> Option<SoloTree<Recorded>>
    ensures fresh { IfSome result (λ tree. tree.calls ≡ 0) }
{
    let seeds = seeds_of(alloc, &plan).ok()?;
    if plan.sources() != 0 {
        return None;
    }
    match SoloTree::open(alloc, plan, Vec::new(alloc), seeds) {
        Ok(tree) => Some(tree),
        Err(_) => None,
    }
}

// The tree of several callers in the same case, with their passes, none of which has made a call.
#[tactic(auto, using(crate::proofs::Counting::are_new))]
pub fn shared(
    alloc: Global,
    plan: TreePlan,
    callers: u8,
) -> Option<(SharedTree<Recorded>, Vec<TreePass<Recorded>>)>
    requires callers { (0 < callers) × (callers ≤ 64) }
    ensures ready { IfSome result (λ r. AreReady r.0 r.1.items) }
    ensures all { IfSome result (λ r. length r.1.items ≡ r.0.callers) }
    ensures new { IfSome result (λ r. All (λ p. length p.view.mine ≡ 0) r.1.items) }
{
    let seeds = seeds_of(alloc, &plan).ok()?;
    if plan.sources() != 0 {
        return None;
    }
    match SharedTree::open(alloc, plan, Vec::new(alloc), seeds, callers) {
        Ok(opened) => Some(opened),
        Err(_) => None,
    }
}
