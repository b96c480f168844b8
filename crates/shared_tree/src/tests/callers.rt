// Callers in threads of their own, all of one node.
ghost use Rattle.std.specs.Prelude.{◌≡◌, ◌<◌, ℕ, All, length, slice_index_or};
ghost use Rattle.shared_tree.specs.Passes.{AreReady, IsPassOf};

use super::asking::{ask, generate};
use super::plans::shared;
use super::sending::go_where_samples_go;
use crate::{SharedTree, TreePass};
use sample_source::Recorded;
use std::alloc::Global;
use std::sync::Wait;
use std::test::Fail;
use std::thread;
use std::thread::Threads;
use tree_config::TreePlan;

// Asks node 0 for bytes.
fn ask_first<R: Wait>(rt: &R, tree: &SharedTree<Recorded>, pass: &mut TreePass<Recorded>)
    requires pass { IsPassOf tree.now pass.old }
    ensures pass { IsPassOf tree.entry.now pass.new }
    ensures opening { pass.new.view.opening ≡ pass.old.view.opening }
{
    ask(rt, tree, pass, generate(0, false), "");
}

fn ask_each<R: Threads + Wait + Sync>(
    rt: &R,
    tree: &SharedTree<Recorded>,
    passes: &mut [TreePass<Recorded>],
)
    requires ready { All (λ p. IsPassOf tree.now p) passes.old }
    ensures ready { All (λ p. IsPassOf tree.entry.now p) passes.new }
    ensures same { (i : ℕ) (d : _) → i < length passes.old → (slice_index_or passes.new i d).view.opening ≡ (slice_index_or passes.old i d).view.opening }
    ensures count { length passes.new ≡ length passes.old }
{
    thread::for_each_mut(rt, passes, 64, &|_, pass| ask_first(rt, tree, pass));
}

#[tactic(auto, using(crate::proofs::Ready::ready_on, crate::proofs::Ready::passes_of))]
fn ask_all<R: Threads + Wait + Sync>(
    rt: &R,
    tree: &SharedTree<Recorded>,
    passes: &mut [TreePass<Recorded>],
)
    requires ready { AreReady tree.now passes.old }
    ensures ready { AreReady tree.entry.now passes.new }
    ensures count { length passes.new ≡ length passes.old }
{
    ask_each(rt, tree, passes);
}

// So many callers each ask the one node of the stock tree for bytes: how many calls there were, and how often the node gave.
fn calls_and_gives<R: Threads + Wait + Sync>(
    rt: &R,
    alloc: Global,
    callers: u8,
) -> Result<(u64, u64), Fail> {
    let Ok(plan) = TreePlan::stock(alloc) else {
        return Err(Fail::from("no memory"));
    };
    let (tree, mut passes) = shared(alloc, plan, Vec::new(alloc), callers)?;
    ask_all(rt, &tree, passes.as_mut_slice());
    let Ok(closed) = tree.close(alloc, passes) else {
        return Err(Fail::from("no memory"));
    };
    let mut gives = 0;
    for node in 0..closed.tree.plan().nodes() {
        gives = closed.tree.node_counts(node).gives;
    }
    Ok((closed.calls, gives))
}

#[test]
fn two_and_64_callers_share_a_node(rt: HostRuntime) -> Result<(), Fail> {
    go_where_samples_go::<Recorded>();
    assert_eq!(rt; calls_and_gives(&rt, rt.alloc(), 2)?, (2, 2));
    assert_eq!(rt; calls_and_gives(&rt, rt.alloc(), 64)?, (64, 64));
    Ok(())
}
