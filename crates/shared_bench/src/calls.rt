// The calls that are timed.
ghost use Rattle.std.specs.Prelude.{◌≡◌, ◌≤◌, ◌<◌, ◌+◌, ◌^◌, ℕ, All, IfSome, length, slice_index_or};
ghost use Rattle.shared_tree.specs.Passes.{AreReady, IsPassOf};

use crate::job::Job;
use crate::tally::{Tally, Total};
use crate::tree::{shared, solo};
use sample_source::Recorded;
use shared_tree::{SharedTree, TreeCloseRefused, TreePass};
use std::alloc::Global;
use std::sync::Wait;
use std::thread;
use std::thread::Threads;
use tree_config::TreePlan;
use tree_core::{Call, SoloTree};

/// What calls come to. Where there was no memory to close the tree with, one more call was made on the tree that came back.
#[derive(Drop)]
pub struct Outcome {
    pub tally: Tally,
    pub again: Option<Tally>,
}

fn generate(node: u16, count: u32) -> Call {
    Call::Generate {
        node,
        count,
        strength: 0,
        pr: false,
    }
}

// Asks node 0 of the tree of one caller so many times.
fn ask_solo(tree: &mut SoloTree<Recorded>, bytes: u32, times: u32) -> Tally
    requires fresh { tree.old.calls ≡ 0 }
    ensures made { tree.new.calls ≡ times }
    ensures most { result.done ≤ times }
{
    let mut out = [0u8; 65536];
    let mut tally = Tally::none();
    let call = generate(0, bytes);
    for i in 0..times {
        let reply = tree.call(&call, &[], &mut out);
        tally.add(&reply, &out);
    }
    tally
}

// Asks a node of a shared tree so many times.
fn ask<R: Wait>(
    rt: &R,
    tree: &SharedTree<Recorded>,
    pass: &mut TreePass<Recorded>,
    call: &Call,
    times: u32,
) -> Tally
    requires pass { IsPassOf tree.now pass.old }
    requires few { length pass.old.view.mine < 2 ^ 32 }
    ensures pass { IsPassOf tree.entry.now pass.new }
    ensures opening { pass.new.view.opening ≡ pass.old.view.opening }
    ensures made { length pass.new.view.mine ≡ length pass.old.view.mine + times }
    ensures most { result.done ≤ times }
{
    let mut out = [0u8; 65536];
    let mut tally = Tally::none();
    for i in 0..times {
        let reply = tree.call(rt, pass, call, &[], &mut out);
        tally.add(&reply, &out);
    }
    tally
}

// The calls of one caller.
fn ask_own<R: Wait>(
    rt: &R,
    tree: &SharedTree<Recorded>,
    pass: &mut TreePass<Recorded>,
    total: &Total,
    nodes: u16,
    job: Job,
)
    requires pass { IsPassOf tree.now pass.old × (length pass.old.view.mine ≡ 0) }
    requires nodes { 0 < nodes }
    ensures pass { IsPassOf tree.entry.now pass.new }
    ensures opening { pass.new.view.opening ≡ pass.old.view.opening }
    ensures made { length pass.new.view.mine ≡ job.times }
{
    let call = generate(u16::from(pass.caller()) % nodes, job.bytes);
    total.add(ask(rt, tree, pass, &call, job.times));
}

fn ask_each<R: Threads + Wait + Sync>(
    rt: &R,
    tree: &SharedTree<Recorded>,
    passes: &mut [TreePass<Recorded>],
    total: &Total,
    nodes: u16,
    job: Job,
)
    requires ready { All (λ p. IsPassOf tree.now p × (length p.view.mine ≡ 0)) passes.old }
    requires nodes { 0 < nodes }
    ensures ready { All (λ p. IsPassOf tree.entry.now p) passes.new }
    ensures same { (i : ℕ) (d : _) → i < length passes.old → (slice_index_or passes.new i d).view.opening ≡ (slice_index_or passes.old i d).view.opening }
    ensures made { All (λ p. length p.view.mine ≡ job.times) passes.new }
    ensures count { length passes.new ≡ length passes.old }
{
    thread::for_each_mut(
        rt,
        passes,
        64,
        &|_, pass| ask_own(rt, tree, pass, total, nodes, job),
    );
}

// The calls of all callers, each in a thread of its own.
#[tactic(auto, using(shared_tree::proofs::Ready::ready_on, crate::proofs::Counting::ready_new))]
fn ask_all<R: Threads + Wait + Sync>(
    rt: &R,
    tree: &SharedTree<Recorded>,
    passes: &mut [TreePass<Recorded>],
    total: &Total,
    nodes: u16,
    job: Job,
)
    requires ready { AreReady tree.now passes.old }
    requires new { All (λ p. length p.view.mine ≡ 0) passes.old }
    requires nodes { 0 < nodes }
    ensures ready { AreReady tree.entry.now passes.new }
    ensures made { All (λ p. length p.view.mine ≡ job.times) passes.new }
    ensures count { length passes.new ≡ length passes.old }
{
    ask_each(rt, tree, passes, total, nodes, job);
}

fn last_pass(
    tree: &SharedTree<Recorded>,
    mut passes: Vec<TreePass<Recorded>>,
) -> Option<TreePass<Recorded>>
    requires { All (λ p. IsPassOf tree.now p) passes.items }
    ensures { IfSome result (λ p. IsPassOf tree.now p) }
{
    passes.pop()
}

// Closes the tree. Where there is no memory for that, the last caller asks the tree that came back once more.
#[tactic(auto, using(shared_tree::proofs::Ready::passes_of))]
fn close<R: Wait>(
    rt: &R,
    alloc: Global,
    tree: SharedTree<Recorded>,
    passes: Vec<TreePass<Recorded>>,
    call: &Call,
) -> Option<Tally>
    requires ready { AreReady tree passes.items }
    requires all { length passes.items ≡ tree.callers }
{
    let Err(TreeCloseRefused { tree, passes }) = tree.close(alloc, passes) else {
        return None;
    };
    match last_pass(&tree, passes) {
        Some(mut pass) if pass.calls() < 1 << 32 => Some(ask(rt, &tree, &mut pass, call, 1)),
        _ => Some(Tally::none()),
    }
}

// What the job's calls on a tree of the plan come to, where the plan has no sources and there is memory to open it.
pub fn outcome_of<R: Threads + Wait + Sync>(
    rt: &R,
    alloc: Global,
    plan: TreePlan,
    job: Job,
) -> Option<Outcome>
    requires { job.callers ≤ 64 }
{
    if job.callers == 0 {
        let mut tree = solo(alloc, plan)?;
        return Some(Outcome {
            tally: ask_solo(&mut tree, job.bytes, job.times),
            again: None,
        });
    }
    let nodes = plan.nodes();
    if nodes == 0 {
        return None;
    }
    let (tree, mut passes) = shared(alloc, plan, job.callers)?;
    let total = Total::none();
    ask_all(rt, &tree, passes.as_mut_slice(), &total, nodes, job);
    let call = generate(u16::from(job.callers) % nodes, job.bytes);
    Some(Outcome {
        tally: total.tally(),
        again: close(rt, alloc, tree, passes, &call),
    })
}
