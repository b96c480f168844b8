// Runs of stated calls on trees over recorded samples.
use crate::{StatedCalls, make_stated_calls, node_tally, source_tally};
use rbg_nodes::NodeCounts;
use sample_source::Recorded;
use std::alloc::Global;
use std::test::Fail;
use tree_config::TreePlan;
use tree_core::{Call, SoloTree, SourceCounts};

// The sample at place k is k mod 251.
fn samples(alloc: Global) -> Result<Recorded, Fail> {
    let mut samples = Vec::new(alloc);
    for place in 0..65536u32 {
        samples.push((place % 251) as u8)?;
    }
    Ok(Recorded::new(samples))
}

// A tree of a plan; the seed of each RBG1 has 48 bytes, 0, 1, 2 and so on.
fn opened(alloc: Global, text: &str) -> Result<SoloTree<Recorded>, Fail> {
    let Ok(plan) = TreePlan::read(alloc, text.as_bytes()) else {
        return Err(Fail::from("no plan"));
    };
    let mut seeds = Vec::new(alloc);
    for _ in 0..plan.nodes() {
        let mut seed = Vec::new(alloc);
        for byte in 0..48u8 {
            seed.push(byte)?;
        }
        seeds.push(seed)?;
    }
    let mut sources = Vec::new(alloc);
    for _ in 0..plan.sources() {
        sources.push(samples(alloc)?)?;
    }
    if sources.len() != usize::from(plan.sources()) || seeds.len() != usize::from(plan.nodes()) {
        return Err(Fail::from("other sources or nodes"));
    }
    match SoloTree::open(alloc, plan, sources, seeds) {
        Ok(tree) => Ok(tree),
        Err(_) => Err(Fail::from("not opened")),
    }
}

// A line of a node, and of a source.
fn put_node(alloc: Global, text: &mut String, n: u16, counts: NodeCounts) -> Result<(), Fail> {
    text.push_str(format!(in alloc;
        "node {}: live {} counter {} seeds {} gives {}\n",
        n,
        u8::from(counts.live),
        counts.counter,
        counts.seeds,
        counts.gives
    )?
    .as_str())?;
    Ok(())
}

fn put_source(alloc: Global, text: &mut String, j: u8, counts: SourceCounts) -> Result<(), Fail> {
    text.push_str(format!(in alloc;
        "source {}: taken {} blocks {}\n",
        j, counts.taken, counts.blocks
    )?
    .as_str())?;
    Ok(())
}

// The counts of a tree.
fn counts(alloc: Global, tree: &SoloTree<Recorded>) -> Result<String, Fail> {
    let mut text = String::new(alloc);
    for n in 0..tree.plan().nodes() {
        put_node(alloc, &mut text, n, tree.node_counts(n))?;
    }
    for j in 0..tree.plan().sources() {
        put_source(alloc, &mut text, j, tree.source_counts(j))?;
    }
    Ok(text)
}

// So many stated calls of a seed.
fn stated(alloc: Global, nodes: u16, count: u16, seed: u64) -> Result<Vec<Call>, Fail> {
    let mut stated = StatedCalls::of(nodes, seed);
    let mut calls = Vec::new(alloc);
    for _ in 0..count {
        if stated.nodes == 0 {
            return Err(Fail::from("no node"));
        }
        calls.push(stated.next_call())?;
    }
    Ok(calls)
}

// The counts that a tree will have after calls that are all Done, without making them.
fn foretold(alloc: Global, tree: &SoloTree<Recorded>, calls: &[Call]) -> Result<String, Fail> {
    let plan = tree.plan();
    let mut before = Vec::new(alloc);
    for n in 0..plan.nodes() {
        before.push(tree.node_counts(n))?;
    }
    if before.len() != usize::from(plan.nodes()) {
        return Err(Fail::from("other nodes"));
    }
    let mut text = String::new(alloc);
    for n in 0..plan.nodes() {
        put_node(alloc, &mut text, n, node_tally(plan, &before, calls, n))?;
    }
    for j in 0..plan.sources() {
        let counts = source_tally(plan, &before, calls, j, tree.source_counts(j));
        put_source(alloc, &mut text, j, counts)?;
    }
    Ok(text)
}

// Whether a tree that was just opened will have these counts after so many stated calls of a seed.
pub(crate) fn tells(
    alloc: Global,
    plan: &str,
    count: u16,
    seed: u64,
    want: &str,
) -> Result<bool, Fail> {
    let tree = opened(alloc, plan)?;
    let calls = stated(alloc, tree.plan().nodes(), count, seed)?;
    Ok(foretold(alloc, &tree, &calls)?.as_str() == want)
}

// Whether so many stated calls of a seed, on a tree that was just opened, are refused so often and end with these counts, which are told
// beforehand where none is refused.
pub(crate) fn run(
    alloc: Global,
    plan: &str,
    count: u16,
    seed: u64,
    refused: u64,
    want: &str,
) -> Result<bool, Fail> {
    let mut tree = opened(alloc, plan)?;
    let mut buffer = vec![in alloc; 0u8; 65536]?;
    if tree.calls() != 0 || buffer.len() < 65536 {
        return Err(Fail::from("other calls"));
    }
    let calls = stated(alloc, tree.plan().nodes(), count, seed)?;
    let told = foretold(alloc, &tree, &calls)?;
    let made = make_stated_calls(&mut tree, u64::from(count), seed, &mut buffer);
    Ok(
        made.refused == refused
            && made.done + refused == u64::from(count)
            && tree.calls() == u64::from(count)
            && counts(alloc, &tree)?.as_str() == want
            && (refused > 0 || told.as_str() == want),
    )
}
