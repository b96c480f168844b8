// The opening calls of a tree.
ghost use Rattle.std.specs.Prelude.{◌≡◌, ◌≤◌, ◌<◌, ◌^◌, ◌+◌, ◌++◌, ℕ, List, length, IfOk, IfErr};
ghost use Rattle.tree_rules.specs.History.{Opening, opened};
ghost use Rattle.tree_rules.specs.Openings.{opening_calls};
ghost use Rattle.tree_core.specs.Made.{samples_in};
ghost use Rattle.tree_core.specs.Opened.{OpenedBy, calls_at, one_at, start_calls};
ghost use Rattle.tree_core.specs.Solo.{StandIn};
ghost use Rattle.tree_core.specs.Whole.{AreAtMost, AreOfPlan};

use crate::all::All;
use crate::answer::answer;
use crate::refusal::OpenRefusal;
use sample_source::Samples;
use std::alloc::{AllocError, Global};
use tree_config::TreePlan;
use tree_rules::{Call, depths_count_paths};

// A Start of each source of a plan.
fn starts(alloc: Global, plan: &TreePlan) -> Result<Vec<Call>, AllocError>
    ensures { IfOk result (λ v. v.items ≡ start_calls plan.now) }
{
    let mut calls = Vec::new(alloc);
    for j in 0..u16::from(plan.sources()) {
        calls.push(Call::Start { source: j })?;
    }
    Ok(calls)
}

// An Instantiate of node n where it stands so deep, behind other calls.
fn add_node(plan: &TreePlan, depth: u8, n: u16, calls: &mut Vec<Call>) -> Result<(), AllocError>
    requires there { n < length plan.now.nodes }
    ensures calls { IfOk result (λ _. calls.new.items ≡ calls.old.items ++ one_at plan.now depth n) }
{
    depths_count_paths();
    let _tree = plan.nodes();
    if plan.depth(n) != depth {
        return Ok(());
    }
    let call = Call::Instantiate {
        node: n,
        strength: 0,
    };
    calls.push(call)?;
    Ok(())
}

// An Instantiate of each node that stands so deep, behind other calls.
fn add_depth(plan: &TreePlan, depth: u8, calls: &mut Vec<Call>) -> Result<(), AllocError>
    ensures calls { IfOk result (λ _. calls.new.items ≡ calls.old.items ++ calls_at plan.now depth) }
{
    for n in 0..plan.nodes() {
        add_node(plan, depth, n, calls)?;
    }
    Ok(())
}

// The opening calls of a plan in their order: where it opens all nodes, a Start of each source, and then an Instantiate of each node
// by depth and then number.
fn opening_calls(alloc: Global, plan: &TreePlan) -> Result<Vec<Call>, AllocError>
    ensures calls { IfOk result (λ v. v.items ≡ opening_calls plan.now) }
{
    if !plan.opens_all() {
        return Ok(Vec::new(alloc));
    }
    let mut calls = starts(alloc, plan)?;
    for d in 0..plan.nodes() {
        add_depth(plan, d as u8 + 1, &mut calls)?;
    }
    Ok(calls)
}

// Makes calls without strings over a tree whose nodes were never seeded, one after the other.
fn make<S: Samples>(plan: &TreePlan, all: &mut All<S>, calls: &[Call], out: &mut [u8])
    requires plan { AreOfPlan plan.now all.old.nodes.items all.old.sources.items }
    requires fresh { AreAtMost all.old.nodes.items 0 }
    requires few { length calls.now ≤ 4096 }
    requires room { 65536 ≤ length out.old }
    ensures opened { (f : Opening) → f.plan ≡ plan.now → StandIn S.told S.faults f.plan (opened f) all.old.nodes.items all.old.sources.items →
        OpenedBy S.told S.faults S.reads f (samples_in all.old.sources.items) calls.now all.new.nodes.items all.new.sources.items }
    ensures plan { AreOfPlan plan.now all.new.nodes.items all.new.sources.items }
    ensures few { AreAtMost all.new.nodes.items (2 ^ 61) }
{
    let _tree = plan.nodes();
    for call in calls {
        answer(plan, all, call, &[], out);
    }
}

// Makes the opening calls. What they are answered is not kept.
pub(crate) fn open_all<S: Samples>(
    alloc: Global,
    plan: &TreePlan,
    all: All<S>,
) -> Result<All<S>, OpenRefusal>
    requires plan { AreOfPlan plan.now all.nodes.items all.sources.items }
    requires fresh { AreAtMost all.nodes.items 0 }
    ensures opened { IfOk result (λ t. (f : Opening) → f.plan ≡ plan.now → StandIn S.told S.faults f.plan (opened f) all.nodes.items all.sources.items →
        OpenedBy S.told S.faults S.reads f (samples_in all.sources.items) (opening_calls plan.now) t.nodes.items t.sources.items) }
    ensures plan { IfOk result (λ t. AreOfPlan plan.now t.nodes.items t.sources.items) }
    ensures few { IfOk result (λ t. AreAtMost t.nodes.items (2 ^ 61)) }
    ensures refused { IfErr result (λ why. why ≡ OpenRefusal.OutOfMemory) }
{
    let _tree = plan.nodes();
    let Ok(calls) = opening_calls(alloc, plan) else {
        return Err(OpenRefusal::OutOfMemory);
    };
    let Ok(mut out) = vec![in alloc; 0u8; 65536] else {
        return Err(OpenRefusal::OutOfMemory);
    };
    let mut all = all;
    make(plan, &mut all, &calls, &mut out);
    Ok(all)
}
