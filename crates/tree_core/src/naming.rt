// The next step of a call, by what it holds.
ghost use Rattle.std.specs.Prelude.{◌≡◌, ◌<◌, ℕ, List, [], length, false, None};
ghost use Rattle.tree_rules.specs.declared.call.Call.TheVariants.{Start};
ghost use Rattle.tree_rules.specs.History.{States};
ghost use Rattle.tree_rules.specs.Links.{link};
ghost use Rattle.tree_rules.specs.Chain.{named, asks_pr, source_of};
ghost use Rattle.tree_rules.specs.Replies.{chain_by, chain_rows, first_reply, is_start};
ghost use Rattle.tree_acts.specs.Plain.{task_in};
ghost use Rattle.tree_acts.specs.Hold.{IsOfPlan};
ghost use Rattle.tree_core.specs.Names.{AreStates, IsStep, Names, NamesBy, NextBy, end_rows};

use crate::reach::reach;
use crate::step::{Next, Reached};
use crate::table::{chain_rows, first_reply, no_step, plain_rows};
use entropy_source::{EntropySource, SourceMode};
use sample_source::Samples;
use tree_acts::{Holdings, Step, asked, asks_pr, is_instantiate, named, source_of, step_at};
use tree_config::TreePlan;
use tree_rules::{Call, ReplyRow};

// What the table of refusals says, all being held.
fn by_rows(rows: &[ReplyRow]) -> Next
    ensures { NextBy (first_reply rows.now) result }
{
    match first_reply(rows) {
        Some(reply) => Next::Refuse(reply),
        None => Next::Ready,
    }
}

// The next step of a Start of a source that there is.
fn start_next<S: Samples, H: Holdings<EntropySource<S>>>(plan: &TreePlan, hold: &H, j: u16) -> Next
    requires plan { IsOfPlan plan.now (H.what hold.now) }
    requires there { j < length plan.now.sources }
    ensures { (s : States) → AreStates S.told S.faults (H.what hold.now) s →
        NamesBy (H.what hold.now) (chain_by plan.now s (Start j) None) (first_reply (chain_rows (Start j) (chain_by plan.now s (Start j) None))) result }
{
    let _few = plan.sources();
    let slot = plan.nodes() + j;
    if !hold.held(slot) {
        return Next::Take(slot);
    }
    let source = hold.source(slot);
    let startup = u64::from(plan.source(j as u8).startup);
    let node = no_step();
    let call = Call::Start { source: j };
    by_rows(&chain_rows(call, node, node, source.taken(), source.mode(), startup))
}

// The next step of a call whose nodes are all held.
fn end_next<S: Samples, H: Holdings<EntropySource<S>>>(
    plan: &TreePlan,
    hold: &H,
    call: Call,
    first: Step,
    end: Step,
) -> Next
    requires plan { IsOfPlan plan.now (H.what hold.now) }
    requires node { is_start call ≡ false }
    requires first { IsStep S.told S.faults plan.now (H.what hold.now) first }
    requires end { IsStep S.told S.faults plan.now (H.what hold.now) end }
    ensures { (s : States) → AreStates S.told S.faults (H.what hold.now) s →
        let l = link plan.now first.slot (task_in first.asked) (s first.slot) in
        let e = link plan.now end.slot (task_in end.asked) (s end.slot) in
        let t = source_of plan.now s (asks_pr call) e in
        NamesBy (H.what hold.now) (record { links = []; source = t }) (first_reply (end_rows call l e t)) result }
{
    let pr = asks_pr(call);
    let Some(j) = source_of(plan, end, pr) else {
        return by_rows(&chain_rows(call, first, end, 0, SourceMode::Running, 0));
    };
    let slot = plan.nodes() + u16::from(j);
    if !hold.held(slot) {
        return Next::Take(slot);
    }
    let source = hold.source(slot);
    let samples = end.samples(plan.source(j), pr);
    by_rows(&chain_rows(call, first, end, source.taken(), source.mode(), samples))
}

// The next step of a call that names a node that there is.
fn node_next<S: Samples, H: Holdings<EntropySource<S>>>(
    plan: &TreePlan,
    hold: &H,
    call: Call,
) -> Next
    requires plan { IsOfPlan plan.now (H.what hold.now) }
    requires node { is_start call ≡ false }
    requires there { named call < length plan.now.nodes }
    ensures { (s : States) → AreStates S.told S.faults (H.what hold.now) s →
        NamesBy (H.what hold.now) (chain_by plan.now s call None) (first_reply (chain_rows call (chain_by plan.now s call None))) result }
{
    let n = named(call);
    if !hold.held(n) {
        return Next::Take(n);
    }
    let first = step_at(plan, hold, n, asked(call));
    if is_instantiate(call) & first.node.live {
        return by_rows(&chain_rows(call, first, first, 0, SourceMode::Running, 0));
    }
    match reach(plan, hold, asks_pr(call), first, plan.nodes()) {
        Reached::Missing(k) => Next::Take(k),
        Reached::End(end) => end_next(plan, hold, call, first, end),
    }
}

/// The next step of a call, by what is held. While a slot of its chain isn't held it is the first such one, from the named node
/// upwards; where all are held, the call is refused exactly where a row of the table of refusals stands, with the first one that
/// does.
pub fn next<S: Samples, H: Holdings<EntropySource<S>>>(
    plan: &TreePlan,
    hold: &H,
    call: &Call,
    input: &[u8],
) -> Next
    requires plan { IsOfPlan plan.now (H.what hold.now) }
    ensures { (s : States) → AreStates S.told S.faults (H.what hold.now) s → Names plan.now (H.what hold.now) s call.now input.now result }
{
    if let Some(reply) = first_reply(&plain_rows(plan, *call, input)) {
        return Next::Refuse(reply);
    }
    match *call {
        Call::Start { source } => start_next(plan, hold, source),
        _ => node_next(plan, hold, *call),
    }
}
