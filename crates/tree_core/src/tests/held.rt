// A part of a tree: what is next of a call while only some of its chain is held, and the work of calls whose chain is held.
ghost use Rattle.std.specs.Prelude.{◌≤◌, ◌+◌, ◌*◌, length, IfOk};
ghost use Rattle.tree_acts.specs.Hold.{IsOfPlan};
ghost use Rattle.tree_core.specs.Whole.{AreAtMost, all_held};

use super::runs::{plan_of, seeds_of, text_of};
use crate::all::All;
use crate::fresh::nodes_of;
use crate::{Call, Next, Reply, next, work};
use sample_source::Recorded;
use std::alloc::Global;
use std::test::Fail;
use tree_config::TreePlan;

// A child whose parent has the higher number, and a node on a source.
const CHILD: &str = "version = 1
opening = \"none\"
[[source]]
samples = \"ramp\"
num = 8
den = 1
rct = 4
apt = 257
[[node]]
kind = \"child\"
drbg = \"ctr-aes-128\"
interval = 10
parent = 1
[[node]]
kind = \"rbg1\"
drbg = \"hmac-sha-256\"
interval = 2
seed = \"s48\"
[[node]]
kind = \"rbg2\"
drbg = \"hmac-sha-256\"
interval = 2
source = 0
";

// The first nodes of a plan, so many of them, never instantiated, and no source. The seeds have 48 bytes, 0, 1, 2 and so on.
fn first_nodes(alloc: Global, plan: &TreePlan, held: usize) -> Result<All<Recorded>, Fail>
    ensures plan { IfOk result (λ all. IsOfPlan plan.now (all_held all.nodes.items all.sources.items)) }
    ensures few { IfOk result (λ all. AreAtMost all.nodes.items 0) }
{
    let seeds = seeds_of(alloc, plan, 0, 48)?;
    let Ok(mut nodes) = nodes_of(alloc, plan, &seeds) else {
        return Err(Fail::from("no nodes"));
    };
    nodes.truncate(held);
    let sources = Vec::new(alloc);
    Ok(All { nodes, sources })
}

// The reply to a call whose chain is held and that is not refused. So many calls were made before it.
fn worked(
    plan: &TreePlan,
    all: &mut All<Recorded>,
    call: Call,
    out: &mut [u8],
    made: u16,
) -> Result<Reply, Fail>
    requires plan { IsOfPlan plan.now (all_held all.old.nodes.items all.old.sources.items) }
    requires few { AreAtMost all.old.nodes.items (256 * made) }
    requires room { 65536 ≤ length out.old }
    ensures plan { IsOfPlan plan.now (all_held all.new.nodes.items all.new.sources.items) }
    ensures few { AreAtMost all.new.nodes.items (256 * (made + 1)) }
{
    match next(plan, all, &call, &[]) {
        Next::Ready => Ok(work(plan, all, &call, &[], out)),
        _ => Err(Fail::from("not ready")),
    }
}

fn reply(code: u8, a: u64, len: u32) -> Reply {
    Reply { code, a, b: 0, len }
}

fn instantiate(node: u16) -> Call {
    Call::Instantiate { node, strength: 0 }
}

fn generate(node: u16, count: u32) -> Call {
    Call::Generate {
        node,
        count,
        strength: 0,
        pr: false,
    }
}

#[test]
fn the_first_slot_that_is_not_held_is_named(rt: HostRuntime) -> Result<(), Fail> {
    let alloc = rt.alloc();
    let plan = plan_of(alloc, CHILD)?;
    for (held, call, want) in [
        (0, instantiate(0), Next::Take(0)),
        (1, instantiate(0), Next::Take(1)),
        (2, instantiate(0), Next::Refuse(reply(4, 1, 0))),
        (1, instantiate(1), Next::Take(1)),
        (2, instantiate(1), Next::Ready),
        (2, instantiate(2), Next::Take(2)),
        (2, Call::Start { source: 0 }, Next::Take(3)),
        (
            0,
            instantiate(3),
            Next::Refuse(Reply {
                code: 1,
                a: 3,
                b: 3,
                len: 0,
            }),
        ),
    ] {
        let all = first_nodes(alloc, &plan, held)?;
        assert_eq!(rt; next(&plan, &all, &call, &[]), want);
    }
    Ok(())
}

#[test]
fn a_part_of_a_tree_serves_the_calls_whose_chain_it_holds(rt: HostRuntime) -> Result<(), Fail> {
    let alloc = rt.alloc();
    let plan = plan_of(alloc, CHILD)?;
    let mut all = first_nodes(alloc, &plan, 2)?;
    let mut out = vec![in alloc; 0u8; 65536]?;
    let parent = worked(&plan, &mut all, instantiate(1), &mut out, 0)?;
    assert_eq!(rt; text_of(alloc, parent, &out)?.as_str(), "0 0 0 -");
    let child = worked(&plan, &mut all, instantiate(0), &mut out, 1)?;
    assert_eq!(rt; text_of(alloc, child, &out)?.as_str(), "0 0 0 -");
    let given = worked(&plan, &mut all, generate(1, 32), &mut out, 2)?;
    assert_eq!(rt;
        text_of(alloc, given, &out)?.as_str(),
        "0 0 0 08767656d3e9669eb668d1e1f5b80d27bb1aee12ff719eeb83e3dce006718c16"
    );
    let given = worked(&plan, &mut all, generate(0, 16), &mut out, 3)?;
    assert_eq!(rt;
        text_of(alloc, given, &out)?.as_str(),
        "0 0 0 9228419119099a3cb89b850f4b8f8250"
    );
    Ok(())
}
