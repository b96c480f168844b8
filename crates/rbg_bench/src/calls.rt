// Calls on a tree, the same one again and again.
ghost use Rattle.std.specs.Prelude.{◌≡◌, ◌≤◌, ◌<◌, ◌+◌, ◌^◌, ◌==◌, if◌then◌else◌, List, [], length, IfOk};
ghost use Rattle.tree_rules.specs.History.{Entry, Opening};
ghost use Rattle.tree_rules.specs.Openings.{IsHistory};
ghost use Rattle.tree_core.specs.Solo.{StandAfter};
ghost use Rattle.rbg_bench.specs.Calls.{CameTo, CameToOn};

use crate::outcome::Outcome;
use crate::ramp::Ramp;
use sample_source::Samples;
use sha2::{Digest, Sha256};
use std::alloc::{AllocError, Global};
use tree_config::TreePlan;
use tree_core::{Call, OpenRefusal, Reply, SoloTree};

// More bytes than the seed of any node has.
const SEED_LEN: usize = 64;

// One more Done, where the reply is.
fn with_reply(done: u32, reply: &Reply) -> u32
    requires few { done < 2 ^ 31 }
    ensures count { result ≡ done + (if reply.now.code == 0 then 1 else 0) }
    ensures most { result ≤ done + 1 }
{
    if reply.code == 0 {
        return done + 1;
    }
    done
}

// Makes the call so many times, without a string.
fn make<S: Samples>(mut tree: SoloTree<S>, call: &Call, times: u32, out: &mut [u8]) -> Outcome
    requires calls { tree.calls ≡ 0 }
    requires room { length out.old ≡ 65536 }
    requires times { times ≤ 1000000 }
    ensures { (f : Opening) (o : List Entry) → IsHistory f o [] → f.plan ≡ tree.plan → StandAfter S.told S.faults f o [] tree.nodes tree.sources →
        CameTo f o call.now times result }
{
    let mut digest = Sha256::new();
    let mut done = 0;
    for i in 0..times {
        let reply = tree.call(call, &[], out);
        done = with_reply(done, &reply);
        digest.update(&out[..reply.len as usize]);
    }
    Outcome {
        done,
        digest: digest.finalize(),
    }
}

// A seed for each node of a plan, of which those of RBG1s alone count.
fn seeds_of(alloc: Global, plan: &TreePlan) -> Result<Vec<Vec<u8>>, AllocError>
    ensures { IfOk result (λ seeds. length seeds.items ≡ length plan.now.nodes) }
{
    let mut seeds = Vec::new(alloc);
    for n in 0..plan.nodes() {
        seeds.push(vec![in alloc; n as u8; SEED_LEN]?)?;
    }
    Ok(seeds)
}

// The samples of each source of a plan.
fn samples_of(alloc: Global, plan: &TreePlan) -> Result<Vec<Ramp>, AllocError>
    ensures { IfOk result (λ samples. length samples.items ≡ length plan.now.sources) }
{
    let mut samples = Vec::new(alloc);
    for j in 0..plan.sources() {
        samples.push(Ramp::new())?;
    }
    Ok(samples)
}

// Opens a tree of the plan, and makes the call so many times, without a string.
pub fn outcome_of_calls(
    alloc: Global,
    plan: TreePlan,
    call: &Call,
    times: u32,
) -> Result<Outcome, OpenRefusal>
    requires { times ≤ 1000000 }
    ensures { IfOk result (λ outcome. CameToOn plan call.now times outcome) }
{
    let Ok(seeds) = seeds_of(alloc, &plan) else {
        return Err(OpenRefusal::OutOfMemory);
    };
    let Ok(samples) = samples_of(alloc, &plan) else {
        return Err(OpenRefusal::OutOfMemory);
    };
    let Ok(mut out) = vec![in alloc; 0u8; 65536] else {
        return Err(OpenRefusal::OutOfMemory);
    };
    match SoloTree::open(alloc, plan, samples, seeds) {
        Ok(tree) => Ok(make(tree, call, times, &mut out)),
        Err(why) => Err(why),
    }
}
