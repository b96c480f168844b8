// Plans, and trees of them that are shared.
ghost use Rattle.std.specs.Prelude.{◌≡◌, ◌<◌, ◌≤◌, IfOk, length};
ghost use Rattle.shared_tree.specs.Passes.{AreReady};

use crate::{SharedTree, TreePass};
use sample_source::Samples;
use std::alloc::Global;
use std::test::Fail;
use tree_config::TreePlan;

// Two sources, a node on each, and a child of each node.
pub(crate) const PAIRS: &str = "version = 1
[[source]]
samples = \"one\"
num = 8
den = 1
rct = 4
apt = 257
[[source]]
samples = \"two\"
num = 8
den = 1
rct = 4
apt = 257
[[node]]
kind = \"rbg2\"
drbg = \"hmac-sha-256\"
interval = 50
source = 0
[[node]]
kind = \"rbg2\"
drbg = \"hmac-sha-256\"
interval = 50
source = 1
[[node]]
kind = \"child\"
drbg = \"hmac-sha-256\"
interval = 100
parent = 0
[[node]]
kind = \"child\"
drbg = \"hmac-sha-256\"
interval = 100
parent = 1
";

// Four branches, each with a source of its own: a node that reseeds by its source at every third output, one that is instantiated again and
// again, a child that reseeds by its parent at every second output, and a node that draws for each output.
pub(crate) const BRANCHES: &str = "version = 1
[[source]]
samples = \"one\"
num = 8
den = 1
rct = 4
apt = 257
[[source]]
samples = \"two\"
num = 8
den = 1
rct = 4
apt = 257
[[source]]
samples = \"three\"
num = 8
den = 1
rct = 4
apt = 257
[[source]]
samples = \"four\"
num = 8
den = 1
rct = 4
apt = 257
[[node]]
kind = \"rbg2\"
drbg = \"hmac-sha-256\"
interval = 3
source = 0
[[node]]
kind = \"rbg2\"
drbg = \"hmac-sha-256\"
interval = 1000
source = 1
[[node]]
kind = \"child\"
drbg = \"ctr-aes-128\"
interval = 2
parent = 4
[[node]]
kind = \"rbg3-xor\"
drbg = \"hmac-sha-256\"
interval = 1000
source = 3
[[node]]
kind = \"rbg2\"
drbg = \"ctr-aes-256\"
interval = 5
source = 2
";

// So many samples that count up modulo 251, but 9 at four places from each multiple of `every` on, where `every` is not 0.
pub(crate) fn ramp(alloc: Global, total: u32, every: u32) -> Result<Vec<u8>, Fail> {
    let mut samples = Vec::new(alloc);
    for place in 0..total {
        let alarm = every != 0 && place >= every && place % every < 4;
        let sample = if alarm { 9 } else { (place % 251) as u8 };
        samples.push(sample)?;
    }
    Ok(samples)
}

pub(crate) fn read(alloc: Global, text: &str) -> Result<TreePlan, Fail> {
    match TreePlan::read(alloc, text.as_bytes()) {
        Ok(plan) => Ok(plan),
        Err(_) => Err(Fail::from("no plan")),
    }
}

// A seed of 48 bytes, 0, 1, 2 and so on, for each node.
pub(crate) fn seeds(alloc: Global, plan: &TreePlan) -> Result<Vec<Vec<u8>>, Fail> {
    let mut seeds = Vec::new(alloc);
    for _ in 0..plan.nodes() {
        let mut seed = Vec::new(alloc);
        for byte in 0..48u8 {
            seed.push(byte)?;
        }
        seeds.push(seed)?;
    }
    Ok(seeds)
}

// A tree of a plan over its sources, for 1 to 64 callers.
pub(crate) fn shared<S: Samples>(
    alloc: Global,
    plan: TreePlan,
    sources: Vec<S>,
    callers: u8,
) -> Result<(SharedTree<S>, Vec<TreePass<S>>), Fail>
    ensures ready { IfOk result (λ r. AreReady r.0 r.1.items) }
    ensures all { IfOk result (λ r. length r.1.items ≡ r.0.callers) }
{
    let seeds = seeds(alloc, &plan)?;
    let few = callers == 0 || callers > 64;
    if few
        || sources.len() != usize::from(plan.sources())
        || seeds.len() != usize::from(plan.nodes())
    {
        return Err(Fail::from("other sources or callers"));
    }
    match SharedTree::open(alloc, plan, sources, seeds, callers) {
        Ok(opened) => Ok(opened),
        Err(_) => Err(Fail::from("not opened")),
    }
}
