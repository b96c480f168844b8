// The nodes and the sources of a plan, as a tree is opened.
ghost use Rattle.std.specs.Prelude.{◌≡◌, ◌<◌, ℕ, List, map, length, slice_get, Some, IfOk, MatchResult};
ghost use Rattle.health_tests.specs.Numbers.{no_tail};
ghost use Rattle.entropy_source.specs.Views.{opened_view};
ghost use Rattle.tree_rules.specs.Slots.{source_row};
ghost use Rattle.tree_core.specs.Fresh.{AreFresh, AreOpened};
ghost use Rattle.tree_core.specs.Solo.{AreLong, IsCause};

use crate::refusal::OpenRefusal;
use entropy_source::{EntropySource, SourceRow};
use rbg_bytes::OutOfMemory;
use rbg_nodes::Node;
use sample_source::Samples;
use std::alloc::Global;
use tree_config::TreePlan;

// The nodes of a plan with their seeds, none of them instantiated. The least node whose seed is too short is a refusal.
pub(crate) fn nodes_of(
    alloc: Global,
    plan: &TreePlan,
    seeds: &[Vec<u8>],
) -> Result<Vec<Node>, OpenRefusal>
    requires seeds { length seeds.now ≡ length plan.now.nodes }
    ensures { MatchResult result
        (λ nodes. AreFresh plan.now (map (λ s. s.items) seeds.now) (length plan.now.nodes) nodes.items)
        (λ why. IsCause plan.now (map (λ s. s.items) seeds.now) why) }
{
    let count = plan.nodes();
    let Ok(mut nodes) = Vec::with_capacity(alloc, usize::from(count)) else {
        return Err(OpenRefusal::OutOfMemory);
    };
    for n in 0..count {
        let node = match Node::fresh(plan.node(n), &seeds[usize::from(n)]) {
            Ok(node) => node,
            Err(short) => {
                return Err(OpenRefusal::SeedShort {
                    node: n,
                    have: short.have as u64,
                    need: short.need as u64,
                });
            }
        };
        match nodes.push(node) {
            Ok(()) => {}
            Err(_) => return Err(OpenRefusal::OutOfMemory),
        }
    }
    Ok(nodes)
}

// Source j of a plan over its samples.
fn source_at<S: Samples>(plan: &TreePlan, j: u8, samples: S) -> EntropySource<S>
    requires { j < length plan.now.sources }
    ensures { result ≡ opened_view (source_row plan.now j) no_tail samples }
{
    let planned = plan.source(j);
    let row = SourceRow {
        num: planned.num,
        den: planned.den,
        cutoffs: planned.cutoffs,
        startup: planned.startup,
        cond: planned.cond,
    };
    EntropySource::open(samples, row)
}

// The sources of a plan over their samples, none of them started.
pub(crate) fn sources_of<S: Samples>(
    alloc: Global,
    plan: &TreePlan,
    samples: Vec<S>,
) -> Result<Vec<EntropySource<S>>, OpenRefusal>
    requires sources { length samples.items ≡ length plan.now.sources }
    ensures { MatchResult result (λ sources. AreOpened plan.now samples.items sources.items) (λ why. why ≡ OpenRefusal.OutOfMemory) }
{
    let _few = plan.sources();
    let Ok(mut sources) = Vec::with_capacity(alloc, samples.len()) else {
        return Err(OpenRefusal::OutOfMemory);
    };
    let mut j = 0;
    for s in samples {
        match sources.push(source_at(plan, j, s)) {
            Ok(()) => {}
            Err(_) => return Err(OpenRefusal::OutOfMemory),
        }
        j += 1;
    }
    Ok(sources)
}
