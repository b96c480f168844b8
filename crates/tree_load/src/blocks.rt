// The blocks and samples of a source after calls that alone decide them.
ghost use Rattle.std.specs.Prelude.{◌≡◌, ◌<◌, ◌≤◌, ◌^◌, length};
ghost use Rattle.conditioner.specs.Conditioned.{block_len};
ghost use Rattle.tree_rules.specs.Links.{is_xor};
ghost use Rattle.tree_rules.specs.Slots.{node_plan, node_row, source_row_of};
ghost use Rattle.tree_load.specs.Tally.{all_asks, all_blocks, blocks_by, drawn_len, is_from, source_tally};
ghost use Rattle.tree_load.specs.Tallied.{asked_of};
ghost use Rattle.tree_load.specs.Fits.{AllFit, SourceFits, counts_in};

use crate::tally::{Weight, asked, entropy_len, is_rs, reseeds_of};
use conditioner::{block_len, need};
use rbg_nodes::NodeCounts;
use tree_config::{NodeKind, Origin, SourcePlan, TreePlan};
use tree_core::{Call, SourceCounts};

// The bytes of a source's blocks.
fn block_size(source: &SourcePlan) -> u32
    ensures len { result ≡ block_len (source_row_of source.now).cond }
    ensures some { 0 < result }
{
    block_len(source.cond) as u32
}

// Whether node n draws on source j.
fn is_from(plan: &TreePlan, j: u8, n: u16) -> bool
    requires { n < length plan.now.nodes }
    ensures { result ≡ is_from j (node_plan plan.now n).origin }
{
    match &plan.node(n).origin {
        Origin::Source(i) => *i == j,
        _ => false,
    }
}

// Whether node n is an RBG3(XOR).
fn is_xor(plan: &TreePlan, n: u16) -> bool
    requires { n < length plan.now.nodes }
    ensures { result ≡ is_xor (node_row plan.now n).kind }
{
    matches!(plan.node(n).kind, NodeKind::Rbg3Xor)
}

// The bytes that node n draws for each reseed.
fn drawn_len(plan: &TreePlan, n: u16) -> u32
    requires { n < length plan.now.nodes }
    ensures { result ≡ drawn_len (node_row plan.now n) }
{
    let entropy = entropy_len(plan, n);
    if is_rs(plan, n) { entropy + 8 } else { entropy }
}

// The blocks that node n draws on a source.
fn blocks_by(
    plan: &TreePlan,
    before: &[NodeCounts],
    calls: &[Call],
    source: &SourcePlan,
    n: u16,
) -> u64
    requires nodes { length before.now ≡ length plan.now.nodes }
    requires there { n < length plan.now.nodes }
    ensures { AllFit plan.now (counts_in before.now) (asked_of calls.now) →
        let blocks = blocks_by (node_row plan.now n) (source_row_of source.now) (counts_in before.now n).counter
        (all_asks plan.now (λ m. (counts_in before.now m).counter) (asked_of calls.now) n) in
        blocks < 2 ^ 64 → result ≡ blocks }
{
    let weight = Weight::Blocks {
        size: block_size(source),
    };
    let reseeds = reseeds_of(plan, before, calls, n);
    let drawn = reseeds.saturating_mul(weight.of(drawn_len(plan, n)));
    if is_xor(plan, n) {
        let mixed = asked(plan, before, calls, weight, plan.nodes(), n);
        return drawn.saturating_add(mixed);
    }
    drawn
}

// The blocks of source j.
fn all_blocks(plan: &TreePlan, before: &[NodeCounts], calls: &[Call], j: u8) -> u64
    requires nodes { length before.now ≡ length plan.now.nodes }
    requires there { j < length plan.now.sources }
    ensures { AllFit plan.now (counts_in before.now) (asked_of calls.now) →
        let blocks = all_blocks plan.now (λ m. (counts_in before.now m).counter) (asked_of calls.now) j in
        blocks < 2 ^ 64 → result ≡ blocks }
{
    let source = plan.source(j);
    let mut blocks: u64 = 0;
    'nodes: for n in 0..plan.nodes() {
        if is_from(plan, j, n) {
            blocks = blocks.saturating_add(blocks_by(plan, before, calls, source, n));
        }
    }
    blocks
}

/// The counts of source j after calls each of which is a Generate without prediction resistance or a Status, and is Done, whatever their
/// order. `before` has the counts of all nodes before them, and `source` those of the source. No tree is needed, and none is changed.
pub fn source_tally(
    plan: &TreePlan,
    before: &[NodeCounts],
    calls: &[Call],
    j: u8,
    source: SourceCounts,
) -> SourceCounts
    requires nodes { length before.now ≡ length plan.now.nodes }
    requires there { j < length plan.now.sources }
    ensures { AllFit plan.now (counts_in before.now) (asked_of calls.now) → SourceFits plan.now (counts_in before.now) (asked_of calls.now) j source →
        result ≡ source_tally plan.now (counts_in before.now) (asked_of calls.now) j source }
{
    let blocks = all_blocks(plan, before, calls, j);
    let planned = plan.source(j);
    let need = need(planned.cond, planned.num, planned.den);
    SourceCounts {
        taken: source
            .taken
            .saturating_add(blocks.saturating_mul(u64::from(need))),
        blocks: source.blocks.saturating_add(blocks),
    }
}
