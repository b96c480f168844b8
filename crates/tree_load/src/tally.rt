// The counts after calls that alone decide them, computed as they are defined: from the leaves to the roots.
ghost use Rattle.std.specs.Prelude.{◌≡◌, ◌<◌, ◌≤◌, ◌+◌, ◌*◌, ◌^◌, ℕ, List, [], length};
ghost use Rattle.rbg_nodes.specs.Node.{entropy_len};
ghost use Rattle.tree_rules.specs.Links.{is_rs};
ghost use Rattle.tree_rules.specs.Slots.{node_row};
ghost use Rattle.tree_load.specs.Tally.{all_asks, asks, gives_for, is_child, node_tally, reseeds_by, reseeds_for, sum_of};
ghost use Rattle.tree_load.specs.Tallied.{asked_of, with_call};
ghost use Rattle.tree_load.specs.Fits.{AllFit, counts_in};
ghost use Rattle.tree_load.specs.Weights.{IsWeight, by_length, weigh};

use rbg_nodes::NodeCounts;
use tree_acts::parent;
use tree_config::{NodeKind, TreePlan};
use tree_core::Call;

// What is counted of a length that is asked: that it is one, the chunks in which an RBG3(RS) answers it, or the blocks that a source
// makes for it; `size` is in bytes.
#[derive(Clone, Copy)]
pub(crate) enum Weight {
    One,
    Chunks { size: u32 },
    Blocks { size: u32 },
}

impl Weight {
    pub(crate) fn of(self, len: u32) -> u64
        requires { IsWeight self }
        ensures { result ≡ weigh self len }
    {
        match self {
            Weight::One => 1,
            Weight::Chunks { size } => u64::from(len.div_ceil(size).max(1)),
            Weight::Blocks { size } => u64::from(len.div_ceil(size)),
        }
    }
}

// What a call asks of node n by itself.
fn of_call(call: &Call, n: u16, weight: Weight) -> u64
    requires { IsWeight weight }
    ensures { result ≡ sum_of (weigh weight) (with_call call.now n []) }
{
    match call {
        Call::Generate { node, count, .. } if *node == n => weight.of(*count),
        _ => 0,
    }
}

// What calls ask of it.
fn of_calls(calls: &[Call], n: u16, weight: Weight) -> u64
    requires { IsWeight weight }
    ensures { sum_of (weigh weight) (asked_of calls.now n) < 2 ^ 64 → result ≡ sum_of (weigh weight) (asked_of calls.now n) }
{
    let mut sum: u64 = 0;
    'calls: for call in calls {
        sum = sum.saturating_add(of_call(call, n, weight));
    }
    sum
}

// Whether node n is the parent of node m.
fn is_child(plan: &TreePlan, n: u16, m: u16) -> bool
    requires { m < length plan.now.nodes }
    ensures { result ≡ is_child plan.now n m }
{
    match parent(plan, m) {
        Some(q) => q == n,
        None => false,
    }
}

// Whether node n is an RBG3(RS).
pub(crate) fn is_rs(plan: &TreePlan, n: u16) -> bool
    requires { n < length plan.now.nodes }
    ensures { result ≡ is_rs (node_row plan.now n).kind }
{
    matches!(plan.node(n).kind, NodeKind::Rbg3Rs)
}

// The bytes of a reseed of node n.
pub(crate) fn entropy_len(plan: &TreePlan, n: u16) -> u32
    requires { n < length plan.now.nodes }
    ensures len { result ≡ entropy_len (node_row plan.now n) }
    ensures range { (0 < result) × (result ≤ 32) }
{
    u32::from(plan.node(n).drbg.strength()) / 8
}

// The reseeds of a node that is asked so often, from a reseed counter on.
fn reseeds_by(interval: u64, counter: u64, times: u64) -> u64
    requires { 1 ≤ interval }
    ensures { counter + times < 2 ^ 64 → result ≡ reseeds_by interval counter times }
{
    if times == 0 {
        0
    } else {
        counter.saturating_add(times).saturating_sub(2) / interval
    }
}

// What child m, which is asked so often, asks of its parent: as many bytes as its entropy has, for each reseed.
fn handed(plan: &TreePlan, before: &[NodeCounts], weight: Weight, m: u16, times: u64) -> u64
    requires nodes { length before.now ≡ length plan.now.nodes }
    requires there { m < length plan.now.nodes }
    requires weight { IsWeight weight }
    ensures { let reseeds = reseeds_by (node_row plan.now m).interval (counts_in before.now m).counter times in
        (counts_in before.now m).counter + times < 2 ^ 64 → reseeds * weigh weight (entropy_len (node_row plan.now m)) < 2 ^ 64 →
        result ≡ reseeds * weigh weight (entropy_len (node_row plan.now m)) }
{
    let reseeds = reseeds_by(plan.node(m).interval, before[usize::from(m)].counter, times);
    reseeds.saturating_mul(weight.of(entropy_len(plan, m)))
}

// What is asked of node n, by calls and by its children, which are followed so far below it.
pub(crate) fn asked(
    plan: &TreePlan,
    before: &[NodeCounts],
    calls: &[Call],
    weight: Weight,
    far: u16,
    n: u16,
) -> u64
    requires nodes { length before.now ≡ length plan.now.nodes }
    requires there { n < length plan.now.nodes }
    requires deep { far ≤ length plan.now.nodes }
    requires weight { IsWeight weight }
    ensures { AllFit plan.now (counts_in before.now) (asked_of calls.now) →
        let sum = sum_of (weigh weight) (asks far plan.now (λ m. (counts_in before.now m).counter) (asked_of calls.now) n) in
        sum < 2 ^ 64 → result ≡ sum }
{
    let mut sum = of_calls(calls, n, weight);
    if far == 0 {
        return sum;
    }
    'children: for m in 0..plan.nodes() {
        if is_child(plan, n, m) {
            let times = asked(plan, before, calls, Weight::One, far - 1, m);
            sum = sum.saturating_add(handed(plan, before, weight, m, times));
        }
    }
    sum
}

// Its reseeds: RBG3(RS) reseeds before each chunk.
pub(crate) fn reseeds_of(plan: &TreePlan, before: &[NodeCounts], calls: &[Call], n: u16) -> u64
    requires nodes { length before.now ≡ length plan.now.nodes }
    requires there { n < length plan.now.nodes }
    ensures { AllFit plan.now (counts_in before.now) (asked_of calls.now) →
        result ≡ reseeds_for (node_row plan.now n) (counts_in before.now n).counter (all_asks plan.now (λ m. (counts_in before.now m).counter) (asked_of calls.now) n) }
{
    if is_rs(plan, n) {
        return gives_of(plan, before, calls, n);
    }
    let times = asked(plan, before, calls, Weight::One, plan.nodes(), n);
    reseeds_by(plan.node(n).interval, before[usize::from(n)].counter, times)
}

// Its generates: of RBG3(RS) one for each chunk, else one for each length.
fn gives_of(plan: &TreePlan, before: &[NodeCounts], calls: &[Call], n: u16) -> u64
    requires nodes { length before.now ≡ length plan.now.nodes }
    requires there { n < length plan.now.nodes }
    ensures { AllFit plan.now (counts_in before.now) (asked_of calls.now) →
        result ≡ gives_for (node_row plan.now n) (all_asks plan.now (λ m. (counts_in before.now m).counter) (asked_of calls.now) n) }
{
    if is_rs(plan, n) {
        let size = entropy_len(plan, n);
        return asked(
            plan,
            before,
            calls,
            Weight::Chunks { size },
            plan.nodes(),
            n,
        );
    }
    asked(plan, before, calls, Weight::One, plan.nodes(), n)
}

// The reseed counter of a node behind so many lengths and reseeds.
fn counter_by(plan: &TreePlan, n: u16, counter: u64, times: u64, reseeds: u64) -> u64
    requires { n < length plan.now.nodes }
    ensures { counter + times < 2 ^ 64 → result ≡ by_length (node_row plan.now n) counter reseeds times }
{
    if times == 0 {
        return counter;
    }
    if is_rs(plan, n) {
        return 2;
    }
    let interval = plan.node(n).interval;
    counter
        .saturating_add(times)
        .saturating_sub(interval.saturating_mul(reseeds))
}

/// The counts of node n after calls each of which is a Generate without prediction resistance or a Status, and is Done, whatever their
/// order. `before` has the counts of all nodes before them. No tree is needed, and none is changed.
pub fn node_tally(plan: &TreePlan, before: &[NodeCounts], calls: &[Call], n: u16) -> NodeCounts
    requires nodes { length before.now ≡ length plan.now.nodes }
    requires there { n < length plan.now.nodes }
    ensures { AllFit plan.now (counts_in before.now) (asked_of calls.now) →
        result ≡ node_tally plan.now (counts_in before.now) (asked_of calls.now) n }
{
    let counts = before[usize::from(n)];
    let times = asked(plan, before, calls, Weight::One, plan.nodes(), n);
    let reseeds = reseeds_of(plan, before, calls, n);
    let gives = gives_of(plan, before, calls, n);
    NodeCounts {
        live: counts.live,
        counter: counter_by(plan, n, counts.counter, times, reseeds),
        seeds: counts.seeds.saturating_add(reseeds),
        gives: counts.gives.saturating_add(gives),
    }
}
