// The table of refusals.
ghost use Rattle.std.specs.Prelude.{◌≡◌, ◌≤◌, ◌<◌, ◌^◌, ◌∷◌, ◌&&◌, ◌||◌, ◌+◌, not, nat_lt, ℕ, List, length};
ghost use Rattle.tree_config.specs.declared.plan.Origin.{Origin};
ghost use Rattle.rbg_bytes.specs.Kinds.{strength};
ghost use Rattle.rbg_nodes.specs.Node.{is_due};
ghost use Rattle.tree_rules.specs.Slots.{node_row};
ghost use Rattle.tree_rules.specs.Links.{is_alive, is_rbg1, no_link};
ghost use Rattle.tree_rules.specs.Chain.{named, asks_pr};
ghost use Rattle.tree_rules.specs.Replies.{reply_row, first_reply, is_instantiate, is_reseed, is_start, seeds_or_gives, needs_life, asked_count, asked_strength, there_are, count_limit, is_running, error_test, error_index, plain_rows, rows_by, sample_limit};
ghost use Rattle.tree_acts.specs.Plain.{node_of, link_of};

use entropy_source::SourceMode;
use health_tests::Test;
use rbg_bytes::Kind;
use rbg_nodes::NodeRow;
use tree_acts::{
    Asked, PlainNode, Step, asked_count, asked_strength, asks_pr, is_instantiate, is_reseed,
    is_start, named, needs_life, seeds_or_gives,
};
use tree_config::{NodeKind, TreePlan};
use tree_rules::{Call, Reply, ReplyRow};

fn reply_row(code: u8, stands: bool, a: u64, b: u64) -> ReplyRow
    ensures { result ≡ reply_row code stands a b }
{
    ReplyRow {
        stands,
        reply: Reply { code, a, b, len: 0 },
    }
}

// The reply of the first row that stands.
pub(crate) fn first_reply(rows: &[ReplyRow]) -> Option<Reply>
    ensures { result ≡ first_reply rows.now }
{
    for row in rows {
        if row.stands {
            return Some(row.reply);
        }
    }
    None
}

fn is_running(mode: SourceMode) -> bool
    ensures { result ≡ is_running mode }
{
    matches!(mode, SourceMode::Running)
}

fn error_test(mode: SourceMode) -> u64
    ensures { result ≡ error_test mode }
{
    match mode {
        SourceMode::Alarmed { index: _, test } => match test {
            Test::Repetition => 1,
            Test::Proportion => 2,
        },
        _ => 0,
    }
}

fn error_index(mode: SourceMode) -> u64
    ensures { result ≡ error_index mode }
{
    match mode {
        SourceMode::Alarmed { index, test: _ } => index,
        _ => 0,
    }
}

fn is_rbg1(kind: NodeKind) -> bool
    ensures { result ≡ is_rbg1 kind }
{
    matches!(kind, NodeKind::Rbg1)
}

fn already_instantiated(call: Call, node: Step) -> ReplyRow
    ensures { result ≡ reply_row 3 (is_instantiate call && node.node.live) node.slot 0 }
{
    let stands = is_instantiate(call) & node.node.live;
    reply_row(3, stands, u64::from(node.slot), 0)
}

fn not_instantiated(call: Call, end: Step) -> ReplyRow
    ensures { (q : Origin) → result ≡ reply_row 4 (needs_life call && not (is_alive (link_of end q))) end.slot 0 }
{
    let stands = needs_life(call) & !end.is_alive();
    reply_row(4, stands, u64::from(end.slot), 0)
}

fn strength_too_high(call: Call, node: Step) -> ReplyRow
    ensures { result ≡ reply_row 5 (nat_lt (strength node.row.drbg) (asked_strength call)) (asked_strength call) (strength node.row.drbg) }
{
    let kept = node.row.drbg.strength();
    let asked = asked_strength(call);
    reply_row(5, kept < asked, u64::from(asked), u64::from(kept))
}

fn reseed_refused(call: Call, node: Step) -> ReplyRow
    ensures { result ≡ reply_row 6 (is_rbg1 node.row.kind && (is_reseed call || is_instantiate call && not node.node.has_seed)) node.slot 0 }
{
    let used = is_instantiate(call) & !node.node.has_seed;
    let stands = is_rbg1(node.row.kind) & (is_reseed(call) | used);
    reply_row(6, stands, u64::from(node.slot), 0)
}

fn pr_unsupported(call: Call, end: Step) -> ReplyRow
    ensures { result ≡ reply_row 7 (asks_pr call && is_rbg1 end.row.kind) end.slot 0 }
{
    let stands = asks_pr(call) & is_rbg1(end.row.kind);
    reply_row(7, stands, u64::from(end.slot), 0)
}

fn exhausted(call: Call, end: Step) -> ReplyRow
    ensures { result ≡ reply_row 8 (seeds_or_gives call && is_rbg1 end.row.kind && is_due end.row (node_of end.node)) end.slot end.node.counter }
{
    let stands = seeds_or_gives(call) & (is_rbg1(end.row.kind) & end.is_due());
    reply_row(8, stands, u64::from(end.slot), end.node.counter)
}

fn source_spent(taken: u64, samples: u64) -> ReplyRow
    ensures { result ≡ reply_row 10 (nat_lt sample_limit (taken + samples)) taken samples }
{
    let limit: u128 = 1 << 60;
    let stands = limit < u128::from(taken) + u128::from(samples);
    reply_row(10, stands, taken, samples)
}

fn source_in_error(call: Call, mode: SourceMode, samples: u64) -> ReplyRow
    ensures { result ≡ reply_row 11 (nat_lt 0 samples && not (is_running mode) && not (is_start call)) (error_test mode) (error_index mode) }
{
    let stands = (0 < samples) & (!is_running(mode) & !is_start(call));
    reply_row(11, stands, error_test(mode), error_index(mode))
}

// The rows that look at the call and the chain.
pub(crate) fn chain_rows(
    call: Call,
    node: Step,
    end: Step,
    taken: u64,
    mode: SourceMode,
    samples: u64,
) -> [ReplyRow; 8]
    ensures { (o q : Origin) → result ≡ rows_by call (link_of node o) (link_of end q) taken mode samples }
{
    [
        already_instantiated(call, node),
        not_instantiated(call, end),
        strength_too_high(call, node),
        reseed_refused(call, node),
        pr_unsupported(call, end),
        exhausted(call, end),
        source_spent(taken, samples),
        source_in_error(call, mode, samples),
    ]
}

// The most bytes of a Generate of the node that a call names.
fn count_limit(plan: &TreePlan, call: Call) -> u32
    ensures { result ≡ count_limit (node_row plan.now (named call)).kind }
{
    let n = named(call);
    if n >= plan.nodes() {
        return 65536;
    }
    match plan.node(n).kind {
        NodeKind::Rbg3Xor => 4096,
        NodeKind::Rbg3Rs => 4096,
        _ => 65536,
    }
}

// How many there are of what a call names.
fn there_are(plan: &TreePlan, call: Call) -> u16
    ensures { result ≡ there_are plan.now call }
{
    match call {
        Call::Start { source: _ } => u16::from(plan.sources()),
        _ => plan.nodes(),
    }
}

// The rows that look at the plan, the call and its string alone.
pub(crate) fn plain_rows(plan: &TreePlan, call: Call, string: &[u8]) -> [ReplyRow; 3]
    ensures { result ≡ plain_rows plan.now call string.now }
{
    let there = there_are(plan, call);
    let limit = count_limit(plan, call);
    let count = asked_count(call);
    let len = string.len() as u64;
    [
        reply_row(
            1,
            there <= named(call),
            u64::from(named(call)),
            u64::from(there),
        ),
        reply_row(2, limit < count, u64::from(count), u64::from(limit)),
        reply_row(2, 4096 < len, len, 4096),
    ]
}

// A node of which no row speaks.
pub(crate) fn no_step() -> Step
    ensures { (o : Origin) → link_of result o ≡ record no_link { origin = o } }
{
    Step {
        slot: 0,
        row: NodeRow {
            kind: NodeKind::Rbg2,
            drbg: Kind::HmacSha256,
            interval: 1,
        },
        node: PlainNode {
            live: true,
            counter: 0,
            has_seed: false,
        },
        asked: Asked::Rest,
    }
}
