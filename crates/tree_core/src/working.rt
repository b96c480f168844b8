// The work of a call whose chain is held and that no row of the table refuses.
ghost use Rattle.std.specs.Prelude.{◌≡◌, ◌≤◌, ◌<◌, ℕ, [], length, take, drop, None};
ghost use Rattle.rbg_nodes.specs.Node.{NodeState};
ghost use Rattle.rbg_nodes.specs.Views.{counts_of};
ghost use Rattle.tree_rules.specs.declared.call.Call.TheVariants.{Start, Status, Uninstantiate};
ghost use Rattle.tree_rules.specs.Chain.{slots_of};
ghost use Rattle.tree_rules.specs.Replies.{chain_of, refusal};
ghost use Rattle.tree_rules.specs.Fits.{status_bytes};
ghost use Rattle.tree_rules.specs.Served.{Served};
ghost use Rattle.tree_acts.specs.Hold.{IsOfPlan, AreHeld, FewCounts, states_held};
ghost use Rattle.tree_acts.specs.Kept.{SameRows};
ghost use Rattle.tree_acts.specs.Made.{ServedBy};
ghost use Rattle.tree_acts.specs.Wiped.{IsWipedBehind};
ghost use Rattle.tree_core.specs.Raised.{AreRaised};

use entropy_source::EntropySource;
use rbg_bytes::{put_at, put_front};
use rbg_nodes::NodeCounts;
use sample_source::Samples;
use tree_acts::{Holdings, chain_work, clear_at, source_reply, start_at};
use tree_config::TreePlan;
use tree_rules::{Call, Reply};

// The reply of a call that is done, with so many bytes.
fn done(len: u32) -> Reply
    ensures { result ≡ record { code = 0; a = 0; b = 0; len = len } }
{
    Reply {
        code: 0,
        a: 0,
        b: 0,
        len,
    }
}

// A Start of source j.
fn start_work<S: Samples, H: Holdings<EntropySource<S>>>(
    plan: &TreePlan,
    hold: &mut H,
    j: u16,
    input: &[u8],
) -> Reply
    requires plan { IsOfPlan plan.now (H.what hold.old) }
    requires held { AreHeld (H.what hold.old) (slots_of (chain_of plan.now (states_held S.told S.faults (H.what hold.old)) (Start j) input.now)) }
    requires free { refusal plan.now (Start j) input.now (chain_of plan.now (states_held S.told S.faults (H.what hold.old)) (Start j) input.now) ≡ None }
    ensures served { ServedBy S.told S.faults S.reads plan.now (H.what hold.old) (H.what hold.new) (Start j) input.now result [] }
    ensures rows { SameRows (H.what hold.old) (H.what hold.new) }
    ensures len { result.len ≡ 0 }
{
    let _input = input;
    let _few = plan.sources();
    match start_at(plan, hold, j) {
        None => done(0),
        Some(why) => source_reply(j as u8, why),
    }
}

// An Uninstantiate of node n.
fn clear_work<S: Samples, H: Holdings<EntropySource<S>>>(
    plan: &TreePlan,
    hold: &mut H,
    n: u16,
    input: &[u8],
) -> Reply
    requires plan { IsOfPlan plan.now (H.what hold.old) }
    requires held { AreHeld (H.what hold.old) (slots_of (chain_of plan.now (states_held S.told S.faults (H.what hold.old)) (Uninstantiate n) input.now)) }
    requires free { refusal plan.now (Uninstantiate n) input.now (chain_of plan.now (states_held S.told S.faults (H.what hold.old)) (Uninstantiate n) input.now) ≡ None }
    ensures served { ServedBy S.told S.faults S.reads plan.now (H.what hold.old) (H.what hold.new) (Uninstantiate n) input.now result [] }
    ensures rows { SameRows (H.what hold.old) (H.what hold.new) }
    ensures len { result.len ≡ 0 }
{
    let _input = input;
    clear_at(plan, hold, n);
    done(0)
}

// Puts whether a node is instantiated, its reseed counter, its seedings and its generates, big endian, at the front of a buffer.
fn put_counts(counts: NodeCounts, out: &mut [u8])
    requires { 25 ≤ length out.old }
    ensures bytes { (s : NodeState) → counts ≡ counts_of s → take 25 out.new ≡ status_bytes s }
    ensures behind { drop 25 out.new ≡ drop 25 out.old }
{
    let mut bytes = [0u8; 25];
    let live: u8 = if counts.live { 1 } else { 0 };
    put_at(&mut bytes, 0, &[live]);
    put_at(&mut bytes, 1, &counts.counter.to_be_bytes());
    put_at(&mut bytes, 9, &counts.seeds.to_be_bytes());
    put_at(&mut bytes, 17, &counts.gives.to_be_bytes());
    put_front(out, &bytes);
}

// The Status of node n, which changes nothing.
fn status_work<S: Samples, H: Holdings<EntropySource<S>>>(
    plan: &TreePlan,
    hold: &H,
    n: u16,
    input: &[u8],
    out: &mut [u8],
) -> Reply
    requires plan { IsOfPlan plan.now (H.what hold.now) }
    requires held { AreHeld (H.what hold.now) (slots_of (chain_of plan.now (states_held S.told S.faults (H.what hold.now)) (Status n) input.now)) }
    requires free { refusal plan.now (Status n) input.now (chain_of plan.now (states_held S.told S.faults (H.what hold.now)) (Status n) input.now) ≡ None }
    requires room { 65536 ≤ length out.old }
    ensures served { ServedBy S.told S.faults S.reads plan.now (H.what hold.now) (H.what hold.now) (Status n) input.now result (take result.len out.new) }
    ensures len { result.len ≡ 25 }
    ensures behind { IsWipedBehind result.len out.old out.new }
{
    let _input = input;
    let _plan = plan;
    put_counts(hold.node(n).counts(), out);
    done(25)
}

/// Makes a call whose chain is held and that no row of the table of refusals refuses, and answers it. The reply's bytes are those at
/// the front of `out`, which has 65,536 bytes or more; behind them each byte is what it was, or 0. No node is seeded, or gives, more than
/// 256 times.
pub fn work<S: Samples, H: Holdings<EntropySource<S>>>(
    plan: &TreePlan,
    hold: &mut H,
    call: &Call,
    input: &[u8],
    out: &mut [u8],
) -> Reply
    requires plan { IsOfPlan plan.now (H.what hold.old) }
    requires held { AreHeld (H.what hold.old) (slots_of (chain_of plan.now (states_held S.told S.faults (H.what hold.old)) call.now input.now)) }
    requires free { refusal plan.now call.now input.now (chain_of plan.now (states_held S.told S.faults (H.what hold.old)) call.now input.now) ≡ None }
    requires counts { FewCounts (H.what hold.old) }
    requires room { 65536 ≤ length out.old }
    ensures served { Served plan.now (states_held S.told S.faults (H.what hold.old)) (states_held S.told S.faults (H.what hold.new)) call.now input.now
        result (take result.len out.new) }
    ensures made { ServedBy S.told S.faults S.reads plan.now (H.what hold.old) (H.what hold.new) call.now input.now result (take result.len out.new) }
    ensures within { result.len ≤ 65536 }
    ensures rows { SameRows (H.what hold.old) (H.what hold.new) }
    ensures counts { AreRaised (H.what hold.old) (H.what hold.new) }
    ensures behind { IsWipedBehind result.len out.old out.new }
{
    let _range = plan.nodes();
    match *call {
        Call::Start { source } => start_work(plan, hold, source, input),
        Call::Uninstantiate { node } => clear_work(plan, hold, node, input),
        Call::Status { node } => status_work(plan, hold, node, input, out),
        _ => chain_work(plan, hold, *call, input, out),
    }
}
