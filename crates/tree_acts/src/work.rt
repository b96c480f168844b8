// The work of a call whose chain is held.
ghost use Rattle.std.specs.Prelude.{◌≡◌, ◌≤◌, ◌<◌, ℕ, List, [], ◌∷◌, length, take, true, None};
ghost use Rattle.tree_rules.specs.Chain.{named, slots_of};
ghost use Rattle.tree_rules.specs.Slots.{node_row};
ghost use Rattle.tree_rules.specs.Replies.{asked_count, chain_of, refusal, seeds_or_gives};
ghost use Rattle.tree_acts.specs.Hold.{IsOfPlan, AreHeld, FewCounts, states_held};
ghost use Rattle.tree_acts.specs.Chained.{room_for};
ghost use Rattle.tree_acts.specs.Kept.{SameRows};
ghost use Rattle.tree_acts.specs.Made.{ServedBy};
ghost use Rattle.tree_acts.specs.Wiped.{IsWipedBehind};

use crate::climb::climb;
use crate::holdings::Holdings;
use crate::parts::{asked, asked_count, asks_pr, named};
use crate::wipe::wipe;
use entropy_source::EntropySource;
use sample_source::Samples;
use tree_config::{NodeKind, TreePlan};
use tree_rules::{Call, Reply};

// The reply of a call that is done, with so many bytes.
fn done(len: u32) -> Reply
    ensures { result ≡ record { code = 0; a = 0; b = 0; len = len } }
{
    Reply {
        code: 0,
        a: 0,
        b: 0,
        len,
    }
}

// The bytes that an RBG3 draws beside those that it answers, or more.
fn spare_len(plan: &TreePlan, call: Call) -> usize
    requires there { named call < length plan.now.nodes }
    ensures { result ≡ room_for (node_row plan.now (named call)).kind (asked_count call) }
{
    match plan.node(named(call)).kind {
        NodeKind::Rbg3Xor => asked_count(call) as usize * 2 + 64,
        NodeKind::Rbg3Rs => asked_count(call) as usize * 2 + 64,
        _ => 0,
    }
}

/// Instantiate, Generate and Reseed.
pub fn chain_work<S: Samples, H: Holdings<EntropySource<S>>>(
    plan: &TreePlan,
    hold: &mut H,
    call: Call,
    input: &[u8],
    out: &mut [u8],
) -> Reply
    requires kind { seeds_or_gives call ≡ true }
    requires plan { IsOfPlan plan.now (H.what hold.old) }
    requires held { AreHeld (H.what hold.old) (slots_of (chain_of plan.now (states_held S.told S.faults (H.what hold.old)) call input.now)) }
    requires free { refusal plan.now call input.now (chain_of plan.now (states_held S.told S.faults (H.what hold.old)) call input.now) ≡ None }
    requires counts { FewCounts (H.what hold.old) }
    requires room { 65536 ≤ length out.old }
    ensures served { ServedBy S.told S.faults S.reads plan.now (H.what hold.old) (H.what hold.new) call input.now result (take result.len out.new) }
    ensures within { result.len ≤ 65536 }
    ensures rows { SameRows (H.what hold.old) (H.what hold.new) }
    ensures behind { IsWipedBehind result.len out.old out.new }
{
    let far = plan.nodes();
    let count = asked_count(call);
    let (answer, behind) = out.split_at_mut(count as usize);
    let (spare, _rest) = behind.split_at_mut(spare_len(plan, call));
    let refused = climb(
        plan,
        hold,
        named(call),
        asked(call),
        asks_pr(call),
        input,
        answer,
        spare,
        far,
    );
    wipe(spare);
    match refused {
        Some(reply) => {
            wipe(answer);
            reply
        }
        None => done(count),
    }
}
