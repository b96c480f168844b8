// The strings and the outputs of an RBG3(RS), chunk by chunk.
ghost use Rattle.std.specs.Prelude.{◌≡◌, ◌<◌, ◌≤◌, ◌^◌, ◌+◌, ◌*◌, ℕ, List, [], ◌∷◌, IsSome, length, true, false};
ghost use Rattle.entropy_source.specs.Source.{need_of};
ghost use Rattle.rbg_nodes.specs.Node.{is_due};
ghost use Rattle.tree_rules.specs.Slots.{node_row, source_row, source_slot};
ghost use Rattle.tree_rules.specs.Links.{Rests, link, chunk_lens};
ghost use Rattle.tree_rules.specs.Works.{chunked};
ghost use Rattle.tree_acts.specs.Hold.{Hold, IsOfPlan, node_held, states_held};
ghost use Rattle.tree_acts.specs.Did.{Did};
ghost use Rattle.tree_acts.specs.Drew.{Drew, Runs};
ghost use Rattle.tree_acts.specs.Pieces.{same_lens, pieces};

use crate::acts::{draw_at, give_at, reseed_at};
use crate::holdings::Holdings;
use entropy_source::{EntropySource, SourceRefusal};
use sample_source::Samples;
use tree_config::TreePlan;

// Draws so many strings of one length from source j, each behind the one before it.
pub(crate) fn draw_strings<S: Samples, H: Holdings<EntropySource<S>>>(
    plan: &TreePlan,
    hold: &mut H,
    j: u8,
    size: u32,
    count: u32,
    spare: &mut [u8],
) -> Option<SourceRefusal>
    requires plan { IsOfPlan plan.now (H.what hold.old) }
    requires planned { j < length plan.now.sources }
    requires there { IsSome ((H.what hold.old).sources (source_slot plan.now j)) }
    requires size { (0 < size) × (size ≤ 40) }
    requires room { count * size ≤ length spare.old }
    requires runs { Runs S.told S.faults plan.now (H.what hold.old) j (need_of (source_row plan.now j) (same_lens count size)) }
    ensures { Drew S.told S.faults S.reads plan.now (H.what hold.old) (H.what hold.new) j (same_lens count size) result (pieces count size spare.new) }
{
    let _few = hold.source(plan.nodes() + u16::from(j)).taken();
    if count == 0 {
        return None;
    }
    let (front, rest) = spare.split_at_mut(size as usize);
    let refused = draw_at(plan, hold, j, front);
    if refused.is_some() {
        return refused;
    }
    draw_strings(plan, hold, j, size, count - 1, rest)
}

// Before each chunk a reseed with a string of its own, the first one with the additional input, and then a generate.
pub(crate) fn give_chunks<S: Samples, H: Holdings<EntropySource<S>>>(
    plan: &TreePlan,
    hold: &mut H,
    n: u16,
    entropy: u32,
    count: u32,
    string: &[u8],
    strings: &[u8],
    out: &mut [u8],
)
    requires plan { IsOfPlan plan.now (H.what hold.old) }
    requires planned { n < length plan.now.nodes }
    requires there { IsSome ((H.what hold.old).nodes n) }
    requires live { (node_held S.told S.faults (H.what hold.old) n).live ≡ true }
    requires seeds { (node_held S.told S.faults (H.what hold.old) n).seeds + count ≤ 2 ^ 62 }
    requires gives { (node_held S.told S.faults (H.what hold.old) n).gives + count ≤ 2 ^ 62 }
    requires entropy { entropy ≤ 32 }
    requires strings { count * (entropy + 8) ≤ length strings.now }
    requires out { length out.old ≤ count * entropy }
    requires string { length string.now ≤ 4096 }
    ensures did { Did S.told S.faults S.reads plan.now (H.what hold.old) (H.what hold.new)
        (chunked (link plan.now n Rests (states_held S.told S.faults (H.what hold.old) n)) (node_held S.told S.faults (H.what hold.old) n) string.now
        (pieces count (entropy + 8) strings.now) (chunk_lens count entropy (length out.old))).acts }
    ensures bytes { out.new ≡
        (chunked (link plan.now n Rests (states_held S.told S.faults (H.what hold.old) n)) (node_held S.told S.faults (H.what hold.old) n) string.now
        (pieces count (entropy + 8) strings.now) (chunk_lens count entropy (length out.old))).bytes }
{
    if count == 0 {
        return;
    }
    let (front, rest) = strings.split_at(entropy as usize + 8);
    let len = (entropy as usize).min(out.len());
    let (piece, others) = out.split_at_mut(len);
    let _range = plan.node(n);
    reseed_at(plan, hold, n, front, string);
    give_at(plan, hold, n, &[], piece);
    give_chunks(plan, hold, n, entropy, count - 1, &[], rest, others);
}
