// One act on a node that is held, and one draw on a source that is held.
ghost use Rattle.std.specs.Prelude.{◌≡◌, ◌<◌, ◌≤◌, ◌^◌, ◌+◌, ℕ, List, [], ◌∷◌, IsSome, length, true, false, take, unwrap_or};
ghost use Rattle.rbg_nodes.specs.Node.{Seeded, Gave, Cleared, New, Renew, seed_len, is_due, given_bytes};
ghost use Rattle.tree_rules.specs.History.{AtNode};
ghost use Rattle.entropy_source.specs.Source.{need_of};
ghost use Rattle.tree_rules.specs.Slots.{node_row, source_row, source_slot};
ghost use Rattle.tree_acts.specs.Drew.{Drew, Runs, Started};
ghost use Rattle.tree_acts.specs.Hold.{Hold, IsOfPlan, node_held, source_held};
ghost use Rattle.tree_acts.specs.Did.{Did};

use crate::holdings::Holdings;
use entropy_source::{EntropySource, SourceRefusal};
use sample_source::Samples;
use tree_config::TreePlan;

// Instantiates node n from drawn material.
pub(crate) fn seed_at<S: Samples, H: Holdings<EntropySource<S>>>(
    plan: &TreePlan,
    hold: &mut H,
    n: u16,
    material: &[u8],
    string: &[u8],
)
    requires plan { IsOfPlan plan.now (H.what hold.old) }
    requires there { IsSome ((H.what hold.old).nodes n) }
    requires dead { (node_held S.told S.faults (H.what hold.old) n).live ≡ false }
    requires few { (node_held S.told S.faults (H.what hold.old) n).seeds < 2 ^ 62 }
    requires material { length material.now ≡ seed_len (node_row plan.now n) New }
    requires string { length string.now ≤ 65536 }
    ensures { Did S.told S.faults S.reads plan.now (H.what hold.old) (H.what hold.new)
        (record { slot = n; act = AtNode (Seeded New material.now string.now) } ∷ []) }
{
    let _plan = plan;
    hold.node_mut(n).seed(material, string);
}

// Reseeds node n.
pub(crate) fn reseed_at<S: Samples, H: Holdings<EntropySource<S>>>(
    plan: &TreePlan,
    hold: &mut H,
    n: u16,
    material: &[u8],
    string: &[u8],
)
    requires plan { IsOfPlan plan.now (H.what hold.old) }
    requires there { IsSome ((H.what hold.old).nodes n) }
    requires live { (node_held S.told S.faults (H.what hold.old) n).live ≡ true }
    requires few { (node_held S.told S.faults (H.what hold.old) n).seeds < 2 ^ 62 }
    requires material { length material.now ≤ 65536 }
    requires string { length string.now ≤ 65536 }
    ensures { Did S.told S.faults S.reads plan.now (H.what hold.old) (H.what hold.new)
        (record { slot = n; act = AtNode (Seeded Renew material.now string.now) } ∷ []) }
{
    let _plan = plan;
    hold.node_mut(n).reseed(material, string);
}

// Fills `out` by one generate of node n.
pub(crate) fn give_at<S: Samples, H: Holdings<EntropySource<S>>>(
    plan: &TreePlan,
    hold: &mut H,
    n: u16,
    add: &[u8],
    out: &mut [u8],
)
    requires plan { IsOfPlan plan.now (H.what hold.old) }
    requires there { IsSome ((H.what hold.old).nodes n) }
    requires live { (node_held S.told S.faults (H.what hold.old) n).live ≡ true }
    requires due { is_due (node_row plan.now n) (node_held S.told S.faults (H.what hold.old) n) ≡ false }
    requires few { (node_held S.told S.faults (H.what hold.old) n).gives < 2 ^ 62 }
    requires add { length add.now ≤ 65536 }
    requires out { length out.old ≤ 65536 }
    ensures did { Did S.told S.faults S.reads plan.now (H.what hold.old) (H.what hold.new)
        (record { slot = n; act = AtNode (Gave add.now (length out.old) out.new) } ∷ []) }
    ensures bytes { out.new ≡ given_bytes (node_row plan.now n) (node_held S.told S.faults (H.what hold.old) n) add.now (length out.old) }
{
    let _plan = plan;
    hold.node_mut(n).give(add, out);
}

// Draws on source j, which runs.
pub(crate) fn draw_at<S: Samples, H: Holdings<EntropySource<S>>>(
    plan: &TreePlan,
    hold: &mut H,
    j: u8,
    out: &mut [u8],
) -> Option<SourceRefusal>
    requires plan { IsOfPlan plan.now (H.what hold.old) }
    requires planned { j < length plan.now.sources }
    requires there { IsSome ((H.what hold.old).sources (source_slot plan.now j)) }
    requires some { 0 < length out.old }
    requires few { length out.old ≤ 4096 }
    requires runs { Runs S.told S.faults plan.now (H.what hold.old) j (need_of (source_row plan.now j) (length out.old ∷ [])) }
    ensures { Drew S.told S.faults S.reads plan.now (H.what hold.old) (H.what hold.new) j (length out.old ∷ []) result (out.new ∷ []) }
{
    let slot = plan.nodes() + u16::from(j);
    let _taken = hold.source(slot).taken();
    let drawn = hold.source_mut(slot).draw(out);
    match drawn {
        Ok(_) => None,
        Err(why) => Some(why),
    }
}

// Instantiates node n from the seed that it keeps.
pub(crate) fn seed_own_at<S: Samples, H: Holdings<EntropySource<S>>>(
    plan: &TreePlan,
    hold: &mut H,
    n: u16,
    string: &[u8],
)
    requires plan { IsOfPlan plan.now (H.what hold.old) }
    requires there { IsSome ((H.what hold.old).nodes n) }
    requires dead { (node_held S.told S.faults (H.what hold.old) n).live ≡ false }
    requires kept { IsSome (node_held S.told S.faults (H.what hold.old) n).kept }
    requires few { (node_held S.told S.faults (H.what hold.old) n).seeds < 2 ^ 62 }
    requires string { length string.now ≤ 65536 }
    ensures { Did S.told S.faults S.reads plan.now (H.what hold.old) (H.what hold.new)
        (record { slot = n; act = AtNode (Seeded New (take (seed_len (node_row plan.now n) New) (unwrap_or (node_held S.told S.faults (H.what hold.old) n).kept [])) string.now) } ∷ []) }
{
    let _plan = plan;
    let _counts = hold.node(n).counts();
    hold.node_mut(n).seed_own(string);
}

/// Uninstantiates node n.
pub fn clear_at<S: Samples, H: Holdings<EntropySource<S>>>(plan: &TreePlan, hold: &mut H, n: u16)
    requires plan { IsOfPlan plan.now (H.what hold.old) }
    requires there { IsSome ((H.what hold.old).nodes n) }
    ensures { Did S.told S.faults S.reads plan.now (H.what hold.old) (H.what hold.new) (record { slot = n; act = AtNode Cleared } ∷ []) }
{
    let _plan = plan;
    hold.node_mut(n).clear();
}

/// Starts source j.
pub fn start_at<S: Samples, H: Holdings<EntropySource<S>>>(
    plan: &TreePlan,
    hold: &mut H,
    j: u16,
) -> Option<SourceRefusal>
    requires plan { IsOfPlan plan.now (H.what hold.old) }
    requires planned { j < length plan.now.sources }
    requires there { IsSome ((H.what hold.old).sources (source_slot plan.now j)) }
    requires room { (source_held S.told S.faults (H.what hold.old) (source_slot plan.now j)).taken + (source_row plan.now j).startup ≤ 2 ^ 60 }
    ensures { Started S.told S.faults S.reads plan.now (H.what hold.old) (H.what hold.new) j result }
{
    let _few = plan.sources();
    let slot = plan.nodes() + j;
    let started = hold.source_mut(slot).start();
    match started {
        Ok(()) => None,
        Err(why) => Some(why),
    }
}
