// The outputs of an RBG3(XOR).
ghost use Rattle.std.specs.Prelude.{◌≡◌, ◌<◌, ◌≤◌, ℕ, List, [], ◌∷◌, IsSome, length, true, false, Some};
ghost use Rattle.entropy_source.specs.Source.{need_of};
ghost use Rattle.tree_rules.specs.Slots.{node_row, source_row, source_slot};
ghost use Rattle.tree_rules.specs.Links.{Gives, is_xor, must_seed};
ghost use Rattle.tree_rules.specs.Chain.{source_of, source_at};
ghost use Rattle.tree_acts.specs.Plain.{task_in};
ghost use Rattle.tree_acts.specs.Hold.{IsOfPlan, states_held};
ghost use Rattle.tree_acts.specs.Chained.{len_of, link_held, Ready};
ghost use Rattle.tree_acts.specs.Drew.{Drew, Runs};
ghost use Rattle.tree_acts.specs.Ends.{SourceWorked};
ghost use Rattle.tree_acts.specs.Pieces.{some_len, some_string};

use crate::acts::{draw_at, give_at, reseed_at};
use crate::holdings::Holdings;
use crate::step::Asked;
use crate::wipe::wipe;
use entropy_source::{EntropySource, SourceRefusal};
use rbg_bytes::xor_bytes;
use sample_source::Samples;
use tree_config::TreePlan;

// Draws on source j where there are bytes to fill.
fn draw_some<S: Samples, H: Holdings<EntropySource<S>>>(
    plan: &TreePlan,
    hold: &mut H,
    j: u8,
    out: &mut [u8],
) -> Option<SourceRefusal>
    requires plan { IsOfPlan plan.now (H.what hold.old) }
    requires planned { j < length plan.now.sources }
    requires there { IsSome ((H.what hold.old).sources (source_slot plan.now j)) }
    requires few { length out.old ≤ 4096 }
    requires runs { Runs S.told S.faults plan.now (H.what hold.old) j (need_of (source_row plan.now j) (some_len (length out.old))) }
    ensures { Drew S.told S.faults S.reads plan.now (H.what hold.old) (H.what hold.new) j (some_len (length out.old)) result (some_string out.new) }
{
    let _few = hold.source(plan.nodes() + u16::from(j)).taken();
    if out.is_empty() {
        return None;
    }
    draw_at(plan, hold, j, out)
}

// Of a node that needn't be seeded.
pub(crate) fn mix_plain<S: Samples, H: Holdings<EntropySource<S>>>(
    plan: &TreePlan,
    hold: &mut H,
    n: u16,
    asked: Asked,
    j: u8,
    pr: bool,
    string: &[u8],
    out: &mut [u8],
    spare: &mut [u8],
) -> Option<SourceRefusal>
    requires ready { Ready S.told S.faults plan.now (H.what hold.old) pr (task_in asked) n
        (link_held S.told S.faults plan.now (H.what hold.old) (task_in asked) n ∷ []) (length string.now) (length out.old) (length spare.old) }
    requires planned { j < length plan.now.sources }
    requires on { source_of plan.now (states_held S.told S.faults (H.what hold.old)) pr (link_held S.told S.faults plan.now (H.what hold.old) (task_in asked) n)
        ≡ Some (source_at plan.now (states_held S.told S.faults (H.what hold.old)) j) }
    requires xor { is_xor (node_row plan.now n).kind ≡ true }
    requires gives { task_in asked ≡ Gives (len_of (task_in asked)) }
    requires must { must_seed pr (link_held S.told S.faults plan.now (H.what hold.old) (task_in asked) n) ≡ false }
    ensures { SourceWorked S.told S.faults S.reads plan.now (H.what hold.old) (H.what hold.new) pr string.now
        (link_held S.told S.faults plan.now (H.what hold.old) (task_in asked) n) j result out.new }
{
    let _pr = pr;
    let _asked = asked;
    let (fresh, _rest) = spare.split_at_mut(out.len());
    let refused = draw_some(plan, hold, j, fresh);
    if refused.is_some() {
        return refused;
    }
    give_at(plan, hold, n, string, out);
    xor_bytes(out, fresh);
    None
}

// Of a node that must be seeded first.
pub(crate) fn mix_seeded<S: Samples, H: Holdings<EntropySource<S>>>(
    plan: &TreePlan,
    hold: &mut H,
    n: u16,
    asked: Asked,
    j: u8,
    pr: bool,
    string: &[u8],
    out: &mut [u8],
    spare: &mut [u8],
) -> Option<SourceRefusal>
    requires ready { Ready S.told S.faults plan.now (H.what hold.old) pr (task_in asked) n
        (link_held S.told S.faults plan.now (H.what hold.old) (task_in asked) n ∷ []) (length string.now) (length out.old) (length spare.old) }
    requires planned { j < length plan.now.sources }
    requires on { source_of plan.now (states_held S.told S.faults (H.what hold.old)) pr (link_held S.told S.faults plan.now (H.what hold.old) (task_in asked) n)
        ≡ Some (source_at plan.now (states_held S.told S.faults (H.what hold.old)) j) }
    requires xor { is_xor (node_row plan.now n).kind ≡ true }
    requires gives { task_in asked ≡ Gives (len_of (task_in asked)) }
    requires must { must_seed pr (link_held S.told S.faults plan.now (H.what hold.old) (task_in asked) n) ≡ true }
    ensures { SourceWorked S.told S.faults S.reads plan.now (H.what hold.old) (H.what hold.new) pr string.now
        (link_held S.told S.faults plan.now (H.what hold.old) (task_in asked) n) j result out.new }
{
    let _pr = pr;
    let _asked = asked;
    let entropy = plan.node(n).drbg.strength() / 8;
    let mut material = [0u8; 32];
    let drawn = &mut material[..entropy as usize];
    let refused = draw_at(plan, hold, j, drawn);
    if refused.is_some() {
        wipe(&mut material);
        return refused;
    }
    let (fresh, _rest) = spare.split_at_mut(out.len());
    let more = draw_some(plan, hold, j, fresh);
    if more.is_some() {
        wipe(&mut material);
        return more;
    }
    reseed_at(plan, hold, n, drawn, string);
    wipe(&mut material);
    give_at(plan, hold, n, &[], out);
    xor_bytes(out, fresh);
    None
}
