// The outputs of both RBG3s.
ghost use Rattle.std.specs.Prelude.{◌≡◌, ◌<◌, [], ◌∷◌, length, true, Some, None};
ghost use Rattle.tree_rules.specs.Links.{Gives, is_rs, is_xor};
ghost use Rattle.tree_rules.specs.Slots.{node_row};
ghost use Rattle.tree_rules.specs.Chain.{source_of, source_at};
ghost use Rattle.tree_acts.specs.Ends.{SourceWorked};
ghost use Rattle.tree_acts.specs.Plain.{task_in};
ghost use Rattle.tree_acts.specs.Hold.{states_held};
ghost use Rattle.tree_acts.specs.Chained.{len_of, link_held, Ready};

use crate::holdings::Holdings;
use crate::looks::step_at;
use crate::mixed::{mix_plain, mix_seeded};
use crate::step::Asked;
use crate::strings::{draw_strings, give_chunks};
use entropy_source::{EntropySource, SourceRefusal};
use sample_source::Samples;
use tree_config::TreePlan;

// The chunks of an RBG3(RS).
pub(crate) fn rs_work<S: Samples, H: Holdings<EntropySource<S>>>(
    plan: &TreePlan,
    hold: &mut H,
    n: u16,
    asked: Asked,
    j: u8,
    pr: bool,
    string: &[u8],
    out: &mut [u8],
    spare: &mut [u8],
) -> Option<SourceRefusal>
    requires ready { Ready S.told S.faults plan.now (H.what hold.old) pr (task_in asked) n
        (link_held S.told S.faults plan.now (H.what hold.old) (task_in asked) n ∷ []) (length string.now) (length out.old) (length spare.old) }
    requires planned { j < length plan.now.sources }
    requires on { source_of plan.now (states_held S.told S.faults (H.what hold.old)) pr (link_held S.told S.faults plan.now (H.what hold.old) (task_in asked) n)
        ≡ Some (source_at plan.now (states_held S.told S.faults (H.what hold.old)) j) }
    requires rs { is_rs (node_row plan.now n).kind ≡ true }
    requires gives { task_in asked ≡ Gives (len_of (task_in asked)) }
    ensures { SourceWorked S.told S.faults S.reads plan.now (H.what hold.old) (H.what hold.new) pr string.now
        (link_held S.told S.faults plan.now (H.what hold.old) (task_in asked) n) j result out.new }
{
    let step = step_at(plan, hold, n, asked);
    let entropy = step.entropy_len();
    let count = step.chunks(out.len() as u32);
    let refused = draw_strings(plan, hold, j, entropy + 8, count, spare);
    if refused.is_some() {
        return refused;
    }
    let _pr = pr;
    give_chunks(plan, hold, n, entropy, count, string, spare, out);
    None
}

// An output of an RBG3(XOR).
pub(crate) fn xor_work<S: Samples, H: Holdings<EntropySource<S>>>(
    plan: &TreePlan,
    hold: &mut H,
    n: u16,
    asked: Asked,
    j: u8,
    pr: bool,
    string: &[u8],
    out: &mut [u8],
    spare: &mut [u8],
) -> Option<SourceRefusal>
    requires ready { Ready S.told S.faults plan.now (H.what hold.old) pr (task_in asked) n
        (link_held S.told S.faults plan.now (H.what hold.old) (task_in asked) n ∷ []) (length string.now) (length out.old) (length spare.old) }
    requires planned { j < length plan.now.sources }
    requires on { source_of plan.now (states_held S.told S.faults (H.what hold.old)) pr (link_held S.told S.faults plan.now (H.what hold.old) (task_in asked) n)
        ≡ Some (source_at plan.now (states_held S.told S.faults (H.what hold.old)) j) }
    requires xor { is_xor (node_row plan.now n).kind ≡ true }
    requires gives { task_in asked ≡ Gives (len_of (task_in asked)) }
    ensures { SourceWorked S.told S.faults S.reads plan.now (H.what hold.old) (H.what hold.new) pr string.now
        (link_held S.told S.faults plan.now (H.what hold.old) (task_in asked) n) j result out.new }
{
    let step = step_at(plan, hold, n, asked);
    if step.must_seed(pr) {
        return mix_seeded(plan, hold, n, asked, j, pr, string, out, spare);
    }
    mix_plain(plan, hold, n, asked, j, pr, string, out, spare)
}
