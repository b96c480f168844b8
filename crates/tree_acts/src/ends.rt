// The last node of a chain.
ghost use Rattle.std.specs.Prelude.{◌≡◌, ◌<◌, [], ◌∷◌, length, Some, None};
ghost use Rattle.tree_rules.specs.Chain.{source_of, source_at};
ghost use Rattle.tree_rules.specs.Fits.{source_reply};
ghost use Rattle.tree_rules.specs.Works.{task_work};
ghost use Rattle.tree_acts.specs.Did.{Did};
ghost use Rattle.tree_acts.specs.Ends.{SeedsAlone, SourceWorked};
ghost use Rattle.tree_acts.specs.Plain.{task_in};
ghost use Rattle.tree_acts.specs.Hold.{states_held};
ghost use Rattle.tree_acts.specs.Chained.{link_held, Ready};
ghost use Rattle.tree_acts.specs.Work.{Worked};

use crate::acts::{draw_at, give_at, seed_own_at};
use crate::holdings::Holdings;
use crate::looks::step_at;
use crate::part::part_at;
use crate::rbg3::{rs_work, xor_work};
use crate::replies::source_reply;
use crate::samples::source_of;
use crate::step::Asked;
use crate::wipe::wipe;
use entropy_source::{EntropySource, SourceRefusal};
use sample_source::Samples;
use tree_config::{NodeKind, TreePlan};
use tree_rules::Reply;

// The work of a node that needs no source: of an RBG1 that is instantiated, or of a node that gives without a seeding.
pub(crate) fn own_work<S: Samples, H: Holdings<EntropySource<S>>>(
    plan: &TreePlan,
    hold: &mut H,
    n: u16,
    asked: Asked,
    pr: bool,
    string: &[u8],
    out: &mut [u8],
    spare: &mut [u8],
)
    requires ready { Ready S.told S.faults plan.now (H.what hold.old) pr (task_in asked) n
        (link_held S.told S.faults plan.now (H.what hold.old) (task_in asked) n ∷ []) (length string.now) (length out.old) (length spare.old) }
    requires none { source_of plan.now (states_held S.told S.faults (H.what hold.old)) pr (link_held S.told S.faults plan.now (H.what hold.old) (task_in asked) n) ≡ None }
    ensures did { Did S.told S.faults S.reads plan.now (H.what hold.old) (H.what hold.new)
        (task_work pr [] string.now (link_held S.told S.faults plan.now (H.what hold.old) (task_in asked) n) [] (task_in asked)).acts }
    ensures bytes { out.new ≡ (task_work pr [] string.now (link_held S.told S.faults plan.now (H.what hold.old) (task_in asked) n) [] (task_in asked)).bytes }
{
    let _pr = pr;
    let _spare = spare;
    match asked {
        Asked::Instantiate => {
            seed_own_at(plan, hold, n, string);
            return;
        }
        Asked::Give { len: _ } => {
            give_at(plan, hold, n, string, out);
            return;
        }
        Asked::Reseed => return,
        Asked::Rest => return,
    }
}

// One seeding from source j, and the output behind it.
pub(crate) fn seed_work<S: Samples, H: Holdings<EntropySource<S>>>(
    plan: &TreePlan,
    hold: &mut H,
    n: u16,
    asked: Asked,
    j: u8,
    pr: bool,
    string: &[u8],
    out: &mut [u8],
    spare: &mut [u8],
) -> Option<SourceRefusal>
    requires ready { Ready S.told S.faults plan.now (H.what hold.old) pr (task_in asked) n
        (link_held S.told S.faults plan.now (H.what hold.old) (task_in asked) n ∷ []) (length string.now) (length out.old) (length spare.old) }
    requires planned { j < length plan.now.sources }
    requires on { source_of plan.now (states_held S.told S.faults (H.what hold.old)) pr (link_held S.told S.faults plan.now (H.what hold.old) (task_in asked) n)
        ≡ Some (source_at plan.now (states_held S.told S.faults (H.what hold.old)) j) }
    requires alone { SeedsAlone pr string.now (link_held S.told S.faults plan.now (H.what hold.old) (task_in asked) n) }
    ensures { SourceWorked S.told S.faults S.reads plan.now (H.what hold.old) (H.what hold.new) pr string.now
        (link_held S.told S.faults plan.now (H.what hold.old) (task_in asked) n) j result out.new }
{
    let _spare = spare;
    let step = step_at(plan, hold, n, asked);
    let len = step.seeding_len();
    let mut material = [0u8; 48];
    let drawn = &mut material[..len as usize];
    let refused = draw_at(plan, hold, j, drawn);
    if refused.is_some() {
        wipe(&mut material);
        return refused;
    }
    part_at(plan, hold, n, asked, drawn, string, out);
    wipe(&mut material);
    None
}

// The work of a node that draws on source j.
pub(crate) fn source_work<S: Samples, H: Holdings<EntropySource<S>>>(
    plan: &TreePlan,
    hold: &mut H,
    n: u16,
    asked: Asked,
    j: u8,
    pr: bool,
    string: &[u8],
    out: &mut [u8],
    spare: &mut [u8],
) -> Option<SourceRefusal>
    requires ready { Ready S.told S.faults plan.now (H.what hold.old) pr (task_in asked) n
        (link_held S.told S.faults plan.now (H.what hold.old) (task_in asked) n ∷ []) (length string.now) (length out.old) (length spare.old) }
    requires planned { j < length plan.now.sources }
    requires on { source_of plan.now (states_held S.told S.faults (H.what hold.old)) pr (link_held S.told S.faults plan.now (H.what hold.old) (task_in asked) n)
        ≡ Some (source_at plan.now (states_held S.told S.faults (H.what hold.old)) j) }
    ensures { SourceWorked S.told S.faults S.reads plan.now (H.what hold.old) (H.what hold.new) pr string.now
        (link_held S.told S.faults plan.now (H.what hold.old) (task_in asked) n) j result out.new }
{
    let kind = plan.node(n).kind;
    if matches!(asked, Asked::Give { .. }) {
        match kind {
            NodeKind::Rbg3Rs => return rs_work(plan, hold, n, asked, j, pr, string, out, spare),
            NodeKind::Rbg3Xor => return xor_work(plan, hold, n, asked, j, pr, string, out, spare),
            _ => {}
        }
    }
    seed_work(plan, hold, n, asked, j, pr, string, out, spare)
}

// The work of a node that asks no parent.
pub(crate) fn end_work<S: Samples, H: Holdings<EntropySource<S>>>(
    plan: &TreePlan,
    hold: &mut H,
    n: u16,
    asked: Asked,
    pr: bool,
    string: &[u8],
    out: &mut [u8],
    spare: &mut [u8],
) -> Option<Reply>
    requires { Ready S.told S.faults plan.now (H.what hold.old) pr (task_in asked) n
        (link_held S.told S.faults plan.now (H.what hold.old) (task_in asked) n ∷ []) (length string.now) (length out.old) (length spare.old) }
    ensures { Worked S.told S.faults S.reads plan.now (H.what hold.old) (H.what hold.new) pr string.now
        (link_held S.told S.faults plan.now (H.what hold.old) (task_in asked) n ∷ [])
        (source_of plan.now (states_held S.told S.faults (H.what hold.old)) pr (link_held S.told S.faults plan.now (H.what hold.old) (task_in asked) n))
        result out.new }
{
    let step = step_at(plan, hold, n, asked);
    match source_of(plan, step, pr) {
        None => {
            own_work(plan, hold, n, asked, pr, string, out, spare);
            None
        }
        Some(j) => match source_work(plan, hold, n, asked, j, pr, string, out, spare) {
            None => None,
            Some(why) => Some(source_reply(j, why)),
        },
    }
}
