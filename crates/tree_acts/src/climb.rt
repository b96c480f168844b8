// The work of a call along its chain, from the named node on.
ghost use Rattle.std.specs.Prelude.{ℕ, List, [], ◌∷◌, length};
ghost use Rattle.tree_rules.specs.Links.{last_link};
ghost use Rattle.tree_rules.specs.Chain.{source_of};
ghost use Rattle.tree_acts.specs.Plain.{task_in};
ghost use Rattle.tree_acts.specs.Hold.{states_held};
ghost use Rattle.tree_acts.specs.Chained.{links_held, Ready};
ghost use Rattle.tree_acts.specs.Work.{Worked};

use crate::ends::end_work;
use crate::holdings::Holdings;
use crate::looks::{above, step_at};
use crate::part::part_at;
use crate::step::Asked;
use crate::wipe::wipe;
use entropy_source::EntropySource;
use sample_source::Samples;
use tree_config::TreePlan;
use tree_rules::Reply;

// The work from node n on: a node that asks its parent is seeded with what the parent gives.
pub(crate) fn climb<S: Samples, H: Holdings<EntropySource<S>>>(
    plan: &TreePlan,
    hold: &mut H,
    n: u16,
    asked: Asked,
    pr: bool,
    string: &[u8],
    out: &mut [u8],
    spare: &mut [u8],
    far: u16,
) -> Option<Reply>
    requires { Ready S.told S.faults plan.now (H.what hold.old) pr (task_in asked) n
        (links_held S.told S.faults plan.now (H.what hold.old) pr (task_in asked) far n) (length string.now) (length out.old) (length spare.old) }
    ensures { Worked S.told S.faults S.reads plan.now (H.what hold.old) (H.what hold.new) pr string.now
        (links_held S.told S.faults plan.now (H.what hold.old) pr (task_in asked) far n)
        (source_of plan.now (states_held S.told S.faults (H.what hold.old)) pr
        (last_link (links_held S.told S.faults plan.now (H.what hold.old) pr (task_in asked) far n)))
        result out.new }
{
    let step = step_at(plan, hold, n, asked);
    let Some(q) = above(plan, step, pr, far) else {
        return end_work(plan, hold, n, asked, pr, string, out, spare);
    };
    let len = step.seeding_len();
    let mut material = [0u8; 48];
    let mut rest = [0u8; 192];
    let given = &mut material[..len as usize];
    let refused = climb(
        plan,
        hold,
        q,
        Asked::Give { len },
        pr,
        &[],
        given,
        &mut rest,
        far - 1,
    );
    if refused.is_some() {
        wipe(&mut material);
        wipe(&mut rest);
        return refused;
    }
    part_at(plan, hold, n, asked, given, string, out);
    wipe(&mut material);
    wipe(&mut rest);
    None
}
