// The walk along a chain, as far as its nodes are held.
ghost use Rattle.std.specs.Prelude.{◌≡◌, ◌<◌, ℕ, List, length, Some};
ghost use Rattle.tree_rules.specs.History.{States};
ghost use Rattle.tree_acts.specs.Plain.{task_in};
ghost use Rattle.tree_acts.specs.Hold.{IsOfPlan};
ghost use Rattle.tree_acts.specs.Chained.{links_from};
ghost use Rattle.tree_core.specs.Names.{AreStates, IsStep, Walks, IsEnd};

use crate::step::Reached;
use entropy_source::EntropySource;
use sample_source::Samples;
use tree_acts::{Asked, Holdings, Step, above, step_at};
use tree_config::TreePlan;

// The walk along a chain from a node on that is held.
pub(crate) fn reach<S: Samples, H: Holdings<EntropySource<S>>>(
    plan: &TreePlan,
    hold: &H,
    pr: bool,
    step: Step,
    far: u16,
) -> Reached
    requires plan { IsOfPlan plan.now (H.what hold.now) }
    requires step { IsStep S.told S.faults plan.now (H.what hold.now) step }
    ensures end { IsEnd S.told S.faults plan.now (H.what hold.now) result }
    ensures walks { (s : States) → AreStates S.told S.faults (H.what hold.now) s →
        Walks S.told S.faults plan.now (H.what hold.now) s (links_from plan.now s pr (task_in step.asked) far step.slot) result }
{
    let Some(q) = above(plan, step, pr, far) else {
        return Reached::End(step);
    };
    if !hold.held(q) {
        return Reached::Missing(q);
    }
    let len = step.seeding_len();
    let up = step_at(plan, hold, q, Asked::Give { len });
    reach(plan, hold, pr, up, far - 1)
}
