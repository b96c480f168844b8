// One call over a tree of which all is held.
ghost use Rattle.std.specs.Prelude.{◌≡◌, ◌≤◌, ◌-◌, ◌^◌, ℕ, List, length, take};
ghost use Rattle.tree_acts.specs.Made.{ServedBy};
ghost use Rattle.tree_acts.specs.Wiped.{IsWipedBehind};
ghost use Rattle.tree_core.specs.Raised.{AreRaised};
ghost use Rattle.tree_core.specs.Whole.{AreOfPlan, AreAtMost, all_held};

use crate::all::All;
use crate::naming::next;
use crate::step::Next;
use crate::working::work;
use sample_source::Samples;
use tree_config::TreePlan;
use tree_rules::{Call, Reply};

// Refuses the call, or makes it.
pub(crate) fn answer<S: Samples>(
    plan: &TreePlan,
    all: &mut All<S>,
    call: &Call,
    input: &[u8],
    out: &mut [u8],
) -> Reply
    requires plan { AreOfPlan plan.now all.old.nodes.items all.old.sources.items }
    requires few { AreAtMost all.old.nodes.items (2 ^ 62 - 256) }
    requires room { 65536 ≤ length out.old }
    ensures served { ServedBy S.told S.faults S.reads plan.now (all_held all.old.nodes.items all.old.sources.items)
        (all_held all.new.nodes.items all.new.sources.items) call.now input.now result (take result.len out.new) }
    ensures within { result.len ≤ 65536 }
    ensures plan { AreOfPlan plan.now all.new.nodes.items all.new.sources.items }
    ensures raised { AreRaised (all_held all.old.nodes.items all.old.sources.items) (all_held all.new.nodes.items all.new.sources.items) }
    ensures behind { IsWipedBehind result.len out.old out.new }
{
    let _tree = plan.nodes();
    match next(plan, all, call, input) {
        Next::Refuse(reply) => reply,
        Next::Ready => work(plan, all, call, input, out),
        Next::Take(_) => unreachable!(),
    }
}
