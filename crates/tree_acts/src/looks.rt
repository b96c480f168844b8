// A node as a call finds it, and the parent that it asks.
ghost use Rattle.std.specs.Prelude.{◌≡◌, ◌≢◌, ◌<◌, ◌⊎◌, IsSome, length, true, false, Some, None, MatchOption};
ghost use Rattle.tree_config.specs.declared.plan.Origin.{Origin};
ghost use Rattle.tree_config.specs.Tree.{parent_in};
ghost use Rattle.tree_rules.specs.Links.{link, asks_parent};
ghost use Rattle.tree_rules.specs.Slots.{node_plan};
ghost use Rattle.tree_acts.specs.Plain.{task_in, link_of};
ghost use Rattle.tree_acts.specs.Hold.{states_held};
ghost use Rattle.tree_acts.specs.Plainly.{plain};

use crate::holdings::Holdings;
use crate::plain::PlainNode;
use crate::step::{Asked, Step, parent};
use entropy_source::EntropySource;
use rbg_nodes::NodeRow;
use sample_source::Samples;
use tree_config::TreePlan;

/// Node n as it is held, in plain numbers.
pub fn step_at<S: Samples, H: Holdings<EntropySource<S>>>(
    plan: &TreePlan,
    hold: &H,
    n: u16,
    asked: Asked,
) -> Step
    requires planned { n < length plan.now.nodes }
    requires there { IsSome ((H.what hold.now).nodes n) }
    ensures slot { result.slot ≡ n }
    ensures asked { result.asked ≡ asked }
    ensures link { (o : Origin) → link_of result o ≡ plain (record (link plan.now n (task_in asked) (states_held S.told S.faults (H.what hold.now) n)) { origin = o }) }
{
    let planned = plan.node(n);
    let row = NodeRow {
        kind: planned.kind,
        drbg: planned.drbg,
        interval: planned.interval,
    };
    let node = hold.node(n);
    let counts = node.counts();
    Step {
        slot: n,
        row,
        node: PlainNode {
            live: counts.live,
            counter: counts.counter,
            has_seed: node.has_seed(),
        },
        asked,
    }
}

/// The parent that a node asks, where the walk may go so far.
pub fn above(plan: &TreePlan, step: Step, pr: bool, far: u16) -> Option<u16>
    requires planned { step.slot < length plan.now.nodes }
    ensures { MatchOption result ((far ≡ 0) ⊎ (asks_parent pr (link_of step (node_plan plan.now step.slot).origin) ≡ false))
        (λ q. (far ≢ 0) × (asks_parent pr (link_of step (node_plan plan.now step.slot).origin) ≡ true)
        × (parent_in (node_plan plan.now step.slot).origin ≡ Some q) × (q < length plan.now.nodes)) }
{
    if far == 0 {
        return None;
    }
    if !step.asks(pr) {
        return None;
    }
    parent(plan, step.slot)
}
