// A node's own part of a call, once it has its material.
ghost use Rattle.std.specs.Prelude.{◌≡◌, ◌<◌, ◌≤◌, ◌^◌, ◌+◌, ℕ, List, [], ◌∷◌, IsSome, length, true, false, not};
ghost use Rattle.tree_rules.specs.Links.{link, must_seed, starts, seeding_len, is_rs, is_xor};
ghost use Rattle.tree_rules.specs.Slots.{node_row};
ghost use Rattle.tree_acts.specs.Plain.{task_in};
ghost use Rattle.tree_acts.specs.Hold.{Hold, IsOfPlan, node_held, states_held};
ghost use Rattle.tree_acts.specs.Did.{Did};
ghost use Rattle.tree_acts.specs.Chained.{len_of};
ghost use Rattle.tree_acts.specs.Work.{seeded_part};

use crate::acts::{give_at, reseed_at, seed_at};
use crate::holdings::Holdings;
use crate::step::Asked;
use entropy_source::EntropySource;
use sample_source::Samples;
use tree_config::TreePlan;

// Node n is seeded with its material for its task, and gives where it is asked to.
pub(crate) fn part_at<S: Samples, H: Holdings<EntropySource<S>>>(
    plan: &TreePlan,
    hold: &mut H,
    n: u16,
    asked: Asked,
    material: &[u8],
    string: &[u8],
    out: &mut [u8],
)
    requires plan { IsOfPlan plan.now (H.what hold.old) }
    requires there { IsSome ((H.what hold.old).nodes n) }
    requires planned { n < length plan.now.nodes }
    requires alive { (node_held S.told S.faults (H.what hold.old) n).live ≡ not (starts (task_in asked)) }
    requires seeds { (node_held S.told S.faults (H.what hold.old) n).seeds < 2 ^ 62 }
    requires gives { (node_held S.told S.faults (H.what hold.old) n).gives < 2 ^ 62 }
    requires material { length material.now ≡ seeding_len (link plan.now n (task_in asked) (states_held S.told S.faults (H.what hold.old) n)) }
    requires string { length string.now ≤ 65536 }
    requires asks { length out.old ≡ len_of (task_in asked) }
    requires out { length out.old ≤ 65536 }
    ensures did { Did S.told S.faults S.reads plan.now (H.what hold.old) (H.what hold.new)
        (seeded_part (link plan.now n (task_in asked) (states_held S.told S.faults (H.what hold.old) n)) material.now string.now (task_in asked)).acts }
    ensures bytes { out.new ≡ (seeded_part (link plan.now n (task_in asked) (states_held S.told S.faults (H.what hold.old) n)) material.now string.now (task_in asked)).bytes }
{
    match asked {
        Asked::Instantiate => seed_at(plan, hold, n, material, string),
        Asked::Reseed => reseed_at(plan, hold, n, material, string),
        Asked::Give { len: _ } => {
            let _range = plan.node(n);
            reseed_at(plan, hold, n, material, string);
            give_at(plan, hold, n, &[], out);
        }
        Asked::Rest => {}
    }
}
