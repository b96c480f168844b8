// A shared tree is opened.
ghost use Rattle.std.specs.Prelude.{◌≡◌, ◌<◌, ◌≤◌, ◌+◌, ◌++◌, ℕ, List, map, length, IfOk, MatchResult, vec_len};
ghost use Rattle.turn_table.specs.Opens.{MayOpen, Opens};
ghost use Rattle.tree_core.specs.Solo.{IsCause};
ghost use Rattle.shared_tree.specs.declared.machine.SlotValue.TheVariants as values;
ghost use Rattle.shared_tree.specs.Machine.{tree_meaning};
ghost use Rattle.shared_tree.specs.Passes.{AreReady};
ghost use Rattle.shared_tree.specs.Opens.{IsOpened, IsOpeningOf};

use crate::boxed::Boxed;
use crate::machine::{SlotValue, TreeMachine};
use crate::tree::{SharedTree, TreePass};
use entropy_source::EntropySource;
use rbg_nodes::Node;
use sample_source::Samples;
use std::alloc::{AllocError, Global};
use std::marker::{Brand, PhantomData};
use std::snapshot::Snapshot;
use tree_config::TreePlan;
use tree_core::{OpenRefusal, SoloTree, TreeParts};
use turn_table::{Entered, OutOfMemory, Pass, Turns};

// The values of all slots, in their order.
fn values_of<S: Samples>(
    alloc: Global,
    nodes: Vec<Node>,
    sources: Vec<EntropySource<S>>,
) -> Result<Vec<SlotValue<S>>, AllocError>
    requires few { vec_len nodes + vec_len sources ≤ 65535 }
    ensures { IfOk result (λ v. v.items ≡ map values.Node nodes.items ++ map values.Source sources.items) }
{
    let mut slots = Vec::with_capacity(alloc, nodes.len() + sources.len())?;
    for node in nodes {
        slots.push(SlotValue::Node(Boxed::new(alloc, node)?))?;
    }
    for source in sources {
        slots.push(SlotValue::Source(Boxed::new(alloc, source)?))?;
    }
    Ok(slots)
}

// Opens a table with the opening that E picks, by what the tree was given.
fn begin<S: Samples, E: Entered>(
    alloc: Global,
    values: Vec<SlotValue<S>>,
    callers: u8,
    plan: &TreePlan,
    samples: &Snapshot<Vec<S>>,
    seeds: &Snapshot<Vec<Vec<u8>>>,
) -> Result<(Turns<TreeMachine<S>>, Vec<TreePass<S>>), OutOfMemory>
    requires callers { (0 < callers) × (callers ≤ 64) }
    requires slots { vec_len values ≤ 65535 }
    requires opening { MayOpen (tree_meaning S.told S.faults) E.is values.items }
    ensures table { IfOk result (λ r. (r.0.callers ≡ callers) × (r.0.table.slots ≡ vec_len values)) }
    ensures passes { IfOk result (λ r. Opens (tree_meaning S.told S.faults) E.is callers r.0.table r.1.items) }
{
    let _ = plan;
    let _ = samples;
    let _ = seeds;
    let machine = TreeMachine {
        samples: PhantomData,
    };
    Turns::open::<E>(alloc, machine, values, callers)
}

// Opens a table of the values of a tree that was just opened.
fn open_table<S: Samples>(
    alloc: Global,
    values: Vec<SlotValue<S>>,
    callers: u8,
    plan: &TreePlan,
    samples: &Snapshot<Vec<S>>,
    seeds: &Snapshot<Vec<Vec<u8>>>,
) -> Result<(Turns<TreeMachine<S>>, Vec<TreePass<S>>), OutOfMemory>
    requires callers { (0 < callers) × (callers ≤ 64) }
    requires slots { vec_len values ≤ 65535 }
    requires opening { MayOpen (tree_meaning S.told S.faults) (IsOpeningOf S.told S.faults plan.now samples.now.value.items (map (λ x. x.items) seeds.now.value.items)) values.items }
    ensures table { IfOk result (λ r. (r.0.callers ≡ callers) × (r.0.table.slots ≡ vec_len values)) }
    ensures passes { IfOk result (λ r. Opens (tree_meaning S.told S.faults)
        (IsOpeningOf S.told S.faults plan.entry.now samples.entry.now.value.items (map (λ x. x.items) seeds.entry.now.value.items)) callers r.0.table r.1.items) }
{
    begin::<S, Brand>(alloc, values, callers, plan, samples, seeds)
}

impl<S: Samples> SharedTree<S> {
    /// Opens a tree as [`SoloTree::open`] does, opening calls included, and shares it between 1 to 64 callers, with a pass for each. The table of
    /// turns, with a box for each node and each source, is made after the opening calls: after want of memory their samples may have been read,
    /// and no others.
    pub fn open(
        alloc: Global,
        plan: TreePlan,
        sources: Vec<S>,
        seeds: Vec<Vec<u8>>,
        callers: u8,
    ) -> Result<(SharedTree<S>, Vec<TreePass<S>>), OpenRefusal>
        requires sources { length sources.items ≡ length plan.sources }
        requires seeds { length seeds.items ≡ length plan.nodes }
        requires callers { (0 < callers) × (callers ≤ 64) }
        ensures opened { MatchResult result
            (λ r. IsOpened S.told S.faults plan sources.items (map (λ s. s.items) seeds.items) callers r.0 r.1.items)
            (λ why. IsCause plan (map (λ s. s.items) seeds.items) why) }
        ensures ready { IfOk result (λ r. AreReady r.0 r.1.items) }
        ensures all { IfOk result (λ r. length r.1.items ≡ r.0.callers) }
    {
        let samples = Snapshot::of(&sources);
        let strings = Snapshot::of(&seeds);
        let tree = match SoloTree::open(alloc, plan, sources, seeds) {
            Ok(tree) => tree,
            Err(why) => return Err(why),
        };
        let TreeParts {
            plan,
            nodes,
            sources,
        } = tree.into_parts();
        let Ok(values) = values_of(alloc, nodes, sources) else {
            return Err(OpenRefusal::OutOfMemory);
        };
        match open_table(alloc, values, callers, &plan, &samples, &strings) {
            Ok((turns, passes)) => Ok((SharedTree { plan, turns }, passes)),
            Err(OutOfMemory) => Err(OpenRefusal::OutOfMemory),
        }
    }
}
