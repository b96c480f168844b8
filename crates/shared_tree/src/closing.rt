// A shared tree is closed.
ghost use Rattle.std.specs.Prelude.{◌≡◌, ◌≤◌, ℕ, List, [], length, IfOk, IfErr, vec_capacity};
ghost use Rattle.shared_tree.specs.Sorted.{nodes_in, sources_in};
ghost use Rattle.shared_tree.specs.Passes.{AreReady};
ghost use Rattle.shared_tree.specs.Closes.{IsClosed};

use crate::machine::SlotValue;
use crate::tree::{SharedTree, TreePass};
use entropy_source::EntropySource;
use rbg_nodes::Node;
use sample_source::Samples;
use std::alloc::Global;
use tree_core::{SoloTree, TreeParts};
use turn_table::{CloseRefused, TableClosed};

/// What a closed tree leaves: the one-thread tree in the state that all calls leave, and how many calls there were.
#[derive(Drop)]
pub struct Closed<S: Samples> {
    pub tree: SoloTree<S>,
    pub calls: u64,
}

/// There was no memory to close with. The tree and the passes come back as they were.
#[derive(Drop)]
pub struct TreeCloseRefused<S: Samples> {
    pub tree: SharedTree<S>,
    pub passes: Vec<TreePass<S>>,
}

// The nodes and the sources among the values.
#[tactic(auto, using(crate::proofs::Sorting::nodes_snoc, crate::proofs::Sorting::nodes_same, crate::proofs::Sorting::sources_same, crate::proofs::Sorting::sources_snoc, crate::proofs::Sorting::nodes_few, crate::proofs::Sorting::sources_few))]
fn sort<S: Samples>(
    values: Vec<SlotValue<S>>,
    nodes: &mut Vec<Node>,
    sources: &mut Vec<EntropySource<S>>,
)
    requires empty { (nodes.old.items ≡ []) × (sources.old.items ≡ []) }
    requires room { (length values.items ≤ vec_capacity nodes.old) × (length values.items ≤ vec_capacity sources.old) }
    ensures nodes { nodes.new.items ≡ nodes_in values.items }
    ensures sources { sources.new.items ≡ sources_in values.items }
{
    for value in values {
        match value {
            SlotValue::Node(node) => nodes.push_reserved(node.into_inner()),
            SlotValue::Source(source) => sources.push_reserved(source.into_inner()),
        }
    }
}

impl<S: Samples> SharedTree<S> {
    /// Ends the sharing. It takes as many passes of this tree as it was opened with callers, and gives the one-thread tree back, in the state that
    /// the history of all calls leaves, and the number of calls. That tree's own count of calls is 0.
    pub fn close(
        self,
        alloc: Global,
        passes: Vec<TreePass<S>>,
    ) -> Result<Closed<S>, TreeCloseRefused<S>>
        requires ready { AreReady self passes.items }
        requires all { length passes.items ≡ self.callers }
        ensures closed { IfOk result (λ r. IsClosed S.told S.faults self passes.items r.tree r.calls) }
        ensures refused { IfErr result (λ r. (r.tree ≡ self) × (r.passes ≡ passes)) }
    {
        let slots = usize::from(self.plan.nodes()) + usize::from(self.plan.sources());
        let Ok(mut nodes) = Vec::with_capacity(alloc, slots) else {
            return Err(TreeCloseRefused { tree: self, passes });
        };
        let Ok(mut sources) = Vec::with_capacity(alloc, slots) else {
            return Err(TreeCloseRefused { tree: self, passes });
        };
        let SharedTree { plan, turns } = self;
        match turns.close(alloc, passes) {
            Ok(
                TableClosed {
                    machine: _,
                    values,
                    calls,
                },
            ) => {
                sort(values, &mut nodes, &mut sources);
                let tree = SoloTree::of_parts(TreeParts {
                    plan,
                    nodes,
                    sources,
                });
                Ok(Closed { tree, calls })
            }
            Err(CloseRefused { turns, passes }) => Err(TreeCloseRefused {
                tree: SharedTree { plan, turns },
                passes,
            }),
        }
    }
}
