// The tree as a machine of the turn table.
use crate::boxed::Boxed;
use entropy_source::EntropySource;
use rbg_nodes::Node;
use sample_source::Samples;
use std::marker::PhantomData;
use std::sync::Mutex;
use turn_table::Machine;

/// What one slot of a tree holds.
#[derive(Drop)]
pub enum SlotValue<S: Samples> {
    Node(Boxed<Node>),
    Source(Boxed<EntropySource<S>>),
}

/// A tree as the turn table sees it: one slot for each node and, behind them, one for each source. It has no value of its own. A reference to
/// it may go to another thread where the samples may.
#[derive(Drop)]
pub struct TreeMachine<S: Samples> {
    pub(crate) samples: PhantomData<Mutex<S>>,
}

impl<S: Samples> Machine for TreeMachine<S> {
    ghost use Rattle.shared_tree.specs.Machine.{tree_meaning, reads_touched, leaves_others};

    type Value = SlotValue<S>;

    ghost meaning = { tree_meaning S.told S.faults };

    ghost reads_touched = { reads_touched S.told S.faults };

    ghost leaves_others = { leaves_others S.told S.faults };
}
