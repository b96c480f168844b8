// A tree whose nodes and sources are all held.
use entropy_source::EntropySource;
use rbg_nodes::Node;
use sample_source::Samples;
use tree_acts::Holdings;

// All nodes and all sources of a tree, in the order of their slots.
#[derive(Drop)]
pub(crate) struct All<S: Samples> {
    pub(crate) nodes: Vec<Node>,
    pub(crate) sources: Vec<EntropySource<S>>,
}

impl<S: Samples> Holdings<EntropySource<S>> for All<S> {
    ghost use Rattle.tree_core.specs.AllHeld.{what_all, with_node_in, with_source_in};
    ghost use Rattle.tree_core.specs.AllLaws.{node_put, source_put};

    ghost what = { what_all };

    ghost with_node = { with_node_in };

    ghost with_source = { with_source_in };

    fn held(&self, slot: u16) -> bool {
        (slot as usize) < self.nodes.len() + self.sources.len()
    }

    fn node(&self, slot: u16) -> &Node {
        &self.nodes[slot as usize]
    }

    fn node_mut(&mut self, slot: u16) -> &mut Node {
        &mut self.nodes[slot as usize]
    }

    fn source(&self, slot: u16) -> &EntropySource<S> {
        &self.sources[slot as usize - self.nodes.len()]
    }

    fn source_mut(&mut self, slot: u16) -> &mut EntropySource<S> {
        let j = slot as usize - self.nodes.len();
        &mut self.sources[j]
    }

    ghost puts_node = { node_put };

    ghost puts_source = { source_put };
}
