// What may go to another thread.
use crate::{SharedTree, TreePass};
use entropy_source::EntropySource;
use rbg_nodes::Node;
use sample_source::Samples;

fn is_send<T: Send>() {}

fn is_sync<T: Sync>() {}

// Over samples that may be sent, nodes, sources and passes may be, and a shared tree may be lent to other threads.
pub(crate) fn go_where_samples_go<S: Samples + Send>() {
    is_send::<Node>();
    is_send::<EntropySource<S>>();
    is_send::<TreePass<S>>();
    is_sync::<SharedTree<S>>();
}
