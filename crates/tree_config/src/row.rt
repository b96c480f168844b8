// A configuration as its tables say it, before the nodes are known to make a tree.
use crate::plan::{NodeKind, SourcePlan};
use rbg_bytes::{Kind, Name};

/// Where a node's seeds come from. The parent is any number, since it may not be in the file.
#[derive(Drop)]
pub(crate) enum RowOrigin {
    SeedFile(Name),
    Source(u8),
    Parent(u64),
}

/// A node as its table says it.
#[derive(Drop)]
pub(crate) struct NodeRow {
    pub kind: NodeKind,
    pub drbg: Kind,
    pub interval: u64,
    pub origin: RowOrigin,
}

/// All that a text says.
#[derive(Drop)]
pub(crate) struct RowVecs {
    pub version: u8,
    pub opens_all: bool,
    pub sources: Vec<SourcePlan>,
    pub nodes: Vec<NodeRow>,
}
