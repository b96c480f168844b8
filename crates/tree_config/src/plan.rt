// What is planned for a node and for a source.
use health_tests::Cutoffs;
use rbg_bytes::{Cond, Kind, Name};

/// A kind of node (SP 800-90C): an RBG1, seeded once from outside; an RBG2, which draws on a source; the two constructions of an
/// RBG3, which draw full entropy for each output; or a child, seeded by another node.
#[derive(Clone, Copy, Debug, PartialEq, Eq)]
pub enum NodeKind {
    Rbg1,
    Rbg2,
    Rbg3Xor,
    Rbg3Rs,
    Child,
}

/// Where a node's seeds come from: a file by name, a source by number, or another node by number.
#[derive(Drop)]
pub enum Origin {
    SeedFile(Name),
    Source(u8),
    Parent(u16),
}

/// A planned node. The interval is the most outputs between two seeds, 1 to 2^48.
#[derive(Drop)]
pub struct NodePlan {
    pub kind: NodeKind,
    pub drbg: Kind,
    pub interval: u64,
    pub origin: Origin,
}

/// A planned source: the name of its samples, their min-entropy of `num / den` bits each, the cutoffs of the continuous health
/// tests and the number of samples of the start-up tests (SP 800-90B 4.3, 4.4), and the conditioning component.
#[derive(Drop)]
pub struct SourcePlan {
    pub samples: Name,
    pub num: u32,
    pub den: u32,
    pub cutoffs: Cutoffs,
    pub startup: u32,
    pub cond: Cond,
}
