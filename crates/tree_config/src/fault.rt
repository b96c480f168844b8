// What can be wrong with a configuration, and where.
ghost use Rattle.std.specs.Prelude.{◌≡◌, ◌≤◌, length, Some};
ghost use Rattle.tree_config.specs.Names.{field_text, place_text, entries_text};

use std::fmt;
use std::fmt::{Display, Formatter, Write};
use thiserror::Error;

/// A place of a configuration: its top, or a source or a node by its number.
#[derive(Clone, Copy, Debug, PartialEq, Eq)]
pub enum Place {
    Top,
    Source(u8),
    Node(u16),
}

/// A field of a place. `Unknown` stands for all keys that the place does not have.
#[derive(Clone, Copy, Debug, PartialEq, Eq)]
pub enum Field {
    Version,
    Opening,
    Sources,
    Nodes,
    Samples,
    Num,
    Den,
    Binary,
    Rct,
    RctA,
    Apt,
    Startup,
    Conditioner,
    NodeKind,
    Drbg,
    Interval,
    Source,
    Parent,
    Seed,
    Unknown,
}

/// What is wrong with a configuration. Lengths are in bytes, strengths in bits; a node's depth counts the nodes from it up to the
/// one without a parent.
#[derive(Clone, Copy, Debug, PartialEq, Eq, Error)]
pub enum ConfigFault {
    /// The text has more bytes than the limit.
    #[error("too large")]
    TooLarge { limit: u32 },
    /// The text is not UTF-8, or not TOML.
    #[error("not TOML")]
    BadToml,
    /// A field is missing, of another type, out of its range, or must not stand there.
    #[error("bad field {field} at {place}")]
    BadField { place: Place, field: Field },
    /// There are more nodes, or else more sources, than the limit.
    #[error("too many {}", entries(*.nodes))]
    TooMany { nodes: bool, count: u64, limit: u64 },
    /// The node's parent is not in the file.
    #[error("no such parent at node {node}")]
    NoSuchParent { node: u16, parent: u64 },
    /// Following parents from the node comes back to it.
    #[error("cycle at node {node}")]
    Cycle { node: u16 },
    /// The node's depth is above the limit.
    #[error("too deep at node {node}")]
    TooDeep { node: u16 },
    /// The node's DRBG is stronger than its parent's.
    #[error("strength rises at node {node}")]
    StrengthRises { node: u16, own: u16, parent: u16 },
}

/// Why no plan was read. Want of memory may come at any point.
#[derive(Clone, Copy, Debug, PartialEq, Eq, Error)]
pub enum PlanRefusal {
    #[error("{0}")]
    Fault(ConfigFault),
    #[error("out of memory")]
    OutOfMemory,
}

impl Field {
    /// The field's name, at most 12 bytes: that of its variant.
    pub fn name(self) -> &'static str
        ensures text { result.now ≡ field_text self }
        ensures len { length result.now ≤ 12 }
    {
        match self {
            Field::Version => "Version",
            Field::Opening => "Opening",
            Field::Sources => "Sources",
            Field::Nodes => "Nodes",
            Field::Samples => "Samples",
            Field::Num => "Num",
            Field::Den => "Den",
            Field::Binary => "Binary",
            Field::Rct => "Rct",
            Field::RctA => "RctA",
            Field::Apt => "Apt",
            Field::Startup => "Startup",
            Field::Conditioner => "Conditioner",
            Field::NodeKind => "NodeKind",
            Field::Drbg => "Drbg",
            Field::Interval => "Interval",
            Field::Source => "Source",
            Field::Parent => "Parent",
            Field::Seed => "Seed",
            Field::Unknown => "Unknown",
        }
    }
}

// What there are too many of.
fn entries(nodes: bool) -> &'static str
    ensures { result.now ≡ entries_text nodes }
{
    if nodes { "nodes" } else { "sources" }
}

impl Display for Field {
    ghost output = { λ field. Some (field_text field) };

    fn fmt<W: Write>(&self, f: &mut Formatter<W>) -> fmt::Result {
        f.write_str(self.name())
    }
}

impl Display for Place {
    ghost output = { λ place. Some (place_text place) };

    fn fmt<W: Write>(&self, f: &mut Formatter<W>) -> fmt::Result {
        match self {
            Place::Top => f.write_str("top"),
            Place::Source(j) => write!(f, "source {j}"),
            Place::Node(i) => write!(f, "node {i}"),
        }
    }
}
