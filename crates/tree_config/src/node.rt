// Reading a node's table.
ghost use Rattle.std.specs.Prelude.{◌≡◌, ◌≤◌, ◌<◌, IfOk, codes};
ghost use Rattle.toml.specs.Data.{get_member};
ghost use Rattle.toml.specs.View.{table_view};
ghost use Rattle.tree_config.specs.Fields.{required};
ghost use Rattle.tree_config.specs.Node.{node_at, origin_of, drawn, source_within};
ghost use Rattle.tree_config.specs.declared.plan.NodeKind.TheVariants as node_kind;
ghost use Rattle.tree_config.specs.declared.fault.Field.TheVariants as field;

use crate::choices::{drbg, node_kind};
use crate::fault::Field;
use crate::fields::{absent, check, name, number, number_or};
use crate::keys::{Level, has_only};
use crate::plan::NodeKind;
use crate::row::{NodeRow, RowOrigin};
use toml::Table;

// The number of a source of a file that has so many.
fn source(table: &Table, count: u8) -> Result<u8, Field>
    ensures { result ≡ required field.Source (source_within count) (get_member (codes "source") (table_view table.now)) }
{
    if count == 0 {
        return Err(Field::Source);
    }
    let n = number(table, "source", 0, u64::from(count - 1), Field::Source)?;
    Ok(n as u8)
}

// The keys source, parent and seed of an RBG2 or an RBG3, which draws on a source.
fn drawn(table: &Table, count: u8) -> Result<RowOrigin, Field>
    ensures { result ≡ drawn count (get_member (codes "source") (table_view table.now)) (get_member (codes "parent") (table_view table.now)) (get_member (codes "seed") (table_view table.now)) }
{
    let n = source(table, count)?;
    absent(table, "parent", Field::Parent)?;
    absent(table, "seed", Field::Seed)?;
    Ok(RowOrigin::Source(n))
}

// The keys source, parent and seed of an RBG1, which is seeded from a file.
fn seeded(table: &Table) -> Result<RowOrigin, Field>
    ensures { result ≡ origin_of node_kind.Rbg1 0 (get_member (codes "source") (table_view table.now)) (get_member (codes "parent") (table_view table.now)) (get_member (codes "seed") (table_view table.now)) }
{
    absent(table, "source", Field::Source)?;
    absent(table, "parent", Field::Parent)?;
    let file = name(table, "seed", Field::Seed)?;
    Ok(RowOrigin::SeedFile(file))
}

// The keys source, parent and seed of a child. The parent is any number, since it is looked for after all fields.
fn child(table: &Table) -> Result<RowOrigin, Field>
    ensures { result ≡ origin_of node_kind.Child 0 (get_member (codes "source") (table_view table.now)) (get_member (codes "parent") (table_view table.now)) (get_member (codes "seed") (table_view table.now)) }
{
    absent(table, "source", Field::Source)?;
    let parent = number(table, "parent", 0, 9223372036854775807, Field::Parent)?;
    absent(table, "seed", Field::Seed)?;
    Ok(RowOrigin::Parent(parent))
}

// The keys that tell where a node's seeds come from.
fn origin(table: &Table, kind: NodeKind, count: u8) -> Result<RowOrigin, Field>
    ensures { result ≡ origin_of kind count (get_member (codes "source") (table_view table.now)) (get_member (codes "parent") (table_view table.now)) (get_member (codes "seed") (table_view table.now)) }
{
    match kind {
        NodeKind::Rbg1 => seeded(table),
        NodeKind::Rbg2 | NodeKind::Rbg3Xor | NodeKind::Rbg3Rs => drawn(table, count),
        NodeKind::Child => child(table),
    }
}

/// The node that a table says, by the version, in a file of so many sources, or the first field at fault.
#[tactic(auto, unfolding(crate::specs::Node::node_at))]
pub(crate) fn node(table: &Table, version: u8, count: u8) -> Result<NodeRow, Field>
    ensures { result ≡ node_at version count (table_view table.now) }
{
    let kind = node_kind(table, "kind", Field::NodeKind)?;
    let drbg = drbg(table, "drbg", Field::Drbg)?;
    let interval = number_or(
        table,
        "interval",
        1,
        281474976710656,
        65536,
        Field::Interval,
    )?;
    let origin = origin(table, kind, count)?;
    check(has_only(table, Level::Node(version)), Field::Unknown)?;
    Ok(NodeRow {
        kind,
        drbg,
        interval,
        origin,
    })
}
