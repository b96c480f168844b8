// Reading all rows of a text.
ghost use Rattle.std.specs.Prelude.{◌≡◌, ◌≤◌, length, IfOk, OnOk};
ghost use Rattle.toml.specs.View.{view, table_view};
ghost use Rattle.tree_config.specs.Source.{source_at};
ghost use Rattle.tree_config.specs.Node.{node_at};
ghost use Rattle.tree_config.specs.Top.{members_in, members_of_each, heading_view, top_at};
ghost use Rattle.tree_config.specs.Rows.{Gives, at_place, source_limit, node_limit, depth_limit, at_most, sources_at, nodes_at, rows_at, rows_of, rows_view, document_of};
ghost use Rattle.tree_config.specs.declared.fault.Place.TheVariants as place;

use crate::document::document;
use crate::fault::{ConfigFault, Field, Place, PlanRefusal};
use crate::node::node;
use crate::plan::SourcePlan;
use crate::row::{NodeRow, RowVecs};
use crate::source::source;
use crate::top::{Heading, top};
use std::alloc::Global;
use toml::{Table, Value};

// The source that a value says.
#[tactic(auto, unfolding(crate::specs::Source::source_at))]
fn source_of(value: &Value, version: u8) -> Result<SourcePlan, Field>
    ensures { result ≡ source_at version (members_in (view value.now)) }
{
    match value.as_table() {
        Some(table) => source(table, version),
        None => Err(Field::Samples),
    }
}

// The node that a value says.
#[tactic(auto, unfolding(crate::specs::Node::node_at))]
fn node_of(value: &Value, version: u8, count: u8) -> Result<NodeRow, Field>
    ensures { result ≡ node_at version count (members_in (view value.now)) }
{
    match value.as_table() {
        Some(table) => node(table, version, count),
        None => Err(Field::NodeKind),
    }
}

// The sources that the values say.
fn sources(alloc: Global, values: &[Value], version: u8) -> Result<Vec<SourcePlan>, PlanRefusal>
    requires { length values.now ≤ 4 }
    ensures value { Gives (λ v. v.items) result (sources_at version (members_of_each values.now)) }
    ensures count { IfOk result (λ v. length v.items ≡ length values.now) }
{
    let mut plans = Vec::new(alloc);
    for (i, value) in values.iter().enumerate() {
        match source_of(value, version) {
            Ok(plan) => {
                if plans.push(plan).is_err() {
                    return Err(PlanRefusal::OutOfMemory);
                }
            }
            Err(field) => {
                return Err(PlanRefusal::Fault(ConfigFault::BadField {
                    place: Place::Source(i as u8),
                    field,
                }));
            }
        }
    }
    Ok(plans)
}

// The nodes that the values say.
fn nodes(
    alloc: Global,
    values: &[Value],
    version: u8,
    count: u8,
) -> Result<Vec<NodeRow>, PlanRefusal>
    requires { length values.now ≤ 63 }
    ensures value { Gives (λ v. v.items) result (nodes_at version count (members_of_each values.now)) }
    ensures count { IfOk result (λ v. length v.items ≡ length values.now) }
{
    let mut rows = Vec::new(alloc);
    for (i, value) in values.iter().enumerate() {
        match node_of(value, version, count) {
            Ok(row) => {
                if rows.push(row).is_err() {
                    return Err(PlanRefusal::OutOfMemory);
                }
            }
            Err(field) => {
                return Err(PlanRefusal::Fault(ConfigFault::BadField {
                    place: Place::Node(i as u16),
                    field,
                }));
            }
        }
    }
    Ok(rows)
}

// The text's own table, with its place.
fn heading(table: &Table) -> Result<Heading<'_>, PlanRefusal>
    ensures { Gives heading_view result (at_place place.Top (top_at (table_view table.now))) }
{
    top(table).map_err(|field| {
        PlanRefusal::Fault(ConfigFault::BadField {
            place: Place::Top,
            field,
        })
    })
}

// The most sources of a version, of which there is one.
fn source_limit(version: u8) -> u64
    ensures value { result ≡ source_limit version }
    ensures few { result ≤ 4 }
{
    4
}

// The most nodes of a version, of which there is one.
fn node_limit(version: u8) -> u64
    ensures value { result ≡ node_limit version }
    ensures few { result ≤ 63 }
{
    63
}

/// The greatest depth of a version, of which there is one.
pub(crate) fn depth_limit(version: u8) -> u8
    ensures value { result ≡ depth_limit version }
    ensures range { 1 ≤ result × result ≤ 8 }
{
    8
}

// At most so many sources or nodes.
fn at_most(nodes: bool, limit: u64, count: usize) -> Result<(), PlanRefusal>
    ensures value { Gives (λ x. x) result (at_most nodes limit count) }
    ensures few { OnOk result (count ≤ limit) }
{
    if count as u64 <= limit {
        Ok(())
    } else {
        Err(PlanRefusal::Fault(ConfigFault::TooMany {
            nodes,
            count: count as u64,
            limit,
        }))
    }
}

/// The rows of a table.
#[tactic(auto, unfolding(crate::specs::Rows::rows_at))]
fn rows_of_table(alloc: Global, table: &Table) -> Result<RowVecs, PlanRefusal>
    ensures value { Gives rows_view result (rows_at (table_view table.now)) }
    ensures few { IfOk result (λ r. length r.sources.items ≤ 4 × length r.nodes.items ≤ 63) }
{
    let heading = heading(table)?;
    at_most(false, source_limit(heading.version), heading.sources.len())?;
    at_most(true, node_limit(heading.version), heading.nodes.len())?;
    let sources = sources(alloc, heading.sources, heading.version)?;
    let count = heading.sources.len() as u8;
    let nodes = nodes(alloc, heading.nodes, heading.version, count)?;
    Ok(RowVecs {
        version: heading.version,
        opens_all: heading.opens_all,
        sources,
        nodes,
    })
}

/// The rows of a text.
pub(crate) fn rows(alloc: Global, text: &[u8]) -> Result<RowVecs, PlanRefusal>
    ensures value { Gives rows_view result (rows_of text.now) }
    ensures few { IfOk result (λ r. length r.sources.items ≤ 4 × length r.nodes.items ≤ 63) }
{
    let table = document(alloc, text)?;
    rows_of_table(alloc, &table)
}
