// Reading the top of a configuration.
ghost use Rattle.std.specs.Prelude.{◌≡◌, false, true, option_map, [], codes};
ghost use Rattle.toml.specs.Data.{get_member};
ghost use Rattle.toml.specs.View.{view, table_view, items_view};
ghost use Rattle.tree_config.specs.Fields.{or_default, one_of, required};
ghost use Rattle.tree_config.specs.Top.{top_at, tables, are_tables, some_tables, members_of_each, heading_view, Reads};
ghost use Rattle.tree_config.specs.Names.{opening_names};
ghost use Rattle.tree_config.specs.declared.fault.Field.TheVariants as field;

use crate::fault::Field;
use crate::fields::{at, check, number};
use crate::keys::{Level, has_only};
use toml::{Table, Value};

/// The text's own table: its sources and nodes, each of which is a table.
#[derive(Clone, Copy, Drop)]
pub(crate) struct Heading<'a> {
    pub version: u8,
    pub opens_all: bool,
    pub sources: &'a [Value],
    pub nodes: &'a [Value],
}

// Whether each value is a table.
fn are_tables(values: &[Value]) -> bool
    ensures { result ≡ are_tables (items_view values.now) }
{
    for value in values {
        if !value.is_table() {
            return false;
        }
    }
    true
}

// The tables of an array that holds nothing else.
fn tables(value: &Value) -> Option<&[Value]>
    ensures { option_map (λ vs. members_of_each vs.now) result ≡ tables (view value.now) }
{
    match value.as_array() {
        Some(array) => {
            let values = array.as_slice();
            if are_tables(values) {
                Some(values)
            } else {
                None
            }
        }
        None => None,
    }
}

// The same, with one table at least.
fn some_tables(value: &Value) -> Option<&[Value]>
    ensures { option_map (λ vs. members_of_each vs.now) result ≡ some_tables (view value.now) }
{
    tables(value).filter(|values| !values.is_empty())
}

// The tables of the sources, none where the key is absent.
fn sources(table: &Table) -> Result<&[Value], Field>
    ensures { Reads (λ vs. members_of_each vs.now) result (or_default [] field.Sources tables (get_member (codes "source") (table_view table.now))) }
{
    match at(table, "source") {
        Some(value) => tables(value).ok_or(Field::Sources),
        None => Ok(&[]),
    }
}

// The tables of the nodes.
fn nodes(table: &Table) -> Result<&[Value], Field>
    ensures { Reads (λ vs. members_of_each vs.now) result (required field.Nodes some_tables (get_member (codes "node") (table_view table.now))) }
{
    at(table, "node").and_then(some_tables).ok_or(Field::Nodes)
}

// Whether all nodes are opened at the start, by its name.
fn opening_within(value: &Value) -> Option<bool>
    ensures { result ≡ one_of opening_names (view value.now) }
{
    match value.as_str() {
        Some("all") => Some(true),
        Some("none") => Some(false),
        _ => None,
    }
}

// The same, and "all" where the key is absent.
fn opening(table: &Table) -> Result<bool, Field>
    ensures { result ≡ or_default true field.Opening (one_of opening_names) (get_member (codes "opening") (table_view table.now)) }
{
    match at(table, "opening") {
        Some(value) => opening_within(value).ok_or(Field::Opening),
        None => Ok(true),
    }
}

/// What the text's own table says, or the first field at fault.
#[tactic(auto, unfolding(crate::specs::Top::top_at))]
pub(crate) fn top(table: &Table) -> Result<Heading<'_>, Field>
    ensures { Reads heading_view result (top_at (table_view table.now)) }
{
    let version = number(table, "version", 1, 1, Field::Version)? as u8;
    let opens_all = opening(table)?;
    let sources = sources(table)?;
    let nodes = nodes(table)?;
    check(has_only(table, Level::Top), Field::Unknown)?;
    Ok(Heading {
        version,
        opens_all,
        sources,
        nodes,
    })
}
