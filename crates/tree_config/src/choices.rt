// Reading names: of kinds of node, of kinds of DRBG and of conditioning components.
ghost use Rattle.std.specs.Prelude.{◌≡◌};
ghost use Rattle.toml.specs.Data.{get_member};
ghost use Rattle.toml.specs.View.{view, table_view};
ghost use Rattle.tree_config.specs.Fields.{required, or_default, one_of};
ghost use Rattle.tree_config.specs.Names.{cond_names, drbg_names, node_kind_names};
ghost use Rattle.rbg_bytes.specs.declared.cond.Cond.TheVariants.{HmacSha256};

use crate::fault::Field;
use crate::fields::at;
use crate::names::{cond_name, drbg_name};
use crate::plan::NodeKind;
use rbg_bytes::{Cond, Kind};
use toml::{Table, Value};

// The value whose name is this text, if it is one of these values.
macro_rules! named {
    ($text:expr, $name:expr, $($value:expr),+) => {{
        let text = $text;
        $(
            if $name($value) == text {
                return Some($value);
            }
        )+
        None
    }};
}

// A name of a conditioning component. Version 1 is the only one, and has both.
fn conditioner_within(value: &Value, version: u8) -> Option<Cond>
    ensures { result ≡ one_of (cond_names version) (view value.now) }
{
    named!(value.as_str()?, cond_name, Cond::HmacSha256, Cond::DfAes256)
}

// A name of a kind of DRBG.
fn drbg_within(value: &Value) -> Option<Kind>
    ensures { result ≡ one_of drbg_names (view value.now) }
{
    named!(
        value.as_str()?,
        drbg_name,
        Kind::HmacSha256,
        Kind::HmacSha384,
        Kind::HmacSha512,
        Kind::CtrAes128,
        Kind::CtrAes192,
        Kind::CtrAes256
    )
}

/// A kind of DRBG, which has to be there.
pub(crate) fn drbg(table: &Table, key: &str, field: Field) -> Result<Kind, Field>
    ensures { result ≡ required field (one_of drbg_names) (get_member key.now (table_view table.now)) }
{
    at(table, key).and_then(drbg_within).ok_or(field)
}

// A name of a kind of node.
fn node_kind_within(value: &Value) -> Option<NodeKind>
    ensures { result ≡ one_of node_kind_names (view value.now) }
{
    named!(
        value.as_str()?,
        NodeKind::name,
        NodeKind::Rbg1,
        NodeKind::Rbg2,
        NodeKind::Rbg3Xor,
        NodeKind::Rbg3Rs,
        NodeKind::Child
    )
}

/// A kind of node, which has to be there.
pub(crate) fn node_kind(table: &Table, key: &str, field: Field) -> Result<NodeKind, Field>
    ensures { result ≡ required field (one_of node_kind_names) (get_member key.now (table_view table.now)) }
{
    at(table, key).and_then(node_kind_within).ok_or(field)
}

/// A conditioning component, or HMAC-SHA-256.
pub(crate) fn conditioner(
    table: &Table,
    key: &str,
    version: u8,
    field: Field,
) -> Result<Cond, Field>
    ensures { result ≡ or_default HmacSha256 field (one_of (cond_names version)) (get_member key.now (table_view table.now)) }
{
    match at(table, key) {
        Some(value) => conditioner_within(value, version).ok_or(field),
        None => Ok(Cond::HmacSha256),
    }
}
