// Reading what stands at a key of a table: numbers, texts and booleans.
ghost use Rattle.std.specs.Prelude.{◌≡◌, ◌≤◌, option_map, is_some, IfSome, IfOk};
ghost use Rattle.toml.specs.Data.{get_member, as_bool};
ghost use Rattle.toml.specs.View.{view, table_view};
ghost use Rattle.tree_config.specs.Fields.{required, or_default, number_within, text_within, absent, where_true};

use crate::fault::Field;
use rbg_bytes::Name;
use toml::{Table, Value};

/// What stands at a key.
pub(crate) fn at<'a>(table: &'a Table, key: &str) -> Option<&'a Value>
    ensures { option_map (λ v. view v.now) result ≡ get_member key.now (table_view table.now) }
{
    table.get(key)
}

/// An integer in a range.
pub(crate) fn number_within(value: &Value, least: u64, most: u64) -> Option<u64>
    ensures value { result ≡ number_within least most (view value.now) }
    ensures range { IfSome result (λ n. least ≤ n × n ≤ most) }
{
    match value.as_integer() {
        Some(n) => {
            if n < 0 {
                return None;
            }
            let n = n as u64;
            if least <= n && n <= most {
                Some(n)
            } else {
                None
            }
        }
        None => None,
    }
}

/// An integer in a range, which has to be there.
pub(crate) fn number(
    table: &Table,
    key: &str,
    least: u64,
    most: u64,
    field: Field,
) -> Result<u64, Field>
    ensures value { result ≡ required field (number_within least most) (get_member key.now (table_view table.now)) }
    ensures range { IfOk result (λ n. least ≤ n × n ≤ most) }
{
    at(table, key)
        .and_then(|value| number_within(value, least, most))
        .ok_or(field)
}

/// An integer in a range, or a default.
pub(crate) fn number_or(
    table: &Table,
    key: &str,
    least: u64,
    most: u64,
    default: u64,
    field: Field,
) -> Result<u64, Field>
    requires { least ≤ default × default ≤ most }
    ensures value { result ≡ or_default default field (number_within least most) (get_member key.now (table_view table.now)) }
    ensures range { IfOk result (λ n. least ≤ n × n ≤ most) }
{
    match at(table, key) {
        Some(value) => number_within(value, least, most).ok_or(field),
        None => Ok(default),
    }
}

/// A text of so many bytes.
pub(crate) fn text_within(value: &Value, least: usize, most: usize) -> Option<&str>
    ensures { option_map (λ s. s.now) result ≡ text_within least most (view value.now) }
{
    value
        .as_str()
        .filter(|text| least <= text.len() && text.len() <= most)
}

/// A text of 1 to 255 bytes, which has to be there.
pub(crate) fn name(table: &Table, key: &str, field: Field) -> Result<Name, Field>
    ensures { result ≡ required field (text_within 1 255) (get_member key.now (table_view table.now)) }
{
    match at(table, key).and_then(|value| text_within(value, 1, 255)) {
        Some(text) => Ok(Name::of(text)),
        None => Err(field),
    }
}

/// Whether something stands at a key.
pub(crate) fn has(table: &Table, key: &str) -> bool
    ensures { result ≡ is_some (get_member key.now (table_view table.now)) }
{
    at(table, key).is_some()
}

/// Nothing may stand at a key.
pub(crate) fn absent(table: &Table, key: &str, field: Field) -> Result<(), Field>
    ensures { result ≡ absent field (get_member key.now (table_view table.now)) }
{
    if has(table, key) { Err(field) } else { Ok(()) }
}

/// A boolean, or a default.
pub(crate) fn flag_or(table: &Table, key: &str, default: bool, field: Field) -> Result<bool, Field>
    ensures { result ≡ or_default default field as_bool (get_member key.now (table_view table.now)) }
{
    match at(table, key) {
        Some(value) => value.as_bool().ok_or(field),
        None => Ok(default),
    }
}

/// A condition between fields.
pub(crate) fn check(holds: bool, field: Field) -> Result<(), Field>
    ensures { result ≡ where_true field holds }
{
    if holds { Ok(()) } else { Err(field) }
}
