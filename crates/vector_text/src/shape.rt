// What a line is.
ghost use Rattle.std.specs.Prelude.{◌≡◌, ◌<◌, option_map};
ghost use Rattle.vector_text.specs.Shapes.{bracket_shape, bracketed, count_shape, ends_group, field_shape, is_passed_over, resistance_shape, shape_of, trimmed, value_of};

use crate::case::{Family, Mech};
use crate::names::{count_of, field_named, mechanism_named};
use crate::trim::{Blank, parted, without_first, without_last};

/// The most bytes of a line, without its end.
pub const MAX_LINE: usize = 16_384;

/// The fields of a group.
#[derive(Clone, Copy, Debug, PartialEq, Eq)]
pub enum Field {
    EntropyInput,
    Nonce,
    PersonalizationString,
    EntropyInputReseed,
    AdditionalInputReseed,
    AdditionalInput,
    EntropyInputPr,
    ReturnedBits,
}

/// The mechanism that lines stand under: none yet, one that is skipped, or this one.
#[derive(Clone, Copy, Debug, PartialEq, Eq)]
pub enum Section {
    Nowhere,
    Skipped,
    Under(Mech),
}

/// What a line is, by itself.
#[derive(Clone, Copy, Debug, PartialEq, Eq)]
pub enum Shape {
    /// More than 16,384 bytes.
    Long,
    /// Empty, or a comment.
    Nothing,
    /// A bracket line without a `=`.
    Mechanism(Section),
    /// The bracket line of PredictionResistance.
    Resistance(bool),
    /// The same with another value than True and False.
    BadResistance,
    /// A bracket line that sets another value.
    Setting,
    /// A COUNT line.
    Count(u64),
    /// A COUNT line whose value is no number below 2^64.
    BadCount,
    /// A field line of the table.
    Value(Field),
    /// A field line with another name.
    Other,
    /// None of these.
    Unshaped,
}

impl Shape {
    /// Whether a line of this shape ends the group before it.
    pub fn ends_group(self) -> bool
        ensures { result ≡ ends_group self }
    {
        matches!(
            self,
            Shape::Mechanism(_)
                | Shape::Resistance(_)
                | Shape::BadResistance
                | Shape::Setting
                | Shape::Count(_)
                | Shape::BadCount
        )
    }
}

// Without the spaces and tabs at both ends.
fn trimmed(line: &[u8]) -> &[u8]
    ensures { result.now ≡ trimmed line.now }
{
    without_last(Blank::SpaceOrTab, without_first(Blank::SpaceOrTab, line))
}

// Whether a trimmed line is empty or a comment.
fn is_passed_over(text: &[u8]) -> bool
    ensures { result ≡ is_passed_over text.now }
{
    text.is_empty() || text[0] == b'#' || text.starts_with(b"**")
}

// What stands between brackets, where the line begins and ends with them.
fn bracketed(text: &[u8]) -> Option<&[u8]>
    ensures { option_map (λ inside. inside.now) result ≡ bracketed text.now }
{
    let len = text.len();
    if len < 2 {
        return None;
    }
    if text[0] == b'[' && text[len - 1] == b']' {
        return Some(&text[1..len - 1]);
    }
    None
}

// The shape of PredictionResistance with this value.
fn resistance_shape(value: &[u8]) -> Shape
    ensures { result ≡ resistance_shape value.now }
{
    if value == b"True".as_slice() {
        Shape::Resistance(true)
    } else if value == b"False".as_slice() {
        Shape::Resistance(false)
    } else {
        Shape::BadResistance
    }
}

// The shape of what stands between brackets.
fn bracket_shape(family: Family, inside: &[u8]) -> Shape
    ensures { result ≡ bracket_shape family inside.now }
{
    match parted(inside) {
        Some((name, value)) => {
            if name == b"PredictionResistance".as_slice() {
                resistance_shape(value)
            } else {
                Shape::Setting
            }
        }
        None => match mechanism_named(family, inside) {
            Some(mech) => Shape::Mechanism(Section::Under(mech)),
            None => Shape::Mechanism(Section::Skipped),
        },
    }
}

// The shape of a COUNT line with this value.
fn count_shape(value: &[u8]) -> Shape
    ensures { result ≡ count_shape value.now }
{
    match count_of(value) {
        Some(count) => Shape::Count(count),
        None => Shape::BadCount,
    }
}

// The shape of a line without brackets.
fn field_shape(text: &[u8]) -> Shape
    ensures { result ≡ field_shape text.now }
{
    match parted(text) {
        Some((name, value)) => {
            if name == b"COUNT".as_slice() {
                return count_shape(value);
            }
            match field_named(name) {
                Some(field) => Shape::Value(field),
                None => Shape::Other,
            }
        }
        None => Shape::Unshaped,
    }
}

/// What a line is, without its end.
#[tactic(auto, unfolding(crate::specs::Shapes::shape_of))]
pub fn shape_of(family: Family, line: &[u8]) -> Shape
    ensures { result ≡ shape_of family line.now }
{
    if MAX_LINE < line.len() {
        return Shape::Long;
    }
    let text = trimmed(line);
    if is_passed_over(text) {
        return Shape::Nothing;
    }
    match bracketed(text) {
        Some(inside) => bracket_shape(family, inside),
        None => field_shape(text),
    }
}

/// The value of a field line: what stands behind its first `=` and the spaces there. Of another line it says nothing.
#[tactic(auto, unfolding(crate::specs::Shapes::value_of))]
pub fn value_of(line: &[u8]) -> &[u8]
    ensures { result.now ≡ value_of line.now }
{
    match parted(trimmed(line)) {
        Some((_, value)) => value,
        None => &[],
    }
}
