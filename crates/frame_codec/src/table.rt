// The rows of the frame grammar: how wide each field is, what it may hold, and the number of a bad byte in it.

ghost use Rattle.std.specs.Prelude.{◌≡◌, ◌<◌, ◌≤◌, length, take, slice_index, if◌then◌else◌, nat_eq, ◌||◌};
ghost use Rattle.frame_codec.specs.Frames.{zero_only, payloads};
ghost use Rattle.frame_codec.specs.Heads.{field_at, fields_of};

/// The numbers from `low` to `high`, both among them.
#[derive(Clone, Copy, Debug, PartialEq, Eq)]
pub struct Span {
    pub low: u64,
    pub high: u64,
}

/// Which frames are read.
#[derive(Clone, Copy)]
pub enum Table {
    Requests,
    Replies,
}

const ZERO: &[Span] = &[Span { low: 0, high: 0 }];

const VERSION: &[Span] = &[Span { low: 1, high: 1 }];

const OPS: &[Span] = &[Span { low: 1, high: 6 }];

const BIT: &[Span] = &[Span { low: 0, high: 1 }];

const ANY_1: &[Span] = &[Span { low: 0, high: 0xff }];

const ANY_2: &[Span] = &[Span {
    low: 0,
    high: 0xffff,
}];

const ANY_4: &[Span] = &[Span {
    low: 0,
    high: 0xffff_ffff,
}];

const ANY_8: &[Span] = &[Span {
    low: 0,
    high: u64::MAX,
}];

const STRINGS: &[Span] = &[Span { low: 0, high: 4096 }];

const CODES: &[Span] = &[
    Span { low: 0, high: 8 },
    Span { low: 10, high: 14 },
    Span {
        low: 255,
        high: 255,
    },
];

const GENERATED: &[Span] = &[Span {
    low: 0,
    high: 65536,
}];

const STATUS: &[Span] = &[Span { low: 25, high: 25 }];

/// How many fields a head has.
pub fn count(table: Table) -> usize
    ensures count { result ≡ length (fields_of table) }
    ensures range { result ≤ 8 }
{
    match table {
        Table::Requests => 8,
        Table::Replies => 8,
    }
}

/// How many bytes a field has.
pub fn width(table: Table, index: usize) -> usize
    requires { index < length (fields_of table) }
    ensures width { result ≡ (field_at table index).width }
    ensures range { (1 ≤ result) × (result ≤ 8) }
{
    match table {
        Table::Requests => match index {
            0..=3 => 1,
            4 | 5 => 4,
            _ => 2,
        },
        Table::Replies => match index {
            0..=3 => 1,
            5 | 6 => 8,
            _ => 4,
        },
    }
}

/// The number of a bad byte in a field.
pub fn why(table: Table, index: usize) -> u8
    requires { index < length (fields_of table) }
    ensures { result ≡ (field_at table index).why }
{
    match table {
        Table::Requests => match index {
            0 => 1,
            1 => 2,
            2 => 3,
            3 | 4 => 0,
            5 => 4,
            6 => 5,
            _ => 6,
        },
        Table::Replies => match index {
            0 => 1,
            1 => 8,
            2 => 2,
            3 => 4,
            4 => 5,
            5 | 6 => 7,
            _ => 6,
        },
    }
}

/// What a field may hold, by the numbers of the fields before it.
pub fn spans(table: Table, index: usize, numbers: &[u64; 8]) -> &'static [Span]
    requires { index < length (fields_of table) }
    ensures { result.now ≡ (field_at table index).spans (take index numbers.now) }
{
    match table {
        Table::Requests => request_spans(index, numbers[1]),
        Table::Replies => reply_spans(index, numbers[1], numbers[2]),
    }
}

// What a field of a request may hold, by the op.
fn request_spans(index: usize, op: u64) -> &'static [Span]
    requires { index < length (fields_of Table.Requests) }
    ensures { (before : _) → slice_index before 1 ≡ op → result.now ≡ (field_at Table.Requests index).spans before }
{
    match index {
        0 => VERSION,
        1 => OPS,
        2 => spans_if(is_either(op, 2, 3), BIT),
        3 => ANY_1,
        4 => ANY_4,
        5 => spans_if(op == 2, ANY_4),
        6 => spans_if(is_either(op, 1, 2), ANY_2),
        _ => spans_if(op < 4, STRINGS),
    }
}

// What a field of a reply may hold, by the code and the op.
fn reply_spans(index: usize, code: u64, op: u64) -> &'static [Span]
    requires { index < length (fields_of Table.Replies) }
    ensures { (before : _) → slice_index before 1 ≡ code → slice_index before 2 ≡ op →
        result.now ≡ (field_at Table.Replies index).spans before }
{
    match index {
        0 => VERSION,
        1 => CODES,
        2 => spans_unless(code == 255, OPS),
        3 => spans_unless(code == 255, ANY_1),
        4 => spans_unless(code == 255, ANY_4),
        5 => spans_unless(code == 0, ANY_8),
        6 => spans_unless(code == 0, ANY_8),
        _ => spans_if(code == 0, payload_spans(op)),
    }
}

// How long the payload of a Done reply may be.
fn payload_spans(op: u64) -> &'static [Span]
    ensures { result.now ≡ payloads 0 op }
{
    match op {
        2 => GENERATED,
        6 => STATUS,
        _ => ZERO,
    }
}

// Whether the number is one of two.
fn is_either(number: u64, one: u64, other: u64) -> bool
    ensures { result ≡ (nat_eq number one || nat_eq number other) }
{
    number == one || number == other
}

fn spans_if(holds: bool, spans: &'static [Span]) -> &'static [Span]
    ensures { result.now ≡ (if holds then spans.now else zero_only) }
{
    if holds { spans } else { ZERO }
}

fn spans_unless(holds: bool, spans: &'static [Span]) -> &'static [Span]
    ensures { result.now ≡ (if holds then zero_only else spans.now) }
{
    if holds { ZERO } else { spans }
}
