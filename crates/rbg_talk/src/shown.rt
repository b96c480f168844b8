// The line that shows a reply, and the bytes that a reply gives.
ghost use Rattle.std.specs.Prelude.{◌≡◌, ◌≤◌, ◌+◌, ◌*◌, ◌++◌, length, take, drop};
ghost use Rattle.std.specs.Int.{from_be_bytes, w64};
ghost use Rattle.hex.specs.Hex.{encode_lower};
ghost use Rattle.rbg_talk.specs.Shown.{code_name, test_name, field_name, live_name, alarm_text, one_detail, two_details, refusal_details, status_text, subject, details, reply_line, given, error_text, place_text, IsPayloadOf};

use crate::grammar::Operation;
use frame_codec::ReplyHead;
use rbg_bytes::{Line, put_at, put_front};

// The name of a code, at most 19 bytes.
fn code_name(code: u8) -> &'static str
    ensures text { result.now ≡ code_name code }
    ensures len { length result.now ≤ 19 }
{
    match code {
        0 => "Done",
        1 => "NoSuchNode",
        2 => "TooLong",
        3 => "AlreadyInstantiated",
        4 => "NotInstantiated",
        5 => "StrengthTooHigh",
        6 => "ReseedRefused",
        7 => "PrUnsupported",
        8 => "Exhausted",
        10 => "SourceSpent",
        11 => "SourceInError",
        12 => "SourceFault",
        13 => "HealthFailed",
        14 => "WantOfEntropy",
        _ => "Malformed",
    }
}

// Adds the name of a health test, at most 20 bytes.
fn add_test(line: &mut Line, test: u64)
    requires { length line.old ≤ 300 }
    ensures value { line.new ≡ line.old ++ test_name test }
    ensures len { length line.new ≤ length line.old + 20 }
{
    match test {
        1 => line.text("repetition"),
        2 => line.text("proportion"),
        _ => line.number(test),
    }
}

// Adds the name of the field in which a byte is bad, at most 20 bytes.
fn add_field(line: &mut Line, why: u64)
    requires { length line.old ≤ 300 }
    ensures value { line.new ≡ line.old ++ field_name why }
    ensures len { length line.new ≤ length line.old + 20 }
{
    match why {
        1 => line.text("version"),
        2 => line.text("op"),
        3 => line.text("flags"),
        4 => line.text("count"),
        5 => line.text("strength"),
        6 => line.text("length"),
        _ => line.number(why),
    }
}

// Adds whether a node is live, at most 20 bytes.
fn add_live(line: &mut Line, live: u8)
    requires { length line.old ≤ 300 }
    ensures value { line.new ≡ line.old ++ live_name live }
    ensures len { length line.new ≤ length line.old + 20 }
{
    match live {
        0 => line.text("no"),
        1 => line.text("yes"),
        _ => line.number(u64::from(live)),
    }
}

// Adds a number behind its label.
fn add_one(line: &mut Line, label: &str, n: u64)
    requires line { length line.old ≤ 300 }
    requires label { length label.now ≤ 20 }
    ensures value { line.new ≡ line.old ++ one_detail label.now n }
    ensures len { length line.new ≤ length line.old + 40 }
{
    line.text(label);
    line.number(n);
}

// Adds two numbers behind their labels.
fn add_two(line: &mut Line, label: &str, n: u64, other: &str, m: u64)
    requires line { length line.old ≤ 300 }
    requires label { length label.now ≤ 20 }
    requires other { length other.now ≤ 20 }
    ensures value { line.new ≡ line.old ++ two_details label.now n other.now m }
    ensures len { length line.new ≤ length line.old + 80 }
{
    line.text(label);
    line.number(n);
    line.text(other);
    line.number(m);
}

// Adds where a health test alarmed.
fn add_alarm(line: &mut Line, sample: u64, test: u64)
    requires line { length line.old ≤ 200 }
    ensures value { line.new ≡ line.old ++ alarm_text sample test }
    ensures len { length line.new ≤ length line.old + 60 }
{
    line.text(" sample ");
    line.number(sample);
    line.text(" test ");
    add_test(line, test);
}

// Adds where a source is in error.
fn add_error(line: &mut Line, a: u64, b: u64)
    requires line { length line.old ≤ 200 }
    ensures value { line.new ≡ line.old ++ error_text a b }
    ensures len { length line.new ≤ length line.old + 60 }
{
    if a == 0 {
        line.text(" not started");
    } else {
        add_alarm(line, b, a);
    }
}

// Adds the place of a malformed request, and its field.
fn add_place(line: &mut Line, offset: u64, why: u64)
    requires line { length line.old ≤ 200 }
    ensures value { line.new ≡ line.old ++ place_text offset why }
    ensures len { length line.new ≤ length line.old + 60 }
{
    line.text(" offset ");
    line.number(offset);
    line.text(" field ");
    add_field(line, why);
}

// Adds what the details of a refusal or of a Malformed reply mean.
fn add_refusal(line: &mut Line, code: u8, a: u64, b: u64)
    requires line { length line.old ≤ 200 }
    ensures value { line.new ≡ line.old ++ refusal_details code a b }
    ensures len { length line.new ≤ length line.old + 80 }
{
    match code {
        1 => add_two(line, " asked ", a, " of ", b),
        2 => add_two(line, " asked ", a, " limit ", b),
        3 => add_one(line, " node ", a),
        4 => add_one(line, " node ", a),
        5 => add_two(line, " asked ", a, " kept ", b),
        6 => add_one(line, " node ", a),
        7 => add_one(line, " node ", a),
        8 => add_two(line, " node ", a, " counter ", b),
        10 => add_two(line, " taken ", a, " need ", b),
        11 => add_error(line, a, b),
        12 => add_two(line, " faults ", a, " source ", b),
        13 => add_alarm(line, a, b),
        14 => add_two(line, " missing ", a, " source ", b),
        _ => add_place(line, a, b),
    }
}

// The number in eight bytes, high byte first.
fn number_at(payload: &[u8], at: usize) -> u64
    requires { at + 8 ≤ length payload.now }
    ensures { result ≡ from_be_bytes w64 (take 8 (drop at payload.now)) }
{
    let mut bytes = [0u8; 8];
    bytes.copy_from_slice(&payload[at..at + 8]);
    u64::from_be_bytes(bytes)
}

// Adds the status of a node.
fn add_status(line: &mut Line, payload: &[u8])
    requires line { length line.old ≤ 120 }
    requires payload { length payload.now ≡ 25 }
    ensures value { line.new ≡ line.old ++ status_text payload.now }
    ensures len { length line.new ≤ length line.old + 120 }
{
    line.text(" live ");
    add_live(line, payload[0]);
    line.text(" counter ");
    line.number(number_at(payload, 1));
    line.text(" seeds ");
    line.number(number_at(payload, 9));
    line.text(" gives ");
    line.number(number_at(payload, 17));
}

// Adds the id, the operation, and the node or source.
fn add_subject(line: &mut Line, head: &ReplyHead)
    requires line { length line.old ≤ 10 }
    ensures value { line.new ≡ line.old ++ subject head.now }
    ensures len { length line.new ≤ length line.old + 80 }
{
    if head.code == 255 {
        return;
    }
    line.number(u64::from(head.id));
    line.text(" ");
    line.text(Operation::numbered(head.op).name());
    line.text(if head.op == 5 { " source " } else { " node " });
    line.number(u64::from(head.node));
    line.text(" ");
}

// Adds the details of a reply, but for the digits of its bytes.
fn add_details(line: &mut Line, head: &ReplyHead, payload: &[u8])
    requires line { length line.old ≤ 120 }
    requires payload { IsPayloadOf head.now payload.now }
    ensures value { line.new ≡ line.old ++ details head.now payload.now }
    ensures len { length line.new ≤ length line.old + 120 }
{
    if head.code != 0 {
        add_refusal(line, head.code, head.a, head.b);
    } else if head.op == 2 {
        line.text(if payload.is_empty() {
            " bytes"
        } else {
            " bytes "
        });
    } else if head.op == 6 {
        add_status(line, payload);
    }
}

// The line of a reply up to the digits of its bytes.
fn front(head: &ReplyHead, payload: &[u8]) -> Line
    requires payload { IsPayloadOf head.now payload.now }
    ensures value { result ≡ subject head.now ++ code_name head.now.code ++ details head.now payload.now }
    ensures len { length result ≤ 512 }
{
    let mut line = Line::new();
    add_subject(&mut line, head);
    line.text(code_name(head.code));
    add_details(&mut line, head, payload);
    line
}

/// The bytes that a reply gives: the payload of a Generate.
pub fn given<'a>(head: &ReplyHead, payload: &'a [u8]) -> &'a [u8]
    ensures { result.now ≡ given (record { head = head.now; string = payload.now }) }
{
    if head.op == 2 { payload } else { &[] }
}

/// The most bytes of a line that shows a reply: its front, the digits of 65,536 bytes, and the line feed.
pub const MAX_TEXT: usize = 512 + 131_072 + 1;

/// Puts the line that shows a reply to the front of `out`, and gives its length.
pub fn put_line(head: &ReplyHead, payload: &[u8], out: &mut [u8]) -> usize
    requires payload { IsPayloadOf head.now payload.now }
    requires room { length out.old ≡ 131585 }
    ensures text { take result out.new ≡ reply_line (record { head = head.now; string = payload.now }) }
    ensures len { result ≤ length out.new }
{
    let line = front(head, payload);
    let bytes = line.as_bytes();
    let shown = given(head, payload);
    let end = bytes.len() + 2 * shown.len();
    put_front(out, bytes);
    put_hex_at(out, bytes.len(), shown);
    put_at(out, end, b"\n");
    end + 1
}

// Puts bytes in hexadecimal at a place of a buffer in which they fit.
fn put_hex_at(out: &mut [u8], at: usize, bytes: &[u8])
    requires { at + 2 * length bytes.now ≤ length out.old }
    ensures { take (at + 2 * length bytes.now) out.new ≡ take at out.old ++ encode_lower bytes.now }
{
    put_hex(&mut out[at..at + 2 * bytes.len()], bytes);
}

// Puts bytes in hexadecimal, in lower case.
fn put_hex(out: &mut [u8], bytes: &[u8])
    requires { length out.old ≡ 2 * length bytes.now }
    ensures { out.new ≡ encode_lower bytes.now }
{
    match hex::encode_to_slice(bytes, out) {
        Ok(()) => {}
        Err(_) => unreachable!(),
    }
}
