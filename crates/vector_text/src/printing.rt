// A case is printed.
ghost use Rattle.std.specs.Prelude.{◌≡◌, ◌≤◌, ◌+◌, ◌*◌, ◌++◌, [], ◌∷◌, length, take, codes};
ghost use Rattle.rbg_bytes.specs.Streams.{HasCause, TakesAll};
ghost use Rattle.vector_text.specs.Printing.{case_text, cipher_name, count_line, field_line, generate_lines, hash_name, head_lines, mechanism_line, mechanism_name, reseed_lines, resistance_line, string_lines, text_of, value_text};

use crate::case::{Case, Mech};
use crate::digits::put_digits;
use ctr_drbg::Mode;
use df_core::KeyLen;
use hmac_core::Hash;
use rbg_bytes::{ByteSink, Failed, Line, put_at, put_front};

// The bytes of the longest line: a name of 21 bytes, three round its `=`, the digits of 4,096 bytes and a line feed.
const ROOM: usize = 8_217;

// The name of a hash function.
fn hash_name(hash: Hash) -> &'static str
    ensures name { result.now ≡ hash_name hash }
    ensures short { length result.now ≤ 14 }
{
    match hash {
        Hash::Sha224 => "SHA-224",
        Hash::Sha256 => "SHA-256",
        Hash::Sha384 => "SHA-384",
        Hash::Sha512 => "SHA-512",
        Hash::Sha512_224 => "SHA-512/224",
        Hash::Sha512_256 => "SHA-512/256",
    }
}

// The name of a key length and a mode.
fn cipher_name(keylen: KeyLen, mode: Mode) -> &'static str
    ensures name { result.now ≡ cipher_name keylen mode }
    ensures short { length result.now ≤ 14 }
{
    match mode {
        Mode::UseDf => match keylen {
            KeyLen::K16 => "AES-128 use df",
            KeyLen::K24 => "AES-192 use df",
            KeyLen::K32 => "AES-256 use df",
        },
        Mode::NoDf => match keylen {
            KeyLen::K16 => "AES-128 no df",
            KeyLen::K24 => "AES-192 no df",
            KeyLen::K32 => "AES-256 no df",
        },
    }
}

// The name of a mechanism.
fn mechanism_name(mech: Mech) -> &'static str
    ensures name { result.now ≡ mechanism_name mech }
    ensures short { length result.now ≤ 14 }
{
    match mech {
        Mech::Hmac(hash) => hash_name(hash),
        Mech::Ctr(keylen, mode) => cipher_name(keylen, mode),
    }
}

// Writes the line of the mechanism.
fn write_mechanism<O: ByteSink>(mech: Mech, output: &mut O) -> Result<(), Failed>
    ensures bytes { TakesAll (O.out output.old) (O.out output.new) result (mechanism_line mech ++ codes "\n") }
    ensures cause { HasCause (O.faults output.old) (O.faults output.new) result }
{
    let mut line = Line::new();
    line.text("[");
    line.text(mechanism_name(mech));
    line.text("]");
    line.text("\n");
    output.write_all(line.as_bytes())
}

// Writes the line of prediction resistance.
fn write_resistance<O: ByteSink>(pr: bool, output: &mut O) -> Result<(), Failed>
    ensures bytes { TakesAll (O.out output.old) (O.out output.new) result (resistance_line pr ++ codes "\n") }
    ensures cause { HasCause (O.faults output.old) (O.faults output.new) result }
{
    if pr {
        output.write_all(b"[PredictionResistance = True]\n")
    } else {
        output.write_all(b"[PredictionResistance = False]\n")
    }
}

// Writes the line of COUNT.
fn write_count<O: ByteSink>(count: u64, output: &mut O) -> Result<(), Failed>
    ensures bytes { TakesAll (O.out output.old) (O.out output.new) result (count_line count ++ codes "\n") }
    ensures cause { HasCause (O.faults output.old) (O.faults output.new) result }
{
    let mut line = Line::new();
    line.text("COUNT = ");
    line.number(count);
    line.text("\n");
    output.write_all(line.as_bytes())
}

// Puts a value behind its `=`, and says where it ends.
fn put_value(room: &mut [u8], at: usize, value: &[u8]) -> usize
    requires { at + 1 + 2 * length value.now ≤ length room.old }
    ensures bound { result ≤ at + 1 + 2 * length value.now }
    ensures value { take result room.new ≡ take at room.old ++ value_text value.now }
{
    if value.len() == 0 {
        return at;
    }
    put_at(room, at, b" ");
    put_digits(room, at + 1, value);
    at + 1 + 2 * value.len()
}

// Puts the line of a field together, and says how many bytes it has.
fn put_field(name: &str, value: &[u8], room: &mut [u8]) -> usize
    requires name { length name.now ≤ 21 }
    requires value { length value.now ≤ 4096 }
    requires room { length room.old ≡ 8217 }
    ensures bound { result ≤ length room.new }
    ensures line { take result room.new ≡ field_line name.now value.now ++ codes "\n" }
{
    let front = name.len();
    put_front(room, name.as_bytes());
    put_at(room, front, b" =");
    let end = put_value(room, front + 2, value);
    put_at(room, end, b"\n");
    end + 1
}

// Writes the line of a field.
fn write_field<O: ByteSink>(
    name: &str,
    value: &[u8],
    room: &mut [u8],
    output: &mut O,
) -> Result<(), Failed>
    requires name { length name.now ≤ 21 }
    requires value { length value.now ≤ 4096 }
    requires room { length room.old ≡ 8217 }
    ensures bytes { TakesAll (O.out output.old) (O.out output.new) result (field_line name.now value.now ++ codes "\n") }
    ensures cause { HasCause (O.faults output.old) (O.faults output.new) result }
{
    let len = put_field(name, value, room);
    output.write_all(&room[..len])
}

// Writes the lines before the fields.
fn write_head<O: ByteSink>(case: &Case, output: &mut O) -> Result<(), Failed>
    ensures bytes { TakesAll (O.out output.old) (O.out output.new) result (text_of (head_lines case.now)) }
    ensures cause { HasCause (O.faults output.old) (O.faults output.new) result }
{
    match write_mechanism(case.mech, output) {
        Ok(()) => {}
        Err(why) => return Err(why),
    }
    match write_resistance(case.pr, output) {
        Ok(()) => {}
        Err(why) => return Err(why),
    }
    write_count(case.count, output)
}

// Writes the strings of the instantiation.
fn write_strings<O: ByteSink>(case: &Case, room: &mut [u8], output: &mut O) -> Result<(), Failed>
    requires { length room.old ≡ 8217 }
    ensures bytes { TakesAll (O.out output.old) (O.out output.new) result (text_of (string_lines case.now)) }
    ensures cause { HasCause (O.faults output.old) (O.faults output.new) result }
{
    match write_field("EntropyInput", case.entropy.as_slice(), room, output) {
        Ok(()) => {}
        Err(why) => return Err(why),
    }
    match write_field("Nonce", case.nonce.as_slice(), room, output) {
        Ok(()) => {}
        Err(why) => return Err(why),
    }
    write_field("PersonalizationString", case.pers.as_slice(), room, output)
}

// Writes the strings of the reseed, where there is one.
fn write_reseed<O: ByteSink>(
    has_reseed: bool,
    entropy: &[u8],
    add: &[u8],
    room: &mut [u8],
    output: &mut O,
) -> Result<(), Failed>
    requires entropy { length entropy.now ≤ 4096 }
    requires add { length add.now ≤ 4096 }
    requires room { length room.old ≡ 8217 }
    ensures bytes { TakesAll (O.out output.old) (O.out output.new) result (text_of (reseed_lines has_reseed entropy.now add.now)) }
    ensures cause { HasCause (O.faults output.old) (O.faults output.new) result }
{
    if !has_reseed {
        return Ok(());
    }
    match write_field("EntropyInputReseed", entropy, room, output) {
        Ok(()) => {}
        Err(why) => return Err(why),
    }
    write_field("AdditionalInputReseed", add, room, output)
}

// Writes the strings of a generate.
fn write_generate<O: ByteSink>(
    pr: bool,
    add: &[u8],
    entropy: &[u8],
    room: &mut [u8],
    output: &mut O,
) -> Result<(), Failed>
    requires add { length add.now ≤ 4096 }
    requires entropy { length entropy.now ≤ 4096 }
    requires room { length room.old ≡ 8217 }
    ensures bytes { TakesAll (O.out output.old) (O.out output.new) result (text_of (generate_lines pr add.now entropy.now)) }
    ensures cause { HasCause (O.faults output.old) (O.faults output.new) result }
{
    match write_field("AdditionalInput", add, room, output) {
        Ok(()) => {}
        Err(why) => return Err(why),
    }
    if !pr {
        return Ok(());
    }
    write_field("EntropyInputPR", entropy, room, output)
}

/// Prints a case as a text that is read as the same case up to its line, each line in one write: that of its mechanism, that of
/// PredictionResistance, that of COUNT, and its fields. Where a write fails a front of the text was written. Strings that belong to
/// a reseed or to prediction resistance that the case has not are not printed.
pub fn print_case<O: ByteSink>(case: &Case, output: &mut O) -> Result<(), Failed>
    ensures bytes { TakesAll (O.out output.old) (O.out output.new) result (case_text case.now) }
    ensures cause { HasCause (O.faults output.old) (O.faults output.new) result }
{
    let mut room = [0u8; ROOM];
    match write_head(case, output) {
        Ok(()) => {}
        Err(why) => return Err(why),
    }
    match write_strings(case, &mut room, output) {
        Ok(()) => {}
        Err(why) => return Err(why),
    }
    let (entropy, add) = (case.reseed.as_slice(), case.add_reseed.as_slice());
    match write_reseed(case.has_reseed, entropy, add, &mut room, output) {
        Ok(()) => {}
        Err(why) => return Err(why),
    }
    let (entropy, add) = (case.pr1.as_slice(), case.add1.as_slice());
    match write_generate(case.pr, add, entropy, &mut room, output) {
        Ok(()) => {}
        Err(why) => return Err(why),
    }
    let (entropy, add) = (case.pr2.as_slice(), case.add2.as_slice());
    match write_generate(case.pr, add, entropy, &mut room, output) {
        Ok(()) => {}
        Err(why) => return Err(why),
    }
    write_field("ReturnedBits", case.returned.as_slice(), &mut room, output)
}
