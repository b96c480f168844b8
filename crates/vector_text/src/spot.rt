// What a line does at a place of a text.
ghost use Rattle.std.specs.Prelude.{◌≡◌, ◌≤◌, ◌<◌, ◌^◌, ◌+◌, ◌*◌, List, ℕ, [], ◌∷◌, length, take, true, Ok, Err, IfOk, MatchResult};
ghost use Rattle.hex.specs.Hex.{decode_of};
ghost use Rattle.vector_text.specs.Shapes.{value_of};
ghost use Rattle.vector_text.specs.Groups.{is_whole, case_of};
ghost use Rattle.vector_text.specs.Gathered.{group_of};
ghost use Rattle.vector_text.specs.Text.{Goes, at_start, behind, closed, counts, counts_badly, decoded, does, entries_from, placed};
ghost use Rattle.vector_text.specs.declared.case.Family.{Family};
ghost use Rattle.vector_text.specs.Spots.{EndsText, OpenBehind, OpenTook, Says, answer_of, closes, lines_behind, lines_taken, number_behind, place_of, took_of};

use crate::case::Family;
use crate::digits::decode_row;
use crate::group::Gathered;
use crate::shape::{Field, Section, Shape, shape_of, value_of};
use hex::FromHexError;

/// The most bytes of a value.
const MAX_VALUE: usize = 4_096;

/// A place in a text: what its lines stand under, how many lines stand before it, and the group that is open, if one is.
#[derive(Drop)]
pub struct Spot {
    pub section: Section,
    pub pr: bool,
    pub number: u64,
    pub is_open: bool,
    pub group: Gathered,
}

/// What a line does, where the group that it ends is closed.
#[derive(Clone, Copy, Debug, PartialEq, Eq)]
pub enum Took {
    Goes,
    Skips,
    Fails { why: u8 },
}

/// What comes of a line, or of the end.
#[derive(Clone, Copy, Debug, PartialEq, Eq)]
pub enum Answer {
    /// The line was taken, and the text goes on.
    Goes,
    /// The group before the line is a case. The line was not taken.
    Case,
    /// The line was taken, and begins a group that is skipped.
    Skipped,
    /// The text has ended.
    End,
    /// The text has its first fault here.
    Fault { line: u64, why: u8 },
}

impl Took {
    // What comes of a line with this number.
    fn answer(self, line: u64) -> Answer
        ensures { result ≡ answer_of self line }
    {
        match self {
            Took::Goes => Answer::Goes,
            Took::Skips => Answer::Skipped,
            Took::Fails { why } => Answer::Fault { line, why },
        }
    }
}

// Puts the bytes that hexadecimal digits write to the front of the room, and says how many. Where they are no digits, says why.
fn decode(digits: &[u8], room: &mut [u8]) -> Result<usize, FromHexError>
    requires { length digits.now ≤ 2 * length room.old }
    ensures bytes { MatchResult result (λ n. decode_of digits.now ≡ Ok (take n room.new)) (λ why. decode_of digits.now ≡ Err why) }
    ensures bound { IfOk result (λ n. n ≤ length room.new) }
    ensures room { length room.new ≡ length room.old }
{
    let len = digits.len() / 2;
    if digits.len() == 2 * len && decode_row(digits, &mut room[..len]) {
        return Ok(len);
    }
    match hex::decode_to_slice(digits, &mut room[..len]) {
        Ok(()) => Ok(len),
        Err(why) => Err(why),
    }
}

impl Spot {
    /// The begin of a text.
    pub fn new() -> Spot
        ensures { place_of result ≡ at_start }
    {
        Spot {
            section: Section::Nowhere,
            pr: false,
            number: 0,
            is_open: false,
            group: Gathered::new(),
        }
    }

    // A COUNT line with this number.
    fn count(&mut self, count: u64) -> Took
        requires { self.old.number < 2 ^ 63 }
        ensures does { took_of result (place_of self.new) ≡ counts (place_of self.old) count self.old.section }
        ensures number { self.new.number ≡ number_behind result self.old.number }
        ensures opened { OpenTook result self.old.is_open self.new.is_open }
    {
        match self.section {
            Section::Nowhere => Took::Fails { why: 6 },
            Section::Skipped => {
                self.number += 1;
                Took::Skips
            }
            Section::Under(mech) => {
                self.number += 1;
                self.group.begin(self.number, count, mech, self.pr);
                self.is_open = true;
                Took::Goes
            }
        }
    }

    // A COUNT line whose value is no number.
    fn bad_count(&mut self) -> Took
        requires { self.old.number < 2 ^ 63 }
        ensures does { took_of result (place_of self.new) ≡ counts_badly (place_of self.old) self.old.section }
        ensures number { self.new.number ≡ number_behind result self.old.number }
        ensures opened { OpenTook result self.old.is_open self.new.is_open }
    {
        match self.section {
            Section::Skipped => {
                self.number += 1;
                Took::Skips
            }
            _ => Took::Fails { why: 2 },
        }
    }

    // The bytes of a field line.
    fn place(&mut self, field: Field, bytes: &[u8]) -> Took
        requires number { self.old.number < 2 ^ 63 }
        requires bytes { length bytes.now ≤ 4096 }
        ensures does { took_of result (place_of self.new) ≡ placed (place_of self.old) field bytes.now (place_of self.old).group }
        ensures number { self.new.number ≡ number_behind result self.old.number }
        ensures opened { OpenTook result self.old.is_open self.new.is_open }
    {
        if !self.is_open {
            return Took::Fails { why: 4 };
        }
        if self.group.take(field, bytes) {
            self.number += 1;
            Took::Goes
        } else {
            Took::Fails { why: 4 }
        }
    }

    // A field line under no mechanism that is skipped.
    fn value(&mut self, field: Field, line: &[u8], room: &mut [u8]) -> Took
        requires number { self.old.number < 2 ^ 63 }
        requires line { length line.now ≤ 65536 }
        requires room { length room.old ≡ 32768 }
        ensures does { took_of result (place_of self.new) ≡ decoded (place_of self.old) field (decode_of (value_of line.now)) }
        ensures number { self.new.number ≡ number_behind result self.old.number }
        ensures opened { OpenTook result self.old.is_open self.new.is_open }
        ensures room { length room.new ≡ length room.old }
    {
        match decode(value_of(line), room) {
            Ok(len) => {
                if MAX_VALUE < len {
                    return Took::Fails { why: 7 };
                }
                self.place(field, &room[..len])
            }
            Err(_) => Took::Fails { why: 3 },
        }
    }

    // A line that changes nothing but the number of lines.
    fn pass(&mut self) -> Took
        requires { self.old.number < 2 ^ 63 }
        ensures does { took_of result (place_of self.new) ≡ Goes (behind (place_of self.old)) }
        ensures number { self.new.number ≡ number_behind result self.old.number }
        ensures opened { OpenTook result self.old.is_open self.new.is_open }
    {
        self.number += 1;
        Took::Goes
    }

    // A line of this shape, where the group that it ends is closed.
    fn take(&mut self, shape: Shape, line: &[u8], room: &mut [u8]) -> Took
        requires number { self.old.number < 2 ^ 63 }
        requires line { length line.now ≤ 65536 }
        requires room { length room.old ≡ 32768 }
        ensures does { took_of result (place_of self.new) ≡ does (place_of self.old) line.now shape }
        ensures number { self.new.number ≡ number_behind result self.old.number }
        ensures opened { OpenTook result self.old.is_open self.new.is_open }
        ensures room { length room.new ≡ length room.old }
    {
        match shape {
            Shape::Long => Took::Fails { why: 1 },
            Shape::Nothing => self.pass(),
            Shape::Mechanism(section) => {
                self.section = section;
                self.pr = false;
                self.pass()
            }
            Shape::Resistance(pr) => {
                self.pr = pr;
                self.pass()
            }
            Shape::BadResistance => Took::Fails { why: 2 },
            Shape::Setting => self.pass(),
            Shape::Count(count) => self.count(count),
            Shape::BadCount => self.bad_count(),
            Shape::Value(field) => match self.section {
                Section::Skipped => self.pass(),
                Section::Nowhere => self.value(field, line, room),
                Section::Under(_) => self.value(field, line, room),
            },
            Shape::Other => self.pass(),
            Shape::Unshaped => match self.section {
                Section::Skipped => self.pass(),
                Section::Nowhere => Took::Fails { why: 2 },
                Section::Under(_) => Took::Fails { why: 2 },
            },
        }
    }

    // Closes the group that is open, and says whether it is a case.
    fn close(&mut self) -> Answer
        requires { self.old.is_open ≡ true }
        ensures place { place_of self.new ≡ closed (place_of self.old) }
        ensures answer { result ≡ closes (group_of self.old.group) }
        ensures case { is_whole (group_of self.old.group) ≡ true → self.new.group.case ≡ case_of (group_of self.old.group) }
        ensures number { self.new.number ≡ self.old.number }
    {
        self.is_open = false;
        if self.group.is_whole() {
            self.group.finish();
            Answer::Case
        } else {
            Answer::Fault {
                line: self.group.case.line,
                why: 5,
            }
        }
    }

    /// A line, without its end.
    pub fn take_line(&mut self, family: Family, line: &[u8], room: &mut [u8]) -> Answer
        requires number { self.old.number < 2 ^ 63 }
        requires line { length line.now ≤ 65536 }
        requires room { length room.old ≡ 32768 }
        ensures says { (later : List (List ℕ)) → Says result (entries_from family (place_of self.old) (line.now ∷ later)) self.new.group.case
            (entries_from family (place_of self.new) (lines_behind result line.now later)) }
        ensures number { self.new.number ≡ lines_taken result + self.old.number }
        ensures opened { OpenBehind result self.old.is_open self.new.is_open }
        ensures room { length room.new ≡ length room.old }
    {
        let shape = shape_of(family, line);
        if self.is_open && shape.ends_group() {
            return self.close();
        }
        let number = self.number + 1;
        self.take(shape, line, room).answer(number)
    }

    /// The end of the text.
    pub fn end(&mut self) -> Answer
        ensures says { (family : Family) → Says result (entries_from family (place_of self.old) []) self.new.group.case (entries_from family (place_of self.new) []) }
        ensures number { self.new.number ≡ self.old.number }
        ensures opened { OpenBehind result self.old.is_open self.new.is_open }
        ensures kind { EndsText result }
    {
        if self.is_open {
            self.close()
        } else {
            Answer::End
        }
    }
}
