// The head of a frame, a byte at a time, by the table of its fields.

ghost use Rattle.std.specs.Prelude.{[], ◌≡◌, ◌<◌, ◌↔◌, length, take, IsTrue};
ghost use Rattle.frame_codec.specs.Rows.{Reaches, Takes};
ghost use Rattle.frame_codec.specs.Heads.{bytes_of, fields_of, numbers_of, IsBegun, IsWhole, HeadSteps};

use crate::table::{Span, Table, count, spans, why, width};

/// A head that is begun: the numbers of the fields that are whole, and the bytes of the next field so far, as a number.
#[derive(Drop)]
pub struct Head {
    pub table: Table,
    pub numbers: [u64; 8],
    pub index: usize,
    pub number: u64,
    pub have: usize,
}

/// What a byte makes of a head.
pub enum HeadStep {
    More,
    Whole,
    Bad { why: u8 },
}

// Whether some number in the spans begins with the bytes of this one, with so many bytes to come.
fn reaches(spans: &[Span], left: usize, number: u64) -> bool
    requires { left < 8 }
    ensures { IsTrue result ↔ Reaches spans.now left number }
{
    for span in spans {
        if span.low >> (8 * left) <= number && number <= span.high >> (8 * left) {
            return true;
        }
    }
    false
}

/// Whether the fields may hold these numbers.
pub fn takes_all(table: Table, numbers: &[u64; 8]) -> bool
    ensures { IsTrue result → Takes (fields_of table) [] (take (length (fields_of table)) numbers.now) }
{
    for index in 0..count(table) {
        if !reaches(spans(table, index, numbers), 0, numbers[index]) {
            return false;
        }
    }
    true
}

impl Head {
    /// A head of which there is no byte yet.
    pub fn fresh(table: Table) -> Head
        ensures begun { IsBegun result }
        ensures bytes { bytes_of result ≡ [] }
        ensures table { result.table ≡ table }
    {
        Head {
            table,
            numbers: [0; 8],
            index: 0,
            number: 0,
            have: 0,
        }
    }

    /// Makes the head whole at once, of these numbers.
    pub fn fill(&mut self, numbers: [u64; 8])
        requires { Takes (fields_of self.old.table) [] (take (length (fields_of self.old.table)) numbers) }
        ensures whole { IsWhole self.new }
        ensures numbers { numbers_of self.new ≡ take (length (fields_of self.old.table)) numbers }
        ensures table { self.new.table ≡ self.old.table }
    {
        self.numbers = numbers;
        self.index = count(self.table);
        self.number = 0;
        self.have = 0;
    }

    /// Takes the next byte of a head that is begun.
    pub fn push(&mut self, byte: u8) -> HeadStep
        requires { IsBegun self.old }
        ensures step { HeadSteps self.old byte result self.new }
        ensures table { self.new.table ≡ self.old.table }
    {
        let left = width(self.table, self.index) - 1 - self.have;
        let number = self.number * 256 + u64::from(byte);
        if !reaches(spans(self.table, self.index, &self.numbers), left, number) {
            return HeadStep::Bad {
                why: why(self.table, self.index),
            };
        }
        if 0 < left {
            self.number = number;
            self.have += 1;
            return HeadStep::More;
        }
        self.numbers[self.index] = number;
        self.number = 0;
        self.have = 0;
        self.index += 1;
        if self.index < count(self.table) {
            HeadStep::More
        } else {
            HeadStep::Whole
        }
    }

    /// Begins the next head.
    pub fn restart(&mut self)
        ensures begun { IsBegun self.new }
        ensures bytes { bytes_of self.new ≡ [] }
        ensures table { self.new.table ≡ self.old.table }
    {
        self.index = 0;
        self.number = 0;
        self.have = 0;
    }
}
