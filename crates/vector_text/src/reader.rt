// A reader of a text, one item at a time.
ghost use Rattle.std.specs.Prelude.{◌≡◌, ◌≤◌, ◌^◌, ◌+◌, length, IfOk, IfSome, IfNone};
ghost use Rattle.vector_text.specs.Feeding.{given};
ghost use Rattle.vector_text.specs.declared.spot.Answer.TheVariants.{Goes};
ghost use Rattle.vector_text.specs.Reading.{Begins, Counts, Gives, GivesHeld, HasReadCause, Nears, Waits};

use crate::case::{Case, Family};
use crate::reading::Reading;
use rbg_bytes::{ByteSource, OutOfMemory};
use std::alloc::Global;
use std::marker::Model;

/// What comes next in a text.
#[derive(Clone, Copy, Debug, PartialEq, Eq)]
pub enum Item {
    /// A case, which the reader gives until it is asked for the next item.
    Case,
    /// A group under a mechanism that is not read.
    Skipped,
    /// The end.
    End,
}

/// Why nothing comes next.
#[derive(Clone, Copy, Debug, PartialEq, Eq)]
pub enum TextRefusal {
    /// The text has its first fault at this line, counted from 1: 1 more than 16,384 bytes, 2 no such line, 3 no pairs of
    /// hexadecimal digits, 4 a field once too often or outside a group, 5 a field that is missing, 6 a COUNT before any
    /// mechanism, 7 more than 4,096 bytes of a value.
    Fault { line: u64, why: u8 },
    /// The source failed, so often by now.
    ReadFault { count: u64 },
}

/// A reader of the first 2^63 bytes of a source as a text. It keeps one case, and of the text no more than a piece.
#[derive(Drop)]
pub struct VectorReader {
    reading: Reading,
}

impl Model for VectorReader {
    ghost use Rattle.vector_text.specs.Reading.{IsReading, Reader, reader_of};

    ghost Value = { Reader };

    ghost view = { λ r. reader_of r.reading };

    ghost invariant = { λ r. IsReading r.reading };
}

impl VectorReader {
    /// At the begin of a text that is read for a family. All memory is taken here.
    pub fn open(alloc: Global, family: Family) -> Result<VectorReader, OutOfMemory>
        ensures begins { IfOk result (Begins family) }
    {
        match Reading::open(alloc, family) {
            Ok(reading) => Ok(VectorReader { reading }),
            Err(why) => Err(why),
        }
    }

    /// Reads up to the next item. After a fault, a failed read and the end there is none, and a further call is of no use.
    pub fn next<I: ByteSource>(&mut self, input: &mut I) -> Result<Item, TextRefusal>
        ensures gives { Gives (I.left input.old) self.old (I.left input.new) self.new result }
        ensures nears { Nears result self.old self.new }
        ensures lines { self.new.place.number ≤ 2 ^ 63 }
        ensures cause { HasReadCause (I.faults input.old) (I.faults input.new) result }
    {
        self.reading.next(input)
    }

    /// Takes in a piece of the text, which follows what was taken in or read before; an empty piece is the end. Of a text the first 2^63
    /// bytes are taken. After `None` of `next_held` there is room for 49,151 bytes.
    pub fn give(&mut self, piece: &[u8])
        requires { length self.old.window.ahead + length piece.now ≤ 65536 }
        ensures { self.new ≡ record self.old { window = given piece.now self.old.window } }
    {
        self.reading.feed.give(piece);
    }

    /// The next item of what was taken in, or none where that rests on what follows.
    pub fn next_held(&mut self) -> Option<Result<Item, TextRefusal>>
        ensures some { IfSome result (GivesHeld self.old self.new) }
        ensures none { IfNone result (Waits self.old self.new) }
        ensures room { self.new.window.room ≡ self.old.window.room }
        ensures nears { IfSome result (λ given. Nears given self.old self.new) }
        ensures counts { IfNone result (Counts Goes self.old.place self.new.place) }
        ensures lines { self.new.place.number ≤ 2 ^ 63 }
    {
        self.reading.next_held()
    }

    /// The case that came last. Before the first it holds nothing of the text.
    pub fn case(&self) -> &Case
        ensures { result.now ≡ self.now.case }
    {
        &self.reading.spot.group.case
    }
}
