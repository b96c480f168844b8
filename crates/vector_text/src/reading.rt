// A reader from the inside: the lines of a source, one after another, up to the next item.
ghost use Rattle.std.specs.Prelude.{◌≡◌, ◌≤◌, ◌^◌, List, ℕ, length, Option, IfOk, IfSome, IfNone};
ghost use Rattle.rbg_bytes.specs.Streams.{HasCause};
ghost use Rattle.vector_text.specs.Feeding.{Finds, Follows};
ghost use Rattle.vector_text.specs.Spots.{Says, place_of, window_behind};
ghost use Rattle.vector_text.specs.declared.spot.Answer.TheVariants.{Goes};
ghost use Rattle.vector_text.specs.Reading.{Begins, Counts, FitsFound, Gives, GivesHeld, HasReadCause, IsReading, Nears, Shrinks, Waits, left_of, reader_of, size_of};

use crate::case::Family;
use crate::feed::{Feed, Found};
use crate::reader::{Item, TextRefusal};
use crate::spot::{Answer, Spot};
use rbg_bytes::{ByteSource, OutOfMemory};
use std::alloc::Global;

// Room for the bytes that the digits of as many bytes as are kept can write.
const ROOM: usize = 32_768;

/// Where a reader stands, and what it has read.
#[derive(Drop)]
pub struct Reading {
    pub family: Family,
    pub spot: Spot,
    pub feed: Feed,
    pub room: Vec<u8>,
}

// Takes a line of so many bytes with its end, where the answer to it does.
fn take_from(feed: &mut Feed, answer: Answer, whole: usize)
    requires { whole ≤ length feed.old.ahead }
    ensures { feed.new ≡ window_behind answer whole feed.old }
{
    match answer {
        Answer::Goes => feed.take(whole),
        Answer::Skipped => feed.take(whole),
        Answer::Case => {}
        Answer::End => {}
        Answer::Fault { .. } => {}
    }
}

impl Reading {
    /// At the begin of a text. All memory is taken here.
    pub fn open(alloc: Global, family: Family) -> Result<Reading, OutOfMemory>
        ensures reading { IfOk result IsReading }
        ensures begins { IfOk result (λ r. Begins family (reader_of r)) }
    {
        let feed = match Feed::open(alloc) {
            Ok(feed) => feed,
            Err(why) => return Err(why),
        };
        match vec![in alloc; 0u8; ROOM] {
            Ok(room) => Ok(Reading {
                family,
                spot: Spot::new(),
                feed,
                room,
            }),
            Err(_) => Err(OutOfMemory),
        }
    }

    // Takes what was found at the front.
    fn take(&mut self, found: Found) -> Answer
        requires reading { IsReading self.old }
        requires fits { FitsFound found self.old.feed }
        ensures says { (left : Option (List ℕ)) (more : List ℕ) → Finds found left self.old.feed → Follows left self.old.feed.room more →
            Says result (left_of (reader_of self.old) more) self.new.spot.group.case (left_of (reader_of self.new) more) }
        ensures reading { IsReading self.new }
        ensures room { self.new.feed.room ≡ self.old.feed.room }
        ensures family { self.new.family ≡ self.old.family }
        ensures smaller { Shrinks result (size_of (reader_of self.old)) (size_of (reader_of self.new)) }
        ensures counts { Counts result (place_of self.old.spot) (place_of self.new.spot) }
    {
        match found {
            Found::End => self.spot.end(),
            Found::Long => Answer::Fault {
                line: self.spot.number + 1,
                why: 1,
            },
            Found::Line { len, whole } => {
                let line = &self.feed.ahead()[..len];
                let answer = self.spot.take_line(self.family, line, &mut self.room);
                take_from(&mut self.feed, answer, whole);
                answer
            }
        }
    }

    /// The next item of what was read, or none where that rests on what follows.
    pub fn next_held(&mut self) -> Option<Result<Item, TextRefusal>>
        requires reading { IsReading self.old }
        ensures some { IfSome result (GivesHeld (reader_of self.old) (reader_of self.new)) }
        ensures none { IfNone result (Waits (reader_of self.old) (reader_of self.new)) }
        ensures reading { IsReading self.new }
        ensures room { self.new.feed.room ≡ self.old.feed.room }
        ensures nears { IfSome result (λ given. Nears given (reader_of self.old) (reader_of self.new)) }
        ensures counts { IfNone result (Counts Goes (place_of self.old.spot) (place_of self.new.spot)) }
    {
        'lines: loop {
            let Some(found) = self.feed.found() else {
                return None;
            };
            match self.take(found) {
                Answer::Goes => {}
                Answer::Case => return Some(Ok(Item::Case)),
                Answer::Skipped => return Some(Ok(Item::Skipped)),
                Answer::End => return Some(Ok(Item::End)),
                Answer::Fault { line, why } => return Some(Err(TextRefusal::Fault { line, why })),
            }
        }
    }

    /// Reads up to the next item.
    pub fn next<I: ByteSource>(&mut self, input: &mut I) -> Result<Item, TextRefusal>
        requires reading { IsReading self.old }
        ensures gives { Gives (I.left input.old) (reader_of self.old) (I.left input.new) (reader_of self.new) result }
        ensures reading { IsReading self.new }
        ensures nears { Nears result (reader_of self.old) (reader_of self.new) }
        ensures cause { HasReadCause (I.faults input.old) (I.faults input.new) result }
    {
        'lines: loop {
            let found = match self.feed.line(input) {
                Ok(found) => found,
                Err(_) => {
                    return Err(TextRefusal::ReadFault {
                        count: input.fault_count(),
                    });
                }
            };
            match self.take(found) {
                Answer::Goes => {}
                Answer::Case => return Ok(Item::Case),
                Answer::Skipped => return Ok(Item::Skipped),
                Answer::End => return Ok(Item::End),
                Answer::Fault { line, why } => return Err(TextRefusal::Fault { line, why }),
            }
        }
    }
}
