// The lines of a source, one after another.
ghost use Rattle.std.specs.Prelude.{◌≡◌, ◌<◌, ◌≤◌, ◌-◌, ◌+◌, ◌++◌, [], List, ℕ, length, take, drop, min, false, Option, None, IfSome, IfNone, IfOk, OnOk, All};
ghost use Rattle.std.specs.Io.KnownBytes.{ReadConsumes};
ghost use Rattle.std.specs.Str.Lines.{strip_carriage_return};
ghost use Rattle.rbg_bytes.specs.Streams.{HasCause};
ghost use Rattle.vector_text.specs.Feeding.{Grows, Finds, IsLineEnd, given, is_line_feed, last_found, most_bytes};

use crate::shape::MAX_LINE;
use rbg_bytes::{ByteSource, Failed, OutOfMemory, put_at};
use std::alloc::Global;
use std::marker::Model;

// The bytes of the buffer. A line with its end has at most 16,386 of them.
const BUFFER_LEN: usize = 65_536;

/// What stands at the front of the bytes that come.
#[derive(Clone, Copy, Debug, PartialEq, Eq)]
pub enum Found {
    /// Nothing, and nothing comes.
    End,
    /// A line of so many bytes, with its end so many.
    Line { len: usize, whole: usize },
    /// A line of more than 16,384 bytes, whose end may not have been read.
    Long,
}

// How long a line that has its line feed is without a carriage return at its end.
fn uncarried(line: &[u8]) -> usize
    ensures bound { result ≤ length line.now }
    ensures value { take result line.now ≡ strip_carriage_return line.now }
{
    let len = line.len();
    if 0 < len {
        if line[len - 1] == b'\r' {
            return len - 1;
        }
    }
    len
}

// The first line of the bytes where it has its line feed: its length without its end and with it.
fn line_end(ahead: &[u8]) -> Option<(usize, usize)>
    ensures some { IfSome result (λ end. IsLineEnd ahead.now end.0 end.1) }
    ensures none { IfNone result (All (λ c. is_line_feed c ≡ false) ahead.now) }
{
    for (i, byte) in ahead.iter().enumerate() {
        if *byte == b'\n' {
            return Some((uncarried(&ahead[..i]), i + 1));
        }
    }
    None
}

// Moves the bytes from `at` to `end` to the front of a buffer where they reach its end, and says where they stand.
fn make_room(buffer: &mut [u8], at: usize, end: usize) -> (usize, usize)
    requires order { (at ≤ end) × (end ≤ length buffer.old) }
    requires short { end - at < length buffer.old }
    ensures order { result.0 ≤ result.1 }
    ensures room { result.1 < length buffer.old }
    ensures same { take (result.1 - result.0) (drop result.0 buffer.new) ≡ take (end - at) (drop at buffer.old) }
{
    if end < buffer.len() {
        return (at, end);
    }
    buffer.rotate_left(at);
    (0, end - at)
}

// Moves the bytes from `at` to `end` to the front of a buffer where so many more do not fit behind them, and says where they stand.
fn make_way(buffer: &mut [u8], at: usize, end: usize, count: usize) -> (usize, usize)
    requires order { (at ≤ end) × (end ≤ length buffer.old) }
    requires short { end - at + count ≤ length buffer.old }
    ensures order { result.0 ≤ result.1 }
    ensures room { result.1 + count ≤ length buffer.new }
    ensures same { take (result.1 - result.0) (drop result.0 buffer.new) ≡ take (end - at) (drop at buffer.old) }
    ensures length { length buffer.new ≡ length buffer.old }
{
    if count <= buffer.len() - end {
        return (at, end);
    }
    buffer.rotate_left(at);
    (0, end - at)
}

// So many bytes, or as many as there is room for.
fn within(count: usize, room: u64) -> usize
    ensures { result ≡ min count room }
{
    if (count as u64) < room {
        count
    } else {
        room as usize
    }
}

/// The bytes of a source that were read and not yet taken. All memory is taken at its begin.
#[derive(Drop)]
pub struct Feed {
    buffer: Vec<u8>,
    at: usize,
    end: usize,
    room: u64,
}

impl Model for Feed {
    ghost use Rattle.std.specs.Prelude.{◌≡◌, ◌≤◌, ◌-◌, ◌^◌, length, take, drop};
    ghost use Rattle.vector_text.specs.Feeding.{Window};

    ghost Value = { Window };

    ghost view = { λ f. record { ahead = take (f.end - f.at) (drop f.at f.buffer.items); room = f.room } };

    ghost invariant = { λ f. (f.at ≤ f.end) × (f.end ≤ 65536) × (length f.buffer.items ≡ 65536) × (f.room ≤ 2 ^ 63) };
}

// How many bytes a read asks for, where so many are free and so many may be read.
fn asked_for(free: usize, room: u64) -> usize
    requires { (0 < free) × (0 < room) }
    ensures some { 0 < result }
    ensures free { result ≤ free }
    ensures room { result ≤ room }
{
    if (free as u64) < room {
        free
    } else {
        room as usize
    }
}

// How many bytes may be read behind a read of so many: none behind the end.
fn room_behind(room: u64, count: usize) -> u64
    requires { count ≤ room }
    ensures none { count ≡ 0 → result ≡ 0 }
    ensures some { 0 < count → result ≡ room - count }
{
    if count == 0 {
        return 0;
    }
    room - count as u64
}

// Reads once into a part of a buffer that isn't empty.
fn read_part<I: ByteSource>(
    buffer: &mut [u8],
    from: usize,
    to: usize,
    input: &mut I,
) -> Result<usize, Failed>
    requires { (from < to) × (to ≤ length buffer.old) }
    ensures bound { IfOk result (λ n. n ≤ to - from) }
    ensures front { take from buffer.new ≡ take from buffer.old }
    ensures bytes { ReadConsumes (I.left input.old) (I.left input.new) result (drop from buffer.new) }
    ensures untold { I.left input.old ≡ None → I.left input.new ≡ None }
    ensures cause { HasCause (I.faults input.old) (I.faults input.new) result }
{
    input.read(&mut buffer[from..to])
}

impl Feed {
    /// No bytes yet, of at most 2^63.
    pub fn open(alloc: Global) -> Result<Feed, OutOfMemory>
        ensures { IfOk result (λ f. f ≡ record { ahead = []; room = most_bytes }) }
    {
        match vec![in alloc; 0u8; BUFFER_LEN] {
            Ok(buffer) => Ok(Feed {
                buffer,
                at: 0,
                end: 0,
                room: 1 << 63,
            }),
            Err(_) => Err(OutOfMemory),
        }
    }

    /// The bytes that were read and not yet taken.
    pub fn ahead(&self) -> &[u8]
        ensures value { result.now ≡ self.now.ahead }
        ensures bound { length result.now ≤ 65536 }
    {
        &self.buffer[self.at..self.end]
    }

    /// Takes bytes from the front.
    pub fn take(&mut self, count: usize)
        requires { count ≤ length self.old.ahead }
        ensures { self.new ≡ record self.old { ahead = drop count self.old.ahead } }
    {
        self.at += count;
    }

    // Reads once more.
    fn read_more<I: ByteSource>(&mut self, input: &mut I) -> Result<(), Failed>
        requires room { 0 < self.old.room }
        requires short { length self.old.ahead < 65536 }
        ensures grows { Grows (I.left input.old) self.old (I.left input.new) self.new }
        ensures less { OnOk result (self.new.room < self.old.room) }
        ensures cause { HasCause (I.faults input.old) (I.faults input.new) result }
    {
        let (at, end) = make_room(&mut self.buffer, self.at, self.end);
        self.at = at;
        self.end = end;
        let most = asked_for(BUFFER_LEN - end, self.room);
        match read_part(&mut self.buffer, end, end + most, input) {
            Ok(count) => {
                let room = room_behind(self.room, count);
                self.end += count;
                self.room = room;
                Ok(())
            }
            Err(why) => Err(why),
        }
    }

    /// Takes in a piece that follows what was read, up to the most bytes of a text. An empty piece is the end.
    pub fn give(&mut self, piece: &[u8])
        requires { length self.old.ahead + length piece.now ≤ 65536 }
        ensures { self.new ≡ given piece.now self.old }
    {
        let count = within(piece.len(), self.room);
        let (at, end) = make_way(&mut self.buffer, self.at, self.end, count);
        put_at(&mut self.buffer, end, &piece[..count]);
        self.at = at;
        self.end = end + count;
        self.room = room_behind(self.room, count);
    }

    /// What stands at the front of the bytes that were read, where it doesn't rest on what follows them.
    pub fn found(&self) -> Option<Found>
        ensures some { IfSome result (λ found. (left : Option (List ℕ)) → Finds found left self.now) }
        ensures none { IfNone result ((0 < self.now.room) × (length self.now.ahead < 16386)) }
    {
        if let Some((len, whole)) = line_end(self.ahead()) {
            return Some(Found::Line { len, whole });
        }
        let len = self.ahead().len();
        if self.room == 0 {
            return Some(last(len));
        }
        if MAX_LINE + 2 <= len {
            return Some(Found::Long);
        }
        None
    }

    /// Reads until the line at the front is whole, or nothing more comes. A failed read loses nothing.
    pub fn line<I: ByteSource>(&mut self, input: &mut I) -> Result<Found, Failed>
        ensures found { IfOk result (λ found. Finds found (I.left input.new) self.new) }
        ensures grows { Grows (I.left input.old) self.old (I.left input.new) self.new }
        ensures cause { HasCause (I.faults input.old) (I.faults input.new) result }
    {
        'reads: loop {
            if let Some(found) = self.found() {
                return Ok(found);
            }
            match self.read_more(input) {
                Ok(()) => {}
                Err(why) => return Err(why),
            }
        }
    }
}

// What stands at the front where so many bytes without a line feed are the last.
fn last(len: usize) -> Found
    ensures { result ≡ last_found len }
{
    if len == 0 {
        Found::End
    } else {
        Found::Line { len, whole: len }
    }
}
