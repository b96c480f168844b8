// A source and a sink in memory, which fail at the calls that they are told.
ghost use Rattle.std.specs.Prelude.{◌≡◌, ◌≤◌, ◌<◌, ◌+◌, ◌-◌, ◌++◌, ◌↔◌, ◌⊎◌, [], length, take, min, Some, None, Contains, IsErr, OnOk, OnErr, IfOk};
ghost use Rattle.std.specs.Io.{ReadsAtMost};
ghost use Rattle.std.specs.Io.KnownBytes.{ReadConsumes};
ghost use Rattle.rbg_bytes.specs.Streams.{HasCause, TakesAll};
ghost use Rattle.rbg_bytes.specs.Memory.{after_read, after_failed_read, after_write, after_failed_write};

use crate::{ByteSink, ByteSource, Failed, put_fitting, put_front};
use std::marker::Model;

// Puts as many of the bytes as fit at a place of the room, and says how many.
fn put(room: &mut Vec<u8>, at: usize, bytes: &[u8]) -> usize
    requires { at ≤ length room.old.items }
    ensures len { length room.new.items ≡ length room.old.items }
    ensures count { result ≡ min (length bytes.now) (length room.old.items - at) }
    ensures front { take (at + result) room.new.items ≡ take at room.old.items ++ take result bytes.now }
{
    put_fitting(room, at, bytes)
}

/// A source in memory, which tells its bytes. A read gives as many as fit and are left, at most `piece`, and fails where its
/// number, counted from 0, was listed.
#[derive(Drop)]
pub struct MemSource {
    bytes: Vec<u8>,
    at: usize,
    piece: usize,
    fail: Vec<u64>,
    calls: u64,
    faults: u64,
}

impl Model for MemSource {
    ghost use Rattle.std.specs.Prelude.{◌≤◌, length, drop};
    ghost use Rattle.rbg_bytes.specs.Memory.{Incoming};

    ghost Value = { Incoming };

    ghost view = { λ s. record { left = drop s.at s.bytes.items; piece = s.piece; fail = s.fail.items; calls = s.calls; faults = s.faults } };

    ghost invariant = { λ s. (s.at ≤ length s.bytes.items) × (1 ≤ s.piece) };
}

impl MemSource {
    /// A source of these bytes, at most `piece` a read, at which the reads with the numbers in `fail` fail.
    pub fn new(bytes: Vec<u8>, piece: usize, fail: Vec<u64>) -> MemSource
        requires { 1 ≤ piece }
        ensures { result ≡ record { left = bytes.items; piece = piece; fail = fail.items; calls = 0; faults = 0 } }
    {
        MemSource {
            bytes,
            at: 0,
            piece,
            fail,
            calls: 0,
            faults: 0,
        }
    }
}

impl ByteSource for MemSource {
    ghost left = { λ s. Some s.left };

    ghost faults = { λ s. s.faults };

    fn read(&mut self, buf: &mut [u8]) -> Result<usize, Failed>
        requires { 0 < length buf.old }
        ensures bound { ReadsAtMost result buf.new }
        ensures bytes { ReadConsumes (Some self.old.left) (Some self.new.left) result buf.new }
        ensures untold { Some self.old.left ≡ None → Some self.new.left ≡ None }
        ensures cause { HasCause self.old.faults self.new.faults result }
        ensures failed { IsErr result ↔ Contains self.old.fail self.old.calls }
        ensures count { IfOk result (λ n. n ≡ min (min (length buf.old) self.old.piece) (length self.old.left)) }
        ensures ok { IfOk result (λ n. self.new ≡ after_read self.old n) }
        ensures err { OnErr result (self.new ≡ after_failed_read self.old) }
    {
        let read = self.calls;
        self.calls = read.saturating_add(1);
        if self.fail.contains(&read) {
            self.faults = self.faults.saturating_add(1);
            return Err(Failed);
        }
        let count = buf.len().min(self.piece).min(self.bytes.len() - self.at);
        put_front(buf, &self.bytes[self.at..self.at + count]);
        self.at += count;
        Ok(count)
    }

    fn fault_count(&self) -> u64 {
        self.faults
    }
}

/// A sink in memory, which tells its bytes. A write fails where its number, counted from 0, was listed, and takes nothing
/// then; it also fails where its bytes don't fit into the room, and takes those that do.
#[derive(Drop)]
pub struct MemSink {
    room: Vec<u8>,
    at: usize,
    fail: Vec<u64>,
    calls: u64,
    faults: u64,
}

impl Model for MemSink {
    ghost use Rattle.std.specs.Prelude.{◌≤◌, ◌-◌, length, take};
    ghost use Rattle.rbg_bytes.specs.Memory.{Outgoing};

    ghost Value = { Outgoing };

    ghost view = { λ s. record { out = take s.at s.room.items; room = length s.room.items - s.at; fail = s.fail.items; calls = s.calls; faults = s.faults } };

    ghost invariant = { λ s. s.at ≤ length s.room.items };
}

impl MemSink {
    /// A sink over this room, at which the writes with the numbers in `fail` fail.
    pub fn new(room: Vec<u8>, fail: Vec<u64>) -> MemSink
        ensures { result ≡ record { out = []; room = length room.items; fail = fail.items; calls = 0; faults = 0 } }
    {
        MemSink {
            room,
            at: 0,
            fail,
            calls: 0,
            faults: 0,
        }
    }

    /// The bytes taken.
    pub fn written(&self) -> &[u8]
        ensures { result.now ≡ self.now.out }
    {
        &self.room[..self.at]
    }
}

impl ByteSink for MemSink {
    ghost out = { λ s. Some s.out };

    ghost faults = { λ s. s.faults };

    fn write_all(&mut self, bytes: &[u8]) -> Result<(), Failed>
        ensures bytes { TakesAll (Some self.old.out) (Some self.new.out) result bytes.now }
        ensures cause { HasCause self.old.faults self.new.faults result }
        ensures failed { IsErr result ↔ (Contains self.old.fail self.old.calls ⊎ (self.old.room < length bytes.now)) }
        ensures ok { OnOk result (self.new ≡ after_write self.old bytes.now) }
        ensures listed { Contains self.old.fail self.old.calls → self.new ≡ after_failed_write self.old [] }
        ensures full { (¬ Contains self.old.fail self.old.calls) → self.old.room < length bytes.now →
            self.new ≡ after_failed_write self.old (take self.old.room bytes.now) }
    {
        let write = self.calls;
        self.calls = write.saturating_add(1);
        if self.fail.contains(&write) {
            self.faults = self.faults.saturating_add(1);
            return Err(Failed);
        }
        let taken = put(&mut self.room, self.at, bytes);
        self.at += taken;
        if taken < bytes.len() {
            self.faults = self.faults.saturating_add(1);
            return Err(Failed);
        }
        Ok(())
    }

    fn fault_count(&self) -> u64 {
        self.faults
    }
}
