// Recorded samples that come in pieces and fail where they are told to.
ghost use Rattle.std.specs.Prelude.{◌≡◌, ◌≤◌, ◌<◌, ◌↔◌, length, min, Some, None, Contains, IsErr, IfOk, OnErr};
ghost use Rattle.std.specs.Io.{ReadsAtMost};
ghost use Rattle.std.specs.Io.KnownBytes.{ReadConsumes};
ghost use Rattle.rbg_bytes.specs.Streams.{HasCause};
ghost use Rattle.rbg_bytes.specs.Memory.{after_read, after_failed_read};
ghost use Rattle.sample_source.specs.Reads.{given_by, ReadsPiece};

use crate::Samples;
use rbg_bytes::{ByteSource, Failed, MemSource};
use std::marker::Model;

/// Recorded samples, which it tells. A read gives as many as are asked for and left, at most `piece`, and fails where its
/// number, counted from 0, was listed. Contracts see the samples that are left, the reads so far and the faults so far.
#[derive(Drop)]
pub struct Faulty {
    source: MemSource,
}

impl Model for Faulty {
    ghost use Rattle.rbg_bytes.specs.Memory.{Incoming};

    ghost Value = { Incoming };

    ghost view = { λ f. f.source };
}

impl Faulty {
    /// A source of these samples, at most `piece` a read, at which the reads with the numbers in `fail` fail.
    pub fn new(samples: Vec<u8>, piece: usize, fail: Vec<u64>) -> Faulty
        requires { 1 ≤ piece }
        ensures { result ≡ record { left = samples.items; piece = piece; fail = fail.items; calls = 0; faults = 0 } }
    {
        Faulty {
            source: MemSource::new(samples, piece, fail),
        }
    }
}

impl Samples for Faulty {
    ghost told = { λ f. Some f.left };

    ghost faults = { λ f. f.faults };

    ghost reads = { ReadsPiece };

    fn read(&mut self, buf: &mut [u8]) -> Result<usize, Failed>
        requires { 0 < length buf.old }
        ensures bound { ReadsAtMost result buf.new }
        ensures samples { ReadConsumes (Some self.old.left) (Some self.new.left) result buf.new }
        ensures untold { Some self.old.left ≡ None → Some self.new.left ≡ None }
        ensures cause { HasCause self.old.faults self.new.faults result }
        ensures made { ReadsPiece self.old (length buf.old) (given_by result buf.new) self.new }
        ensures failed { IsErr result ↔ Contains self.old.fail self.old.calls }
        ensures count { IfOk result (λ n. n ≡ min (min (length buf.old) self.old.piece) (length self.old.left)) }
        ensures ok { IfOk result (λ n. self.new ≡ after_read self.old n) }
        ensures err { OnErr result (self.new ≡ after_failed_read self.old) }
    {
        self.source.read(buf)
    }

    fn fault_count(&self) -> u64 {
        self.source.fault_count()
    }
}
