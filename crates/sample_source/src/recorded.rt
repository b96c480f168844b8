// Samples that were recorded.
ghost use Rattle.std.specs.Prelude.{◌≡◌, ◌≤◌, ◌<◌, length, drop, min, Some, None, Ok};
ghost use Rattle.std.specs.Io.{ReadsAtMost};
ghost use Rattle.std.specs.Io.KnownBytes.{ReadConsumes};
ghost use Rattle.rbg_bytes.specs.Streams.{HasCause};
ghost use Rattle.sample_source.specs.Reads.{given_by, ReadsRecorded};

use crate::Samples;
use rbg_bytes::{Failed, put_front};
use std::marker::Model;

/// Recorded samples, which it tells. A read gives as many as are asked for and left, and never fails. Contracts see the list
/// of the samples that are left.
#[derive(Drop)]
pub struct Recorded {
    samples: Vec<u8>,
    at: usize,
}

impl Model for Recorded {
    ghost use Rattle.std.specs.Prelude.{◌≤◌, List, ℕ, length, drop};

    ghost Value = { List ℕ };

    ghost view = { λ r. drop r.at r.samples.items };

    ghost invariant = { λ r. r.at ≤ length r.samples.items };
}

impl Recorded {
    /// A source of these samples.
    pub fn new(samples: Vec<u8>) -> Recorded
        ensures { result ≡ samples.items }
    {
        Recorded { samples, at: 0 }
    }
}

impl Samples for Recorded {
    ghost told = { λ r. Some r };

    ghost faults = { λ _. 0 };

    ghost reads = { ReadsRecorded };

    fn read(&mut self, buf: &mut [u8]) -> Result<usize, Failed>
        requires { 0 < length buf.old }
        ensures bound { ReadsAtMost result buf.new }
        ensures samples { ReadConsumes (Some self.old) (Some self.new) result buf.new }
        ensures untold { Some self.old ≡ None → Some self.new ≡ None }
        ensures cause { HasCause 0 0 result }
        ensures made { ReadsRecorded self.old (length buf.old) (given_by result buf.new) self.new }
        ensures count { result ≡ Ok (min (length buf.old) (length self.old)) }
        ensures left { self.new ≡ drop (min (length buf.old) (length self.old)) self.old }
    {
        let count = buf.len().min(self.samples.len() - self.at);
        put_front(buf, &self.samples[self.at..self.at + count]);
        self.at += count;
        Ok(count)
    }

    fn fault_count(&self) -> u64 {
        0
    }
}
