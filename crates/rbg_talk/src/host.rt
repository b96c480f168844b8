// The real input and output. They count their faults and tell no content.
ghost use Rattle.std.specs.Prelude.{◌≡◌, None, Ok, IfOk, IfErr, IsErr};
ghost use Rattle.rbg_bytes.specs.Streams.{HasCause};

use rbg_bytes::{ByteSink, ByteSource, Failed};
use std::io::{self, Read, Write};

// What the system answered, where a failure is counted.
fn counted<T: Drop>(answer: io::Result<T>, faults: &mut u64) -> Result<T, Failed>
    ensures value { IfOk result (λ value. answer ≡ Ok value) }
    ensures failed { IfErr result (λ _. IsErr answer) }
    ensures cause { HasCause faults.old faults.new result }
{
    match answer {
        Ok(value) => Ok(value),
        Err(_) => {
            *faults = faults.saturating_add(1);
            Err(Failed)
        }
    }
}

/// A source over any reader, as standard input.
#[derive(Drop)]
pub struct Reading<R> {
    inner: R,
    faults: u64,
}

impl<R> Reading<R> {
    /// The source of which no read has failed yet.
    pub fn new(inner: R) -> Reading<R> {
        Reading { inner, faults: 0 }
    }
}

impl<R: Read + Drop> ByteSource for Reading<R> {
    ghost left = { λ _. None };

    ghost faults = { λ s. s.faults };

    fn read(&mut self, buf: &mut [u8]) -> Result<usize, Failed> {
        let answer = self.inner.read(buf);
        counted(answer, &mut self.faults)
    }

    fn fault_count(&self) -> u64 {
        self.faults
    }
}

/// A sink over any writer, as standard output and standard error. A write that takes nothing of a piece that isn't empty is a
/// fault.
#[derive(Drop)]
pub struct Writing<W> {
    inner: W,
    faults: u64,
}

impl<W> Writing<W> {
    /// The sink of which no write has failed yet.
    pub fn new(inner: W) -> Writing<W> {
        Writing { inner, faults: 0 }
    }
}

impl<W: Write + Drop> ByteSink for Writing<W> {
    ghost out = { λ _. None };

    ghost faults = { λ s. s.faults };

    fn write_all(&mut self, bytes: &[u8]) -> Result<(), Failed> {
        let answer = self.inner.write_all(bytes);
        counted(answer, &mut self.faults)
    }

    fn fault_count(&self) -> u64 {
        self.faults
    }
}
