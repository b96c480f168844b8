// Samples whose reads a test can hold.
ghost use Rattle.std.specs.Prelude.{◌≡◌, ◌<◌, length, None, Some};
ghost use Rattle.std.specs.Io.{ReadsAtMost};
ghost use Rattle.std.specs.Io.KnownBytes.{ReadConsumes};
ghost use Rattle.rbg_bytes.specs.Streams.{HasCause};
ghost use Rattle.sample_source.specs.Reads.{given_by, ReadsRecorded};

use rbg_bytes::Failed;
use sample_source::{Recorded, Samples};
use std::alloc::Global;
use std::sync::Arc;
use std::sync::atomic::{AtomicBool, Ordering};
use std::thread;

// How often a read that is held looks whether it may go on.
const TURNS: u32 = 20_000_000;

// A gate before reads: whether it is shut, whether a read stands before it, and whether one had to go on with the gate shut.
#[derive(Drop)]
pub(crate) struct Gate {
    shut: AtomicBool,
    reached: AtomicBool,
    late: AtomicBool,
}

impl Gate {
    pub(crate) fn new() -> Gate {
        Gate {
            shut: AtomicBool::new(false),
            reached: AtomicBool::new(false),
            late: AtomicBool::new(false),
        }
    }

    pub(crate) fn shut(&self) {
        self.shut.store(true, Ordering::SeqCst);
    }

    pub(crate) fn open(&self) {
        self.shut.store(false, Ordering::SeqCst);
    }

    pub(crate) fn was_late(&self) -> bool {
        self.late.load(Ordering::SeqCst)
    }

    // Waits until a read stands before the gate, so many looks at most.
    pub(crate) fn is_reached(&self) -> bool {
        for _ in 0..TURNS {
            if self.reached.load(Ordering::SeqCst) {
                return true;
            }
            thread::yield_now();
        }
        false
    }

    // A read stands before the gate until it is open, so many looks at most.
    fn pass(&self) {
        if !self.shut.load(Ordering::SeqCst) {
            return;
        }
        self.reached.store(true, Ordering::SeqCst);
        for _ in 0..TURNS {
            if !self.shut.load(Ordering::SeqCst) {
                return;
            }
            thread::yield_now();
        }
        self.late.store(true, Ordering::SeqCst);
    }
}

// Recorded samples behind a gate.
#[derive(Drop)]
pub(crate) struct Gated {
    pub(crate) samples: Recorded,
    pub(crate) gate: Arc<Gate, Global>,
}

impl Samples for Gated {
    ghost told = { λ g. Some g.samples };

    ghost faults = { λ _. 0 };

    ghost reads = { λ g n got h. ReadsRecorded g.samples n got h.samples };

    fn read(&mut self, buf: &mut [u8]) -> Result<usize, Failed> {
        self.gate.pass();
        self.samples.read(buf)
    }

    fn fault_count(&self) -> u64 {
        0
    }
}
