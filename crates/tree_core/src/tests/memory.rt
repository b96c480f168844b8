// When memory is taken, and when samples are read.
ghost use Rattle.std.specs.Prelude.{None};

use super::rows::FOUR;
use super::runs::{opening, ramp};
use crate::OpenRefusal;
use rbg_bytes::Failed;
use sample_source::{Recorded, Samples};
use std::cell::Cell;
use std::rc::Rc;
use std::test::Fail;

// Recorded samples that count their reads where others see it. They tell nothing.
#[derive(Drop)]
struct Counting {
    samples: Recorded,
    reads: Rc<Cell<u64>>,
}

impl Samples for Counting {
    ghost told = { λ _. None };

    ghost faults = { λ _. 0 };

    ghost reads = { λ _ _ _ _. Unit {0} };

    fn read(&mut self, buf: &mut [u8]) -> Result<usize, Failed> {
        self.reads.set(self.reads.get().wrapping_add(1));
        self.samples.read(buf)
    }

    fn fault_count(&self) -> u64 {
        0
    }
}

// With ample memory the opening reads for one start and for two blocks for each of two nodes. Where an allocation of it fails, nothing was
// read.
#[test]
fn all_memory_is_taken_before_the_first_sample_is_read(rt: HostRuntime) -> Result<(), Fail> {
    let alloc = rt.alloc();
    let reads = Rc::new(alloc, Cell::new(0u64))?;
    let samples = Recorded::new(ramp(alloc, 65536, 1, &[])?);
    let mut sources = Vec::new(alloc);
    sources.push(Counting {
        samples,
        reads: reads.clone()?,
    })?;
    match opening(alloc, FOUR, sources, 0, 48)? {
        Ok(_) => assert_eq!(rt; reads.get(), 5),
        Err(why) => {
            assert_eq!(rt; why, OpenRefusal::OutOfMemory);
            assert_eq!(rt; reads.get(), 0);
        }
    }
    Ok(())
}
