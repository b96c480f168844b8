// Samples without an end.
ghost use Rattle.std.specs.Prelude.{None, ⊤};

use rbg_bytes::Failed;
use sample_source::Samples;

// Samples that count up from 0, modulo 256, without an end, and never fail. It doesn't tell them.
#[derive(Drop)]
pub struct Ramp {
    next: u8,
}

impl Ramp {
    // The samples from 0 on.
    pub fn new() -> Ramp {
        Ramp { next: 0 }
    }
}

impl Samples for Ramp {
    ghost told = { λ _. None };

    ghost faults = { λ _. 0 };

    ghost reads = { λ _ _ _ _. ⊤ };

    fn read(&mut self, buf: &mut [u8]) -> Result<usize, Failed> {
        let count = buf.len();
        for at in 0..count {
            buf[at] = self.next;
            self.next = self.next.wrapping_add(1);
        }
        Ok(count)
    }

    fn fault_count(&self) -> u64 {
        0
    }
}
