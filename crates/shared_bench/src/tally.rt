// What calls come to.
ghost use Rattle.std.specs.Prelude.{◌≡◌, ◌≤◌, ◌<◌, ◌+◌, ◌^◌, ◌==◌, if◌then◌else◌, length};

use std::sync::atomic::{AtomicU64, Ordering};
use tree_core::Reply;

// How many were Done, and the first eight bytes of all their outputs, added up as numbers.
#[derive(Clone, Copy)]
pub struct Tally {
    pub done: u64,
    pub sum: u64,
}

impl Tally {
    pub fn none() -> Tally
        ensures { result.done ≡ 0 }
    {
        Tally { done: 0, sum: 0 }
    }

    // Adds a call.
    pub fn add(&mut self, reply: &Reply, out: &[u8])
        requires few { self.old.done < 2 ^ 63 }
        requires room { 8 ≤ length out.now }
        ensures done { self.new.done ≡ self.old.done + (if reply.now.code == 0 then 1 else 0) }
        ensures most { self.new.done ≤ self.old.done + 1 }
    {
        if reply.code == 0 {
            let mut first = [0; 8];
            first.copy_from_slice(&out[..8]);
            self.sum = self.sum.wrapping_add(u64::from_le_bytes(first));
            self.done += 1;
        }
    }
}

// What the calls of several threads come to.
#[derive(Drop)]
pub struct Total {
    done: AtomicU64,
    sum: AtomicU64,
}

impl Total {
    pub fn none() -> Total {
        Total {
            done: AtomicU64::new(0),
            sum: AtomicU64::new(0),
        }
    }

    // Adds the calls of a thread.
    pub fn add(&self, tally: Tally) {
        self.done.fetch_add(tally.done, Ordering::SeqCst);
        self.sum.fetch_add(tally.sum, Ordering::SeqCst);
    }

    pub fn tally(&self) -> Tally {
        Tally {
            done: self.done.load(Ordering::SeqCst),
            sum: self.sum.load(Ordering::SeqCst),
        }
    }
}
