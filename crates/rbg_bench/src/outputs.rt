// The generates of a mechanism.
ghost use Rattle.std.specs.Prelude.{◌≡◌, ◌≤◌, length};
ghost use Rattle.sha2.specs.Sha256.{sha256};
ghost use Rattle.rbg_bench.specs.Outputs.{outputs, reseeded_outputs};
ghost use Rattle.rbg_bench.specs.Workers.{instantiated, state_of, counter_of, IsWellFormed};

use crate::job::Mechanism;
use crate::worker::Worker;
use sha2::{Digest, Sha256};

// The SHA-256 of all that so many generates of the mechanism put into the buffer.
pub fn digest_of_mechanism(mechanism: Mechanism, times: u32, out: &mut [u8]) -> [u8; 32]
    requires bound { length out.old ≤ 65536 }
    ensures { result ≡ sha256 (outputs (length out.old) times (instantiated mechanism)) }
{
    digest_of_outputs(Worker::instantiate(mechanism), times, out)
}

// The SHA-256 of all that so many generates put into the buffer.
fn digest_of_outputs(mut worker: Worker, times: u32, out: &mut [u8]) -> [u8; 32]
    requires bound { length out.old ≤ 65536 }
    requires counter { counter_of worker ≡ 1 }
    requires formed { IsWellFormed worker }
    ensures { result ≡ sha256 (outputs (length out.old) times (state_of worker)) }
{
    let mut digest = Sha256::new();
    for i in 0..times {
        worker.generate(out);
        digest.update(&*out);
    }
    digest.finalize()
}

// The SHA-256 of all that so many generates of the mechanism, each after a reseed, put into the buffer.
pub fn digest_of_reseeds(mechanism: Mechanism, times: u32, out: &mut [u8]) -> [u8; 32]
    requires bound { length out.old ≤ 65536 }
    ensures { result ≡ sha256 (reseeded_outputs (length out.old) times (instantiated mechanism)) }
{
    digest_of_reseeded(Worker::instantiate(mechanism), times, out)
}

// The SHA-256 of all that so many generates, each after a reseed, put into the buffer.
fn digest_of_reseeded(mut worker: Worker, times: u32, out: &mut [u8]) -> [u8; 32]
    requires bound { length out.old ≤ 65536 }
    requires formed { IsWellFormed worker }
    ensures { result ≡ sha256 (reseeded_outputs (length out.old) times (state_of worker)) }
{
    let mut digest = Sha256::new();
    for turn in 0..times {
        worker.reseed();
        worker.generate(out);
        digest.update(&*out);
    }
    digest.finalize()
}
