// The mechanism at work.
ghost use Rattle.std.specs.Prelude.{◌≡◌, ◌≤◌, ◌+◌, ◌^◌, length};
ghost use Rattle.rbg_bench.specs.Outputs.{generated, after_generate, after_reseed};
ghost use Rattle.rbg_bench.specs.Workers.{instantiated, state_of, counter_of, IsWellFormed};

use crate::job::Mechanism;
use ctr_drbg::{CtrDrbg, Mode};
use hmac_drbg::HmacDrbg;

const ENTROPY: [u8; 32] = [
    0x00, 0x01, 0x02, 0x03, 0x04, 0x05, 0x06, 0x07, 0x08, 0x09, 0x0a, 0x0b, 0x0c, 0x0d, 0x0e, 0x0f,
    0x10, 0x11, 0x12, 0x13, 0x14, 0x15, 0x16, 0x17, 0x18, 0x19, 0x1a, 0x1b, 0x1c, 0x1d, 0x1e, 0x1f,
];

const NONCE: [u8; 16] = [
    0x20, 0x21, 0x22, 0x23, 0x24, 0x25, 0x26, 0x27, 0x28, 0x29, 0x2a, 0x2b, 0x2c, 0x2d, 0x2e, 0x2f,
];

// More generates than are asked for.
const INTERVAL: u64 = 1 << 32;

// The DRBG of the mechanism.
#[derive(Drop)]
pub enum Worker {
    Hmac(HmacDrbg),
    Ctr(CtrDrbg),
}

impl Worker {
    // The state that the work begins with.
    pub fn instantiate(mechanism: Mechanism) -> Worker
        ensures state { state_of result ≡ instantiated mechanism }
        ensures counter { counter_of result ≡ 1 }
        ensures formed { IsWellFormed result }
    {
        match mechanism {
            Mechanism::OverHash(hash) => {
                Worker::Hmac(HmacDrbg::instantiate(hash, &ENTROPY, &NONCE, &[]))
            }
            Mechanism::OverAes(keylen) => {
                match CtrDrbg::instantiate(Mode::UseDf, keylen, &ENTROPY, &NONCE, &[]) {
                    Ok(drbg) => Worker::Ctr(drbg),
                    Err(_) => unreachable!(),
                }
            }
        }
    }

    // Fills the buffer with the next bytes.
    pub fn generate(&mut self, out: &mut [u8])
        requires formed { IsWellFormed self.old }
        requires counter { counter_of self.old ≤ 2 ^ 32 }
        requires bound { length out.old ≤ 65536 }
        ensures bytes { out.new ≡ generated (length out.old) (state_of self.old) }
        ensures state { state_of self.new ≡ after_generate (length out.old) (state_of self.old) }
        ensures counter { counter_of self.new ≡ counter_of self.old + 1 }
        ensures formed { IsWellFormed self.new }
    {
        match self {
            Worker::Hmac(drbg) => match drbg.generate(&[], INTERVAL, out) {
                Ok(()) => {}
                Err(_) => unreachable!(),
            },
            Worker::Ctr(drbg) => match drbg.generate(&[], INTERVAL, out) {
                Ok(()) => {}
                Err(_) => unreachable!(),
            },
        }
    }

    // Reseeds with the entropy of the instantiation.
    pub fn reseed(&mut self)
        requires formed { IsWellFormed self.old }
        ensures state { state_of self.new ≡ after_reseed (state_of self.old) }
        ensures counter { counter_of self.new ≡ 1 }
        ensures formed { IsWellFormed self.new }
    {
        match self {
            Worker::Hmac(drbg) => drbg.reseed(&ENTROPY, &[]),
            Worker::Ctr(drbg) => match drbg.reseed(&ENTROPY, &[]) {
                Ok(()) => {}
                Err(_) => unreachable!(),
            },
        }
    }
}
