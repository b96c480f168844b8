// The block of samples that come in pieces.
ghost use Rattle.std.specs.Prelude.{◌≡◌, ◌≤◌, length};

use df_core::{Df, KeyLen};
use hmac_core::{Hash, Mac};
use rbg_bytes::{Cond, Fixed};

// The key of HMAC: it is public, and is to be no key of anything else.
const KEY: [u8; 32] = [
    0x00, 0x01, 0x02, 0x03, 0x04, 0x05, 0x06, 0x07, 0x08, 0x09, 0x0a, 0x0b, 0x0c, 0x0d, 0x0e, 0x0f,
    0x10, 0x11, 0x12, 0x13, 0x14, 0x15, 0x16, 0x17, 0x18, 0x19, 0x1a, 0x1b, 0x1c, 0x1d, 0x1e, 0x1f,
];

// A conditioning component that is taking in samples.
#[derive(Drop)]
enum Component {
    OfMac(Mac),
    OfDf(Df),
}

/// The conditioned block of samples that come in pieces of any length, by one of the vetted components of SP 800-90B 3.1.5.1.1:
/// HMAC over SHA-256, or Block_Cipher_df with AES-256. It takes no memory of its own.
#[derive(Drop)]
pub struct Block {
    component: Component,
}

// The bytes, of which a block has at most 32.
fn shortened(bytes: &Fixed<64>) -> Fixed<32>
    ensures { length bytes.now ≤ 32 → result ≡ bytes.now }
{
    let bytes = bytes.as_slice();
    Fixed::of(&bytes[..bytes.len().min(32)])
}

impl Block {
    ghost use Rattle.std.specs.Prelude.{◌≡◌, ℕ, List, [], ◌++◌, length};
    ghost use Rattle.rbg_bytes.specs.declared.cond.Cond.{Cond};
    ghost use Rattle.conditioner.specs.Conditioned.{conditioned};
    ghost use Rattle.conditioner.specs.Holds.{HoldsSamples};

    /// Begins a block of `total` samples.
    pub fn start(cond: Cond, total: u32) -> Block
        ensures { HoldsSamples result cond total [] }
    {
        let component = match cond {
            Cond::HmacSha256 => Component::OfMac(Mac::new(Hash::Sha256, &KEY)),
            Cond::DfAes256 => match Df::new(KeyLen::K32, total, 16) {
                Ok(df) => Component::OfDf(df),
                Err(_) => unreachable!(),
            },
        };
        Block { component }
    }

    /// Takes in the next samples, any number.
    pub fn push(&mut self, samples: &[u8])
        ensures { (cond : Cond) (total : ℕ) (before : List ℕ) → HoldsSamples self.old cond total before
            → HoldsSamples self.new cond total (before ++ samples.now) }
    {
        match &mut self.component {
            Component::OfMac(mac) => mac.update(samples),
            Component::OfDf(df) => df.push(samples),
        }
    }

    /// The block of the samples, once all `total` of them are in, however they were cut; after another number of samples
    /// nothing is said of the result.
    pub fn finish(self) -> Fixed<32>
        ensures { (cond : Cond) (total : ℕ) (samples : List ℕ) → HoldsSamples self cond total samples
            → length samples ≡ total → result ≡ conditioned cond samples }
    {
        match self.component {
            Component::OfMac(mac) => shortened(&mac.finish()),
            Component::OfDf(df) => shortened(&df.finish()),
        }
    }
}
