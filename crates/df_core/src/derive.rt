// Block_Cipher_df of an input that comes in pieces.
ghost use Rattle.std.specs.Prelude.{◌≡◌, ◌<◌, ◌≤◌, ◌+◌, ◌-◌, ◌∷◌, ◌++◌, length, take, drop, replicate};
ghost use Rattle.df_core.specs.KeyLen.{key_bytes};
ghost use Rattle.df_core.specs.Df.{blocks_for, first_key, turns};

use crate::KeyLen;
use crate::chaining::{absorbed, first_chains, joined};
use aes_core::Aes;
use rbg_bytes::{Fixed, put_at};

// The bytes 00, 01, 02 and so on (10.3.2, step 8).
const COUNTING: [u8; 32] = [
    0, 1, 2, 3, 4, 5, 6, 7, 8, 9, 10, 11, 12, 13, 14, 15, 16, 17, 18, 19, 20, 21, 22, 23, 24, 25,
    26, 27, 28, 29, 30, 31,
];

// The cipher of the passes.
fn first_cipher(keylen: KeyLen) -> Aes
    ensures { result ≡ first_key (key_bytes keylen) }
{
    match Aes::new(&COUNTING[..keylen.bytes()]) {
        Ok(aes) => aes,
        Err(_) => unreachable!(),
    }
}

// The last bytes of S, with the byte 80 and zeros after them.
fn last_block(buf: &[u8; 16], fill: usize) -> [u8; 16]
    requires { fill < 16 }
    ensures bytes { result ≡ take fill buf.now ++ 0x80 ∷ replicate (15 - fill) 0 }
    ensures front { length (take fill buf.now) ≡ fill }
{
    let mut block = [0u8; 16];
    block[..fill].copy_from_slice(&buf[..fill]);
    block[fill] = 0x80;
    block
}

// The bytes that come of a key and a block X (10.3.2, steps 12 to 14).
fn output(aes: &Aes, x: [u8; 16], want: usize) -> Fixed<64>
    requires { want ≤ 64 }
    ensures { result ≡ take want (turns aes.now x (blocks_for want)) }
{
    let mut x = x;
    let mut out = [0u8; 64];
    'turns: for i in 0..(want + 15) / 16 {
        aes.encrypt(&mut x);
        put_at(&mut out, 16 * i, &x);
    }
    Fixed::of(&out[..want])
}

// The block at a place.
fn block_at(bytes: &[u8; 48], at: usize) -> [u8; 16]
    requires { at + 16 ≤ 48 }
    ensures { result ≡ take 16 (drop at bytes.now) }
{
    let mut block = [0u8; 16];
    block.copy_from_slice(&bytes[at..at + 16]);
    block
}

/// More than 64 bytes are wanted, which is the most that Block_Cipher_df gives (SP 800-90A Rev. 1, 10.3.2, 512 bits).
#[derive(Clone, Copy, Debug, PartialEq, Eq)]
pub struct TooMuch {
    pub want: usize,
}

/// Block_Cipher_df of an input that comes in pieces of any length (SP 800-90A Rev. 1, 10.3.2). It keeps at most 15 bytes of
/// the input, and takes no memory of its own.
#[derive(Drop)]
pub struct Df {
    aes: Aes,
    keylen: KeyLen,
    want: usize,
    chains: [[u8; 16]; 3],
    buf: [u8; 16],
    fill: usize,
    ghost in_range: { fill < 16 },
    ghost bound: { want ≤ 64 },
}

impl Df {
    ghost use Rattle.std.specs.Prelude.{◌≡◌, ◌<◌, ◌≤◌, ◌+◌, ◌↔◌, ℕ, List, [], ◌++◌, length, IsErr, IfErr, IfOk};
    ghost use Rattle.df_core.specs.Df.{df, df_header};
    ghost use Rattle.df_core.specs.KeyLen.{key_bytes};
    ghost use Rattle.df_core.specs.Holds.{HoldsInput, HoldsText};

    // Takes in a piece of S that ends within a block or with it.
    fn push_piece(&mut self, piece: &[u8])
        requires { self.old.fill + length piece.now ≤ 16 }
        ensures { (keylen want : ℕ) (text : List ℕ) → HoldsText self.old keylen want text
            → HoldsText self.new keylen want (text ++ piece.now) }
    {
        put_at(&mut self.buf, self.fill, piece);
        let fill = self.fill + piece.len();
        if fill < 16 {
            self.fill = fill;
        } else {
            absorbed(&self.aes, &mut self.chains, self.keylen.passes(), &self.buf);
            self.fill = 0;
        }
    }

    // Takes in the next bytes of S.
    fn push_text(&mut self, bytes: &[u8])
        ensures { (keylen want : ℕ) (text : List ℕ) → HoldsText self.old keylen want text
            → HoldsText self.new keylen want (text ++ bytes.now) }
    {
        let mut at = 0;
        'pieces: while at < bytes.len() {
            let end = bytes.len().min(at + (16 - self.fill));
            self.push_piece(&bytes[at..end]);
            at = end;
        }
    }

    /// Takes in the next bytes of the input, any number.
    pub fn push(&mut self, bytes: &[u8])
        ensures { (keylen total want : ℕ) (input : List ℕ) → HoldsInput self.old keylen total want input
            → HoldsInput self.new keylen total want (input ++ bytes.now) }
    {
        self.push_text(bytes);
    }

    /// Begins an input of `total` bytes, of which `want` bytes are wanted; refuses where `want` is above 64.
    pub fn new(keylen: KeyLen, total: u32, want: usize) -> Result<Df, TooMuch>
        ensures refused { IsErr result ↔ (64 < want) }
        ensures wanted { IfErr result (λ e. e.want ≡ want) }
        ensures held { IfOk result (λ d. HoldsInput d (key_bytes keylen) total want []) }
    {
        if want > 64 {
            return Err(TooMuch { want });
        }
        let aes = first_cipher(keylen);
        let chains = first_chains(&aes, keylen.passes());
        let mut df = Df {
            aes,
            keylen,
            want,
            chains,
            buf: [0; 16],
            fill: 0,
        };
        df.push_header(total, want as u32);
        Ok(df)
    }

    // Takes in the bytes before the input.
    fn push_header(&mut self, total: u32, want: u32)
        ensures { (keylen wanted : ℕ) → HoldsText self.old keylen wanted [] → HoldsText self.new keylen wanted (df_header total want) }
    {
        self.push_text(&total.to_be_bytes());
        self.push_text(&want.to_be_bytes());
    }

    /// Block_Cipher_df of the input, once all `total` bytes are in; after another number of bytes nothing is said of the
    /// result.
    pub fn finish(self) -> Fixed<64>
        ensures { (keylen total want : ℕ) (input : List ℕ) → HoldsInput self keylen total want input
            → length input ≡ total → result ≡ df keylen input want }
    {
        let mut chains = self.chains;
        let passes = self.keylen.passes();
        absorbed(
            &self.aes,
            &mut chains,
            passes,
            &last_block(&self.buf, self.fill),
        );
        let temp = joined(&chains, passes);
        let end = self.keylen.bytes();
        let aes = match Aes::new(&temp[..end]) {
            Ok(aes) => aes,
            Err(_) => unreachable!(),
        };
        output(&aes, block_at(&temp, end), self.want)
    }
}
