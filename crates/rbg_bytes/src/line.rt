// A printed line that is being put together.
ghost use Rattle.std.specs.Prelude.{◌≡◌, ◌≤◌, ◌+◌, ◌++◌, [], List, ℕ, length, take, decimal};

use crate::put_at;
use itoa::Buffer;
use std::marker::Model;

/// A line of at most 512 bytes, kept in itself. Contracts see it as the list of its bytes. It takes no memory, so that
/// printing can't fail for want of it.
#[derive(Drop)]
pub struct Line {
    bytes: [u8; 512],
    len: usize,
}

impl Model for Line {
    ghost Value = { List ℕ };

    ghost view = { λ l. take l.len l.bytes };

    ghost invariant = { λ l. l.len ≤ 512 };
}

impl Line {
    /// No bytes yet.
    pub fn new() -> Line
        ensures { result ≡ [] }
    {
        Line {
            bytes: [0; 512],
            len: 0,
        }
    }

    /// Adds a text. The line then has at most 512 bytes.
    #[tactic(auto, using(crate::proofs::Decimals::lengths))]
    pub fn text(&mut self, part: &str)
        requires { length self.old + length part.now ≤ 512 }
        ensures value { self.new ≡ self.old ++ part.now }
        ensures len { length self.new ≡ length self.old + length part.now }
    {
        let bytes = part.as_bytes();
        put_at(&mut self.bytes, self.len, bytes);
        self.len += bytes.len();
    }

    /// Adds a number in decimal, at most 20 digits.
    #[tactic(auto, using(crate::proofs::Decimals::lengths))]
    pub fn number(&mut self, n: u64)
        requires { length self.old + 20 ≤ 512 }
        ensures value { self.new ≡ self.old ++ decimal n }
        ensures len { length self.new ≤ length self.old + 20 }
    {
        let mut digits = Buffer::new();
        self.text(digits.format(n));
    }

    /// The bytes.
    pub fn as_bytes(&self) -> &[u8]
        ensures { result.now ≡ self.now }
    {
        &self.bytes[..self.len]
    }
}
