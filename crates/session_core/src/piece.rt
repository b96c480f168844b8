// The bytes of one read.
ghost use Rattle.std.specs.Prelude.{◌≡◌, ◌≤◌, ◌-◌, ◌<◌, None, length, take, drop, IfOk};
ghost use Rattle.std.specs.Io.{ReadsAtMost};
ghost use Rattle.std.specs.Io.KnownBytes.{ReadConsumes};
ghost use Rattle.rbg_bytes.specs.Streams.{HasCause};

use rbg_bytes::{ByteSource, Failed, OutOfMemory};
use std::alloc::Global;
use std::marker::Model;

// How many bytes one read asks for.
const PIECE_LEN: usize = 65_536;

/// A buffer for the bytes of one read, which asks for 65,536. Contracts see it as its bytes.
#[derive(Drop)]
pub struct Piece {
    bytes: Vec<u8>,
}

impl Model for Piece {
    ghost use Rattle.std.specs.Prelude.{◌≡◌, List, ℕ, length};

    ghost Value = { List ℕ };

    ghost view = { λ p. p.bytes.items };

    ghost invariant = { λ p. length p.bytes.items ≡ 65536 };
}

impl Piece {
    /// A buffer.
    pub fn new(alloc: Global) -> Result<Piece, OutOfMemory> {
        match vec![in alloc; 0u8; PIECE_LEN] {
            Ok(bytes) => Ok(Piece { bytes }),
            Err(_) => Err(OutOfMemory),
        }
    }

    /// Reads once from a source, and says how many bytes there are now at the front of the buffer.
    pub fn read<I: ByteSource>(&mut self, input: &mut I) -> Result<usize, Failed>
        ensures bound { IfOk result (λ count. count ≤ length self.new) }
        ensures long { length self.new ≡ 65536 }
        ensures bytes { ReadConsumes (I.left input.old) (I.left input.new) result self.new }
        ensures untold { I.left input.old ≡ None → I.left input.new ≡ None }
        ensures cause { HasCause (I.faults input.old) (I.faults input.new) result }
    {
        input.read(&mut self.bytes)
    }

    /// The bytes at the front.
    pub fn front(&self, count: usize) -> &[u8]
        requires { count ≤ length self.now }
        ensures { result.now ≡ take count self.now }
    {
        &self.bytes[..count]
    }
}
