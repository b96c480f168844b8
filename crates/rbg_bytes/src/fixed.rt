// A byte string of at most `N` bytes, kept in itself.
ghost use Rattle.std.specs.Prelude.{◌≡◌, ◌≤◌, List, ℕ, length, take};

use std::marker::Model;

/// A byte string of at most `N` bytes, which takes no memory of its own. Contracts see it as the list of its bytes.
#[derive(Drop)]
pub struct Fixed<const N: usize> {
    bytes: [u8; N],
    len: usize,
}

impl<const N: usize> Model for Fixed<N> {
    ghost Value = { List ℕ };

    ghost view = { λ f. take f.len f.bytes };

    ghost invariant = { λ f. f.len ≤ N };
}

impl<const N: usize> Fixed<N> {
    /// The byte string with these bytes, at most `N`.
    pub fn of(bytes: &[u8]) -> Fixed<N>
        requires { length bytes.now ≤ N }
        ensures { result ≡ bytes.now }
    {
        let mut kept = [0u8; N];
        kept[..bytes.len()].copy_from_slice(bytes);
        Fixed {
            bytes: kept,
            len: bytes.len(),
        }
    }

    /// The bytes, at most `N`.
    pub fn as_slice(&self) -> &[u8]
        ensures bytes { result.now ≡ self.now }
        ensures bound { length self.now ≤ N }
    {
        &self.bytes[..self.len]
    }
}
